// What a worker does with a peer.
ghost use Rattle.std.specs.Prelude.{◌≡◌, List};
ghost use Rattle.blob_model.specs.declared.call.Event.{Event};
ghost use Rattle.blob_server.specs.Serving.{IsBeginningOf, WasServed};

use crate::new_peer::NewPeer;
use crate::peer::serve_new;
use client_session::Session;
use page_fan::BesideDoor;
use ports::gate::Gate;
use ports::stream::{Sink, Source};
use std::alloc::Global;
use std::sync::Wait;
use std::thread::Threads;

/// What serves a peer. The pool knows no more of it than this, so that a peer is served only where the pool had it served.
pub(crate) trait PeerServer<P> {
    ghost use Rattle.std.specs.Prelude.{◌≡◌, List};
    ghost use Rattle.blob_model.specs.declared.call.Event.{Event};
    ghost use Rattle.client_session.specs.Sessions.{StoreState};
    ghost use Rattle.blob_server.specs.Serving.{IsBeginningOf};
    ghost use denote.Param.Send.{IsSync};

    /// The store that it serves from.
    ghost home: { Self → StoreState };

    /// What it has seen of that store.
    ghost saw: { Self → List Event };

    /// Whether it can serve a peer.
    ghost is_ready: { Self → Type 0 };

    /// What came of it and of a peer that it served.
    ghost gives: { Self → P → Self → Type 0 };

    /// Serves the peer, and lets it go.
    fn attend<R: Threads + Wait + Sync>(&mut self, rt: &R, alloc: Global, peer: P)
        requires ready { is_ready self.old }
        requires sync { IsSync R.row }
        ensures gives { gives self.old peer self.new }
        ensures ready { is_ready self.new }
        ensures home { home self.new ≡ home self.old }
        ensures saw { IsBeginningOf (saw self.old) (saw self.new) };
}

impl<'s, P: Source + Sink + Drop, D: BesideDoor, G: Gate> PeerServer<NewPeer<P>>
    for Session<'s, D, G> {
    ghost use Rattle.client_session.specs.Sessions.{session_of};
    ghost use Rattle.blob_server.specs.Peers.{IsIdle, Converses};

    ghost home = { λ s. s.store };

    ghost saw = { λ s. (session_of s).seen };

    ghost is_ready = { λ s. IsIdle s.store s };

    ghost gives = { Converses D.faults P.given P.left P.written P.ends P.read_faults P.write_faults };

    fn attend<R: Threads + Wait + Sync>(&mut self, rt: &R, alloc: Global, peer: NewPeer<P>) {
        serve_new(rt, alloc, self, peer);
    }
}

/// Has the peer served.
pub(crate) fn serve_one<R: Threads + Wait + Sync, P, S: PeerServer<P>>(
    rt: &R,
    alloc: Global,
    service: &mut S,
    peer: P,
)
    requires ready { S.is_ready service.old }
    ensures ready { S.is_ready service.new }
    ensures home { S.home service.new ≡ S.home service.old }
    ensures saw { IsBeginningOf (S.saw service.old) (S.saw service.new) }
    ensures served { (history : List Event) → IsBeginningOf (S.saw service.new) history → WasServed S.home S.saw S.gives (S.home service.old) history peer }
{
    service.attend(rt, alloc, peer);
}
