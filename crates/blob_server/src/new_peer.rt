// Peers as a listener hands them on.
ghost use Rattle.std.specs.Prelude.{◌≡◌};
ghost use Rattle.ports.specs.Listener.{IsFresh};

use ports::stream::{Sink, Source};
use std::marker::Model;

/// A peer of which nothing was read yet and to which nothing was written, as far as it tells.
#[derive(Drop)]
pub(crate) struct NewPeer<P: Source + Sink> {
    peer: P,
}

impl<P: Source + Sink> Model for NewPeer<P> {
    ghost use Rattle.ports.specs.Listener.{IsFresh};

    ghost Value = { P };

    ghost view = { λ n. n.peer };

    ghost invariant = { λ n. IsFresh (P.given n.peer) (P.written n.peer) };
}

impl<P: Source + Sink> NewPeer<P> {
    /// This peer, which is new.
    pub(crate) fn new(peer: P) -> NewPeer<P>
        requires { IsFresh (P.given peer) (P.written peer) }
        ensures { result ≡ peer }
    {
        NewPeer { peer }
    }

    /// The peer, of which nothing was read still and to which nothing was written.
    pub(crate) fn into_peer(self) -> P
        ensures peer { result ≡ self }
        ensures fresh { IsFresh (P.given result) (P.written result) }
    {
        let NewPeer { peer } = self;
        peer
    }
}
