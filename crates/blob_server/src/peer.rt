// One connection.
ghost use Rattle.std.specs.Prelude.{◌≡◌, [], sum_by};
ghost use Rattle.frame_wire.specs.Frames.{heard};
ghost use Rattle.frame_wire.specs.Said.{said};
ghost use Rattle.faults.specs.Counts.{RoseBy};
ghost use Rattle.server_core.specs.Served.{Served, end_read_faults, end_write_faults, end_ends};
ghost use Rattle.client_session.specs.Sessions.{session_of};
ghost use Rattle.blob_server.specs.Peers.{connection_limit, ServedFrames, IsIdle, Converses};
ghost use Rattle.blob_server.specs.Serving.{IsBeginningOf};

use crate::new_peer::NewPeer;
use client_session::Session;
use frame_wire::FrameDialect;
use page_fan::BesideDoor;
use ports::gate::Gate;
use ports::stream::{Sink, Source};
use request_form::laws::{hang_ups_hold, runs_make_own_events};
use server_core::{End, serve_stream};
use std::alloc::Global;
use std::sync::Wait;
use std::thread::Threads;

// The most bytes that are taken of a connection.
const CONNECTION_LIMIT: u64 = 4_294_967_296;

// Answers the frames of a connection.
fn serve_frames<R: Threads + Wait + Sync, P: Source + Sink, D: BesideDoor, G: Gate>(
    rt: &R,
    alloc: Global,
    session: &mut Session<'_, D, G>,
    peer: &mut P,
) -> End
    ensures served { Served said
        (record { session = session_of session.old; faults = sum_by D.faults session.old.doors; written = P.written peer.old })
        heard
        (record { given = P.given peer.old; left = P.left peer.old; ends = P.ends peer.old })
        (record { given = P.given peer.new; left = P.left peer.new; ends = P.ends peer.new })
        connection_limit
        (record { session = session_of session.new; faults = sum_by D.faults session.new.doors; written = P.written peer.new })
        result }
    ensures read_faults { RoseBy (end_read_faults result) (P.read_faults peer.old) (P.read_faults peer.new) }
    ensures write_faults { RoseBy (end_write_faults result) (P.write_faults peer.old) (P.write_faults peer.new) }
    ensures ends { RoseBy (end_ends result) (P.ends peer.old) (P.ends peer.new) }
    ensures store { session.new.store ≡ session.old.store }
{
    let Ok(mut dialect) = FrameDialect::new(alloc) else {
        return End::NoMemory;
    };
    serve_stream(rt, alloc, session, &mut dialect, peer, CONNECTION_LIMIT)
}

/// Serves one connection with frames by a session that holds no ticket, and then hangs the session up: tickets that the peer
/// left are given up, and the next peer's are numbered from 1 again. A connection whose dialect finds no memory is ended at
/// once. At most 4,294,967,296 bytes are taken of it. It tells how the connection ended, as the connection's counts do. What the
/// session had seen of its store it has seen still.
pub fn serve_peer<R: Threads + Wait + Sync, P: Source + Sink, D: BesideDoor, G: Gate>(
    rt: &R,
    alloc: Global,
    session: &mut Session<'_, D, G>,
    peer: &mut P,
) -> End
    requires { IsIdle session.old.store session.old }
    ensures served { ServedFrames
        (record { session = session_of session.old; faults = sum_by D.faults session.old.doors; written = P.written peer.old })
        (record { given = P.given peer.old; left = P.left peer.old; ends = P.ends peer.old })
        (record { given = P.given peer.new; left = P.left peer.new; ends = P.ends peer.new })
        (record { session = session_of session.new; faults = sum_by D.faults session.new.doors; written = P.written peer.new })
        result }
    ensures read_faults { RoseBy (end_read_faults result) (P.read_faults peer.old) (P.read_faults peer.new) }
    ensures write_faults { RoseBy (end_write_faults result) (P.write_faults peer.old) (P.write_faults peer.new) }
    ensures ends { RoseBy (end_ends result) (P.ends peer.old) (P.ends peer.new) }
    ensures idle { IsIdle session.old.store session.new }
    ensures saw { IsBeginningOf (session_of session.old).seen (session_of session.new).seen }
{
    // What was seen before is kept.
    runs_make_own_events();
    hang_ups_hold();
    let end = serve_frames(rt, alloc, session, peer);
    session.hang_up(rt);
    end
}

/// Serves a new peer as `serve_peer` does, and lets it go.
pub(crate) fn serve_new<R: Threads + Wait + Sync, P: Source + Sink + Drop, D: BesideDoor, G: Gate>(
    rt: &R,
    alloc: Global,
    session: &mut Session<'_, D, G>,
    peer: NewPeer<P>,
)
    requires { IsIdle session.old.store session.old }
    ensures converses { Converses D.faults P.given P.left P.written P.ends P.read_faults P.write_faults session.old peer session.new }
    ensures idle { IsIdle session.old.store session.new }
    ensures saw { IsBeginningOf (session_of session.old).seen (session_of session.new).seen }
{
    let mut peer = peer.into_peer();
    serve_peer(rt, alloc, session, &mut peer);
}
