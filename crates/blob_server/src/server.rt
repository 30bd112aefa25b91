// The server.
ghost use Rattle.std.specs.Prelude.{◌≡◌, ◌≤◌, ◌<◌, ◌+◌, ◌-◌, ◌*◌, ◌^◌, ◌↔◌, ℕ, true, IfErr};
ghost use Rattle.turn_lock.specs.History.{Begins};
ghost use Rattle.version_manager.specs.Log.{events};
ghost use Rattle.client_session.specs.Sessions.{IsOwnerOf, session_of};
ghost use Rattle.blob_server.specs.Peers.{Converses};
ghost use Rattle.blob_server.specs.Serving.{EndsAs, ServesAll, WasServed, MakesPasses, LendsDoors};
ghost use Rattle.blob_server.specs.declared.server.ServeFault.TheVariants as Faults;

use crate::pool::work_all;
use crate::queue::PeerQueue;
use crate::sessions::{end_sessions, sessions_of};
use client_session::{Owner, Shared};
use page_fan::BesideDoor;
use page_store::DoorMaker;
use ports::gate::Gate;
use ports::listener::Listener;
use std::alloc::Global;
use std::sync::Wait;
use std::thread::Threads;
use store_sessions::end_session;

/// Why serving ended before all connections were served.
#[derive(Clone, Copy, Debug, PartialEq, Eq)]
pub enum ServeFault {
    /// The listener failed. The peers that it had handed out before were served.
    Listener,
    /// No memory was found for the sessions and for the queue. No peer was taken.
    NoMemory,
}

/// Serves connections with frames, by so many workers, until as many peers were handed out as `connections` or the listener
/// gives no more. It answers the number of the peers that the listener handed out. Where the listener fails no more peers are
/// taken, and it answers so once those that were taken are served.
///
/// Each worker has one session of the store, with a pass of its own and with doors of the maker `doors`, which gives back what
/// was put. No peer is taken before all sessions are made. The calling thread is the first worker: it takes the peers and
/// leaves them to the others, which run in threads of their own and take them from a queue of 64 places. Where the queue is full
/// while all others serve, or there is no other worker, it serves a peer itself, and when it has taken the last one it serves
/// what still waits, so that all are served where no thread can be made. A worker with nothing to do sleeps. Each peer is served
/// once, as `serve_peer` tells: its session is hung up before the next one, and what goes wrong with a peer ends its connection
/// alone. When it answers every peer that was handed out was served, and every pass and every door have gone back. The gate is
/// called between the acts of updates.
pub fn serve<R: Threads + Wait + Sync, Li: Listener, M: DoorMaker, G: Gate + Sync>(
    rt: &R,
    alloc: Global,
    shared: &Shared,
    owner: &mut Owner,
    net: &mut Li,
    doors: &mut M,
    gate: &G,
    workers: u32,
    connections: u32,
) -> Result<u64, ServeFault>
where
    Li::Peer: Drop + Send,
    M::Door: BesideDoor + Drop + Send,
    requires listens { Li.listens net.old ≡ true }
    requires some_workers { 1 ≤ workers }
    requires few_workers { workers ≤ 16 }
    requires some_connections { 1 ≤ connections }
    requires owner { IsOwnerOf shared.now owner.old }
    requires passes_left { owner.old.made ≤ 1008 }
    requires true_doors { M.is_true doors.old }

    // How it ended, by what the listener did in this call.
    ensures ended { EndsAs connections
        (record { handed = Li.handed net.old; is_done = Li.is_done net.old; faults = Li.faults net.old })
        (record { handed = Li.handed net.new; is_done = Li.is_done net.new; faults = Li.faults net.new })
        result }

    // Each peer that the listener handed out was served by a session of this store, as `serve_peer` tells, and what that session had seen when it let the
    // peer go is a beginning of one history: that which the owner has seen in the end.
    ensures served { ServesAll (WasServed (λ s. s.store) (λ s. (session_of s).seen)
        (Converses M.Door.faults Li.Peer.given Li.Peer.left Li.Peer.written Li.Peer.ends Li.Peer.read_faults Li.Peer.write_faults) shared.now (events owner.new.seen))
        connections
        (record { handed = Li.handed net.old; is_done = Li.is_done net.old; faults = Li.faults net.old })
        (record { handed = Li.handed net.new; is_done = Li.is_done net.new; faults = Li.faults net.new })
        result }

    // What became of the listener otherwise.
    ensures listens { Li.listens net.new ≡ true }
    ensures here { Li.listens_at net.new ≡ Li.listens_at net.old }
    ensures untouched { IfErr result (λ fault. fault ≡ Faults.NoMemory → net.new ≡ net.old) }

    // Each pass that it made came back.
    ensures passes { owner.new.out ≡ owner.old.out }
    ensures made { MakesPasses workers owner.old.made owner.new.made result }
    ensures seen { Begins owner.old.seen owner.new.seen }
    ensures owner { IsOwnerOf shared.now owner.new }

    // Each worker had a door to each provider, and all doors came back. What they counted went to the maker, which makes the doors that
    // it made before.
    ensures lent { LendsDoors M.hands_out M.takes_back (workers * shared.now.providers) doors.old doors.new result }
    ensures doors { M.faults doors.new < 2 ^ 64 - 1 → M.faults doors.old ≤ M.faults doors.new }
    ensures truth_stays { M.is_true doors.old ↔ M.is_true doors.new }
    ensures plan_stays { (n : ℕ) (door : _) → M.makes doors.old n door ↔ M.makes doors.new n door }
{
    let Ok((queue, pass)) = PeerQueue::new(alloc, workers - 1) else {
        return Err(ServeFault::NoMemory);
    };
    let Ok(mut sessions) = sessions_of(alloc, shared, owner, doors, gate, workers) else {
        return Err(ServeFault::NoMemory);
    };
    let Some(first) = sessions.pop() else {
        // There is at least one worker.
        unreachable!()
    };
    let (taken, first, others) = work_all(
        rt,
        shared,
        &queue,
        pass,
        first,
        sessions,
        net,
        connections,
    );
    end_session(shared, owner, doors, first);
    end_sessions(shared, owner, doors, others);
    if taken.failed {
        return Err(ServeFault::Listener);
    }
    Ok(u64::from(taken.peers))
}
