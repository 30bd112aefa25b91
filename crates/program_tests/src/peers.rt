//! Peers in memory, and the program that serves them.
ghost use Rattle.std.specs.Prelude.{◌≡◌, ◌≤◌, true};

use crate::program::{Given, ROOM, Ran, run_over};
use memory_ports::{MemListener, MemSink, MemSource};
use page_store::PlainMaker;
use ports::gate::Gate;
use ports::listener::Listener;
use ports::pair::Pair;
use std::alloc::Global;
use std::process::Abort;
use std::sync::Wait;
use std::thread::Threads;

/// Both ends of a peer in memory.
#[derive(Drop)]
pub(crate) struct Peer {
    source: MemSource,
    sink: MemSink,
}

impl Peer {
    /// A peer that gives these bytes, in pieces of that length.
    pub(crate) fn giving<R: Abort>(rt: &R, alloc: Global, bytes: &[u8], piece: usize) -> Peer
        requires { 1 ≤ piece }
    {
        let bytes = bytes.to_vec(alloc).expect(rt, "memory");
        Peer {
            source: MemSource::new(bytes, piece, Vec::new(alloc)),
            sink: MemSink::new(alloc, ROOM).expect(rt, "memory"),
        }
    }

    /// What the peer got.
    pub(crate) fn got(&self) -> &[u8] {
        self.sink.bytes()
    }
}

// Adds a peer that borrows these ends, through which nothing went yet.
fn add_peer<'a, R: Abort>(
    rt: &R,
    listener: &mut MemListener<Pair<'a, MemSource, MemSink>>,
    peer: &'a mut Peer,
) {
    let Peer { source, sink } = peer;
    assert!(rt; source.given().is_empty());
    assert!(rt; sink.bytes().is_empty());
    listener.add(Pair { source, sink }).expect(rt, "memory");
}

// The accept of that number fails, from 1; 0 is none.
fn plan_of<R: Abort>(rt: &R, alloc: Global, failing: usize) -> Vec<bool> {
    let mut plan = Vec::new(alloc);
    for before in 0..failing {
        plan.push(before + 1 == failing).expect(rt, "memory");
    }
    plan
}

// A listener at the address `x:1`, to which peers come that borrow these ends.
fn listener_of<'a, R: Abort>(
    rt: &R,
    alloc: Global,
    peers: &'a mut [Peer],
    failing: usize,
) -> MemListener<Pair<'a, MemSource, MemSink>> {
    let address = String::from_str(alloc, "x:1").expect(rt, "memory");
    let mut listener = MemListener::new(alloc, address, plan_of(rt, alloc, failing));
    for peer in peers.iter_mut() {
        add_peer(rt, &mut listener, peer);
    }
    listener
}

/// The program with this line, over an empty script, plain doors, a listener, and an output that takes so many bytes.
pub(crate) fn run_net<R: Threads + Wait + Sync + Abort, L: Listener, G: Gate + Sync>(
    rt: &R,
    alloc: Global,
    line: &str,
    net: &mut L,
    room: usize,
    gate: &G,
) -> Ran
where
    L::Peer: Drop + Send,
{
    let given = Given {
        line,
        text: "",
        script: "",
        room,
    };
    run_over(rt, alloc, &given, net, &mut PlainMaker::new(), gate)
}

/// The same with a listener at the address `x:1` to which these peers come and whose accept of that number fails.
pub(crate) fn run_peers<R: Threads + Wait + Sync + Abort, G: Gate + Sync>(
    rt: &R,
    alloc: Global,
    line: &str,
    peers: &mut [Peer],
    failing: usize,
    room: usize,
    gate: &G,
) -> Ran {
    let mut net = listener_of(rt, alloc, peers, failing);
    run_net(rt, alloc, line, &mut net, room, gate)
}
