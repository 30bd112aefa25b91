//! Listeners: one in memory, whose peers are streams that the test lends, and one over a network that the test plays.
ghost use Rattle.std.specs.Prelude.{◌≡◌, true};

use crate::drained::check_bytes;
use memory_ports::{MemListener, MemSink, MemSource};
use ports::listener::{Accepted, Listener};
use ports::pair::Pair;
use ports::stream::{Sink, Source, Taken, Written};
use std::alloc::Global;
use std::process::Abort;
use std::sync::Wait;
use std::thread::{Threads, join};

// Both ends of a peer in memory.
#[derive(Drop)]
struct Line {
    source: MemSource,
    sink: MemSink,
}

// The ends of a peer that gives this byte twice.
fn giving<R: Abort>(rt: &R, alloc: Global, byte: u8) -> Line {
    let bytes = vec![in alloc; byte; 2].expect(rt, "memory");
    let source = MemSource::new(bytes, 1, Vec::new(alloc));
    let sink = MemSink::new(alloc, 4).expect(rt, "memory");
    Line { source, sink }
}

// A listener to which peers come that borrow these ends, through which nothing went yet.
fn listener_of<'a, R: Abort>(
    rt: &R,
    alloc: Global,
    lines: &'a mut [Line],
    failing: &[bool],
) -> MemListener<Pair<'a, MemSource, MemSink>> {
    let address = String::from_str(alloc, "here").expect(rt, "memory");
    let failing = failing.to_vec(alloc).expect(rt, "memory");
    let mut listener = MemListener::new(alloc, address, failing);
    for Line { source, sink } in lines.iter_mut() {
        assert!(rt; source.given().is_empty() && sink.bytes().is_empty());
        listener.add(Pair { source, sink }).expect(rt, "memory");
    }
    listener
}

// Writes back what a peer gives, and a dot at its end. Whether all of it was written.
fn echo<P: Source + Sink + Drop>(peer: P) -> bool {
    let mut peer = peer;
    let mut buf = [0u8; 4];
    for _ in 0..10 {
        match peer.read(&mut buf) {
            Taken::Got(n) => {
                if peer.write(&buf[..n]) != Written::Whole {
                    return false;
                }
            }
            Taken::End => return peer.write(b".") == Written::Whole,
            Taken::Failed => return false,
        }
    }
    false
}

// Serves all peers one after another: how many were echoed, and how often no peer came though there were more.
fn echo_all<L: Listener, R: Wait>(rt: &R, listener: &mut L) -> (u32, u32)
where
    L::Peer: Drop,
    requires { L.listens listener.old ≡ true }
    ensures { L.listens listener.new ≡ true }
{
    let mut echoed: u32 = 0;
    let mut failed: u32 = 0;
    for _ in 0..100 {
        match listener.accept(rt) {
            Accepted::Peer(peer) => {
                if echo(peer) {
                    echoed = echoed.saturating_add(1);
                }
            }
            Accepted::Failed => failed = failed.saturating_add(1),
            Accepted::Done => break,
        }
    }
    (echoed, failed)
}

// Whether a listener of three peers, whose second accept fails, hands out all of them.
fn echoes_each<L: Listener + Drop, R: Wait>(rt: &R, listener: L) -> bool
where
    L::Peer: Drop,
{
    let mut listener = listener;
    !listener.listen("there")
        && listener.listen("here")
        && echo_all(rt, &mut listener) == (3, 1)
        && echo_all(rt, &mut listener) == (0, 0)
}

// Serves two peers, each in a thread of its own. Whether both were echoed.
fn echoes_two<L: Listener + Drop, R: Threads + Wait + Sync>(rt: &R, listener: L) -> bool
where
    L::Peer: Drop + Send,
{
    let mut listener = listener;
    if !listener.listen("here") {
        return false;
    }
    let (Accepted::Peer(one), Accepted::Peer(two)) = (listener.accept(rt), listener.accept(rt))
    else {
        return false;
    };
    join(rt, || echo(one), || echo(two)) == (true, true)
}

fn three_lines<R: Abort>(rt: &R, alloc: Global) -> Vec<Line> {
    let mut lines = Vec::new(alloc);
    for byte in b"abc" {
        lines.push(giving(rt, alloc, *byte)).expect(rt, "memory");
    }
    lines
}

// Checks what the peers of three lines got, one behind another: of all of them, or of two in two threads.
fn check_got<R: Abort + Threads + Wait + Sync>(
    rt: &R,
    alloc: Global,
    failing: &[bool],
    is_beside: bool,
    want: &[u8],
) {
    let mut lines = three_lines(rt, alloc);
    let listener = listener_of(rt, alloc, lines.as_mut_slice(), failing);
    let is_served = if is_beside {
        echoes_two(rt, listener)
    } else {
        echoes_each(rt, listener)
    };
    assert!(rt; is_served);
    check_bytes(rt, got(rt, alloc, lines.as_slice()).as_slice(), want);
}

// What the peers got, one behind another.
fn got<R: Abort>(rt: &R, alloc: Global, lines: &[Line]) -> Vec<u8> {
    let mut bytes = Vec::new(alloc);
    for line in lines {
        bytes
            .extend_from_slice(line.sink.bytes())
            .expect(rt, "memory");
    }
    bytes
}

#[test]
fn peers_come_in_order_and_what_each_got_is_read_back(rt: HostRuntime) {
    check_got(&rt, rt.alloc(), &[false, true], false, b"aa.bb.cc.");
}

#[test]
fn two_peers_are_served_in_two_threads(rt: HostRuntime) {
    check_got(&rt, rt.alloc(), &[], true, b"aa.bb.");
}
