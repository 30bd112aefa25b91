//! The program serves two connections beside each other.
ghost use Rattle.std.specs.Prelude.{◌≡◌};

use crate::peers::{Peer, run_peers};
use crate::program::check;
use ports::gate::{Gate, HoldGate, Point};
use std::alloc::Global;
use std::process::Abort;
use std::sync::Wait;
use std::sync::atomic::{AtomicU32, Ordering};
use turn_lock::{Journaled, Pass};

// Holds callers 1 and 2 each where its update has its number, until the other one comes there.
#[derive(Drop)]
struct MeetingGate {
    first: HoldGate,
    second: HoldGate,
    first_came: AtomicU32,
    second_came: AtomicU32,
}

impl MeetingGate {
    fn new() -> MeetingGate {
        MeetingGate {
            first: HoldGate::new(Point::Numbered, 1),
            second: HoldGate::new(Point::Numbered, 2),
            first_came: AtomicU32::new(0),
            second_came: AtomicU32::new(0),
        }
    }

    // Whether both came, and none went on without the other.
    fn met(&self) -> bool {
        self.first_came.load(Ordering::SeqCst) == 1
            && self.second_came.load(Ordering::SeqCst) == 1
            && !self.first.ran_out()
            && !self.second.ran_out()
    }
}

impl Gate for MeetingGate {
    fn at<S: Journaled, R: Wait>(&self, rt: &R, point: Point, pass: &Pass<S>) {
        if point != Point::Numbered {
            return;
        }
        if pass.caller() == 1 {
            self.first_came.fetch_add(1, Ordering::SeqCst);
            self.second.release();
            self.first.at(rt, point, pass);
        }
        if pass.caller() == 2 {
            self.second_came.fetch_add(1, Ordering::SeqCst);
            self.first.release();
            self.second.at(rt, point, pass);
        }
    }
}

// A create, and an append of a byte to blob 1.
const ASKS: &[u8] = b"\0\0\0\x01\x01\0\0\0\x0a\x02\0\0\0\0\0\0\0\x01\xaa";

// Two peers that give the same.
fn two_peers<R: Abort>(rt: &R, alloc: Global) -> Vec<Peer> {
    let one = Peer::giving(rt, alloc, ASKS, 3);
    let other = Peer::giving(rt, alloc, ASKS, 3);
    vec![in alloc; one, other].expect(rt, "memory")
}

// A reply to a create and one to an append are as long for every blob and version.
fn got_both(peers: &[Peer]) -> bool {
    for peer in peers {
        if peer.got().len() != 13 + 29 {
            return false;
        }
    }
    true
}

#[test]
fn two_connections_wait_for_each_other(rt: HostRuntime) {
    let alloc: Global = rt.alloc();
    let mut peers = two_peers(&rt, alloc);
    let gate = MeetingGate::new();
    let line = "serve --listen x:1 --workers 2 --connections 2";
    let ran = run_peers(&rt, alloc, line, peers.as_mut_slice(), 0, 64, &gate);
    check(&rt, ran.is_so(b"served 2\n", "", 0), "both are served");
    check(&rt, gate.met(), "both came to the gate");
    check(&rt, got_both(peers.as_slice()), "both got their replies");
}
