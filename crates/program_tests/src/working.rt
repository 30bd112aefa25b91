//! The program runs the workers of a load beside each other.
ghost use Rattle.std.specs.Prelude.{◌≡◌};

use crate::peers::run_peers;
use crate::program::check;
use ports::gate::{Gate, HoldGate, Point};
use std::alloc::Global;
use std::sync::Wait;
use std::sync::atomic::{AtomicU32, Ordering};
use turn_lock::{Journaled, Pass};

// Holds the callers 2 and 3, which are the workers 1 and 2, each where its first update has its number: the second until the
// first comes there, and the first until the nodes of the second's update are stored.
#[derive(Drop)]
struct WorkersGate {
    first: HoldGate,
    second: HoldGate,
    first_numbered: AtomicU32,
    second_numbered: AtomicU32,
    second_woven: AtomicU32,
}

impl WorkersGate {
    fn new() -> WorkersGate {
        WorkersGate {
            first: HoldGate::new(Point::Numbered, 2),
            second: HoldGate::new(Point::Numbered, 3),
            first_numbered: AtomicU32::new(0),
            second_numbered: AtomicU32::new(0),
            second_woven: AtomicU32::new(0),
        }
    }

    // Whether both came where they are held, the second went on past it, and none ran out of time.
    fn met(&self) -> bool {
        self.first_numbered.load(Ordering::SeqCst) > 0
            && self.second_numbered.load(Ordering::SeqCst) > 0
            && self.second_woven.load(Ordering::SeqCst) > 0
            && !self.first.ran_out()
            && !self.second.ran_out()
    }
}

impl Gate for WorkersGate {
    fn at<S: Journaled, R: Wait>(&self, rt: &R, point: Point, pass: &Pass<S>) {
        if point == Point::Numbered && pass.caller() == 2 {
            self.first_numbered.fetch_add(1, Ordering::SeqCst);
            self.second.release();
        }
        if point == Point::Numbered && pass.caller() == 3 {
            self.second_numbered.fetch_add(1, Ordering::SeqCst);
        }
        if point == Point::Woven && pass.caller() == 3 {
            self.second_woven.fetch_add(1, Ordering::SeqCst);
            self.first.release();
        }
        self.first.at(rt, point, pass);
        self.second.at(rt, point, pass);
    }
}

#[test]
fn two_workers_of_a_load_work_beside_each_other(rt: HostRuntime) {
    let alloc: Global = rt.alloc();
    let mut nobody = Vec::new(alloc);
    let gate = WorkersGate::new();
    let line = "load --workers 2 --ops 3 --seed 0";
    let ran = run_peers(&rt, alloc, line, nobody.as_mut_slice(), 0, 128, &gate);
    let lines =
        b"load workers 2 ops 3 seed 0\nlog size 96 versions 6 in-order 2\ngrid size 96 versions 7 sum 960\n";
    check(&rt, ran.is_so(lines, "", 0), "the lines of the load");
    check(&rt, gate.met(), "both workers came to the gate");
}
