//! Gates, and updates that pass them.
ghost use Rattle.std.specs.Prelude.{[]};

use ports::gate::{FreeGate, Gate, HoldGate, Point};
use std::alloc::Global;
use std::process::Abort;
use std::sync::{Mutex, Wait};
use std::thread;
use std::thread::{Threads, join};
use turn_lock::{Journaled, Pass, Turn};

/// A state without entries, of which only passes are wanted.
#[derive(Drop)]
struct Nothing;

impl Journaled for Nothing {
    type Entry = u32;

    type Fixed = u64;

    ghost history = { λ _. [] };

    ghost fixed = { λ _. 0 };

    fn count(&self) -> u64 {
        0
    }
}

// Who came, in order.
type Came = Mutex<Vec<u32>>;

// Notes that a caller came. Where there is no memory it is missing.
fn come<R: Wait>(rt: &R, came: &Came, pass: &Pass<Nothing>) {
    let _ = came.lock(rt).push(pass.caller());
}

// Comes, passes the gate as a session does at an update, comes again, and passes the gate again.
fn update<G: Gate, R: Wait>(rt: &R, gate: &G, came: &Came, pass: Pass<Nothing>) {
    come(rt, came, &pass);
    gate.at(rt, Point::Numbered, &pass);
    come(rt, came, &pass);
    gate.at(rt, Point::Woven, &pass);
}

// Once the other caller has come so many times, comes twice, and then lets it go on.
fn come_between<R: Wait>(rt: &R, gate: &HoldGate, came: &Came, pass: Pass<Nothing>, times: usize) {
    for _ in rt.forever() {
        if came.lock(rt).len() >= times {
            break;
        }
        thread::yield_now();
    }
    update(rt, gate, came, pass);
    gate.release();
}

// Passes of two callers of one lock, which are 1 and 2.
fn two_passes<R: Abort>(rt: &R, alloc: Global) -> (Pass<Nothing>, Pass<Nothing>) {
    let (turn, mut owner) = Turn::new(alloc, Nothing).expect(rt, "memory");
    let one = owner.pass(&turn).expect(rt, "a first pass");
    let two = owner.pass(&turn).expect(rt, "a second pass");
    (one, two)
}

// Checks who came, where caller 1 is held at a point until it has come so many times and caller 2 twice.
fn check_held<R: Threads + Wait + Sync + Abort>(
    rt: &R,
    alloc: Global,
    point: Point,
    times: usize,
    want: &[u32],
) {
    let gate = HoldGate::new(point, 1);
    let came = Mutex::new(Vec::new(alloc));
    let (one, two) = two_passes(rt, alloc);
    join(
        rt,
        || update(rt, &gate, &came, one),
        || come_between(rt, &gate, &came, two, times),
    );
    assert!(rt; came.into_inner().as_slice() == want && !gate.ran_out());
}

#[test]
fn a_caller_is_held_between_its_numbering_and_its_weaving(rt: HostRuntime) {
    check_held(&rt, rt.alloc(), Point::Numbered, 1, &[1, 2, 2, 1]);
}

#[test]
fn a_caller_is_held_after_its_weaving(rt: HostRuntime) {
    check_held(&rt, rt.alloc(), Point::Woven, 2, &[1, 1, 2, 2]);
}

// Checks that neither of two callers is held.
fn check_passed<G: Gate, R: Wait + Abort>(rt: &R, alloc: Global, gate: &G) {
    let came = Mutex::new(Vec::new(alloc));
    let (one, two) = two_passes(rt, alloc);
    update(rt, gate, &came, one);
    update(rt, gate, &came, two);
    assert!(rt; came.into_inner().as_slice() == [1, 1, 2, 2].as_slice());
}

#[test]
fn a_released_gate_and_a_free_one_hold_nobody(rt: HostRuntime) {
    let gate = HoldGate::new(Point::Numbered, 1);
    gate.release();
    check_passed(&rt, rt.alloc(), &gate);
    check_passed(&rt, rt.alloc(), &FreeGate);
    assert!(rt; !gate.ran_out());
}

#[test]
fn a_gate_holds_no_other_caller(rt: HostRuntime) {
    let gate = HoldGate::new(Point::Woven, 3);
    check_passed(&rt, rt.alloc(), &gate);
    assert!(rt; !gate.ran_out());
}
