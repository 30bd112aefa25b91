//! A gate that holds one session up in the midst of an update, and tells that it came there.

use ports::gate::{Gate, HoldGate, Point};
use std::sync::Wait;
use std::sync::atomic::{AtomicBool, Ordering};
use std::thread;
use turn_lock::{Journaled, Pass};

// How often a session looks whether the one that is held came to the gate.
const LOOKS: u32 = 100_000_000;

/// Holds one caller at one point, as a `HoldGate` does.
#[derive(Drop)]
pub(crate) struct Barrier {
    hold: HoldGate,
    point: Point,
    caller: u32,
    came: AtomicBool,
}

impl Barrier {
    /// Holds that caller at that point.
    pub(crate) fn new(point: Point, caller: u32) -> Barrier {
        Barrier {
            hold: HoldGate::new(point, caller),
            point,
            caller,
            came: AtomicBool::new(false),
        }
    }

    /// Waits until the caller comes to the point, and answers whether it did.
    pub(crate) fn has_come(&self) -> bool {
        for _ in 0..LOOKS {
            if self.came.load(Ordering::SeqCst) {
                return true;
            }
            thread::yield_now();
        }
        false
    }

    /// Lets the caller go on.
    pub(crate) fn release(&self) {
        self.hold.release();
    }

    /// Whether the caller went on without being released.
    pub(crate) fn ran_out(&self) -> bool {
        self.hold.ran_out()
    }
}

impl Gate for Barrier {
    fn at<S: Journaled, R: Wait>(&self, rt: &R, point: Point, pass: &Pass<S>) {
        if point == self.point && pass.caller() == self.caller {
            self.came.store(true, Ordering::SeqCst);
        }
        self.hold.at(rt, point, pass);
    }
}
