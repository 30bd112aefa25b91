use std::sync::Wait;
use std::sync::atomic::{AtomicBool, Ordering};
use std::thread;
use turn_lock::{Journaled, Pass};

/// Where in an update a session calls its gate.
#[derive(Clone, Copy, Debug, PartialEq, Eq)]
pub enum Point {
    /// The update has its number.
    Numbered,
    /// The update's nodes are stored too.
    Woven,
}

/// What a session passes on its way through an update. A test holds a session up there; a running store
/// never does. The session lends its own pass, which so holds no turn.
pub trait Gate {
    /// May keep the session waiting.
    fn at<S: Journaled, R: Wait>(&self, rt: &R, point: Point, pass: &Pass<S>);
}

/// A gate that returns at once.
#[derive(Clone, Copy, Debug, PartialEq, Eq, Drop)]
pub struct FreeGate;

impl Gate for FreeGate {
    fn at<S: Journaled, R: Wait>(&self, _rt: &R, _point: Point, _pass: &Pass<S>) {}
}

// How often a caller that is held looks whether it may go on.
const LOOKS: u32 = 1_000_000;

/// A gate for tests, shared by threads. It holds one caller at one point until it is released, or until
/// that caller has looked 1,000,000 times whether it may go on. Between two looks the thread yields.
#[derive(Drop)]
pub struct HoldGate {
    point: Point,
    caller: u32,
    released: AtomicBool,
    ran_out: AtomicBool,
}

impl HoldGate {
    /// A gate that holds this caller at this point. It takes no memory.
    pub fn new(point: Point, caller: u32) -> HoldGate {
        HoldGate {
            point,
            caller,
            released: AtomicBool::new(false),
            ran_out: AtomicBool::new(false),
        }
    }

    /// Lets the caller go on, whether it has come to the point or not.
    pub fn release(&self) {
        self.released.store(true, Ordering::SeqCst);
    }

    /// Whether the caller went on without being released.
    pub fn ran_out(&self) -> bool {
        self.ran_out.load(Ordering::SeqCst)
    }

    // Waits for the release, and answers whether it came.
    fn is_released_in_time(&self) -> bool {
        for _ in 0..LOOKS {
            if self.released.load(Ordering::SeqCst) {
                return true;
            }
            thread::yield_now();
        }
        false
    }
}

impl Gate for HoldGate {
    fn at<S: Journaled, R: Wait>(&self, _rt: &R, point: Point, pass: &Pass<S>) {
        if point != self.point || pass.caller() != self.caller {
            return;
        }
        if !self.is_released_in_time() {
            self.ran_out.store(true, Ordering::SeqCst);
        }
    }
}
