// Workers that have nothing to do sleep until they are told of something.
use std::sync::{Condvar, Mutex, Wait};

/// What the workers were told.
#[derive(Clone, Copy, Drop)]
pub(crate) struct Told {
    /// How often, modulo 2^64.
    pub(crate) times: u64,
    /// Whether no more peers come.
    pub(crate) closed: bool,
}

/// Tells the workers of each peer that waits for one of them, and in the end that no more peers come.
#[derive(Drop)]
pub(crate) struct Bell {
    told: Mutex<Told>,
    changed: Condvar,
}

impl Bell {
    /// Nothing was told.
    pub(crate) fn new() -> Bell {
        Bell {
            told: Mutex::new(Told {
                times: 0,
                closed: false,
            }),
            changed: Condvar::new(),
        }
    }

    /// What was told so far.
    pub(crate) fn told<R: Wait>(&self, rt: &R) -> Told {
        *self.told.lock(rt)
    }

    /// One more peer waits: wakes a worker that sleeps.
    pub(crate) fn ring<R: Wait>(&self, rt: &R) {
        let mut told = self.told.lock(rt);
        told.times = told.times.wrapping_add(1);
        self.changed.notify_one();
    }

    /// No more peers come: wakes all workers that sleep.
    pub(crate) fn close<R: Wait>(&self, rt: &R) {
        let mut told = self.told.lock(rt);
        told.times = told.times.wrapping_add(1);
        told.closed = true;
        self.changed.notify_all();
    }

    /// Sleeps until something was told since.
    pub(crate) fn wait_past<R: Wait>(&self, rt: &R, times: u64) {
        let mut told = self.told.lock(rt);
        for _ in rt.forever() {
            if told.times != times {
                return;
            }
            told = self.changed.wait(rt, told);
        }
    }
}
