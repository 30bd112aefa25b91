// Who waits for a publication is woken by each finish.
use std::sync::Wait;
use std::sync::atomic::{AtomicU64, Ordering};

/// Counts the finishes of a store's sessions, modulo 2^64. Who waits for a publication sleeps until one more was counted.
///
/// A finish takes no lock, and calls the system only where somebody waits. A sleeper is in `sleepers` before it looks at
/// `count`, and a finish is in `count` before it looks at `sleepers`, so one of the two sees the other.
#[derive(Drop)]
pub struct Notices {
    count: AtomicU64,
    sleepers: AtomicU64,
}

impl Notices {
    /// None was counted.
    pub fn new() -> Notices {
        Notices {
            count: AtomicU64::new(0),
            sleepers: AtomicU64::new(0),
        }
    }

    /// How many were counted.
    pub fn count(&self) -> u64 {
        self.count.load(Ordering::SeqCst)
    }

    /// Counts one more finish, and wakes all that wait.
    pub fn notify(&self) {
        self.count.fetch_add(1, Ordering::SeqCst);
        if self.sleepers.load(Ordering::SeqCst) != 0 {
            self.count.wake_all();
        }
    }

    /// Waits until another number was counted than this one. It sleeps meanwhile.
    pub fn wait_past<R: Wait>(&self, rt: &R, seen: u64) {
        self.sleepers.fetch_add(1, Ordering::SeqCst);
        for _ in rt.forever() {
            if self.count.load(Ordering::SeqCst) != seen {
                break;
            }
            self.count.park(rt, (seen & 0xffff_ffff) as u32);
        }
        self.sleepers.fetch_sub(1, Ordering::SeqCst);
    }
}
