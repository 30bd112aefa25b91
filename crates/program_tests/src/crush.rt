//! One peer more than the other workers and the queue can take.
ghost use Rattle.std.specs.Prelude.{◌≡◌};

use crate::peers::run_net;
use crate::program::check;
use ports::gate::FreeGate;
use ports::listener::{Accepted, Listener};
use ports::stream::{Ends, Sink, Source, Taken, Written};
use std::alloc::Global;
use std::sync::Wait;
use std::sync::atomic::{AtomicBool, AtomicU32, Ordering};
use std::thread;

// A peer for each of fifteen workers beside the first, one for each of the 64 places of the queue, and one more.
const CRUSH: u32 = 80;

// How often a peer that waits for others looks after them.
const LOOKS: u32 = 100_000_000;

// A quit in a frame.
const QUIT: [u8; 5] = [0, 0, 0, 1, 13];

// How many peers came and left, and whether one has waited for others in vain.
#[derive(Drop)]
struct Hall {
    came: AtomicU32,
    left: AtomicU32,
    ran_out: AtomicBool,
}

impl Hall {
    // Waits until so many were counted.
    fn wait(&self, count: &AtomicU32, least: u32) {
        for _ in 0..LOOKS {
            if count.load(Ordering::SeqCst) >= least {
                return;
            }
            thread::yield_now();
        }
        self.ran_out.store(true, Ordering::SeqCst);
    }
}

// A peer that stays until the whole crush came, and then quits. The last one of the crush is still until all others left, and
// then its time is out.
#[derive(Drop)]
struct Guest<'a> {
    hall: &'a Hall,
    is_last: bool,
    faults: u64,
}

impl<'a> Ends for Guest<'a> {
    ghost use Rattle.std.specs.Prelude.{None, []};

    ghost given = { λ p. None };

    ghost left = { λ p. None };

    ghost written = { λ p. None };

    ghost read_faults = { λ p. p.faults };

    ghost write_faults = { λ p. 0 };

    ghost ends = { λ p. 0 };

    ghost objects = { λ p. [] };
}

impl<'a> Source for Guest<'a> {
    fn read(&mut self, buf: &mut [u8]) -> Taken {
        if self.is_last {
            self.hall.wait(&self.hall.left, CRUSH - 1);
            self.faults = self.faults.saturating_add(1);
            return Taken::Failed;
        }
        self.hall.wait(&self.hall.came, CRUSH);
        self.hall.left.fetch_add(1, Ordering::SeqCst);
        let n = QUIT.len().min(buf.len());
        buf[..n].copy_from_slice(&QUIT[..n]);
        Taken::Got(n)
    }
}

impl<'a> Sink for Guest<'a> {
    fn write(&mut self, _bytes: &[u8]) -> Written {
        Written::Whole
    }
}

// A listener to which guests come without end.
#[derive(Drop)]
struct Door<'a> {
    hall: &'a Hall,
    handed: u64,
}

impl<'a> Listener for Door<'a> {
    ghost use Rattle.std.specs.Prelude.{None, true, false};

    type Peer = Guest<'a>;

    ghost faults = { λ l. 0 };

    ghost listens = { λ l. true };

    ghost listens_at = { λ l. None };

    ghost handed = { λ l. l.handed };

    ghost is_done = { λ l. false };

    fn listen(&mut self, _address: &str) -> bool {
        true
    }

    fn accept<R: Wait>(&mut self, _rt: &R) -> Accepted<Guest<'a>> {
        let before = self.hall.came.fetch_add(1, Ordering::SeqCst);
        self.handed = self.handed.saturating_add(1);
        Accepted::Peer(Guest {
            hall: self.hall,
            is_last: before == CRUSH - 1,
            faults: 0,
        })
    }
}

#[test]
fn all_that_can_wait_are_taken_and_the_first_worker_comes_back_from_one_that_is_still(
    rt: HostRuntime,
) {
    let alloc: Global = rt.alloc();
    let hall = Hall {
        came: AtomicU32::new(0),
        left: AtomicU32::new(0),
        ran_out: AtomicBool::new(false),
    };
    let mut net = Door {
        hall: &hall,
        handed: 0,
    };
    let line = "serve --listen x:1 --workers 16 --connections 81";
    let ran = run_net(&rt, alloc, line, &mut net, 64, &FreeGate);
    check(&rt, ran.is_so(b"served 81\n", "", 0), "all are served");
    let has_run_out = hall.ran_out.load(Ordering::SeqCst);
    check(&rt, !has_run_out, "nobody waits in vain");
}
