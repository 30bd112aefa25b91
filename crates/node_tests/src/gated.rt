//! Links in memory behind a gate, at which a test makes their calls fail or wait.

use faults::{NoMemory, count_up};
use node_door::{BesideLink, LoopLink};
use page_node::Shelf;
use ports::stream::{Ends, Sink, Source, Taken, Written};
use std::alloc::Global;
use std::sync::atomic::{AtomicBool, Ordering};
use std::thread;
use tree_geom::PageSize;

/// Says which calls of a link fail.
pub(crate) trait LinkGate {
    /// Whether the next read goes through.
    fn lets_read(&mut self) -> bool;

    /// Whether the next write of some bytes goes through.
    fn lets_write(&mut self) -> bool;
}

/// Lets all calls but some in a row go through. Reads and writes are numbered together, from 0.
#[derive(Clone, Copy)]
pub(crate) struct Failing {
    calls: u64,
    first: u64,
    count: u64,
}

impl Failing {
    /// Stops so many calls from that one on.
    pub(crate) fn new(first: u64, count: u64) -> Failing {
        Failing {
            calls: 0,
            first,
            count,
        }
    }

    /// How many calls came.
    pub(crate) fn calls(&self) -> u64 {
        self.calls
    }

    // Counts a call, and says whether it goes through.
    fn lets(&mut self) -> bool {
        let call = self.calls;
        self.calls = call.saturating_add(1);
        call < self.first || call - self.first >= self.count
    }
}

impl LinkGate for Failing {
    fn lets_read(&mut self) -> bool {
        self.lets()
    }

    fn lets_write(&mut self) -> bool {
        self.lets()
    }
}

// How often a link looks whether the other one was written to.
const LOOKS: u32 = 100_000_000;

/// A write raises the link's own flag. A read waits until the other link's flag is up, and fails where that takes too long.
#[derive(Clone, Copy)]
pub(crate) struct Meeting<'a> {
    /// The link's own flag.
    pub(crate) own: &'a AtomicBool,
    /// The flag that a read waits for.
    pub(crate) other: &'a AtomicBool,
}

impl<'a> LinkGate for Meeting<'a> {
    fn lets_read(&mut self) -> bool {
        for _ in 0..LOOKS {
            if self.other.load(Ordering::SeqCst) {
                return true;
            }
            thread::yield_now();
        }
        false
    }

    fn lets_write(&mut self) -> bool {
        self.own.store(true, Ordering::SeqCst);
        true
    }
}

/// A link in memory behind a gate. It doesn't tell its bytes.
#[derive(Drop)]
pub(crate) struct GatedLink<G> {
    pub(crate) gate: G,
    link: LoopLink,
    read_faults: u64,
    write_faults: u64,
    ends: u64,
}

impl<G> GatedLink<G> {
    /// A link to a node without pages, with room for so many bytes that are written and for as many of replies.
    pub(crate) fn new(
        alloc: Global,
        gate: G,
        p: PageSize,
        room: usize,
    ) -> Result<GatedLink<G>, NoMemory>
    where
        G: Drop,
    {
        let shelf = Shelf::new(alloc, p)?;
        let link = LoopLink::new(alloc, shelf, room)?;
        Ok(GatedLink {
            gate,
            link,
            read_faults: 0,
            write_faults: 0,
            ends: 0,
        })
    }
}

impl<G> Ends for GatedLink<G> {
    ghost use Rattle.std.specs.Prelude.{None, []};

    ghost given = { λ l. None };

    ghost left = { λ l. None };

    ghost written = { λ l. None };

    ghost read_faults = { λ l. l.read_faults };

    ghost write_faults = { λ l. l.write_faults };

    ghost ends = { λ l. l.ends };

    ghost objects = { λ l. [] };
}

impl<G: LinkGate> Source for GatedLink<G> {
    fn read(&mut self, buf: &mut [u8]) -> Taken {
        if !self.gate.lets_read() {
            self.read_faults = count_up(self.read_faults);
            return Taken::Failed;
        }
        match self.link.read(buf) {
            Taken::Got(n) => Taken::Got(n),
            Taken::End => {
                self.ends = count_up(self.ends);
                Taken::End
            }
            Taken::Failed => {
                self.read_faults = count_up(self.read_faults);
                Taken::Failed
            }
        }
    }
}

impl<G: LinkGate> Sink for GatedLink<G> {
    fn write(&mut self, bytes: &[u8]) -> Written {
        if bytes.is_empty() {
            return Written::Whole;
        }
        if !self.gate.lets_write() {
            self.write_faults = count_up(self.write_faults);
            return Written::Failed(0);
        }
        match self.link.write(bytes) {
            Written::Whole => Written::Whole,
            Written::Failed(n) => {
                self.write_faults = count_up(self.write_faults);
                Written::Failed(n)
            }
        }
    }
}

// Its doors put one after another.
impl<G: LinkGate> BesideLink for GatedLink<G> {}
