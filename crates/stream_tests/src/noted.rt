//! A stream that notes its reads and writes.

ghost use Rattle.std.specs.Prelude.{◌<◌};

use memory_ports::MemSource;
use ports::stream::{Ends, Sink, Source, Taken, Written};
use std::alloc::{AllocError, Global};

/// What was done with a stream.
#[derive(Clone, Copy, Debug, PartialEq, Eq)]
pub(crate) enum Act {
    /// Something was read, or the end was met.
    Read,
    /// So many bytes were written.
    Wrote(usize),
}

// More reads and writes than there are in a test.
const ROOM: usize = 4096;

/// A source in memory, which takes all that is written and notes the order of reads and writes.
#[derive(Drop)]
pub(crate) struct Noted {
    source: MemSource,
    acts: Vec<Act>,
}

impl Noted {
    /// A stream of these bytes, in pieces of at most `piece` bytes, at least one.
    pub(crate) fn new(alloc: Global, bytes: Vec<u8>, piece: usize) -> Result<Noted, AllocError>
        requires { 0 < piece }
    {
        Ok(Noted {
            source: MemSource::new(bytes, piece, Vec::new(alloc)),
            acts: Vec::with_capacity(alloc, ROOM)?,
        })
    }

    /// What was done with it, in order.
    pub(crate) fn acts(&self) -> &[Act] {
        self.acts.as_slice()
    }
}

impl Ends for Noted {
    ghost use Rattle.std.specs.Prelude.{Some, None, []};

    ghost given = { λ s. Some s.source.given };

    ghost left = { λ s. Some s.source.left };

    ghost written = { λ s. None };

    ghost read_faults = { λ s. s.source.faults };

    ghost write_faults = { λ s. 0 };

    ghost ends = { λ s. s.source.ends };

    ghost objects = { λ s. [] };
}

impl Source for Noted {
    fn read(&mut self, buf: &mut [u8]) -> Taken {
        let _ = self.acts.push(Act::Read);
        self.source.read(buf)
    }
}

impl Sink for Noted {
    fn write(&mut self, bytes: &[u8]) -> Written {
        let _ = self.acts.push(Act::Wrote(bytes.len()));
        Written::Whole
    }
}
