// The stored history.
ghost use Rattle.std.specs.Prelude.{◌≡◌, ◌+◌, ◌<◌, ◌^◌, ◌++◌, [], ◌∷◌, length, OnOk};

use crate::entry::Entry;
use publisher::NoMemory;
use std::alloc::Global;
use std::marker::Model;
use std::mem::replace;

// The most entries of a history.
const MAX_ENTRIES: u64 = (1 << 38) - 1;

// How many entries a chunk has.
const CHUNK: usize = 1024;

/// The entries of a history, the oldest first. They lie in chunks, so that none of them is moved when more come. A clause sees them, and for how
/// many more there is room.
#[derive(Drop)]
pub(crate) struct History {
    alloc: Global,
    full: Vec<Vec<Entry>>,
    last: Vec<Entry>,
    count: u64,
}

impl Model for History {
    ghost use Rattle.std.specs.Prelude.{◌≡◌, ◌-◌, length, vec_capacity};
    ghost use Rattle.version_manager.specs.Entries.{StoredHistory, in_chunks};

    ghost Value = { StoredHistory };

    ghost view = { λ h. record { entries = in_chunks h.full.items h.last.items; room = vec_capacity h.last - length h.last.items } };

    ghost invariant = { λ h. h.count ≡ length (in_chunks h.full.items h.last.items) };
}

impl History {
    /// No entries. It takes no memory.
    pub(crate) fn new(alloc: Global) -> History
        ensures { result.entries ≡ [] }
    {
        History {
            alloc,
            full: Vec::new(alloc),
            last: Vec::new(alloc),
            count: 0,
        }
    }

    /// How many entries there are.
    pub(crate) fn count(&self) -> u64
        ensures { result ≡ length self.now.entries }
    {
        self.count
    }

    // Begins another chunk.
    fn begin_chunk(&mut self) -> Result<(), NoMemory>
        ensures entries { self.new.entries ≡ self.old.entries }
        ensures room { OnOk result (0 < self.new.room) }
    {
        self.full.reserve(1)?;
        let next = Vec::with_capacity(self.alloc, CHUNK)?;
        let last = replace(&mut self.last, next);
        self.full.push_reserved(last);
        Ok(())
    }

    /// Makes room for one entry more, where the history may have one.
    pub(crate) fn make_room(&mut self) -> Result<(), NoMemory>
        ensures entries { self.new.entries ≡ self.old.entries }
        ensures short { OnOk result (length self.old.entries + 1 < 2 ^ 38) }
        ensures room { OnOk result (0 < self.new.room) }
    {
        if self.count >= MAX_ENTRIES {
            return Err(NoMemory);
        }
        if self.last.len() >= CHUNK {
            return self.begin_chunk();
        }
        self.last.reserve(1)?;
        Ok(())
    }

    /// Adds an entry at the end, for which there is room.
    pub(crate) fn push_reserved(&mut self, entry: Entry)
        requires room { 0 < self.old.room }
        requires short { length self.old.entries + 1 < 2 ^ 38 }
        ensures { self.new.entries ≡ self.old.entries ++ entry ∷ [] }
    {
        self.last.push_reserved(entry);
        self.count += 1;
    }
}
