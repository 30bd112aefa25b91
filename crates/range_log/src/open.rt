// The touches of updates that aren't published.
ghost use Rattle.std.specs.Prelude.{◌≡◌, ◌+◌, ◌-◌, ◌<◌, ◌≤◌, [], ◌∷◌, ◌++◌, length, take, drop, IfOk};
ghost use Rattle.range_log.specs.Open.{open_at, Rises};

use faults::NoMemory;
use std::alloc::Global;
use std::marker::Model;
use tree_geom::Touch;

/// How many updates of one blob may wait.
const PLACES: usize = 64;

/// What an update touches that is numbered and not yet published, beside its version.
#[derive(Clone, Copy, PartialEq, Eq, Debug)]
pub struct OpenTouch {
    pub version: u64,
    pub touch: Touch,
}

/// The touches of the updates of a blob that wait, by version: at most 64, each version one above the one before it.
#[derive(Drop)]
pub struct OpenList {
    items: Vec<OpenTouch>,
}

impl Model for OpenList {
    ghost use Rattle.std.specs.Prelude.{List, ◌≤◌, length, vec_capacity};
    ghost use Rattle.range_log.specs.declared.open.OpenTouch.{OpenTouch};
    ghost use Rattle.range_log.specs.Open.{Rises};

    ghost Value = { List OpenTouch };

    ghost view = { λ l. l.items.items };

    ghost invariant = { λ l. (length l.items.items ≤ 64) × (64 ≤ vec_capacity l.items) × Rises l.items.items };
}

impl OpenList {
    /// No updates, with room for 64.
    pub fn new(alloc: Global) -> Result<OpenList, NoMemory>
        ensures { IfOk result (λ list. list ≡ []) }
    {
        Ok(OpenList {
            items: Vec::with_capacity(alloc, PLACES)?,
        })
    }

    /// Adds an update at the end. There are fewer than 64, and its version is one above the last one's. It takes no memory.
    pub fn add(&mut self, open: OpenTouch)
        requires room { length self.old < 64 }
        requires next { 0 < length self.old → «open».version ≡ (open_at self.old (length self.old - 1)).version + 1 }
        ensures { self.new ≡ self.old ++ «open» ∷ [] }
    {
        self.items.push_reserved(open);
    }

    /// How many updates wait.
    pub fn count(&self) -> u32
        ensures count { result ≡ length self.now }
        ensures few { result ≤ 64 }
        ensures rises { Rises self.now }
    {
        self.items.len() as u32
    }

    /// The update of that number, the lowest version being number 0. There are more than `i`.
    pub fn at(&self, i: u32) -> OpenTouch
        requires { i < length self.now }
        ensures { result ≡ open_at self.now i }
    {
        self.items[i as usize]
    }

    /// Takes the first `n` updates away, of which there are that many. The room stays, and no memory is taken.
    pub fn drop_first(&mut self, n: u32)
        requires { n ≤ length self.old }
        ensures { self.new ≡ drop n self.old }
    {
        let first = n as usize;
        let kept = self.items.len() - first;
        self.items.rotate_left(first);
        self.items.truncate(kept);
    }

    /// The same updates in a copy of their own, in room for no more than these.
    pub fn copied(&self, alloc: Global) -> Result<OpenCopy, NoMemory>
        ensures { IfOk result (λ copy. copy ≡ self.now) }
    {
        Ok(OpenCopy {
            items: Vec::from_slice(alloc, &self.items)?,
        })
    }

    /// The first `count` of these updates in a copy of their own, in room for no more than these. There are that many.
    pub fn first_copied(&self, alloc: Global, count: u32) -> Result<OpenCopy, NoMemory>
        requires { count ≤ length self.now }
        ensures { IfOk result (λ copy. copy ≡ take count self.now) }
    {
        Ok(OpenCopy {
            items: Vec::from_slice(alloc, &self.items[..count as usize])?,
        })
    }
}

/// What the updates of a blob touched that waited at one time, by version: a copy that stays as it is. Many are made, one for
/// each numbering, and mostly of few updates, so it has room for those alone.
#[derive(Drop)]
pub struct OpenCopy {
    items: Vec<OpenTouch>,
}

impl Model for OpenCopy {
    ghost use Rattle.std.specs.Prelude.{List, ◌≤◌, length};
    ghost use Rattle.range_log.specs.declared.open.OpenTouch.{OpenTouch};
    ghost use Rattle.range_log.specs.Open.{Rises};

    ghost Value = { List OpenTouch };

    ghost view = { λ c. c.items.items };

    ghost invariant = { λ c. (length c.items.items ≤ 64) × Rises c.items.items };
}

impl OpenCopy {
    /// How many updates waited.
    pub fn count(&self) -> u32
        ensures count { result ≡ length self.now }
        ensures few { result ≤ 64 }
        ensures rises { Rises self.now }
    {
        self.items.len() as u32
    }

    /// At most 64 updates waited, and their versions rise. For proofs: it does nothing.
    pub fn stands(&self)
        ensures few { length self.now ≤ 64 }
        ensures rises { Rises self.now }
    {
        let _items = &self.items;
    }

    /// The update of that number, the lowest version being number 0. There are more than `i`.
    pub fn at(&self, i: u32) -> OpenTouch
        requires { i < length self.now }
        ensures { result ≡ open_at self.now i }
    {
        self.items[i as usize]
    }
}
