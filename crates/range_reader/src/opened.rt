// The snapshots that are kept of the versions that were opened.
ghost use Rattle.std.specs.Prelude.{◌≡◌, ◌≤◌, ℕ, [], length, true, is_some, IfOk, IfSome};
ghost use Rattle.range_reader.specs.Opened.{all_kept, has_opened, Covers, place_of, keeping};

use snapshot::{NoMemory, Snapshot};
use std::alloc::Global;
use std::marker::Model;

// The most snapshots that are kept.
const MOST: usize = 4;

/// At most four snapshots, one of a blob. The room is made once, and all calls but `new` take no memory.
pub struct Opened {
    kept: Vec<Snapshot>,
}

// By hand, so that it is one call wherever a session is let go: a derived drop stands, with all its calls, at each such place.
impl Drop for Opened {
    fn drop(self) {
        let Opened { kept: _ } = self;
    }
}

impl Model for Opened {
    ghost use Rattle.std.specs.Prelude.{List, ◌≤◌, vec_capacity, vec_len};
    ghost use Rattle.snapshot.specs.Versions.{Version};

    ghost Value = { List Version };

    ghost view = { λ o. o.kept.items };

    ghost invariant = { λ o. (vec_len o.kept ≤ 4) × (4 ≤ vec_capacity o.kept) };
}

impl Opened {
    /// None yet, with room for four.
    pub fn new(alloc: Global) -> Result<Opened, NoMemory>
        ensures { IfOk result (λ opened. opened ≡ []) }
    {
        match Vec::with_capacity(alloc, MOST) {
            Ok(kept) => Ok(Opened { kept }),
            Err(_) => Err(NoMemory),
        }
    }

    /// How many are kept.
    pub fn count(&self) -> usize
        ensures count { result ≡ length self.now }
        ensures few { result ≤ 4 }
    {
        self.kept.len()
    }

    // Where the blob's snapshot stands, or how many there are.
    fn place_of(&self, blob: u64) -> usize
        ensures place { result ≡ place_of blob self.now }
        ensures bound { result ≤ length self.now }
    {
        let mut at = 0;
        while at < self.kept.len() && self.kept[at].blob() != blob {
            at += 1;
        }
        at
    }

    /// The snapshot of that blob, where it is of this version at least.
    pub fn of(&self, blob: u64, version: u64) -> Option<&Snapshot>
        ensures found { is_some result ≡ has_opened (all_kept self.now) blob version }
        ensures covers { IfSome result (λ snapshot. Covers self.now blob version snapshot.now) }
    {
        let at = self.place_of(blob);
        if at == self.kept.len() {
            return None;
        }
        let snapshot = &self.kept[at];
        if version <= snapshot.version() {
            Some(snapshot)
        } else {
            None
        }
    }

    /// Keeps the snapshot in place of an older one of its blob. Where it has none of the blob, and four others, the first of those goes.
    pub fn keep(&mut self, snapshot: Snapshot)
        ensures kept { self.new ≡ keeping self.old snapshot }
        ensures found { (version : ℕ) → version ≤ length snapshot.rows → has_opened (all_kept self.new) snapshot.blob version ≡ true }
    {
        let at = self.place_of(snapshot.blob());
        if at < self.kept.len() {
            if self.kept[at].version() < snapshot.version() {
                self.kept[at] = snapshot;
            }
            return;
        }
        if at == MOST {
            let _first = self.kept.remove(0);
        }
        self.kept.push_reserved(snapshot);
    }

    /// Lets all of them go.
    pub fn clear(&mut self)
        ensures { self.new ≡ [] }
    {
        self.kept.clear();
    }
}
