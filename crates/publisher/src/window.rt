// The numbered updates of one blob.
ghost use Rattle.std.specs.Prelude.{◌≡◌, ◌+◌, ◌-◌, ◌<◌, ◌≤◌, ◌↔◌, true, false, Some, [], ◌∷◌, ◌++◌, length, drop, slice_get, IfOk, IfErr};
ghost use Rattle.std.specs.Arc.{arc_value};
ghost use Rattle.snapshot.specs.Versions.{older_version, IsVersion};

use crate::moving::moved_on;
use crate::slot::{Slot, drop_first};
use node_store::{NoMemory, Row};
use range_log::{OpenList, OpenTouch};
use snapshot::Snapshot;
use std::alloc::Global;
use std::marker::Model;
use std::sync::Arc;
use thiserror::Error;
use tree_geom::Touch;

/// How many updates may wait.
const PLACES: usize = 64;

/// Why an update wasn't finished.
#[derive(Clone, Copy, Debug, PartialEq, Eq, Error)]
pub enum FinishFault {
    /// The version is finished already.
    #[error("the version is finished already")]
    Already,
    /// Memory was refused.
    #[error("no memory for the published version")]
    NoMemory,
}

/// The numbered updates of one blob, the row of each that is finished, and a `U` of each that waits, which is given at its numbering.
///
/// A version is published once it and all lower ones are finished. At most 64 updates are numbered and not published.
#[derive(Drop)]
pub struct Window<U> {
    snapshot: Snapshot,
    // what the waiting updates touch: apart from their slots, as each ticket takes a copy of just these
    waiting: OpenList,
    // the slot of each of them, by version
    slots: Vec<Slot<U>>,
}

impl<U> Model for Window<U> {
    ghost use Rattle.std.specs.Prelude.{◌≤◌, map, vec_capacity};
    ghost use Rattle.publisher.specs.Windows.{WindowState};

    ghost Value = { WindowState U };

    ghost use Rattle.publisher.specs.WindowInvariant.{row_in, update_in, over, KeepsWindow};

    ghost view = { λ w. record { numbered = over w.snapshot w.waiting (map row_in w.slots.items); updates = map update_in w.slots.items } };

    ghost invariant = { λ w. KeepsWindow w.snapshot w.waiting (map row_in w.slots.items) × (64 ≤ vec_capacity w.slots) };
}

impl<U: Drop> Window<U> {
    ghost use Rattle.publisher.specs.Windows.{published_of, is_finished, version_of, waiting_of, window_on, with_numbered, with_finished, IsRowIn};
    ghost use Rattle.publisher.specs.declared.window.FinishFault.TheVariants.{Already};

    /// The window over a published version, above which nothing is numbered. The room for 64 waiting updates is made here.
    pub fn new(alloc: Global, base: Snapshot) -> Result<Window<U>, NoMemory>
        ensures numbered { IfOk result (λ window. window.numbered ≡ window_on base) }
        ensures updates { IfOk result (λ window. window.updates ≡ []) }
    {
        base.stands();
        let waiting = OpenList::new(alloc)?;
        Ok(Window {
            snapshot: base,
            waiting,
            slots: Vec::with_capacity(alloc, PLACES)?,
        })
    }

    /// Numbers the next update, and gives its version. Fewer than 64 updates wait, and fewer than 1,048,576 are numbered. It
    /// takes no memory.
    pub fn number(&mut self, touch: Touch, update: U) -> u64
        requires few { length self.old.numbered.log < published_of self.old.numbered + 64 }
        requires room { length self.old.numbered.log < 1048576 }
        ensures version { result ≡ length self.old.numbered.log + 1 }
        ensures numbered { self.new.numbered ≡ with_numbered self.old.numbered touch }
        ensures updates { self.new.updates ≡ self.old.updates ++ update ∷ [] }
    {
        let version = self.assigned() + 1;
        self.waiting.add(OpenTouch { version, touch });
        self.slots.push_reserved(Slot { update, row: None });
        version
    }

    /// Finishes a numbered version by its row, and gives the version that is published now: the greatest one up to which
    /// all are finished. A row above an unfinished version is kept until that one is finished.
    ///
    /// `Already` exactly where the version is finished. On an error the row comes back, and the window has changed nothing.
    pub fn finish(&mut self, version: u64, row: Arc<Row>) -> Result<u64, (FinishFault, Arc<Row>)>
        requires numbered { (1 ≤ version) × (version ≤ length self.old.numbered.log) }
        requires own { IsRowIn self.old.numbered version (arc_value row) }
        ensures finished { IfOk result (λ _. self.new.numbered ≡ with_finished self.old.numbered version (arc_value row)) }
        ensures updates { IfOk result (λ published. self.new.updates ≡ drop (published - published_of self.old.numbered) self.old.updates) }
        ensures published { IfOk result (λ published. published ≡ published_of (with_finished self.old.numbered version (arc_value row))) }
        ensures unfinished { IfOk result (λ _. is_finished self.old.numbered version ≡ false) }
        ensures already { IfErr result (λ e. (e.0 ≡ Already) ↔ (is_finished self.old.numbered version ≡ true)) }
        ensures same { IfErr result (λ e. (e.1 ≡ row) × (self.new ≡ self.old)) }
    {
        if self.is_finished(version) {
            return Err((FinishFault::Already, row));
        }
        let published = self.snapshot.version();
        let slot = (version - published - 1) as usize;
        if slot > 0 {
            self.slots[slot].row = Some(row);
            return Ok(published);
        }
        let next = match moved_on(&self.snapshot, row, &self.slots[1..]) {
            Ok(next) => next,
            Err(row) => return Err((FinishFault::NoMemory, row)),
        };
        let now = next.version();
        let passed = now - published;
        self.snapshot = next;
        self.waiting.drop_first(passed as u32);
        drop_first(&mut self.slots, passed as usize);
        Ok(now)
    }

    /// Whether that numbered version is finished.
    pub fn is_finished(&self, version: u64) -> bool
        requires { (1 ≤ version) × (version ≤ length self.now.numbered.log) }
        ensures { result ≡ is_finished self.now.numbered version }
    {
        let published = self.snapshot.version();
        if version <= published {
            return true;
        }
        self.slots[(version - published - 1) as usize].row.is_some()
    }

    /// Which of the waiting updates that version is, the least being number 0. It is numbered and not published.
    pub fn place(&self, version: u64) -> u32
        requires { (published_of self.now.numbered < version) × (version ≤ length self.now.numbered.log) }
        ensures { result ≡ version - published_of self.now.numbered - 1 }
    {
        (version - self.snapshot.version() - 1) as u32
    }

    /// What was given at the numbering of a version. It is numbered and not published.
    pub fn update_at(&self, version: u64) -> &U
        requires { (published_of self.now.numbered < version) × (version ≤ length self.now.numbered.log) }
        ensures { slice_get self.now.updates (version - published_of self.now.numbered - 1) ≡ Some result.now }
    {
        let place = self.place(version);
        let slot = &self.slots[place as usize];
        &slot.update
    }

    /// The greatest version up to which all are finished.
    pub fn published(&self) -> u64
        ensures { result ≡ published_of self.now.numbered }
    {
        self.snapshot.version()
    }

    /// The greatest numbered version.
    pub fn assigned(&self) -> u64
        ensures log { result ≡ length self.now.numbered.log }
        ensures rows { result ≡ length self.now.numbered.rows }
    {
        self.snapshot.version() + self.waiting.count() as u64
    }

    /// Each numbered update has its place for a row, the published version is one, and of each update that waits something was given.
    /// For proofs: it does nothing.
    pub fn stands(&self)
        ensures log { length self.now.numbered.log ≡ length self.now.numbered.rows }
        ensures version { IsVersion (version_of self.now.numbered) }
        ensures waits { published_of self.now.numbered + length self.now.updates ≡ length self.now.numbered.log }
    {
        self.snapshot().stands();
        let _assigned = self.assigned();
        let _slots = &self.slots;
    }

    /// The published version.
    pub fn snapshot(&self) -> &Snapshot
        ensures { result.now ≡ version_of self.now.numbered }
    {
        &self.snapshot
    }

    /// What the updates touch that are numbered and not published.
    pub fn waiting(&self) -> &OpenList
        ensures { result.now ≡ waiting_of self.now.numbered }
    {
        &self.waiting
    }

    /// The snapshot of a published version.
    pub fn snapshot_at(&self, version: u64) -> Result<Snapshot, NoMemory>
        requires { version ≤ published_of self.now.numbered }
        ensures { IfOk result (λ s. s ≡ older_version (version_of self.now.numbered) version) }
    {
        self.snapshot.at(version)
    }
}
