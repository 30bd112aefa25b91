// A numbered update, and what was known of the lower ones at its numbering.
ghost use Rattle.std.specs.Prelude.{◌≡◌, ◌+◌, ◌-◌, ◌*◌, ◌^◌, ◌<◌, ◌≤◌, length, max};
ghost use Rattle.std.specs.Arc.{arc_value};
ghost use Rattle.page_store.specs.Stored.{bytes_of_pages};
ghost use Rattle.range_log.specs.Log.{size_at};
ghost use Rattle.range_log.specs.Extents.{IsLog};
ghost use Rattle.range_log.specs.Open.{open_at};
ghost use Rattle.border_hints.specs.Numbered.{log_with, numbered_update, own_touch, IsValidTicket};

use page_store::Pages;
use range_log::{OpenCopy, laws};
use snapshot::Snapshot;
use std::marker::Model;
use std::sync::Arc;
use tree_geom::{Touch, touched};

/// What a writer is told of the lower versions at the numbering of its update: the published snapshot, and what the updates
/// touch that wait.
#[derive(Drop)]
pub struct Hints {
    pub snapshot: Snapshot,
    pub waiting: OpenCopy,
}

/// A numbered update: where it falls, its stored pages, and the hints of its numbering.
///
/// It stands for what all updates up to its version touch: those of the snapshot, those that wait, and its own.
pub struct Ticket {
    caller: u32,
    blob: u64,
    version: u64,
    at: u64,
    len: u64,
    size: u64,
    // it follows from the place and the size, and is asked for often
    touch: Touch,
    hints: Hints,
    pages: Arc<Pages>,
}

// By hand, so that it is one call wherever a ticket is let go: a derived drop stands, with all its calls, at each such place.
impl Drop for Ticket {
    fn drop(self) {
        let Ticket {
            caller: _,
            blob: _,
            version: _,
            at: _,
            len: _,
            size: _,
            touch: _,
            hints: _,
            pages: _,
        } = self;
    }
}

impl Model for Ticket {
    ghost use Rattle.std.specs.Arc.{arc_value};
    ghost use Rattle.border_hints.specs.Numbered.{NumberedUpdate, numbered_update};
    ghost use Rattle.border_hints.specs.TicketKept.{KeepsTicket};

    ghost Value = { NumberedUpdate };

    ghost view = { λ t. numbered_update t.caller t.blob t.version t.at t.len t.size t.hints.snapshot t.hints.waiting (arc_value t.pages) };

    ghost invariant = { KeepsTicket };
}

impl Ticket {
    /// The ticket of update `version` of the blob: `len` bytes at byte `at`, stored in these pages, after which the blob has
    /// `size` bytes.
    ///
    /// The waiting versions follow that of the snapshot, and the ticket's follows them. The touches of the snapshot and the
    /// waiting ones are those of some updates each of which begins at the size before it at the latest, and so does this one.
    pub fn of(
        caller: u32,
        blob: u64,
        version: u64,
        at: u64,
        len: u64,
        size: u64,
        hints: Hints,
        pages: Arc<Pages>,
    ) -> Ticket
        requires waiting { 0 < length hints.waiting → (open_at hints.waiting 0).version ≡ length hints.snapshot.rows + 1 }
        requires version { version ≡ length hints.snapshot.rows + length hints.waiting + 1 }
        requires of_updates { IsLog hints.snapshot.page_size (log_with hints.snapshot hints.waiting) }
        requires len { len ≡ length (bytes_of_pages (arc_value pages).pages) }
        requires some { 1 ≤ len }
        requires page_size { (arc_value pages).page_size ≡ hints.snapshot.page_size }
        requires at { at ≤ size_at (log_with hints.snapshot hints.waiting) (version - 1) }
        requires size { size ≡ max (size_at (log_with hints.snapshot hints.waiting) (version - 1)) (at + len) }
        requires fits { size ≤ 2 ^ 40 }
        ensures { result ≡ numbered_update caller blob version at len size hints.snapshot hints.waiting (arc_value pages) }
    {
        laws::logs_are_grown();
        laws::older_versions_stay();
        laws::page_bytes_stay();
        hints.snapshot.stands();
        hints.waiting.stands();
        let touch = touched(hints.snapshot.page_size(), at, len, size);
        Ticket {
            caller,
            blob,
            version,
            at,
            len,
            size,
            touch,
            hints,
            pages,
        }
    }

    /// Who made the update.
    pub fn caller(&self) -> u32
        ensures { result ≡ self.now.caller }
    {
        self.caller
    }

    /// The blob that the update was made on.
    pub fn blob(&self) -> u64
        ensures { result ≡ self.now.blob }
    {
        self.blob
    }

    /// The update's version.
    pub fn version(&self) -> u64
        ensures version { result ≡ self.now.version }
        ensures stands { IsValidTicket self.now }
    {
        self.version
    }

    /// A ticket's parts fit together, as those of a numbered update. For proofs: it does nothing.
    pub fn stands(&self)
        ensures { IsValidTicket self.now }
    {
        let _version = self.version;
    }

    /// The byte of the blob at which the update begins.
    pub fn at(&self) -> u64
        ensures { result ≡ self.now.at }
    {
        self.at
    }

    /// How many bytes the update has.
    pub fn len(&self) -> u64
        ensures { result ≡ self.now.len }
    {
        self.len
    }

    /// How many bytes the blob has after the update.
    pub fn size(&self) -> u64
        ensures { result ≡ self.now.size }
    {
        self.size
    }

    /// What was known of the lower versions at the numbering.
    pub fn hints(&self) -> &Hints
        ensures snapshot { result.now.snapshot ≡ self.now.snapshot }
        ensures waiting { result.now.waiting ≡ self.now.waiting }
    {
        &self.hints
    }

    /// The update's stored pages.
    pub fn pages(&self) -> &Arc<Pages>
        ensures { arc_value result.now ≡ self.now.pages }
    {
        &self.pages
    }

    /// What the update touches, and the blob's size after it.
    pub fn touch(&self) -> Touch
        ensures { result ≡ own_touch self.now }
    {
        self.touch
    }
}
