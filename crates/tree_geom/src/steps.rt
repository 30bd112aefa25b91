// How many nodes a walk visits.
ghost use Rattle.std.specs.Prelude.{◌≡◌, ℕ, ◌+◌, ◌-◌, ◌^◌, ◌<◌, ◌≤◌, min};

use std::marker::Model;
use std::sync::ledger::{Blank, Book, Ledger, Share};

/// Counts the node steps of walks: how many times a node was asked for.
///
/// It is tied to its ledger, so a call that is lent one can add steps, and can't take any back or put a new counter in its
/// place. A function that wants no count of its own calls one that is generic in the ledger, at `Brand`, with a `Blank`.
#[derive(Drop)]
pub struct Steps<L: Ledger> {
    book: Book<L>,
    share: Share<L>,
    told: u64,
}

impl<L: Ledger> Model for Steps<L> {
    ghost Value = { ℕ };

    ghost view = { λ s. s.book.total };

    ghost invariant = { λ s. (0 < s.share.parts) × (s.told ≡ min s.book.total (2 ^ 64 - 1)) };
}

impl<L: Ledger> Steps<L> {
    /// A counter of no steps, opened from the ledger's own blank, which has a part at least.
    pub fn open(blank: Blank) -> Steps<L>
        requires name { blank.name ≡ L.name }
        requires parts { blank.parts ≡ L.parts }
        requires some { 0 < blank.parts }
        ensures { result ≡ 0 }
    {
        let (book, share) = blank.open();
        Steps {
            book,
            share,
            told: 0,
        }
    }

    /// How many steps were taken, up to the greatest u64.
    pub fn taken(&self) -> u64
        ensures { result ≡ min self.now (2 ^ 64 - 1) }
    {
        self.told
    }

    /// Counts one step more.
    pub fn tick(&mut self)
        ensures { self.new ≡ self.old + 1 }
    {
        self.book.add(&mut self.share, 1);
        self.told = self.told.saturating_add(1);
    }
}
