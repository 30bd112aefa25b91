// Who adds to a board's list. There is one for each board, and it knows the whole list.
ghost use Rattle.std.specs.Prelude.{◌≡◌, ◌<◌, ◌+◌, ◌++◌, ◌∷◌, [], length, MatchBool, IfSome};
ghost use mathlib.Core.List.{IsPrefix};
ghost use Rattle.read_board.specs.Refreshes.{IsRising, MayFollow};

use crate::book::{Front, Head};
use crate::refresh::Refresh;
use client_session::Shared;
use logbook::Pen;
use std::marker::Model;

// How many refreshes a list has at most. They are never so many.
const MOST_REFRESHES: u64 = 1 << 60;

// The list, and the one right to add to it: the pen of the word that comes home next.
#[derive(Drop)]
pub(crate) struct Author {
    head: Head,
    pen: Pen,
    front: Front,
}

impl Model for Author {
    ghost use Rattle.std.specs.Prelude.{◌≡◌, ◌+◌, length};
    ghost use Rattle.read_board.specs.Fronts.{FrontState};
    ghost use Rattle.read_board.specs.Rules.{head_of, IsPenOf};

    ghost Value = { FrontState };

    ghost view = { λ a. a.front };

    ghost invariant = { λ a. (a.head ≡ head_of a.front.board.book) × (a.pen.book ≡ a.front.board.book) × IsPenOf (length a.front.list + 2) a.pen.nib };
}

impl Author {
    // The author of an empty list, of a board of that store. There is always one: that another took the list's first pen can't be, and
    // only the proof doesn't know it.
    pub(crate) fn new(store: &Shared) -> Option<Author>
        ensures empty { IfSome result (λ a. a.list ≡ []) }
        ensures store { IfSome result (λ a. a.board.store ≡ store.now ∷ []) }
    {
        let (head, front) = Front::open(store);
        let Some(pen) = front.pen_after(&head, 2) else {
            return None;
        };
        Some(Author { head, pen, front })
    }

    // The list.
    pub(crate) fn front(&self) -> &Front
        ensures { result.now ≡ self.now }
    {
        &self.front
    }

    // Adds a refresh to the list, and says whether it did. It did not where the list is too long, or where another has added to it, which can't be.
    pub(crate) fn add(&mut self, refresh: &Refresh) -> bool
        requires { MayFollow self.old.list refresh.now }
        ensures added { MatchBool result (self.new.list ≡ self.old.list ++ refresh.now ∷ []) (self.new ≡ self.old) }
        ensures board { self.new.board ≡ self.old.board }
    {
        let count = self.front.len();
        if count >= MOST_REFRESHES {
            return false;
        }
        let Some(next) = self.front.pen_after(&self.head, count + 3) else {
            return false;
        };
        let added = self.front.add(&self.head, &mut self.pen, refresh);
        if added {
            self.pen = next;
        }
        added
    }

    // Another's beginning of the list is one of this list. For proofs: it changes nothing.
    pub(crate) fn meet(&mut self, other: &Front)
        requires { other.now.board.book ≡ self.old.board.book }
        ensures begins { IsPrefix other.now.list self.new.list }
        ensures same { self.new ≡ self.old }
    {
        self.front.meet(&self.head, &mut self.pen, other);
    }
}
