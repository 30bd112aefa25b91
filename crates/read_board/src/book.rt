// The list of all refreshes of a board. It exists in the proofs alone, but for its length.
ghost use Rattle.std.specs.Prelude.{◌≡◌, ◌+◌, ◌==◌, ◌<◌, ◌≤◌, ◌^◌, ◌++◌, ◌∷◌, [], length, MatchBool, IfSome, ⊤};
ghost use mathlib.Core.List.{IsPrefix};
ghost use Rattle.read_board.specs.Refreshes.{IsRising, MayFollow};
ghost use Rattle.read_board.specs.Rules.{head_of, IsPenOf};

use crate::naming::StoreName;
use crate::refresh::Refresh;
use client_session::Shared;
use logbook::{Gain, Offer, Pen, Plain, Play, Rule, Seen, Start, Word};
use std::marker::Model;

// The rule of the list.
pub(crate) struct Law;

impl Rule<Refresh, u64> for Law {
    ghost use Rattle.std.specs.Prelude.{[]};
    ghost use base.Fml.{ftrue};
    ghost use Rattle.read_board.specs.Rules.{IsKept};

    ghost holds = { λ cells log. IsKept cells log };

    ghost first = { [] };

    ghost hinted = { λ n log. Unit {0} };

    ghost shows = { λ log. [] };

    ghost keeps = { λ names log. ftrue };

    ghost moves = { λ ask before after answer. Unit {0} };
}

// Callers trade nothing.
pub(crate) struct Nothing;

impl Gain<Refresh, u64> for Nothing {
    ghost use base.Fml.{ftrue};

    ghost after = { λ names about answer. ftrue };
}

// A step that makes room for one more refresh.
pub(crate) struct Open;

impl Play<Refresh, u64> for Open {
    ghost use Rattle.read_board.specs.Rules.{Opens};

    ghost then = { Opens };
}

// A step that adds a refresh.
pub(crate) struct Add;

impl Play<Refresh, u64> for Add {
    ghost use Rattle.read_board.specs.Rules.{Adds};

    ghost then = { Adds };
}

impl Plain<Refresh, Refresh, u64> for Add {
    ghost use Rattle.std.specs.Prelude.{None};

    ghost ask = { λ r. r };

    ghost state = { λ _. None };
}

// A step that changes nothing.
pub(crate) struct Meet;

impl Play<Refresh, u64> for Meet {
    ghost use Rattle.read_board.specs.Rules.{Meets};

    ghost then = { Meets };
}

impl Plain<u64, Refresh, u64> for Meet {
    ghost use Rattle.std.specs.Prelude.{None};
    ghost use Rattle.read_board.specs.Rules.{no_entry};

    ghost ask = { λ _. no_entry };

    ghost state = { λ _. None };
}

// A beginning of a board's list, that was seen.
#[derive(Drop)]
pub(crate) struct Front {
    count: u64,
    seen: Seen<Refresh, u64, Law>,
    of: StoreName,
}

impl Model for Front {
    ghost use Rattle.std.specs.Prelude.{◌≡◌, length};
    ghost use Rattle.read_board.specs.Refreshes.{IsRising};
    ghost use Rattle.read_board.specs.Fronts.{FrontState};

    ghost Value = { FrontState };

    ghost view = { λ f. record { board = record { book = f.seen.book; store = f.of }; list = f.seen.log } };

    ghost invariant = { λ f. (f.count ≡ length f.seen.log) × IsRising f.seen.log };
}

// Where the refreshes and the words are counted. The author alone has it.
pub(crate) type Head = Word<Refresh, u64, Law>;

impl Front {
    // An empty list, of a board of that store.
    pub(crate) fn open(store: &Shared) -> (Head, Front)
        ensures head { result.0 ≡ head_of result.1.board.book }
        ensures empty { result.1.list ≡ [] }
        ensures store { result.1.board.store ≡ store.now ∷ [] }
    {
        let (seen, mut first, _second) = Seen::open(Start::alone(), 2, 0);
        let front = Front {
            count: 0,
            seen,
            of: StoreName::of(store),
        };
        (Word::tracked(2, &mut first), front)
    }

    // How many refreshes it has.
    pub(crate) fn len(&self) -> u64
        ensures { result ≡ length self.now.list }
    {
        self.count
    }

    // What it has is rising. For proofs: it does nothing.
    pub(crate) fn stands(&self)
        ensures { IsRising self.now.list }
    {
        let _count = self.count;
    }

    // A copy.
    pub(crate) fn again(&self) -> Front
        ensures { result ≡ self.now }
    {
        Front {
            count: self.count,
            seen: self.seen.again(),
            of: self.of.again(),
        }
    }

    // Of two fronts of one board the shorter is a beginning of the longer.
    pub(crate) fn tie(&self, other: &Front)
        requires { self.now.board.book ≡ other.now.board.book }
        ensures this { length self.now.list ≤ length other.now.list → IsPrefix self.now.list other.now.list }
        ensures that { length other.now.list ≤ length self.now.list → IsPrefix other.now.list self.now.list }
    {
        let mut both = self.seen.again();
        both.learn(&other.seen);
    }

    // The pen of a new word, the one after so many, which are all that a list needs that has no more than was seen. There is none where the list
    // is longer or has more words, which cannot be while its author alone adds.
    pub(crate) fn pen_after(&self, head: &Head, words: u64) -> Option<Pen>
        requires head { head.now ≡ head_of self.now.board.book }
        requires room { length self.now.list + words + 1 < 2 ^ 64 }
        requires few { words ≤ length self.now.list + 3 }
        ensures book { IfSome result (λ p. p.book ≡ self.now.board.book) }
        ensures pen { IfSome result (λ p. IsPenOf words p.nib) }
    {
        let mut seen = self.seen.again();
        let mut offer: Offer<Refresh, u64, Law, Nothing> = seen.plain::<Nothing, u64, Meet>(&words);
        let mut pen = seen.no_pen();
        let all = self.count + words;
        let found = head.compare_exchange::<Open, Nothing>(
            all,
            all + 1,
            &mut seen,
            &mut offer,
            &mut pen,
        );
        if found != all {
            return None;
        }
        let _word: Head = Word::tracked(0, &mut pen);
        Some(pen)
    }

    // Adds a refresh to the list, and says whether it did. It did not where the words are more, which cannot be while the author alone adds.
    pub(crate) fn add(&mut self, head: &Head, pen: &mut Pen, refresh: &Refresh) -> bool
        requires head { head.now ≡ head_of self.old.board.book }
        requires book { pen.old.book ≡ self.old.board.book }
        requires pen { IsPenOf (length self.old.list + 2) pen.old.nib }
        requires room { length self.old.list + (length self.old.list + 5) < 2 ^ 64 }
        requires rising { MayFollow self.old.list refresh.now }
        ensures added { MatchBool result (self.new.list ≡ self.old.list ++ refresh.now ∷ []) (self.new.list ≡ self.old.list) }
        ensures book { pen.new.book ≡ pen.old.book }
        ensures pen { MatchBool result ⊤ (pen.new.nib ≡ pen.old.nib) }
        ensures board { self.new.board ≡ self.old.board }
    {
        let mut offer: Offer<Refresh, u64, Law, Nothing> = self
            .seen
            .plain::<Nothing, Refresh, Add>(refresh);
        let all = self.count + (self.count + 4);
        let found = head.compare_exchange::<Add, Nothing>(
            all,
            all + 1,
            &mut self.seen,
            &mut offer,
            pen,
        );
        if found != all {
            return false;
        }
        self.count += 1;
        true
    }

    // Whoever has the pen has seen all that anybody saw.
    pub(crate) fn meet(&self, head: &Head, pen: &mut Pen, other: &Front)
        requires head { head.now ≡ head_of self.now.board.book }
        requires book { pen.old.book ≡ self.now.board.book }
        requires pen { IsPenOf (length self.now.list + 2) pen.old.nib }
        requires one_board { other.now.board.book ≡ self.now.board.book }
        ensures begins { IsPrefix other.now.list self.now.list }
        ensures pen { (pen.new.book ≡ pen.old.book) × (pen.new.nib ≡ pen.old.nib) }
    {
        let mut both = self.seen.again();
        both.learn(&other.seen);
        let mut offer: Offer<Refresh, u64, Law, Nothing> = both.plain::<Nothing, u64, Meet>(&0);
        let _count = head.compare_exchange::<Meet, Nothing>(0, 0, &mut both, &mut offer, pen);
    }
}
