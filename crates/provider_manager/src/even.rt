//! The book that the sessions share.

ghost use Rattle.std.specs.Prelude.{ℕ, ◌≡◌, ◌+◌, ◌*◌, ◌<◌, ◌≤◌, ◌^◌, [], ◌∷◌, All, length, map, sum};
ghost use Rattle.replica_place.specs.Chosen.{chosen};
ghost use Rattle.provider_manager.specs.Loads.{IsEven};

use crate::book::LoadBook;
use replica_place::Placement;

/// A book in which no two loads differ by more than 1.
#[derive(Debug, Drop)]
pub(crate) struct EvenBook {
    book: LoadBook,
    pub ghost even: { IsEven book.loads },
}

impl EvenBook {
    ghost use Rattle.provider_manager.specs.Book.{AreCounts, IsOf, IsMadeFit, IsPlacedBy};
    ghost use Rattle.provider_manager.specs.Placed.{IsSpread, IsPlacedEvenly};

    pub(crate) fn of_book(book: LoadBook) -> EvenBook
        requires { IsEven book.loads }
        ensures { result.book ≡ book }
    {
        EvenBook { book }
    }

    // Places as many pages as there is room for, over a book of these numbers. It takes no memory.
    pub(crate) fn place_each(&mut self, providers: u32, replicas: u32, pages: &mut [Placement])
        requires counts { AreCounts providers replicas }
        requires pages { length pages.old < 2 ^ 32 }
        ensures spread { All (IsSpread providers replicas) (map chosen pages.new) }
        ensures evenly { IsPlacedEvenly providers replicas (map chosen pages.new) }
        ensures placed { IsPlacedBy providers replicas (map chosen pages.new) self.old.book self.new.book }
    {
        self.make_fit(providers, replicas, pages.len() as u32);
        self.book.place_each(pages);
    }

    // Places one page so. It takes no memory either.
    pub(crate) fn place_one(&mut self, providers: u32, replicas: u32) -> Placement
        requires { AreCounts providers replicas }
        ensures spread { IsSpread providers replicas (chosen result) }
        ensures evenly { IsPlacedEvenly providers replicas (chosen result ∷ []) }
        ensures placed { IsPlacedBy providers replicas (chosen result ∷ []) self.old.book self.new.book }
    {
        self.make_fit(providers, replicas, 1);
        self.book.place_one()
    }

    // Makes it a book of these numbers that so many pages don't take past what a book counts.
    fn make_fit(&mut self, providers: u32, replicas: u32, pages: u32)
        requires { AreCounts providers replicas }
        ensures providers { length self.new.book.loads ≡ providers }
        ensures replicas { self.new.book.replicas ≡ replicas }
        ensures fits { sum self.new.book.loads + pages * replicas ≤ 2 ^ 62 }
        ensures made { IsMadeFit providers replicas pages self.old.book self.new.book }
    {
        if self.book.providers() != providers || self.book.replicas() != replicas {
            self.book.restart(providers, replicas);
        }
        if self.book.is_spent(pages) {
            self.book.lower();
        }
    }
}
