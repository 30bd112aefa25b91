//! The book of loads that all sessions place by.

ghost use Rattle.std.specs.Prelude.{ℕ, ◌≡◌, All, IfOk, IsOk, length};
ghost use Rattle.provider_manager.specs.Loads.{IsEven};
ghost use Rattle.provider_manager.specs.Placed.{IsSpread, IsPlacedEvenly};
ghost use Rattle.provider_manager.specs.Book.{Book, Counts};

use crate::NoMemory;
use crate::book::LoadBook;
use crate::even::EvenBook;
use crate::placements::{Placements, room_for};
use std::alloc::Global;
use std::marker::Model;
use std::sync::{Mutex, Wait};

/// A book of loads that sessions of several threads share.
///
/// The numbers of providers and of replicas are kept beside the lock, so that a caller knows them.
pub struct SharedLoads {
    providers: u32,
    replicas: u32,
    book: Mutex<EvenBook>,
}

// By hand, so that it is one call wherever a book is let go: a derived drop stands, with all its calls, at each such place.
impl Drop for SharedLoads {
    fn drop(self) {
        let SharedLoads {
            providers: _,
            replicas: _,
            book: _,
        } = self;
    }
}

impl Model for SharedLoads {
    ghost use Rattle.provider_manager.specs.Book.{AreCounts, Counts};

    ghost Value = { Counts };

    ghost view = { λ s. record { providers = s.providers; replicas = s.replicas } };

    ghost invariant = { λ s. AreCounts s.providers s.replicas };
}

impl SharedLoads {
    /// Shares a book.
    pub fn new(book: LoadBook) -> SharedLoads
        requires { IsEven book.loads }
        ensures providers { result.providers ≡ length book.loads }
        ensures replicas { result.replicas ≡ book.replicas }
    {
        SharedLoads {
            providers: book.providers(),
            replicas: book.replicas(),
            book: Mutex::new(EvenBook::of_book(book)),
        }
    }

    /// Places pages in turn, each at the providers that are least loaded then. It waits for the book's lock.
    ///
    /// Where the loads would become more than a book counts, the least of them is first taken from each,
    /// so that want of memory is the one refusal. Room for the placements is made before the lock is taken. A single page takes no
    /// memory, so it is always placed.
    pub fn place(&self, rt: &impl Wait, alloc: Global, pages: u32) -> Result<Placements, NoMemory>
        ensures pages { IfOk result (λ placed. length placed ≡ pages) }
        ensures spread { IfOk result (All (IsSpread self.now.providers self.now.replicas)) }
        ensures evenly { IfOk result (IsPlacedEvenly self.now.providers self.now.replicas) }
        ensures one { pages ≡ 1 → IsOk result }
    {
        if pages == 1 {
            return Ok(self.place_one(rt));
        }
        let mut placed = room_for(alloc, pages)?;
        // A book under the lock has these numbers, but no type says so: they are compared.
        self.book
            .lock(rt)
            .place_each(self.providers, self.replicas, placed.as_mut_slice());
        Ok(Placements::of_pages(placed))
    }
    // Places one page, by the same book and in the same way. It takes no memory.
    fn place_one(&self, rt: &impl Wait) -> Placements
        ensures page { length result ≡ 1 }
        ensures spread { All (IsSpread self.now.providers self.now.replicas) result }
        ensures evenly { IsPlacedEvenly self.now.providers self.now.replicas result }
    {
        let page = self.book.lock(rt).place_one(self.providers, self.replicas);
        Placements::of_page(page)
    }
}
