//! The placements of the pages of one update.

ghost use Rattle.std.specs.Prelude.{ℕ, ◌≡◌, ◌<◌, ◌^◌, List, [], ◌∷◌, IfOk, length, map, slice_index_or, vec_len};
ghost use Rattle.replica_place.specs.Chosen.{chosen};

use crate::NoMemory;
use replica_place::{MOST_REPLICAS, Placement};
use std::alloc::Global;
use std::marker::Model;
use std::slice;

/// A placement for each page of an update, in the order of the pages. That of one page takes no memory of its own.
///
/// A contract sees the list of the pages' providers, each page with a list of its own.
#[derive(Debug, Drop)]
pub struct Placements {
    pages: Places,
}

// Most updates have one page.
#[derive(Debug, Drop)]
enum Places {
    One(Placement),
    Several(Vec<Placement>),
}

impl Model for Placements {
    ghost use Rattle.std.specs.Prelude.{ℕ, ◌<◌, ◌^◌, List, length, map};
    ghost use Rattle.replica_place.specs.Chosen.{chosen};
    ghost use Rattle.provider_manager.specs.Places.{placements_of};

    ghost Value = { List (List ℕ) };

    ghost view = { λ p. map chosen (placements_of p.pages) };

    ghost invariant = { λ p. length (placements_of p.pages) < 2 ^ 32 };
}

impl Placements {
    pub(crate) fn of_pages(pages: Vec<Placement>) -> Placements
        requires { vec_len pages < 2 ^ 32 }
        ensures { result ≡ map chosen pages.items }
    {
        Placements {
            pages: Places::Several(pages),
        }
    }

    pub(crate) fn of_page(page: Placement) -> Placements
        ensures { result ≡ chosen page ∷ [] }
    {
        Placements {
            pages: Places::One(page),
        }
    }

    // The placements, in the order of the pages.
    fn all(&self) -> &[Placement]
        ensures all { map chosen result.now ≡ self.now }
        ensures few { length result.now < 2 ^ 32 }
    {
        match &self.pages {
            Places::One(page) => slice::from_ref(page),
            Places::Several(pages) => pages.as_slice(),
        }
    }

    /// The number of pages.
    pub fn count(&self) -> u32
        ensures { result ≡ length self.now }
    {
        self.all().len() as u32
    }

    /// The placement of a page; pages count from 0.
    pub fn of(&self, page: u32) -> &Placement
        requires { page < length self.now }
        ensures { chosen result.now ≡ slice_index_or self.now page [] }
    {
        &self.all()[page as usize]
    }
}

// Room for the placements of so many pages. What it holds has no meaning yet.
pub(crate) fn room_for(alloc: Global, pages: u32) -> Result<Vec<Placement>, NoMemory>
    ensures { IfOk result (λ room. vec_len room ≡ pages) }
{
    let blank = Placement {
        count: 1,
        providers: [1; MOST_REPLICAS],
    };
    Ok(vec![in alloc; blank; pages as usize]?)
}
