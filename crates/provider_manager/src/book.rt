//! The loads of a store's providers.

ghost use Rattle.std.specs.Prelude.{ℕ, ◌≡◌, ◌↔◌, ◌+◌, ◌*◌, ◌<◌, ◌≤◌, ◌^◌, List, All, IfOk, OnOk, OnErr, IsErrOf, IsTrue, length, map, replicate, sum};
ghost use Rattle.replica_place.specs.Chosen.{chosen};
ghost use Rattle.replica_place.specs.Order.{least, IsLeast};
ghost use Rattle.provider_manager.specs.Loads.{with_replicas, loads_after, IsEven, IsLowered};
ghost use Rattle.provider_manager.specs.Placed.{PlacedInTurn, IsSpread};
ghost use Rattle.provider_manager.specs.Book.{Book, AreCounts};

use crate::NoMemory;
use crate::loads::{add_replicas, least_load, lower_by};
use crate::placements::{Placements, room_for};
use replica_place::{Placement, choose};
use std::alloc::Global;
use std::marker::Model;
use thiserror::Error;

/// The greatest number of providers.
pub const MOST_PROVIDERS: usize = 64;

/// The greatest number of replicas that a book counts, over all providers.
pub const MOST_REPLICAS_PLACED: u64 = 1 << 62;

/// Why pages could not be placed.
#[derive(Clone, Copy, Debug, PartialEq, Eq, Error)]
pub enum PlaceFault {
    /// The replicas placed would be more than a book counts.
    #[error("too many replicas were placed")]
    PlacesSpent,
    /// Memory ran out.
    #[error("out of memory")]
    NoMemory,
}

impl From<NoMemory> for PlaceFault {
    ghost use Rattle.provider_manager.specs.declared.book.PlaceFault.TheVariants.{NoMemory as OutOfMemory};

    ghost from_gives = { λ _ e. e ≡ OutOfMemory };

    fn from(_error: NoMemory) -> PlaceFault {
        PlaceFault::NoMemory
    }
}

/// How many replicas each provider was given, and how many each page gets.
#[derive(Debug, Drop)]
pub struct LoadBook {
    loads: Vec<u64>,
    replicas: u32,
    sum: u64,
}

impl Model for LoadBook {
    ghost use Rattle.std.specs.Prelude.{vec_capacity};
    ghost use Rattle.provider_manager.specs.Book.{Book, IsKept};

    ghost Value = { Book };

    ghost view = { λ b. record { loads = b.loads.items; replicas = b.replicas } };

    ghost invariant = { λ b. IsKept b.loads.items (vec_capacity b.loads) b.replicas b.sum };
}

impl LoadBook {
    /// A book of providers that were given nothing yet.
    pub fn new(alloc: Global, providers: u32, replicas: u32) -> Result<LoadBook, NoMemory>
        requires { AreCounts providers replicas }
        ensures loads { IfOk result (λ book. book.loads ≡ replicate providers 0) }
        ensures replicas { IfOk result (λ book. book.replicas ≡ replicas) }
        ensures even { IfOk result (λ book. IsEven book.loads) }
    {
        let mut loads = Vec::with_capacity(alloc, MOST_PROVIDERS)?;
        loads.resize(providers as usize, 0)?;
        Ok(LoadBook {
            loads,
            replicas,
            sum: 0,
        })
    }

    /// A book of providers that were given so many replicas.
    pub fn with_loads(alloc: Global, loads: &[u64], replicas: u32) -> Result<LoadBook, NoMemory>
        requires counts { AreCounts (length loads.now) replicas }
        requires limit { sum loads.now ≤ 2 ^ 62 }
        ensures loads { IfOk result (λ book. book.loads ≡ loads.now) }
        ensures replicas { IfOk result (λ book. book.replicas ≡ replicas) }
    {
        let mut kept = Vec::with_capacity(alloc, MOST_PROVIDERS)?;
        kept.extend_from_slice(loads)?;
        let sum = loads.iter().sum();
        Ok(LoadBook {
            loads: kept,
            replicas,
            sum,
        })
    }

    /// Places pages in turn, each at the providers that are least loaded then; each of these gets one replica more.
    ///
    /// A fault leaves the book as it was.
    pub fn place(&mut self, alloc: Global, pages: u32) -> Result<Placements, PlaceFault>
        ensures pages { IfOk result (λ placed. length placed ≡ pages) }
        ensures in_turn { IfOk result (λ placed. PlacedInTurn self.old.loads self.old.replicas placed) }
        ensures spread { IfOk result (All (IsSpread (length self.old.loads) self.old.replicas)) }
        ensures loads { IfOk result (λ placed. self.new.loads ≡ loads_after self.old.loads placed) }
        ensures sum { OnOk result (sum self.new.loads ≡ sum self.old.loads + pages * self.old.replicas) }
        ensures replicas { self.new.replicas ≡ self.old.replicas }
        ensures even { IsEven self.old.loads → IsEven self.new.loads }

        ensures spent { IsErrOf result PlaceFault.PlacesSpent
            ↔ (2 ^ 62 < sum self.old.loads + pages * self.old.replicas) }
        ensures err { OnErr result (self.new ≡ self.old) }
    {
        if self.is_spent(pages) {
            return Err(PlaceFault::PlacesSpent);
        }
        let mut placed = room_for(alloc, pages)?;
        self.place_each(placed.as_mut_slice());
        Ok(Placements::of_pages(placed))
    }

    pub(crate) fn providers(&self) -> u32
        ensures { result ≡ length self.now.loads }
    {
        self.loads.len() as u32
    }

    pub(crate) fn replicas(&self) -> u32
        ensures { result ≡ self.now.replicas }
    {
        self.replicas
    }

    // Whether so many pages would take the book past what it counts.
    pub(crate) fn is_spent(&self, pages: u32) -> bool
        ensures { IsTrue result ↔ (2 ^ 62 < sum self.now.loads + pages * self.now.replicas) }
    {
        self.sum + u64::from(pages) * u64::from(self.replicas) > MOST_REPLICAS_PLACED
    }

    // Places as many pages as there is room for. It takes no memory.
    pub(crate) fn place_each(&mut self, pages: &mut [Placement])
        requires { sum self.old.loads + length pages.old * self.old.replicas ≤ 2 ^ 62 }
        ensures in_turn { PlacedInTurn self.old.loads self.old.replicas (map chosen pages.new) }
        ensures spread { All (IsSpread (length self.old.loads) self.old.replicas) (map chosen pages.new) }
        ensures loads { self.new.loads ≡ loads_after self.old.loads (map chosen pages.new) }
        ensures sum { sum self.new.loads ≡ sum self.old.loads + length pages.old * self.old.replicas }
        ensures replicas { self.new.replicas ≡ self.old.replicas }
        ensures even { IsEven self.old.loads → IsEven self.new.loads }
    {
        for page in pages.iter_mut() {
            *page = self.place_one();
        }
    }

    // Places one page. It takes no memory.
    pub(crate) fn place_one(&mut self) -> Placement
        requires { sum self.old.loads + self.old.replicas ≤ 2 ^ 62 }
        ensures least { chosen result ≡ least self.old.loads self.old.replicas }
        ensures spread { IsSpread (length self.old.loads) self.old.replicas (chosen result) }
        ensures loads { self.new.loads ≡ with_replicas self.old.loads (chosen result) }
        ensures count { length self.new.loads ≡ length self.old.loads }
        ensures sum { sum self.new.loads ≡ sum self.old.loads + self.old.replicas }
        ensures replicas { self.new.replicas ≡ self.old.replicas }
        ensures even { IsEven self.old.loads → IsEven self.new.loads }
    {
        let placement = choose(self.loads.as_slice(), self.replicas);
        add_replicas(self.loads.as_mut_slice(), placement.chosen());
        self.sum += u64::from(self.replicas);
        placement
    }

    // Takes the least load from every load, which leaves every choice as it was.
    pub(crate) fn lower(&mut self)
        ensures lowered { IsLowered self.old.loads self.new.loads }
        ensures choices { (r : ℕ) (chosen : List ℕ) → IsLeast self.old.loads r chosen → IsLeast self.new.loads r chosen }
        ensures count { length self.new.loads ≡ length self.old.loads }
        ensures replicas { self.new.replicas ≡ self.old.replicas }
        ensures even { IsEven self.old.loads → IsEven self.new.loads }
        ensures small { IsEven self.old.loads → sum self.new.loads ≤ 64 }
    {
        let least = least_load(self.loads.as_slice());
        lower_by(self.loads.as_mut_slice(), least);
        self.sum -= least * self.loads.len() as u64;
    }

    // Makes this the new book of these numbers. It takes no memory, since there is room for every number of providers.
    pub(crate) fn restart(&mut self, providers: u32, replicas: u32)
        requires { AreCounts providers replicas }
        ensures loads { self.new.loads ≡ replicate providers 0 }
        ensures replicas { self.new.replicas ≡ replicas }
        ensures even { IsEven self.new.loads }
    {
        self.loads.clear();
        self.loads.resize(providers as usize, 0).unwrap();
        self.replicas = replicas;
        self.sum = 0;
    }
}
