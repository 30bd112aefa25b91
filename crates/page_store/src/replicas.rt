// A page with its replicas.
ghost use Rattle.std.specs.Prelude.{◌≡◌, ◌<◌, ◌≤◌, length, IfOk, OnOk, OnErr, Some, slice_get, [], ◌∷◌, ◌++◌};
ghost use Rattle.page_store.specs.Replicas.{others_in};

use crate::NoMemory;
use crate::house::PageRef;
use std::alloc::Global;
use std::marker::Model;
use std::mem;

// The replicas of a page beside its first one.
#[derive(Drop)]
enum Others {
    Alone,
    Second(PageRef),
    Several(Vec<PageRef>),
}

/// A page with its replicas: 1 to 8 references that all stand for the same bytes. Most stores keep few replicas: two lie in the page,
/// and where there are more, those after the first lie in one block of memory.
pub struct StoredPage {
    first: PageRef,
    others: Others,
    alloc: Global,
}

// By hand, so that it is one call wherever a page is let go: a derived drop stands, with all its calls, at each such place.
impl Drop for StoredPage {
    fn drop(self) {
        let StoredPage {
            first: _,
            others: _,
            alloc: _,
        } = self;
    }
}

impl Model for StoredPage {
    ghost use Rattle.std.specs.Prelude.{◌∷◌, map};
    ghost use Rattle.page_store.specs.Stored.{Stored, stored_coded};
    ghost use Rattle.page_store.specs.Replicas.{AreOthers, others_in};

    ghost Value = { Stored };

    ghost coded = { stored_coded };

    ghost view = { λ s. record { bytes = s.first.bytes; spots = s.first.spot ∷ map (λ p. p.spot) (others_in s.others) } };

    ghost invariant = { λ s. AreOthers s.first.bytes (others_in s.others) };
}

impl StoredPage {
    /// A page with one replica. It takes no memory.
    pub fn of(alloc: Global, first: PageRef) -> StoredPage
        ensures { result ≡ record { bytes = first.bytes; spots = first.spot ∷ [] } }
    {
        StoredPage {
            first,
            others: Others::Alone,
            alloc,
        }
    }

    /// Adds a replica at the end, where `more` replicas may still follow. A page that has no room left asks once for that
    /// of this replica and of those, so it takes one block of memory, and none as long as it has two replicas. Where memory
    /// is refused, the page stays as it was.
    pub fn add(&mut self, other: PageRef, more: u32) -> Result<(), NoMemory>
        requires same { other.bytes ≡ self.old.bytes }
        requires room { length self.old.spots < 8 }
        ensures added { OnOk result (self.new ≡ record { bytes = self.old.bytes; spots = self.old.spots ++ other.spot ∷ [] }) }
        ensures err { OnErr result (self.new ≡ self.old) }
    {
        self.others.add(self.alloc, other, more)
    }

    /// The length of the page, in bytes.
    pub fn len(&self) -> u32
        ensures { result ≡ length self.now.bytes }
    {
        self.first.len()
    }

    /// The number of replicas, 1 to 8.
    pub fn replica_count(&self) -> u32
        ensures count { result ≡ length self.now.spots }
        ensures some { 1 ≤ result }
        ensures few { result ≤ 8 }
    {
        match &self.others {
            Others::Alone => 1,
            Others::Second(_) => 2,
            Others::Several(others) => others.len() as u32 + 1,
        }
    }

    /// Replica `i`, from 0, in the order in which they were added.
    pub fn replica(&self, i: u32) -> &PageRef
        requires { i < length self.now.spots }
        ensures spot { slice_get self.now.spots i ≡ Some result.now.spot }
        ensures same { result.now.bytes ≡ self.now.bytes }
    {
        if i == 0 {
            return &self.first;
        }
        self.others.at(i as usize - 1)
    }
}

impl Others {
    // One more replica, as `StoredPage::add` adds it.
    fn add(&mut self, alloc: Global, other: PageRef, more: u32) -> Result<(), NoMemory>
        ensures added { OnOk result (others_in self.new ≡ others_in self.old ++ other ∷ []) }
        ensures err { OnErr result (others_in self.new ≡ others_in self.old) }
    {
        match self {
            Others::Alone => *self = Others::Second(other),
            Others::Second(_) => {
                let mut several = Vec::with_capacity(alloc, more as usize + 2)?;
                let Others::Second(second) = mem::replace(self, Others::Alone) else {
                    unreachable!()
                };
                several.push_reserved(second);
                several.push_reserved(other);
                *self = Others::Several(several);
            }
            Others::Several(several) => {
                several.reserve_exact(more as usize + 1)?;
                several.push_reserved(other);
            }
        }
        Ok(())
    }

    // Replica `i` of these, from 0.
    fn at(&self, i: usize) -> &PageRef
        requires { i < length (others_in self.now) }
        ensures { slice_get (others_in self.now) i ≡ Some result.now }
    {
        match self {
            Others::Alone => unreachable!(),
            Others::Second(second) => second,
            Others::Several(several) => &several[i],
        }
    }
}
