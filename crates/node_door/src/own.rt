//! The pages that a door stored.
ghost use Rattle.std.specs.Prelude.{◌≡◌, ℕ, ◌<◌, [], OnOk};
ghost use Rattle.node_door.specs.Door.{id_of, SameOwn, AddsOwn};

use faults::NoMemory;
use std::alloc::Global;
use std::collections::HashMap;
use std::marker::Model;

/// The places of the pages that a door stored, and the ids that the node has them under. Contracts see the pairs, in any order, and
/// for how many more there is room.
#[derive(Drop)]
pub(crate) struct OwnPages {
    ids: HashMap<u64, u64>,
}

impl Model for OwnPages {
    ghost use Rattle.std.specs.HashMap.{spare};
    ghost use Rattle.node_door.specs.Own.{OwnAt};

    ghost Value = { OwnAt };

    ghost view = { λ o. record { pages = o.ids.entries; spare = spare o.ids } };
}

impl OwnPages {
    /// No pages.
    pub(crate) fn new(alloc: Global) -> OwnPages
        ensures { result.pages ≡ [] }
    {
        OwnPages {
            ids: HashMap::new(alloc),
        }
    }

    /// Makes room for one more.
    pub(crate) fn reserve(&mut self) -> Result<(), NoMemory>
        ensures same { SameOwn self.old.pages self.new.pages }
        ensures room { OnOk result (0 < self.new.spare) }
    {
        Ok(self.ids.reserve(1)?)
    }

    /// The id of the page at a place, where the door stored it.
    pub(crate) fn id(&self, place: u64) -> Option<u64>
        ensures { result ≡ id_of self.now.pages place }
    {
        match self.ids.get(&place) {
            Some(id) => Some(*id),
            None => None,
        }
    }

    /// One page more, for which there is room.
    pub(crate) fn add(&mut self, place: u64, id: u64)
        requires { 0 < self.old.spare }
        ensures { AddsOwn self.old.pages place id self.new.pages }
    {
        match self.ids.insert(place, id) {
            Ok(_) => {}
            Err(_) => unreachable!(),
        }
    }
}
