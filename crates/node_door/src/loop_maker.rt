//! A maker of doors to nodes in memory.
ghost use Rattle.std.specs.Prelude.{◌≡◌, IfOk};
ghost use Rattle.node_door.specs.Loop.{new_link, new_door};

use crate::door::StreamDoor;
use crate::loop_link::LoopLink;
use faults::NoMemory;
use page_node::Shelf;
use page_store::DoorMaker;
use std::alloc::Global;
use std::marker::Model;
use tree_geom::PageSize;

/// Makes doors to nodes of their own, each over a link in memory. Contracts see the page size of the nodes, for how many bytes of
/// either kind a link has room, and the faults of the doors that came back.
#[derive(Drop)]
pub struct LoopMaker {
    alloc: Global,
    page_size: PageSize,
    room: usize,
    faults: u64,
}

impl Model for LoopMaker {
    ghost use Rattle.node_door.specs.Loop.{MakerAt};

    ghost Value = { MakerAt };

    ghost view = { λ m. record { page_size = m.page_size; room = m.room; faults = m.faults } };
}

impl LoopMaker {
    /// A maker whose count is 0. Its nodes have pages of that size, and its links have room for so many bytes of either kind.
    pub fn new(alloc: Global, page_size: PageSize, room: usize) -> LoopMaker
        ensures { result ≡ record { page_size = page_size; room = room; faults = 0 } }
    {
        LoopMaker {
            alloc,
            page_size,
            room,
            faults: 0,
        }
    }

    /// A link to a node of its own that keeps nothing, as each of its doors has one.
    pub fn link(&self) -> Result<LoopLink, NoMemory>
        ensures { IfOk result (λ link. link ≡ new_link self.now.page_size self.now.room) }
    {
        let shelf = Shelf::new(self.alloc, self.page_size)?;
        LoopLink::new(self.alloc, shelf, self.room)
    }

    /// The faults of the doors that came back, up to the greatest u64.
    pub fn faults(&self) -> u64
        ensures { result ≡ self.now.faults }
    {
        self.faults
    }
}

impl DoorMaker for LoopMaker {
    ghost use Rattle.std.specs.Prelude.{⊤};

    type Door = StreamDoor<LoopLink>;

    ghost is_true = { λ _. ⊤ };

    ghost faults = { λ m. m.faults };

    ghost makes = { λ m provider door. door ≡ new_door m.page_size provider };

    ghost hands_out = { λ old new. new ≡ old };

    ghost takes_back = { λ old new. (new.page_size ≡ old.page_size) × (new.room ≡ old.room) };

    fn make(&mut self, provider: u32) -> Result<StreamDoor<LoopLink>, NoMemory> {
        let _faults = self.faults;
        let link = self.link()?;
        StreamDoor::new(self.alloc, provider, self.page_size, link)
    }

    fn back(&mut self, door: StreamDoor<LoopLink>) {
        self.faults = self.faults.saturating_add(door.faults());
    }
}
