// A desk as the state of a turn lock.
ghost use Rattle.std.specs.Prelude.{◌≡◌, ◌<◌, ◌^◌, length};

use crate::desk::Desk;
use blob_model::{Event, Limits};
use node_store::NodeHouse;
use page_store::Houses;
use tree_geom::PageSize;
use turn_lock::Journaled;

/// What no act on a desk changes. It is for contracts alone: no value of it is made.
pub struct DeskFixed {
    /// How much the desk takes.
    pub limits: Limits,
    /// The page size of all blobs.
    pub page_size: PageSize,
    /// The houses that the pages are of.
    pub houses: Houses,
    /// The house that the nodes are of.
    pub nodes: NodeHouse,
}

impl Journaled for Desk {
    ghost use Rattle.version_manager.specs.Log.{tagged, fixed_of};

    type Entry = Event;

    type Fixed = DeskFixed;

    ghost history = { λ d. tagged d.history };

    ghost fixed = { λ d. fixed_of d };

    fn count(&self) -> u64 {
        self.entries()
    }
}
