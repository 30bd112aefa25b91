// What a world holds: the store, the pages, what is kept beside each update, the pages that updates store anew, and the nodes.
use crate::world::{FoldKey, UpdateKey};
use blob_model::{Bytes, Limits, Place};
use branching::Parent;
use range_log::{NoMemory, OpenTouch};
use std::alloc::{AllocError, AllocFailed};
use std::marker::Model;
use tree_geom::{Node, NodeKey};

/// Why a step wasn't done.
#[derive(Clone, Copy, PartialEq, Eq, Debug)]
pub(crate) enum ActFault {
    /// The world doesn't allow it.
    NotAllowed,
    /// There was no memory for it.
    NoMemory,
}

impl From<AllocError> for ActFault {
    ghost use Rattle.std.specs.Prelude.{◌≡◌};
    ghost use Rattle.blob_core.specs.declared.state.ActFault.TheVariants.{NoMemory as OutOfMemory};

    ghost from_gives = { λ _ e. e ≡ OutOfMemory };

    fn from(_error: AllocError) -> ActFault {
        ActFault::NoMemory
    }
}

impl<T: Drop> From<AllocFailed<T>> for ActFault {
    ghost use Rattle.std.specs.Prelude.{◌≡◌};
    ghost use Rattle.blob_core.specs.declared.state.ActFault.TheVariants.{NoMemory as OutOfMemory};

    ghost from_gives = { λ _ e. e ≡ OutOfMemory };

    fn from(_failed: AllocFailed<T>) -> ActFault {
        ActFault::NoMemory
    }
}

impl From<NoMemory> for ActFault {
    ghost use Rattle.std.specs.Prelude.{◌≡◌};
    ghost use Rattle.blob_core.specs.declared.state.ActFault.TheVariants.{NoMemory as OutOfMemory};

    ghost from_gives = { λ _ e. e ≡ OutOfMemory };

    fn from(_error: NoMemory) -> ActFault {
        ActFault::NoMemory
    }
}

/// An update, with its bytes.
#[derive(Drop)]
pub(crate) struct StoredUpdate {
    pub(crate) caller: u32,
    pub(crate) place: Place,
    pub(crate) bytes: Bytes,
}

impl Model for StoredUpdate {
    ghost use Rattle.blob_model.specs.Content.{Update};

    ghost Value = { Update };

    ghost view = { λ u. record { caller = u.caller; place = u.place; bytes = u.bytes } };
}

/// A blob: its updates, version 1 first, and which of them are finished.
#[derive(Drop)]
pub(crate) struct StoredBlob {
    pub(crate) updates: Vec<StoredUpdate>,
    pub(crate) finished: Vec<bool>,
}

impl Model for StoredBlob {
    ghost use Rattle.blob_model.specs.Store.{Blob};

    ghost Value = { Blob };

    ghost view = { λ b. record { updates = b.updates.items; finished = b.finished.items } };
}

/// What is kept beside an update: the numbers of its pages, and its hints.
#[derive(Drop)]
pub(crate) struct KeptUpdate {
    pub(crate) pages: Vec<u64>,
    pub(crate) published: u64,
    pub(crate) waiting: Vec<OpenTouch>,
}

impl Model for KeptUpdate {
    ghost use Rattle.blob_core.specs.World.{UpdateEntry};

    ghost Value = { UpdateEntry };

    ghost view = { λ k. record { pages = k.pages.items; published = k.published; waiting = k.waiting.items } };
}

/// What a world holds. Each list but that of the blobs has its newest entry first.
#[derive(Drop)]
pub(crate) struct State {
    pub(crate) limits: Limits,
    pub(crate) blobs: Vec<StoredBlob>,
    pub(crate) lineage: Vec<Option<Parent>>,
    pub(crate) pages: Vec<(u64, Bytes)>,
    pub(crate) updates: Vec<(UpdateKey, KeptUpdate)>,
    pub(crate) folded: Vec<(FoldKey, Bytes)>,
    pub(crate) nodes: Vec<(NodeKey, Node)>,
}

impl Model for State {
    ghost use Rattle.std.specs.Prelude.{[]};
    ghost use Rattle.blob_core.specs.World.{World};

    ghost Value = { World };

    ghost view = { λ w. record {
      store = record { limits = w.limits; blobs = w.blobs.items };
      lineage = w.lineage.items;
      pages = w.pages.items;
      updates = w.updates.items;
      folded = w.folded.items;
      nodes = w.nodes.items;
    } };
}
