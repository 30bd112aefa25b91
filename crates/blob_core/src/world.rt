// A world, and what it is asked for.
ghost use Rattle.std.specs.Prelude.{◌≡◌, option_map, IfOk, OnErr, IsErrOf};
ghost use Rattle.blob_model.specs.Store.{blob_at, published};
ghost use Rattle.blob_core.specs.World.{empty_world, node_at};
ghost use Rattle.blob_model.specs.Answer.{answer};
ghost use Rattle.blob_model.specs.declared.call.Call.TheVariants as Calls;
ghost use Rattle.blob_core.specs.Walk.{walked_in, content_in};
ghost use Rattle.blob_core.specs.Steps.{IsAllowed};
ghost use Rattle.blob_core.specs.Acts.{IsDone};
ghost use Rattle.blob_core.specs.declared.state.ActFault.TheVariants.{NotAllowed};

use crate::finds::{find_node, marked};
use crate::laws::steps_hold;
use crate::state::{ActFault, State};
use crate::step::Step;
use blob_model::{Bytes, Limits};
use range_log::NoMemory;
use std::alloc::Global;
use std::marker::Model;
use tree_geom::{Node, NodeKey, PageSize};

/// The blob that an update was numbered in, and its version.
#[derive(Clone, Copy)]
pub struct UpdateKey {
    pub blob: u64,
    pub version: u64,
}

/// A page that an update stores anew: the blob that the update was numbered in, its version, and the blob's page.
#[derive(Clone, Copy)]
pub struct FoldKey {
    pub blob: u64,
    pub version: u64,
    pub page: u64,
}

/// A world that a list of allowed steps leads to from the empty one: the store, the pages, what is kept beside each update, the
/// pages that updates store anew, and the nodes.
#[derive(Drop)]
pub struct World {
    page: PageSize,
    state: State,
}

impl Model for World {
    ghost use Rattle.blob_core.specs.Standing.{Paged, IsReached};

    ghost Value = { Paged };

    ghost view = { λ w. record { page = w.page; world = w.state } };

    ghost invariant = { λ w. IsReached w.page w.state };
}

impl World {
    /// A world with these limits and pages of at most that size, and nothing else. Takes no memory.
    pub fn empty(alloc: Global, limits: Limits, p: PageSize) -> World
        ensures page { result.page ≡ p }
        ensures world { result.world ≡ empty_world limits }
    {
        p.stands();
        let _size = limits.max_size;
        World {
            page: p,
            state: State {
                limits,
                blobs: Vec::new(alloc),
                lineage: Vec::new(alloc),
                pages: Vec::new(alloc),
                updates: Vec::new(alloc),
                folded: Vec::new(alloc),
                nodes: Vec::new(alloc),
            },
        }
    }

    /// Does the step. Where the world doesn't allow it, or memory is refused, all is as before.
    pub(crate) fn act(&mut self, alloc: Global, step: &Step) -> Result<(), ActFault>
        ensures page { self.new.page ≡ self.old.page }
        ensures done { IfOk result (λ _. IsDone self.old.page self.old.world step.now self.new.world) }
        ensures refused { IsErrOf result NotAllowed → ¬ IsAllowed self.old.page self.old.world step.now }
        ensures same { OnErr result (self.new ≡ self.old) }
    {
        self.state.act(alloc, self.page, step)
    }

    /// The published version of a blob. None exactly where there is no such blob.
    pub fn published(&self, blob: u64) -> Option<u64>
        ensures { result ≡ option_map published (blob_at self.now.world.store blob) }
    {
        let blob = self.state.blob(blob)?;
        Some(marked(blob.finished.as_slice()))
    }

    /// The node under a key. None exactly where the key isn't there.
    pub fn node(&self, key: NodeKey) -> Option<Node>
        ensures { result ≡ node_at self.now.world.nodes key }
    {
        find_node(self.state.nodes.as_slice(), &key)
    }

    /// Reads `length` bytes from `offset` of a version: what a walk from the version's root brings by the nodes and pages of the
    /// world, which is the content. None exactly where the store doesn't answer with the content.
    pub fn read(
        &self,
        alloc: Global,
        blob: u64,
        version: u64,
        offset: u64,
        length: u64,
    ) -> Result<Option<Bytes>, NoMemory>
        ensures walk { IfOk result (λ bytes. bytes ≡ walked_in self.now.page self.now.world blob version offset length) }
        ensures content { IfOk result (λ bytes. bytes ≡ content_in (answer self.now.world.store 0 (Calls.Read blob version offset length)).1) }
    {
        steps_hold();
        self.state
            .read(alloc, self.page, blob, version, offset, length)
    }
}
