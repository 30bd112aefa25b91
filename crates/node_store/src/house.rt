// The house of all nodes, and references to them.
ghost use Rattle.std.specs.Prelude.{◌≡◌, ◌+◌, ◌%◌, ◌<◌, ◌≤◌, [], ◌∷◌, ◌++◌, length, IfOk, OnOk, OnErr, IfSome, Some, slice_get};
ghost use Rattle.std.specs.Arc.{arc_value};
ghost use Rattle.boxcar.specs.Table.{Shows};
ghost use Rattle.node_store.specs.House.{IsIn};
ghost use Rattle.node_store.specs.Slots.{all_slots};
ghost use Rattle.node_store.specs.NodesKept.{KeepsSlots, room_of, nodes_of};
ghost use Rattle.node_store.specs.Parts.{HasLinks, HasParts};

use crate::NoMemory;
use crate::parts::LeafParts;
use crate::puts::FEW;
use crate::run::{Few, Many, Others};
use crate::slots::{First, Sizes, Slots};
use boxcar::Pushed;
use boxcar::tag::{Names, Tag};
use std::alloc::Global;
use std::marker::Model;
use std::sync::atomic::{AtomicUsize, Ordering};
use std::sync::{Arc, Wait};
use tree_geom::Node;

// How many shards a house has.
const SHARDS: usize = 16;

// Slots that the house and the rows that got some of them hold in common.
#[derive(Drop)]
struct Block {
    slots: Arc<Slots>,
}

impl Model for Block {
    ghost use Rattle.std.specs.Prelude.{List};
    ghost use Rattle.std.specs.Arc.{arc_value};
    ghost use Rattle.std.specs.Coded.{coded_list};
    ghost use Rattle.boxcar.specs.Slot.{Named, named_coded};
    ghost use Rattle.node_store.specs.Slots.{all_slots};

    ghost Value = { List Named };

    ghost coded = { coded_list named_coded };

    ghost view = { λ b. all_slots (arc_value b.slots) };
}

// The nodes of the versions of one remainder.
#[derive(Drop)]
struct Shard {
    blocks: boxcar::Vec<Block>,
    // which block rows share that need few slots
    open: AtomicUsize,
}

impl Model for Shard {
    ghost use Rattle.boxcar.specs.Table.{Shelves, shelves_coded};

    ghost Value = { Shelves };

    ghost coded = { shelves_coded };

    ghost view = { λ s. s.blocks };
}

// Slots for the nodes of one row: those of a block, and the numbers of the first of them there.
struct Room {
    block: Pushed<Block>,
    slots: Arc<Slots>,
    first: First,
}

// What a row without nodes gets: its slots, and the block that they are of.
struct NewRow {
    block: Pushed<Block>,
    slots: Arc<Slots>,
    kept: Kept,
}

// The version of a row, and the block of its slots.
#[derive(Drop)]
struct Placing {
    version: u64,
    block: Pushed<Block>,
}

// A row's tag tells its version, then where the block of its slots was pushed in its shard, by the number of its bucket and the name of
// the slot that holds the bucket, and then the names of the block's own slots.
struct Place;

impl Names<Placing> for Place {
    ghost use Rattle.std.specs.Prelude.{◌∷◌};
    ghost use Rattle.node_store.specs.Placed.{names_of};

    ghost numbers = { λ p. p.version ∷ p.block.bucket ∷ p.block.row ∷ names_of p.block.value };
}

impl Shard {
    // No nodes.
    fn new(alloc: Global) -> Result<Shard, NoMemory> {
        Ok(Shard {
            blocks: boxcar::Vec::new(alloc)?,
            open: AtomicUsize::new(0),
        })
    }

    // `count` slots of each of the small kinds, which rows share.
    fn take<R: Wait>(&self, rt: &R, alloc: Global, count: usize) -> Result<Room, NoMemory>
        requires { count ≤ 32 }
        ensures here { IfOk result (λ room. Shows self.now room.block) }
        ensures its { IfOk result (λ room. all_slots (arc_value room.slots) ≡ room.block.value) }
        ensures inners { IfOk result (λ room. room.first.inner + count ≤ length (arc_value room.slots).inners.items) }
        ensures leaves { IfOk result (λ room. room.first.leaf + count ≤ length (arc_value room.slots).leaves.items) }
    {
        if let Some(room) = self.take_open(count) {
            return Ok(room);
        }
        let sizes = match self.blocks.get(self.open.load(Ordering::SeqCst)) {
            Some(open) => open.slots.sizes_after(),
            None => Sizes::first(),
        };
        let room = self.push(rt, alloc, Slots::shared(alloc, sizes, count)?)?;
        self.open.store(room.block.index(), Ordering::SeqCst);
        Ok(room)
    }

    // Room for a row of few nodes.
    fn room_for_few<R: Wait>(
        &self,
        rt: &R,
        alloc: Global,
        count: usize,
        others: &Others,
    ) -> Result<NewRow, NoMemory>
        requires { count ≤ 32 }
        ensures here { IfOk result (λ row. Shows self.now row.block) }
        ensures its { IfOk result (λ row. all_slots (arc_value row.slots) ≡ row.block.value) }
        ensures keeps { IfOk result (λ row. KeepsSlots (arc_value row.slots) row.kept) }
        ensures room { IfOk result (λ row. room_of row.kept ≡ count) }
        ensures none { IfOk result (λ row. nodes_of row.kept ≡ []) }
    {
        let Room {
            block,
            slots,
            first,
        } = self.take(rt, alloc, count)?;
        let kept = Kept::Few(Few::new(first, count, others));
        Ok(NewRow { block, slots, kept })
    }

    // Room for a row of many nodes, which gets a block of its own.
    fn room_for_many<R: Wait>(
        &self,
        rt: &R,
        alloc: Global,
        count: usize,
    ) -> Result<NewRow, NoMemory>
        ensures here { IfOk result (λ row. Shows self.now row.block) }
        ensures its { IfOk result (λ row. all_slots (arc_value row.slots) ≡ row.block.value) }
        ensures keeps { IfOk result (λ row. KeepsSlots (arc_value row.slots) row.kept) }
        ensures room { IfOk result (λ row. room_of row.kept ≡ count) }
        ensures none { IfOk result (λ row. nodes_of row.kept ≡ []) }
    {
        let many = Box::new(alloc, Many::new(alloc, count)?)?;
        let Room {
            block,
            slots,
            first: _,
        } = self.push(rt, alloc, Slots::own(alloc, count)?)?;
        Ok(NewRow {
            block,
            slots,
            kept: Kept::Many(many),
        })
    }

    // `count` slots of the block that rows share.
    fn take_open(&self, count: usize) -> Option<Room>
        ensures here { IfSome result (λ room. Shows self.now room.block) }
        ensures its { IfSome result (λ room. all_slots (arc_value room.slots) ≡ room.block.value) }
        ensures inners { IfSome result (λ room. room.first.inner + count ≤ length (arc_value room.slots).inners.items) }
        ensures leaves { IfSome result (λ room. room.first.leaf + count ≤ length (arc_value room.slots).leaves.items) }
    {
        let block = self.blocks.witness(self.open.load(Ordering::SeqCst))?;
        let open = self.blocks.value(&block);
        let slots = Arc::try_clone(&open.slots).ok()?;
        let first = slots.take(count)?;
        Some(Room {
            block,
            slots,
            first,
        })
    }

    // A new block of these slots, from its first on.
    fn push<R: Wait>(&self, rt: &R, alloc: Global, slots: Slots) -> Result<Room, NoMemory>
        ensures here { IfOk result (λ room. Shows self.now room.block) }
        ensures its { IfOk result (λ room. all_slots (arc_value room.slots) ≡ room.block.value) }
        ensures slots { IfOk result (λ room. arc_value room.slots ≡ slots) }
        ensures first { IfOk result (λ room. (room.first.inner ≡ 0) × (room.first.leaf ≡ 0)) }
    {
        let slots = Arc::new(alloc, slots)?;
        let block = Block {
            slots: Arc::try_clone(&slots)?,
        };
        match self.blocks.push_shown(rt, block) {
            Ok(block) => Ok(Room {
                block,
                slots,
                first: First { inner: 0, leaf: 0 },
            }),
            Err(_) => Err(NoMemory),
        }
    }
}

/// All nodes of a store, in 16 shards: the nodes of version `v` lie in shard `v mod 16`. A node is put through a shared reference, by
/// one atomic step, and never changes; it is read without a lock while other threads put more.
pub struct NodeHouse {
    shards: Vec<Shard>,
    // what stands in a row in place of puts to come; it has no bytes
    others: Others,
}

// By hand, so that it is one call wherever a house is let go: a derived drop stands, with all its calls, at each such place.
impl Drop for NodeHouse {
    fn drop(self) {
        let NodeHouse {
            shards: _,
            others: _,
        } = self;
    }
}

impl Model for NodeHouse {
    ghost use Rattle.std.specs.Prelude.{◌≡◌, List, length};
    ghost use Rattle.std.specs.Coded.{coded_list};
    ghost use Rattle.boxcar.specs.Table.{Shelves, shelves_coded};

    ghost Value = { List Shelves };

    ghost coded = { coded_list shelves_coded };

    ghost view = { λ h. h.shards.items };

    ghost invariant = { λ h. length h.shards.items ≡ 16 };
}

// The nodes of a row, by how many there is room for.
#[derive(Drop)]
enum Kept {
    Few(Few),
    Many(Box<Many>),
}

/// The nodes of one row that were put so far, which lie in one house: it stands for them, for all time and in every thread. They lie
/// side by side, in a row of few nodes the inner ones and the leaves apart, each in a slot of its own that is set once, and there are
/// slots for all nodes of the row from the start.
#[derive(Drop)]
pub struct RowNodes {
    // the row holds the slots itself, so that a look at a node goes there at once
    slots: Arc<Slots>,
    kept: Kept,
    // the version, where the block of the slots stands in its shard, and the names of its slots, for proofs alone: it has no bytes
    tag: Tag,
}

impl Model for RowNodes {
    ghost use Rattle.node_store.specs.Placed.{PlacedNodes, place_told, spot_of, version_told};
    ghost use Rattle.node_store.specs.NodesKept.{KeepsPuts, room_of, nodes_of};

    ghost Value = { PlacedNodes };

    ghost view = { λ r.
        record {
          version = version_told r.tag.numbers;
          room = room_of r.kept;
          nodes = nodes_of r.kept;
          spot = spot_of (version_told r.tag.numbers) (place_told r.tag.numbers);
        } };

    ghost invariant = { KeepsPuts };
}

/// A node of one house: it stands for it, for all time and in every thread.
#[derive(Drop)]
pub struct NodeRef<'a> {
    nodes: &'a RowNodes,
    index: u64,
}

impl<'a> Model for NodeRef<'a> {
    ghost use Rattle.std.specs.Prelude.{◌<◌, length, slice_index_or};
    ghost use Rattle.node_store.specs.Placed.{PlacedNode, no_node};

    ghost Value = { PlacedNode };

    ghost view = { λ r. record { node = slice_index_or r.nodes.now.nodes r.index no_node; spot = r.nodes.now.spot } };

    ghost invariant = { λ r. r.index < length r.nodes.now.nodes };
}

impl NodeHouse {
    /// A house without nodes.
    pub fn new(alloc: Global) -> Result<NodeHouse, NoMemory>
        ensures { IfOk result (λ house. length house ≡ 16) }
    {
        let mut shards = Vec::with_capacity(alloc, SHARDS)?;
        for _shard in 0..SHARDS {
            shards.push_reserved(Shard::new(alloc)?);
        }
        let others = Others::new()?;
        Ok(NodeHouse { shards, others })
    }

    /// Room for `count` nodes of a row of that version, of which none is put yet. It may wait for another thread's push. Where memory
    /// is refused, nothing has changed.
    pub fn room<R: Wait>(
        &self,
        rt: &R,
        alloc: Global,
        version: u64,
        count: usize,
    ) -> Result<RowNodes, NoMemory>
        ensures here { IfOk result (λ row. IsIn self.now row.spot) }
        ensures version { IfOk result (λ row. row.version ≡ version) }
        ensures room { IfOk result (λ row. row.room ≡ count) }
        ensures none { IfOk result (λ row. row.nodes ≡ []) }
    {
        let shard = &self.shards[shard_of(version)];
        let NewRow { block, slots, kept } = if count <= FEW {
            shard.room_for_few(rt, alloc, count, &self.others)?
        } else {
            shard.room_for_many(rt, alloc, count)?
        };
        let placing = Placing { version, block };
        Ok(RowNodes {
            slots,
            kept,
            tag: Tag::of::<Placing, Place>(&placing),
        })
    }

    /// Puts the next node of the row, by one atomic step on a slot that all threads share. It waits for nobody and takes no memory.
    /// After an `Err` nothing has changed. A row of up to 32 nodes keeps them in few bytes, and has no room for a node that no update
    /// has there: an inner node behind a leaf, a version of 2^32 or more, or a second piece that doesn't begin the page after the first's.
    pub fn put(&self, row: &mut RowNodes, node: Node) -> Result<(), NoMemory>
        requires here { IsIn self.now row.old.spot }
        requires room { length row.old.nodes < row.old.room }
        ensures put { OnOk result (row.new ≡ record row.old { nodes = row.old.nodes ++ node ∷ [] }) }
        ensures same { OnErr result (row.new ≡ row.old) }
    {
        match &mut row.kept {
            Kept::Few(few) => few.put(&row.slots, node),
            Kept::Many(many) => many.put(&row.slots, node),
        }
    }

    /// The node that was put. It waits for nobody and takes no memory.
    #[inline(always)]
    pub fn get(&self, node: &NodeRef) -> Node
        requires { IsIn self.now node.now.spot }
        ensures { result ≡ node.now.node }
    {
        let row = node.nodes;
        let index = node.index as usize;
        match &row.kept {
            Kept::Few(few) => few.node(&row.slots, index),
            Kept::Many(many) => many.node(&row.slots, index),
        }
    }

    /// The links of an inner node that was put, the lower half's first, or None where it is a leaf. It waits for nobody and takes no
    /// memory, and reads no more of the node.
    #[inline(always)]
    pub fn links(&self, node: &NodeRef) -> Option<(u64, u64)>
        requires { IsIn self.now node.now.spot }
        ensures { HasLinks node.now.node result }
    {
        let row = node.nodes;
        let index = node.index as usize;
        match &row.kept {
            Kept::Few(few) => few.links(&row.slots, index),
            Kept::Many(many) => many.links(&row.slots, index),
        }
    }

    /// The parts of a leaf that was put, or None where it is an inner node. It waits for nobody and takes no memory.
    #[inline(always)]
    pub fn parts(&self, node: &NodeRef) -> Option<LeafParts>
        requires { IsIn self.now node.now.spot }
        ensures { HasParts node.now.node result }
    {
        let row = node.nodes;
        let index = node.index as usize;
        match &row.kept {
            Kept::Few(few) => few.parts(&row.slots, index),
            Kept::Many(many) => many.parts(&row.slots, index),
        }
    }
}

impl RowNodes {
    /// How many nodes there are.
    #[inline(always)]
    pub fn count(&self) -> u64
        ensures { result ≡ length self.now.nodes }
    {
        match &self.kept {
            Kept::Few(few) => few.count(),
            Kept::Many(many) => many.count(),
        }
    }

    /// The node of that number, counted from 0. There are more than `index`. It takes no memory.
    #[inline(always)]
    pub fn node(&self, index: u64) -> NodeRef<'_>
        requires { index < length self.now.nodes }
        ensures node { slice_get self.now.nodes index ≡ Some result.node }
        ensures spot { result.spot ≡ self.now.spot }
    {
        NodeRef { nodes: self, index }
    }
}

// The shard of a version's nodes.
#[inline(always)]
fn shard_of(version: u64) -> usize
    ensures is { result ≡ version % 16 }
    ensures within { result < 16 }
{
    (version % 16) as usize
}
