// The nodes of a row that were put so far, where they lie in its slots.
ghost use Rattle.std.specs.Prelude.{◌≡◌, ◌<◌, ◌≤◌, [], ◌∷◌, ◌++◌, length, IfOk, OnOk, OnErr, Some, slice_get, MatchOption, vec_capacity};
ghost use Rattle.node_store.specs.Runs.{KeepsFew, KeepsMany, few_nodes, many_nodes};
ghost use Rattle.node_store.specs.Parts.{LinksOf, PartsOf};

use crate::NoMemory;
use crate::parts::LeafParts;
use crate::puts::{FEW, Puts};
use crate::slots::{AnyNode, First, Slots};
use crate::stored::{Links, PlainLeaf};
use boxcar::slot::{OnceSlot, Written};
use boxcar::tag::Tag;
use std::alloc::Global;
use tree_geom::Node;

/// What stands in place of puts to come. It has no bytes.
#[derive(Drop)]
pub(crate) struct Others {
    inner: Written<Links>,
    leaf: Written<PlainLeaf>,
}

impl Others {
    /// Puts into slots of their own, which stand for none in particular.
    pub(crate) fn new() -> Result<Others, NoMemory> {
        Ok(Others {
            inner: set(&OnceSlot::new(&Tag::empty()), Links::none())?,
            leaf: set(&OnceSlot::new(&Tag::empty()), PlainLeaf::none())?,
        })
    }
}

/// The nodes of a row that has room for few: its inner nodes come before its leaves, each kind in slots side by side.
#[derive(Drop)]
pub(crate) struct Few {
    first: First,
    room: u8,
    inners: Puts<Links>,
    leaves: Puts<PlainLeaf>,
}

impl Few {
    /// No nodes, and room for so many.
    pub(crate) fn new(first: First, room: usize, others: &Others) -> Few
        requires { room ≤ 32 }
        ensures first { result.first ≡ first }
        ensures room { result.room ≡ room }
        ensures inners { result.inners ≡ [] }
        ensures leaves { result.leaves ≡ [] }
    {
        Few {
            first,
            room: room as u8,
            inners: Puts::none(&others.inner),
            leaves: Puts::none(&others.leaf),
        }
    }

    /// How many nodes there are.
    #[inline(always)]
    pub(crate) fn count(&self) -> u64
        ensures { result ≡ length (few_nodes self.now) }
    {
        u64::from(self.inners.count()) + u64::from(self.leaves.count())
    }

    /// Puts the next node. It fails where its slot has one, or where the node is none that a row of an update has there: an inner node
    /// behind a leaf, or one whose form has too few bytes for it.
    pub(crate) fn put(&mut self, slots: &Slots, node: Node) -> Result<(), NoMemory>
        requires keeps { KeepsFew slots.now self.old }
        requires room { length (few_nodes self.old) < self.old.room }
        ensures keeps { KeepsFew slots.now self.new }
        ensures room { self.new.room ≡ self.old.room }
        ensures put { OnOk result (few_nodes self.new ≡ few_nodes self.old ++ node ∷ []) }
        ensures same { OnErr result (self.new ≡ self.old) }
    {
        if let Some(links) = Links::of(&node) {
            return self.put_inner(slots, links);
        }
        match PlainLeaf::of(&node) {
            Some(leaf) => self.put_leaf(slots, leaf),
            None => Err(NoMemory),
        }
    }

    // Puts an inner node, where there is no leaf yet.
    fn put_inner(&mut self, slots: &Slots, node: Links) -> Result<(), NoMemory>
        requires keeps { KeepsFew slots.now self.old }
        requires room { length (few_nodes self.old) < self.old.room }
        ensures keeps { KeepsFew slots.now self.new }
        ensures room { self.new.room ≡ self.old.room }
        ensures put { OnOk result (few_nodes self.new ≡ few_nodes self.old ++ node ∷ []) }
        ensures same { OnErr result (self.new ≡ self.old) }
    {
        if self.leaves.count() != 0 {
            return Err(NoMemory);
        }
        let slot = self.first.inner as usize + usize::from(self.inners.count());
        let put = set(&slots.inners[slot], node)?;
        self.inners.push(put);
        Ok(())
    }

    // Puts a leaf. The first one tells how many inner nodes there are, so that other rows can have the slots that this one doesn't need.
    fn put_leaf(&mut self, slots: &Slots, node: PlainLeaf) -> Result<(), NoMemory>
        requires keeps { KeepsFew slots.now self.old }
        requires room { length (few_nodes self.old) < self.old.room }
        ensures keeps { KeepsFew slots.now self.new }
        ensures room { self.new.room ≡ self.old.room }
        ensures put { OnOk result (few_nodes self.new ≡ few_nodes self.old ++ node ∷ []) }
        ensures same { OnErr result (self.new ≡ self.old) }
    {
        let (inners, leaves) = (self.inners.count(), self.leaves.count());
        let slot = self.first.leaf as usize + usize::from(leaves);
        let put = set(&slots.leaves[slot], node)?;
        if leaves == 0 {
            slots.take_back(&self.first, self.room, inners, self.room - inners);
        }
        self.leaves.push(put);
        Ok(())
    }

    /// Node `index`, counted from 0.
    #[inline(always)]
    pub(crate) fn node(&self, slots: &Slots, index: usize) -> Node
        requires keeps { KeepsFew slots.now self.now }
        requires there { index < length (few_nodes self.now) }
        ensures { slice_get (few_nodes self.now) index ≡ Some result }
    {
        match self.inner(slots, index) {
            Some(links) => links.node(),
            None => self.leaf(slots, index).node(),
        }
    }

    /// The links of node `index`, counted from 0, or None where it is a leaf.
    #[inline(always)]
    pub(crate) fn links(&self, slots: &Slots, index: usize) -> Option<(u64, u64)>
        requires keeps { KeepsFew slots.now self.now }
        requires there { index < length (few_nodes self.now) }
        ensures { LinksOf (few_nodes self.now) index result }
    {
        match self.inner(slots, index) {
            Some(links) => Some(links.versions()),
            None => {
                self.leaf(slots, index).stands();
                None
            }
        }
    }

    /// The parts of node `index`, counted from 0, or None where it is no leaf.
    #[inline(always)]
    pub(crate) fn parts(&self, slots: &Slots, index: usize) -> Option<LeafParts>
        requires keeps { KeepsFew slots.now self.now }
        requires there { index < length (few_nodes self.now) }
        ensures { PartsOf (few_nodes self.now) index result }
    {
        match self.inner(slots, index) {
            Some(links) => {
                links.stands();
                None
            }
            None => Some(self.leaf(slots, index).parts()),
        }
    }

    // Node `index`, where it is one of the inner nodes.
    #[inline(always)]
    fn inner<'s>(&self, slots: &'s Slots, index: usize) -> Option<&'s Links>
        requires { KeepsFew slots.now self.now }
        ensures { MatchOption result (length self.now.inners ≤ index) (λ links. slice_get (few_nodes self.now) index ≡ Some links.now) }
    {
        if index >= usize::from(self.inners.count()) {
            return None;
        }
        let slot = self.first.inner as usize + index;
        Some(slots.inners[slot].value(self.inners.at(index)))
    }

    // Node `index`, which is one of the leaves.
    #[inline(always)]
    fn leaf<'s>(&self, slots: &'s Slots, index: usize) -> &'s PlainLeaf
        requires keeps { KeepsFew slots.now self.now }
        requires there { index < length (few_nodes self.now) }
        requires behind { length self.now.inners ≤ index }
        ensures { slice_get (few_nodes self.now) index ≡ Some result.now }
    {
        let at = index - usize::from(self.inners.count());
        let slot = self.first.leaf as usize + at;
        slots.leaves[slot].value(self.leaves.at(at))
    }
}

/// The nodes of a row that has room for many, in slots side by side, from the first on.
#[derive(Drop)]
pub(crate) struct Many {
    puts: Vec<Written<Node>>,
}

impl Many {
    /// No nodes, and room for so many.
    pub(crate) fn new(alloc: Global, room: usize) -> Result<Many, NoMemory>
        ensures none { IfOk result (λ many. many.puts.items ≡ []) }
        ensures room { IfOk result (λ many. vec_capacity many.puts ≡ room) }
    {
        Ok(Many {
            puts: Vec::with_capacity(alloc, room)?,
        })
    }

    /// How many nodes there are.
    pub(crate) fn count(&self) -> u64
        ensures { result ≡ length (many_nodes self.now) }
    {
        self.puts.len() as u64
    }

    /// Puts the next node. It fails where its slot has one.
    pub(crate) fn put(&mut self, slots: &Slots, node: Node) -> Result<(), NoMemory>
        requires keeps { KeepsMany slots.now self.old }
        requires room { length (many_nodes self.old) < vec_capacity self.old.puts }
        ensures keeps { KeepsMany slots.now self.new }
        ensures room { vec_capacity self.new.puts ≡ vec_capacity self.old.puts }
        ensures put { OnOk result (many_nodes self.new ≡ many_nodes self.old ++ node ∷ []) }
        ensures same { OnErr result (self.new ≡ self.old) }
    {
        let put = set(&slots.nodes[self.puts.len()], node)?;
        self.puts.push_reserved(put);
        Ok(())
    }

    /// Node `index`, counted from 0.
    pub(crate) fn node(&self, slots: &Slots, index: usize) -> Node
        requires keeps { KeepsMany slots.now self.now }
        requires there { index < length (many_nodes self.now) }
        ensures { slice_get (many_nodes self.now) index ≡ Some result }
    {
        *slots.nodes[index].value(&self.puts[index])
    }

    /// The links of node `index`, counted from 0, or None where it is a leaf.
    #[inline(always)]
    pub(crate) fn links(&self, slots: &Slots, index: usize) -> Option<(u64, u64)>
        requires keeps { KeepsMany slots.now self.now }
        requires there { index < length (many_nodes self.now) }
        ensures { LinksOf (many_nodes self.now) index result }
    {
        match self.node(slots, index) {
            Node::Inner { left, right } => Some((left, right)),
            Node::Leaf { .. } => None,
        }
    }

    /// The parts of node `index`, counted from 0, or None where it is no leaf.
    #[inline(always)]
    pub(crate) fn parts(&self, slots: &Slots, index: usize) -> Option<LeafParts>
        requires keeps { KeepsMany slots.now self.now }
        requires there { index < length (many_nodes self.now) }
        ensures { PartsOf (many_nodes self.now) index result }
    {
        match self.node(slots, index) {
            Node::Leaf {
                start,
                count: _,
                first,
                second,
                depth,
                back,
            } => Some(LeafParts {
                start,
                first,
                second,
                back,
                depth,
            }),
            Node::Inner { .. } => None,
        }
    }
}

// Sets a slot. It fails where the slot is set already.
fn set<T: Drop>(slot: &OnceSlot<T, AnyNode>, value: T) -> Result<Written<T>, NoMemory>
    ensures { IfOk result (λ put. (put.of ≡ slot.now.id) × (put.value ≡ value)) }
{
    slot.set_written(value).map_err(|_value| NoMemory)
}
