// Slots for nodes, side by side, and which of them were given out.
ghost use Rattle.std.specs.Prelude.{◌≡◌, ◌+◌, ◌≤◌, length, IfOk, IfSome, IsTrue};

use crate::NoMemory;
use crate::stored::{Links, PlainLeaf};
use boxcar::slot::{OnceSlot, SlotRule};
use boxcar::tag::Tag;
use std::alloc::Global;
use std::sync::atomic::{AtomicUsize, Ordering};
use tree_geom::Node;

/// Any node may lie in a slot.
pub struct AnyNode;

impl<T> SlotRule<T> for AnyNode {
    ghost use Rattle.std.specs.Prelude.{⊤};

    ghost holds = { λ _ _. ⊤ };
}

// How many slots for nodes of both kinds a block has that rows share.
const SLOTS: usize = 576;

/// How many slots for inner nodes and for leaves there are to be.
#[derive(Clone, Copy)]
pub(crate) struct Sizes {
    inners: usize,
    leaves: usize,
}

impl Sizes {
    /// Those of a first block, which may stay the only one.
    pub(crate) fn first() -> Sizes
        ensures inners { result.inners ≤ 576 }
        ensures leaves { result.leaves ≤ 576 }
    {
        Sizes {
            inners: 64,
            leaves: 16,
        }
    }
}

/// Slots of each kind that lie side by side. Each is set once at most. Rows of few nodes share the small ones, those for inner nodes and
/// those for leaves; a row of more has its own, for nodes of both kinds.
#[derive(Drop)]
pub(crate) struct Slots {
    pub(crate) inners: Vec<OnceSlot<Links, AnyNode>>,
    pub(crate) leaves: Vec<OnceSlot<PlainLeaf, AnyNode>>,
    pub(crate) nodes: Vec<OnceSlot<Node, AnyNode>>,
    // how many were given out, from the first on
    inners_taken: AtomicUsize,
    leaves_taken: AtomicUsize,
}

/// The numbers of a row's first slots for inner nodes and for leaves.
#[derive(Drop)]
pub(crate) struct First {
    pub(crate) inner: u32,
    pub(crate) leaf: u32,
}

impl Slots {
    /// Free slots for rows of few nodes, so many and `count` of each kind more, which are given out.
    pub(crate) fn shared(alloc: Global, sizes: Sizes, count: usize) -> Result<Slots, NoMemory>
        requires inners { sizes.inners ≤ 576 }
        requires leaves { sizes.leaves ≤ 576 }
        requires count { count ≤ 32 }
        ensures inners { IfOk result (λ slots. count ≤ length slots.inners.items) }
        ensures leaves { IfOk result (λ slots. count ≤ length slots.leaves.items) }
    {
        Ok(Slots {
            inners: free(alloc, sizes.inners + count)?,
            leaves: free(alloc, sizes.leaves + count)?,
            nodes: free(alloc, 0)?,
            inners_taken: AtomicUsize::new(count),
            leaves_taken: AtomicUsize::new(count),
        })
    }

    /// As many slots of both kinds together as a block has, of each kind in proportion to those that rows took of these.
    pub(crate) fn sizes_after(&self) -> Sizes
        ensures inners { result.inners ≤ 576 }
        ensures leaves { result.leaves ≤ 576 }
    {
        let inners = self.inners_taken.load(Ordering::SeqCst).min(SLOTS);
        let leaves = self.leaves_taken.load(Ordering::SeqCst).min(SLOTS);
        let inners = (SLOTS * inners / (inners + leaves).max(1)).min(SLOTS);
        Sizes {
            inners,
            leaves: SLOTS - inners,
        }
    }

    /// Free slots for a row of `count` nodes.
    pub(crate) fn own(alloc: Global, count: usize) -> Result<Slots, NoMemory>
        ensures { IfOk result (λ slots. length slots.nodes.items ≡ count) }
    {
        Ok(Slots {
            inners: free(alloc, 0)?,
            leaves: free(alloc, 0)?,
            nodes: free(alloc, count)?,
            inners_taken: AtomicUsize::new(0),
            leaves_taken: AtomicUsize::new(0),
        })
    }

    /// Gives out the next `count` slots of both kinds, and tells the numbers of the first. None where there are too few.
    pub(crate) fn take(&self, count: usize) -> Option<First>
        ensures inners { IfSome result (λ first. first.inner + count ≤ length self.now.inners.items) }
        ensures leaves { IfSome result (λ first. first.leaf + count ≤ length self.now.leaves.items) }
    {
        if !fits(
            self.inners.len(),
            self.inners_taken.load(Ordering::SeqCst),
            count,
        ) {
            return None;
        }
        let leaf = take_of(&self.leaves_taken, self.leaves.len(), count)?;
        let inner = take_of(&self.inners_taken, self.inners.len(), count)?;
        Some(First { inner, leaf })
    }

    /// Takes back what a row leaves unused of the `room` slots of each kind that it got, of which it needs that many. A slot isn't taken
    /// back where another row got one since.
    pub(crate) fn take_back(&self, first: &First, room: u8, inners: u8, leaves: u8) {
        take_back_of(&self.inners_taken, first.inner, room, inners);
        take_back_of(&self.leaves_taken, first.leaf, room, leaves);
    }
}

// So many free slots.
fn free<T: Drop>(alloc: Global, count: usize) -> Result<Vec<OnceSlot<T, AnyNode>>, NoMemory>
    ensures { IfOk result (λ slots. length slots.items ≡ count) }
{
    let tag = Tag::empty();
    let mut slots = Vec::with_capacity(alloc, count)?;
    for _slot in 0..count {
        slots.push_reserved(OnceSlot::new(&tag));
    }
    Ok(slots)
}

// Gives out the next `count` of `room` slots, and tells the number of the first. None where there are too few.
fn take_of(taken: &AtomicUsize, room: usize, count: usize) -> Option<u32>
    ensures { IfSome result (λ first. first + count ≤ room) }
{
    if !fits(room, taken.load(Ordering::SeqCst), count) {
        return None;
    }
    let first = taken.fetch_add(count, Ordering::SeqCst);
    // another thread may have taken slots in between
    if fits(room, first, count) {
        u32::try_from(first).ok()
    } else {
        None
    }
}

// Takes back all but `used` of `room` slots from `first` on, where they are the last that were given out.
fn take_back_of(taken: &AtomicUsize, first: u32, room: u8, used: u8) {
    let begin = first as usize;
    let (end, used_end) = (begin + usize::from(room), begin + usize::from(used));
    let _taken = taken.compare_exchange(end, used_end, Ordering::SeqCst, Ordering::SeqCst);
}

// Whether `count` of `room` slots are left after the first `taken`.
fn fits(room: usize, taken: usize, count: usize) -> bool
    ensures { IsTrue result → taken + count ≤ room }
{
    taken <= room && count <= room - taken
}
