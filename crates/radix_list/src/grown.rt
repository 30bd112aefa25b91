// A list that has an item, or had one before some were taken away.
ghost use Rattle.std.specs.Prelude.{◌≡◌, ◌+◌, ◌%◌, ◌<◌, ◌≤◌, ◌⊎◌, [], ◌∷◌, ◌++◌, length, take, drop, map, IfOk, IfErr, IfSome, slice_get};
ghost use Rattle.std.specs.Arc.{arc_value};
ghost use Rattle.std.specs.Option.{option_copied, option_map};
ghost use Rattle.radix_list.specs.Puts.{items_put, slots_told, names_of};

use crate::NoMemory;
use crate::branch::WIDTH;
use crate::packed::PackedList;
use crate::puts::{Puts, Slot, free_slots, set_slot};
use boxcar::slot::Written;
use std::alloc::Global;
use std::marker::Model;
use std::sync::Arc;
use std::sync::ledger::Ledger;
use tree_geom::Steps;

/// How many items a leaf has room for.
const LEAF: u64 = WIDTH as u64;

/// How many slots a short list gets first.
const FEW: usize = 4;

// What lists that grow from one another share.
struct Trunk<T> {
    body: PackedList<T>,
    // how many items of the body stand before the slots
    whole: u64,
    // each is set by the first list that grows into it
    slots: Vec<Slot<T>>,
}

// By hand, as that of `RadixList`.
impl<T: Drop> Drop for Trunk<T> {
    fn drop(self) {
        let Trunk {
            body: _,
            whole: _,
            slots: _,
        } = self;
    }
}

/// A list of up to 1,048,576 shared items, in a trunk that it shares with other lists.
pub(crate) struct Grown<T> {
    trunk: Arc<Trunk<T>>,
    // how many of the list's items stand in the body
    front: u64,
    // those after them, in slots
    puts: Puts<T>,
}

// By hand, as that of `RadixList`.
impl<T: Drop> Drop for Grown<T> {
    fn drop(self) {
        let Grown {
            trunk: _,
            front: _,
            puts: _,
        } = self;
    }
}

impl<T> Model for Grown<T> {
    ghost use Rattle.std.specs.Prelude.{List, ◌++◌, take};
    ghost use Rattle.std.specs.Coded.{coded_list};
    ghost use Rattle.std.specs.Arc.{arc_value};
    ghost use Rattle.radix_list.specs.Puts.{items_put};
    ghost use Rattle.radix_list.specs.Tails.{IsTailed};

    ghost Value = { List T };

    ghost coded = { coded_list T.code };

    ghost view = { λ g. take g.front (arc_value g.trunk).body ++ items_put g.puts };

    ghost invariant = { λ g. IsTailed (arc_value g.trunk).body (arc_value g.trunk).whole (arc_value g.trunk).slots.items g.front g.puts };
}

impl<T> Grown<T> {
    /// How many items the list has.
    pub(crate) fn len(&self) -> u64
        ensures is { result ≡ length self.now }
        ensures few { result ≤ 1048576 }
    {
        self.front + self.puts.len() as u64
    }

    /// Item `i`, counted from 0, or None past the last, with the node steps that `RadixList::get` tells.
    pub(crate) fn get<L: Ledger>(&self, i: u64, steps: &mut Steps<L>) -> Option<&T>
        ensures item { option_copied result ≡ slice_get self.now i }
        ensures few { steps.new ≤ steps.old + 4 }
        ensures counted { IfSome result (λ _. (steps.new ≡ steps.old + 4) ⊎ (steps.new ≡ steps.old + 1)) }
        ensures none { length self.now ≤ i → steps.new ≡ steps.old }
    {
        if i < self.front {
            return self.trunk.body.get(i, steps);
        }
        let item = self
            .puts
            .item((i - self.front) as usize, &self.trunk.slots)?;
        steps.tick();
        Some(item)
    }

    /// The first `n` items. No node and no item is copied, and the items after them are kept.
    pub(crate) fn prefix(&self, n: u64) -> Result<Grown<T>, NoMemory>
    where
        T: Drop,
        requires { n ≤ length self.now }
        ensures { IfOk result (λ list. list ≡ take n self.now) }
    {
        let front = self.front.min(n);
        Ok(Grown {
            trunk: Arc::try_clone(&self.trunk)?,
            front,
            puts: self.puts.front((n - front) as usize)?,
        })
    }

    /// The list with the item at its end. An `Err` is want of memory and gives the item back.
    pub(crate) fn push(&self, alloc: Global, item: Arc<T>) -> Result<Grown<T>, Arc<T>>
    where
        T: Drop,
        requires { length self.now < 1048576 }
        ensures ok { IfOk result (λ list. list ≡ self.now ++ arc_value item ∷ []) }
        ensures err { IfErr result (λ back. back ≡ item) }
    {
        let item = match self.grow(item) {
            Ok(list) => return Ok(list),
            Err(item) => item,
        };
        match self.apart(alloc, &item) {
            Ok(list) => Ok(list),
            Err(NoMemory) => Err(item),
        }
    }

    /// The first `whole` items of the body, and after them the others, in a trunk of their own.
    pub(crate) fn new(
        alloc: Global,
        body: PackedList<T>,
        whole: u64,
        kept: &[Arc<T>],
        item: &Arc<T>,
    ) -> Result<Grown<T>, NoMemory>
    where
        T: Drop,
        requires within { whole ≤ length body }
        requires aligned { whole % 32 ≡ 0 }
        requires few { length kept.now < 32 }
        requires room { whole + length kept.now < 1048576 }
        ensures { IfOk result (λ list. list ≡ take whole body ++ (map arc_value kept.now ++ arc_value item.now ∷ [])) }
    {
        let slots = free_slots(alloc, room(whole, kept.len()))?;
        let last = set_slot(&slots[kept.len()], Arc::try_clone(item)?)?;
        let mut puts = filled(&slots, kept, &last)?;
        puts.push(last);
        let trunk = Trunk { body, whole, slots };
        Ok(Grown {
            trunk: Arc::new(alloc, trunk)?,
            front: whole,
            puts,
        })
    }

    // The list with the item at its end, in the trunk's next slot. The item comes back where there is none, or where another list
    // has grown into it.
    fn grow(&self, item: Arc<T>) -> Result<Grown<T>, Arc<T>>
    where
        T: Drop,
        requires { length self.now < 1048576 }
        ensures ok { IfOk result (λ list. list ≡ self.now ++ arc_value item ∷ []) }
        ensures err { IfErr result (λ back. back ≡ item) }
    {
        let next = self.puts.len();
        if self.front < self.trunk.whole || next >= self.trunk.slots.len() {
            return Err(item);
        }
        let Ok(trunk) = Arc::try_clone(&self.trunk) else {
            return Err(item);
        };
        let Ok(mut puts) = self.puts.front(next) else {
            return Err(item);
        };
        match trunk.slots[next].set_written(item) {
            Ok(written) => {
                puts.push(written);
                Ok(Grown {
                    trunk,
                    front: self.front,
                    puts,
                })
            }
            Err(item) => Err(item),
        }
    }

    // The list with the item at its end, in a trunk of its own.
    fn apart(&self, alloc: Global, item: &Arc<T>) -> Result<Grown<T>, NoMemory>
    where
        T: Drop,
        requires { length self.now < 1048576 }
        ensures { IfOk result (λ list. list ≡ self.now ++ arc_value item.now ∷ []) }
    {
        let len = self.len();
        let whole = len - len % LEAF;
        let body = self.leaves(alloc, whole)?;
        let kept = self.rest(alloc, whole)?;
        Grown::new(alloc, body, whole, &kept, item)
    }

    // A body whose first `whole` items are the list's. They fill leaves: where the slots are as many as a leaf, their items go into one.
    fn leaves(&self, alloc: Global, whole: u64) -> Result<PackedList<T>, NoMemory>
    where
        T: Drop,
        requires within { whole ≤ length self.now }
        requires aligned { whole % 32 ≡ 0 }
        ensures { IfOk result (λ body. take whole body ≡ take whole self.now) }
    {
        let body = &self.trunk.body;
        if whole <= self.front {
            body.share()
        } else {
            body.ending(self.front, self.rest(alloc, self.front)?)
        }
    }

    // A share in each item from `first` on.
    fn rest(&self, alloc: Global, first: u64) -> Result<Vec<Arc<T>>, NoMemory>
    where
        T: Drop,
        requires { first ≤ length self.now }
        ensures { IfOk result (λ items. map arc_value items.items ≡ drop first self.now) }
    {
        let end = self.len();
        let mut items = Vec::with_capacity(alloc, (end - first) as usize)?;
        for i in first..end {
            if let Some(item) = self.handle(i) {
                items.push_reserved(Arc::try_clone(item)?);
            }
        }
        Ok(items)
    }

    // Item `i`, and the share that its place has in it.
    fn handle(&self, i: u64) -> Option<&Arc<T>>
        ensures { option_map (λ item. arc_value item.now) result ≡ slice_get self.now i }
    {
        if i < self.front {
            self.trunk.body.handle(i as usize)
        } else {
            self.puts.item((i - self.front) as usize, &self.trunk.slots)
        }
    }
}

// How many slots a trunk gets: as many as a leaf has room for, but in a short list about as many again as it has items.
fn room(whole: u64, kept: usize) -> usize
    requires { kept < 32 }
    ensures more { kept < result }
    ensures few { result ≤ 32 }
{
    if whole > 0 {
        WIDTH
    } else {
        (kept * 2).max(FEW).min(WIDTH)
    }
}

// Puts a share in each item into the slots, from the first one on.
fn filled<T: Drop>(
    slots: &[Slot<T>],
    items: &[Arc<T>],
    other: &Written<Arc<T>>,
) -> Result<Puts<T>, NoMemory>
    requires few { length items.now < 32 }
    requires room { length items.now ≤ length slots.now }
    ensures items { IfOk result (λ puts. items_put puts ≡ map arc_value items.now) }
    ensures slots { IfOk result (λ puts. slots_told puts ≡ take (length items.now) (names_of slots.now)) }
{
    let mut puts = Puts::none(other);
    for (k, item) in items.iter().enumerate() {
        puts.push(set_slot(&slots[k], Arc::try_clone(item)?)?);
    }
    Ok(puts)
}
