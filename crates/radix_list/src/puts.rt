// Slots that are set once, and what shows which items lie in them.
ghost use Rattle.std.specs.Prelude.{◌≡◌, ◌+◌, ◌<◌, ◌≤◌, [], ◌∷◌, ◌++◌, length, take, IfOk, slice_get, slice_set};
ghost use Rattle.std.specs.Arc.{arc_value};
ghost use Rattle.std.specs.Option.{option_map};
ghost use Rattle.radix_list.specs.Puts.{items_put, slots_told, names_of};

use crate::NoMemory;
use crate::branch::WIDTH;
use boxcar::slot::{OnceSlot, SlotRule, Written};
use boxcar::tag::Tag;
use std::alloc::{AllocError, Global};
use std::array;
use std::marker::Model;
use std::sync::Arc;

/// Any item may lie in a slot.
pub(crate) struct AnyItem;

impl<T> SlotRule<Arc<T>> for AnyItem {
    ghost use Rattle.std.specs.Prelude.{⊤};

    ghost holds = { λ _ _. ⊤ };
}

/// A place for an item, which is set once at most, also where many lists share it.
pub(crate) type Slot<T> = OnceSlot<Arc<T>, AnyItem>;

/// So many free slots.
pub(crate) fn free_slots<T: Drop>(alloc: Global, count: usize) -> Result<Vec<Slot<T>>, NoMemory>
    ensures { IfOk result (λ slots. length slots.items ≡ count) }
{
    let tag = Tag::empty();
    let mut slots = Vec::with_capacity(alloc, count)?;
    for _slot in 0..count {
        slots.push_reserved(OnceSlot::new(&tag));
    }
    Ok(slots)
}

/// Puts the item into a slot that is free, and makes what shows that it lies there.
pub(crate) fn set_slot<T: Drop>(slot: &Slot<T>, item: Arc<T>) -> Result<Written<Arc<T>>, NoMemory>
    ensures slot { IfOk result (λ written. written.of ≡ slot.now.id) }
    ensures item { IfOk result (λ written. written.value ≡ item) }
{
    match slot.set_written(item) {
        Ok(written) => Ok(written),
        Err(_item) => Err(NoMemory),
    }
}

// What shows that an item lies in a slot. It has no bytes.
struct Put<T> {
    written: Written<Arc<T>>,
}

impl<T> Drop for Put<T> {
    fn drop(self) {
        let Put { written: _ } = self;
    }
}

impl<T> Model for Put<T> {
    ghost use Rattle.std.specs.Prelude.{ℕ};
    ghost use Rattle.std.specs.Arc.{arc_value};
    ghost use Rattle.std.specs.Coded.{coded×, coded_ℕ};

    ghost Value = { ℕ × T };

    ghost coded = { coded× coded_ℕ T.code };

    ghost view = { λ p. (p.written.of, arc_value p.written.value) };
}

impl<T> Clone for Put<T> {
    ghost is_clone = { λ p q. q ≡ p };

    ghost use Rattle.std.specs.Prelude.{⊤};

    ghost is_infallible = { λ _. ⊤ };

    fn clone(&self) -> Result<Put<T>, AllocError> {
        Ok(Put {
            written: self.written.again(),
        })
    }
}

/// What shows which items lie in some slots, in every thread and for all time: of each the name of its slot, and the item. It has
/// no bytes but their count.
pub(crate) struct Puts<T> {
    // those past the count say nothing
    shown: [Put<T>; WIDTH],
    count: usize,
}

impl<T> Drop for Puts<T> {
    fn drop(self) {
        let Puts { shown: _, count: _ } = self;
    }
}

impl<T> Model for Puts<T> {
    ghost use Rattle.std.specs.Prelude.{◌≡◌, ℕ, ◌≤◌, List, length, take};
    ghost use Rattle.std.specs.Coded.{coded×, coded_ℕ, coded_list};

    ghost Value = { List (ℕ × T) };

    ghost coded = { coded_list (coded× coded_ℕ T.code) };

    ghost view = { λ p. take p.count p.shown };

    ghost invariant = { λ p. (p.count ≤ 32) × (length p.shown ≡ 32) };
}

impl<T> Puts<T> {
    /// No items yet. What shows another item fills the places past the count.
    pub(crate) fn none(other: &Written<Arc<T>>) -> Puts<T>
        ensures { result ≡ [] }
    {
        Puts {
            shown: array::repeat(Put {
                written: other.again(),
            }),
            count: 0,
        }
    }

    /// How many items there are.
    pub(crate) fn len(&self) -> usize
        ensures is { result ≡ length self.now }
        ensures few { result ≤ 32 }
    {
        self.count
    }

    /// The first `count` items once more.
    pub(crate) fn front(&self, count: usize) -> Result<Puts<T>, NoMemory>
        requires { count ≤ length self.now }
        ensures { IfOk result (λ puts. puts ≡ take count self.now) }
    {
        Ok(Puts {
            shown: self.shown.clone()?,
            count,
        })
    }

    /// Adds an item.
    pub(crate) fn push(&mut self, written: Written<Arc<T>>)
        requires { length self.old < 32 }
        ensures { self.new ≡ self.old ++ (written.of, arc_value written.value) ∷ [] }
    {
        set_at(&mut self.shown, self.count, Put { written });
        self.count += 1;
    }

    /// Item `k` from 0, in its slot.
    pub(crate) fn item<'a>(&self, k: usize, slots: &'a [Slot<T>]) -> Option<&'a Arc<T>>
        requires { slots_told self.now ≡ take (length self.now) (names_of slots.now) }
        ensures { option_map (λ item. arc_value item.now) result ≡ slice_get (items_put self.now) k }
    {
        let put = self.shown[..self.count].get(k)?;
        Some(slots[k].value(&put.written))
    }
}

// Writes an element, of which the prover need not know that it has no bytes.
fn set_at<X: Drop>(xs: &mut [X; WIDTH], i: usize, x: X)
    requires { i < length xs.old }
    ensures { xs.new ≡ slice_set xs.old i x }
{
    xs[i] = x;
}
