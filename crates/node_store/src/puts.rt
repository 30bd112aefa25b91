// What puts show: which nodes lie in slots.
ghost use Rattle.std.specs.Prelude.{◌≡◌, ◌<◌, ◌≤◌, [], ◌∷◌, ◌++◌, length, Some, slice_get, slice_set};

use boxcar::slot::Written;
use std::array;
use std::marker::Model;

/// How many puts stand in an array.
pub(crate) const FEW: usize = 32;

/// What puts into slots of one kind show, in their order: 32 at most. It has the byte of their count alone. Behind that many stand others,
/// of no slot of the row.
#[derive(Drop)]
pub(crate) struct Puts<T> {
    count: u8,
    written: [Written<T>; FEW],
}

impl<T> Model for Puts<T> {
    ghost use Rattle.std.specs.Prelude.{◌≡◌, ◌≤◌, List, length, take};
    ghost use Rattle.boxcar.specs.declared.slot.Written.{Written};

    ghost Value = { List (Written T) };

    ghost view = { λ p. take p.count p.written };

    ghost invariant = { λ p. (p.count ≤ 32) × (length p.written ≡ 32) };
}

impl<T> Puts<T> {
    /// None. What stands in place of puts is made from `other`.
    pub(crate) fn none(other: &Written<T>) -> Puts<T>
        ensures { result ≡ [] }
    {
        Puts {
            count: 0,
            written: array::from_fn(|_| other.again()),
        }
    }

    /// How many there are.
    #[inline(always)]
    pub(crate) fn count(&self) -> u8
        ensures count { result ≡ length self.now }
        ensures few { result ≤ 32 }
    {
        self.count
    }

    /// Put `index`, counted from 0.
    #[inline(always)]
    pub(crate) fn at(&self, index: usize) -> &Written<T>
        requires { index < length self.now }
        ensures { slice_get self.now index ≡ Some result.now }
    {
        match self.written.get(index) {
            Some(put) => put,
            None => unreachable!(),
        }
    }

    /// Adds one at the end.
    pub(crate) fn push(&mut self, put: Written<T>)
        requires { length self.old < 32 }
        ensures { self.new ≡ self.old ++ put ∷ [] }
    {
        set_item(&mut self.written, usize::from(self.count), put);
        self.count += 1;
    }
}

// Sets item `at`.
fn set_item<T: Drop>(items: &mut [T], at: usize, item: T)
    requires { at < length items.old }
    ensures { items.new ≡ slice_set items.old at item }
{
    items[at] = item;
}
