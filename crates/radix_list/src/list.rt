// A list that shares what it can.
ghost use Rattle.std.specs.Prelude.{◌≡◌, ◌+◌, ◌<◌, ◌≤◌, ◌⊎◌, [], ◌∷◌, ◌++◌, length, take, IfOk, IfErr, IfSome, slice_get};
ghost use Rattle.std.specs.Arc.{arc_value};
ghost use Rattle.std.specs.Option.{option_copied};

use crate::NoMemory;
use crate::grown::Grown;
use crate::packed::PackedList;
use std::alloc::Global;
use std::marker::Model;
use std::sync::Arc;
use std::sync::ledger::Ledger;
use tree_geom::Steps;

/// A list of up to 1,048,576 shared items, seen by a contract as the list of their values.
///
/// A list never changes: what adds an item or takes some away makes another list, which shares with this one the items and
/// all nodes, or all but those on one path. A list from which items were taken away keeps them, unseen, and so may one that
/// another list has grown from.
pub struct RadixList<T> {
    // none in a list that was made empty
    grown: Option<Grown<T>>,
    // beside it, since it is asked more often than all else
    len: u64,
    alloc: Global,
}

// By hand, so that it is one call wherever a list is let go: a derived drop stands, with all its branches, at each such place.
impl<T: Drop> Drop for RadixList<T> {
    fn drop(self) {
        let RadixList {
            grown: _,
            len: _,
            alloc: _,
        } = self;
    }
}

impl<T> Model for RadixList<T> {
    ghost use Rattle.std.specs.Prelude.{◌≡◌, ◌≤◌, List, [], length, unwrap_or};
    ghost use Rattle.std.specs.Coded.{coded_list};

    ghost Value = { List T };

    ghost coded = { coded_list T.code };

    ghost view = { λ l. unwrap_or l.grown [] };

    ghost invariant = { λ l. (l.len ≡ length (unwrap_or l.grown [])) × (l.len ≤ 1048576) };
}

impl<T> RadixList<T> {
    /// The list without items. It takes no memory, and the lists that are made from it take theirs from this allocator.
    pub fn empty(alloc: Global) -> RadixList<T>
        ensures { result ≡ [] }
    {
        RadixList {
            grown: None,
            len: 0,
            alloc,
        }
    }

    /// How many items the list has.
    pub fn len(&self) -> u64
        ensures is { result ≡ length self.now }
        ensures few { result ≤ 1048576 }
    {
        self.len
    }

    /// Item `i`, counted from 0, or None past the last. It takes a node step for each node on the way: four to an item of the
    /// body, one to an item in a slot, and none where there is no item.
    pub fn get<L: Ledger>(&self, i: u64, steps: &mut Steps<L>) -> Option<&T>
        ensures item { option_copied result ≡ slice_get self.now i }
        ensures few { steps.new ≤ steps.old + 4 }
        ensures counted { IfSome result (λ _. (steps.new ≡ steps.old + 4) ⊎ (steps.new ≡ steps.old + 1)) }
        ensures none { length self.now ≤ i → steps.new ≡ steps.old }
    {
        match &self.grown {
            Some(list) => list.get(i, steps),
            None => None,
        }
    }

    /// The list with the item at its end. This list stays as it is. An `Err` is want of memory and gives the item back.
    pub fn push(&self, item: Arc<T>) -> Result<RadixList<T>, Arc<T>>
    where
        T: Drop,
        requires { length self.now < 1048576 }
        ensures ok { IfOk result (λ list. list ≡ self.now ++ arc_value item ∷ []) }
        ensures err { IfErr result (λ back. back ≡ item) }
    {
        let alloc = self.alloc;
        let list = match &self.grown {
            Some(list) => list.push(alloc, item)?,
            None => {
                let none = Vec::new(alloc);
                match Grown::new(alloc, PackedList::empty(alloc), 0, &none, &item) {
                    Ok(list) => list,
                    Err(NoMemory) => return Err(item),
                }
            }
        };
        Ok(RadixList {
            grown: Some(list),
            len: self.len + 1,
            alloc,
        })
    }

    /// The same list once more. No node and no item is copied.
    pub fn share(&self) -> Result<RadixList<T>, NoMemory>
    where
        T: Drop,
        ensures { IfOk result (λ list. list ≡ self.now) }
    {
        self.prefix(self.len)
    }

    /// The list of the first `n` items. This list stays as it is. No node and no item is copied, and the items after them are
    /// kept.
    pub fn prefix(&self, n: u64) -> Result<RadixList<T>, NoMemory>
    where
        T: Drop,
        requires { n ≤ length self.now }
        ensures { IfOk result (λ list. list ≡ take n self.now) }
    {
        let grown = match &self.grown {
            Some(list) => Some(list.prefix(n)?),
            None => None,
        };
        Ok(RadixList {
            grown,
            len: n,
            alloc: self.alloc,
        })
    }
}
