// A list in a tree of four levels, all of whose items are the list's.
ghost use Rattle.std.specs.Prelude.{◌≡◌, ℕ, ◌+◌, ◌*◌, ◌/◌, ◌%◌, ◌<◌, ◌≤◌, [], ◌∷◌, ◌++◌, length, take, map, IfOk, IfSome, slice_get};
ghost use Rattle.std.specs.Arc.{arc_value};
ghost use Rattle.std.specs.Option.{option_copied, option_map};
ghost use Rattle.radix_list.specs.Packing.{groups};

use crate::NoMemory;
use crate::branch::{Branch, WIDTH, node_of, share_of};
use std::alloc::Global;
use std::marker::Model;
use std::sync::Arc;
use std::sync::ledger::Ledger;
use tree_geom::Steps;

type Leaf<T> = Branch<T>;

type Twig<T> = Branch<Leaf<T>>;

type Limb<T> = Branch<Twig<T>>;

type Root<T> = Branch<Limb<T>>;

/// A list of up to 1,048,576 shared items. It never changes: what adds items to a front of it makes another list, which
/// shares with this one all nodes but those on one path, and all items.
pub(crate) struct PackedList<T> {
    // none where there are no items
    root: Option<Arc<Root<T>>>,
    len: u64,
    alloc: Global,
}

// By hand, as that of `RadixList`.
impl<T: Drop> Drop for PackedList<T> {
    fn drop(self) {
        let PackedList {
            root: _,
            len: _,
            alloc: _,
        } = self;
    }
}

impl<T> Model for PackedList<T> {
    ghost use Rattle.std.specs.Prelude.{List, [], unwrap_or};
    ghost use Rattle.std.specs.Arc.{arc_value};
    ghost use Rattle.std.specs.Option.{option_map};
    ghost use Rattle.std.specs.Coded.{coded_list};
    ghost use Rattle.radix_list.specs.Packing.{items_of, IsPacked};

    ghost Value = { List T };

    ghost coded = { coded_list T.code };

    ghost view = { λ l. items_of (unwrap_or (option_map arc_value l.root) []) };

    ghost invariant = { λ l. IsPacked (unwrap_or (option_map arc_value l.root) []) l.len };
}

impl<T> PackedList<T> {
    /// The list without items. It takes no memory, and the lists that are made from it take theirs from this allocator.
    pub(crate) fn empty(alloc: Global) -> PackedList<T>
        ensures { result ≡ [] }
    {
        PackedList {
            root: None,
            len: 0,
            alloc,
        }
    }

    /// How many items the list has.
    pub(crate) fn len(&self) -> u64
        ensures is { result ≡ length self.now }
        ensures few { result ≤ 1048576 }
    {
        self.len
    }

    /// Item `i`, counted from 0, or None past the last one. It takes a node step for each node on the way: four to an item, and
    /// no more where there is none.
    pub(crate) fn get<L: Ledger>(&self, i: u64, steps: &mut Steps<L>) -> Option<&T>
        ensures item { option_copied result ≡ slice_get self.now i }
        ensures few { steps.new ≤ steps.old + 4 }
        ensures counted { IfSome result (λ _. steps.new ≡ steps.old + 4) }
    {
        let i = i as usize;
        let limb = node_of(&self.root)?.visit(i / WIDTH / WIDTH / WIDTH, steps)?;
        let twig = limb.visit(i / WIDTH / WIDTH % WIDTH, steps)?;
        let leaf = twig.visit(i / WIDTH % WIDTH, steps)?;
        leaf.visit(i % WIDTH, steps)
    }

    /// The same list once more. No node is copied.
    pub(crate) fn share(&self) -> Result<PackedList<T>, NoMemory>
    where
        T: Drop,
        ensures { IfOk result (λ list. list ≡ self.now) }
    {
        Ok(PackedList {
            root: share_of(&self.root)?,
            len: self.len,
            alloc: self.alloc,
        })
    }

    /// Item `i`, counted from 0, and the share that its leaf has in it.
    pub(crate) fn handle(&self, i: usize) -> Option<&Arc<T>>
        ensures { option_map (λ item. arc_value item.now) result ≡ slice_get self.now i }
    {
        self.leaf(i)?.handle(i % WIDTH)
    }

    /// The first `keep` items, which fill leaves, and then these, in a leaf of their own and new nodes on the path to it. All other
    /// nodes are shared.
    pub(crate) fn ending(&self, keep: u64, more: Vec<Arc<T>>) -> Result<PackedList<T>, NoMemory>
    where
        T: Drop,
        requires within { keep ≤ length self.now }
        requires aligned { keep % 32 ≡ 0 }
        requires some { 1 ≤ length more.items }
        requires one_leaf { length more.items ≤ 32 }
        requires room { keep + length more.items ≤ 1048576 }
        ensures { IfOk result (λ list. list ≡ take keep self.now ++ map arc_value more.items) }
    {
        let alloc = self.alloc;
        let len = keep + more.len() as u64;
        let leaf = Arc::new(alloc, Branch::of(more))?;
        let at = keep as usize / WIDTH;
        let twig = Branch::ending(alloc, self.twig(at), at % WIDTH, leaf)?;
        let twig = Arc::new(alloc, twig)?;
        let at = at / WIDTH;
        let limb = Branch::ending(alloc, self.limb(at), at % WIDTH, twig)?;
        let limb = Arc::new(alloc, limb)?;
        let at = at / WIDTH;
        let root = Branch::ending(alloc, node_of(&self.root), at, limb)?;
        let root = Arc::new(alloc, root)?;
        Ok(PackedList {
            root: Some(root),
            len,
            alloc,
        })
    }

    // The leaf that item `i` is in.
    fn leaf(&self, i: usize) -> Option<&Leaf<T>>
        ensures { option_copied result ≡ slice_get (groups self.now) (i / 32) }
    {
        let leaf = i / WIDTH;
        self.twig(leaf)?.at(leaf % WIDTH)
    }

    // The node that leaf `i` hangs on.
    fn twig(&self, i: usize) -> Option<&Twig<T>>
        ensures { option_copied result ≡ slice_get (groups (groups self.now)) (i / 32) }
    {
        let twig = i / WIDTH;
        self.limb(twig)?.at(twig % WIDTH)
    }

    // The child of the root that twig `i` hangs on.
    fn limb(&self, i: usize) -> Option<&Limb<T>>
        ensures { option_copied result ≡ slice_get (groups (groups (groups self.now))) (i / 32) }
    {
        node_of(&self.root)?.at(i / WIDTH)
    }
}
