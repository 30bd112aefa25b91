// A node of the tree, which shares its children with other nodes.
ghost use Rattle.std.specs.Prelude.{◌≡◌, ◌+◌, ◌^◌, ◌<◌, ◌≤◌, [], ◌∷◌, ◌++◌, length, take, map, unwrap_or, vec_len, vec_capacity, IfOk, OnOk, slice_get};
ghost use Rattle.std.specs.Arc.{arc_value};
ghost use Rattle.std.specs.Option.{option_copied, option_map};

use crate::NoMemory;
use std::alloc::Global;
use std::marker::Model;
use std::sync::Arc;
use std::sync::ledger::Ledger;
use tree_geom::Steps;

/// How many children a node may have.
pub(crate) const WIDTH: usize = 32;

/// The children of a node, in order.
#[derive(Drop)]
pub(crate) struct Branch<C> {
    children: Vec<Arc<C>>,
}

impl<C> Model for Branch<C> {
    ghost use Rattle.std.specs.Prelude.{List, map};
    ghost use Rattle.std.specs.Coded.{coded_list};
    ghost use Rattle.std.specs.Arc.{arc_value};

    ghost Value = { List C };

    ghost coded = { coded_list C.code };

    ghost view = { λ b. map arc_value b.children.items };
}

impl<C> Branch<C> {
    /// A node of these children.
    pub(crate) fn of(children: Vec<Arc<C>>) -> Branch<C>
        ensures { result ≡ map arc_value children.items }
    {
        Branch { children }
    }

    /// Child `k` from 0, and the share that this node has in it.
    pub(crate) fn handle(&self, k: usize) -> Option<&Arc<C>>
        ensures { option_map (λ child. arc_value child.now) result ≡ slice_get self.now k }
    {
        if k < self.children.len() {
            Some(&self.children[k])
        } else {
            None
        }
    }

    /// Child `k` from 0.
    pub(crate) fn at(&self, k: usize) -> Option<&C>
        ensures { option_copied result ≡ slice_get self.now k }
    {
        match self.handle(k) {
            Some(child) => Some(child),
            None => None,
        }
    }

    /// Child `k` from 0, which takes a node step.
    pub(crate) fn visit<L: Ledger>(&self, k: usize, steps: &mut Steps<L>) -> Option<&C>
        ensures child { option_copied result ≡ slice_get self.now k }
        ensures step { steps.new ≡ steps.old + 1 }
    {
        steps.tick();
        self.at(k)
    }
}

impl<C: Drop> Branch<C> {
    /// A node of the first `keep` children of `base`, or of all that it has, and then this child.
    pub(crate) fn ending(
        alloc: Global,
        base: Option<&Branch<C>>,
        keep: usize,
        child: Arc<C>,
    ) -> Result<Branch<C>, NoMemory>
        requires { keep < WIDTH }
        ensures { IfOk result (λ node. node ≡ take keep (unwrap_or (option_copied base.entry) []) ++ arc_value child ∷ []) }
    {
        let kept: &[Arc<C>] = match base {
            Some(node) => node.front(keep),
            None => &[],
        };
        let mut children = Vec::with_capacity(alloc, keep + 1)?;
        add_shares(&mut children, kept)?;
        children.push_reserved(child);
        Ok(Branch { children })
    }

    // The first `count` children, or all.
    fn front(&self, count: usize) -> &[Arc<C>]
        ensures children { map arc_value result.now ≡ take count self.now }
        ensures few { length result.now ≤ count }
    {
        &self.children[..count.min(self.children.len())]
    }
}

// Adds these children once more, for which there is room.
fn add_shares<C: Drop>(children: &mut Vec<Arc<C>>, more: &[Arc<C>]) -> Result<(), NoMemory>
    requires { vec_len children.old + length more.now ≤ vec_capacity children.old }
    ensures children { OnOk result (map arc_value children.new.items ≡ map arc_value children.old.items ++ map arc_value more.now) }
    ensures count { OnOk result (vec_len children.new ≡ vec_len children.old + length more.now) }
    ensures room { vec_capacity children.new ≡ vec_capacity children.old }
{
    for child in more {
        children.push_reserved(Arc::try_clone(child)?);
    }
    Ok(())
}

/// A share in the same node once more, where there is one.
pub(crate) fn share_of<N>(node: &Option<Arc<N>>) -> Result<Option<Arc<N>>, NoMemory>
    ensures { IfOk result (λ shared. option_map arc_value shared ≡ option_map arc_value node.now) }
{
    match node {
        Some(node) => Ok(Some(Arc::try_clone(node)?)),
        None => Ok(None),
    }
}

/// The node, where there is one.
pub(crate) fn node_of<N>(node: &Option<Arc<N>>) -> Option<&N>
    ensures { option_copied result ≡ option_map arc_value node.now }
{
    match node {
        Some(node) => Some(node),
        None => None,
    }
}
