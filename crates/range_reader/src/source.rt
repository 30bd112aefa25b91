// What a read goes through, and the nodes that it asks for.
ghost use Rattle.std.specs.Prelude.{◌≡◌, ◌+◌, ◌*◌, ◌/◌, ◌^◌, ◌<◌, ◌≤◌};
ghost use Rattle.tree_geom.specs.Geometry.{page_range, tree_range};
ghost use Rattle.range_log.specs.Log.{newest_of};
ghost use Rattle.snapshot.specs.Versions.{HasNodeFor, NodesLieIn};
ghost use Rattle.range_reader.specs.Reading.{falls, log_of, IsLeafOf};

use node_store::{LeafParts, NodeHouse};
use page_store::Houses;
use snapshot::{RowView, View};
use std::sync::ledger::Ledger;
use tree_geom::Steps;

/// What a read goes through: the version that is read, the house of its nodes, and the houses of its stored pages.
#[derive(Drop)]
pub struct ReadSource<'a> {
    pub view: &'a View<'a>,
    pub nodes: &'a NodeHouse,
    pub houses: &'a Houses,
}

/// A leaf with its place: it is that of the page in the row of this version's update.
#[derive(Clone, Copy)]
pub(crate) struct LeafAt {
    pub version: u64,
    pub page: u64,
    pub parts: LeafParts,
}

// The version whose row has the node of that height over the page, by the row's node of the height above.
#[inline(always)]
pub(crate) fn link_toward<L: Ledger>(
    row: &RowView,
    nodes: &NodeHouse,
    height: u32,
    page: u64,
    steps: &mut Steps<L>,
) -> u64
    requires here { NodesLieIn nodes.now row.now.version }
    requires low { height < 38 }
    requires has { HasNodeFor row.now.version row.now.update (tree_range row.now.version.page_size (height + 1) (page / 2 ^ (height + 1))) }
    ensures link { let s = row.now.version in
        result ≡ newest_of s.page_size (log_of s) row.now.update (tree_range s.page_size height (page / 2 ^ height)) }
    ensures step { steps.new ≡ steps.old + 1 }
{
    tree_geom::laws::ranges_align();
    let number = page >> height;
    let (left, right) = row.links(nodes, height + 1, page >> (height + 1), steps);
    if number % 2 == 0 {
        return left;
    }
    right
}

// The leaf of the page in the row of update `j`.
#[inline(always)]
pub(crate) fn leaf<L: Ledger>(
    snapshot: &View,
    nodes: &NodeHouse,
    j: u64,
    page: u64,
    steps: &mut Steps<L>,
) -> LeafParts
    requires here { NodesLieIn nodes.now snapshot.now }
    requires has { HasNodeFor snapshot.now j (page_range snapshot.now.page_size page) }
    requires fits { page * snapshot.now.page_size ≤ 2 ^ 40 }
    ensures leaf { IsLeafOf snapshot.now j page result }
    ensures step { steps.new ≡ steps.old + 1 }
{
    tree_geom::laws::ranges_align();
    snapshot.stands();
    let row = snapshot.row_of(j);
    row.leaf(nodes, page, steps)
}
