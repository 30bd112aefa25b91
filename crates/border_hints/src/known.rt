// What the published snapshot's tree tells of the newest versions of ranges, and of how deep leaves lie.
ghost use Rattle.std.specs.Prelude.{◌≡◌, ◌+◌, ◌*◌, ◌^◌, ◌<◌, ◌≤◌, length};
ghost use Rattle.tree_geom.specs.Geometry.{tree_range, height_of};
ghost use Rattle.range_log.specs.Depths.{depth_of};
ghost use Rattle.snapshot.specs.Versions.{size_now, HasNodeFor, NodesLieIn};
ghost use Rattle.border_hints.specs.Numbered.{log_of};
ghost use Rattle.border_hints.specs.Borders.{newest_known};

use node_store::NodeHouse;
use snapshot::RowView;
use std::sync::ledger::Ledger;
use tree_geom::Steps;

/// How deep the newest leaf of the page lies in the version of which that row is one. It is the row of update `at`, the newest that
/// touches the page, or 0 where none does. In a branch it may be a leaf of the blob that the branch was made from, and the count
/// goes on from there.
pub(crate) fn depth_known<L: Ledger>(
    row: &RowView,
    nodes: &NodeHouse,
    at: u64,
    page: u64,
    steps: &mut Steps<L>,
) -> u32
    requires here { NodesLieIn nodes.now row.now.version }
    requires row { row.now.update ≡ at }
    requires at { at ≡ newest_known row.now.version (tree_range row.now.version.page_size 0 page) }
    ensures depth { let s = row.now.version in result ≡ depth_of s.page_size (log_of s) (length s.rows) page }
    ensures steps { steps.new ≤ steps.old + 1 }
{
    range_log::laws::newest_has_node();
    range_log::laws::depth_counts_backs();
    range_log::laws::logs_are_grown();
    range_log::laws::page_bytes_stay();
    tree_geom::laws::ranges_align();
    row.stands();
    if at == 0 {
        return 0;
    }
    row.leaf(nodes, page, steps).depth
}

/// The newest versions for the halves of range number `q` of the height above `level`, in the version of which that row is one. It
/// is the row of update `at`, the newest that touches the range, or 0 where none does. `tall` is the height of the version's tree.
///
/// A range that the tree's root doesn't reach has the root in its lower half alone, if at all.
pub(crate) fn halves_known<L: Ledger>(
    row: &RowView,
    nodes: &NodeHouse,
    at: u64,
    tall: u32,
    level: u32,
    q: u64,
    steps: &mut Steps<L>,
) -> (u64, u64)
    requires here { NodesLieIn nodes.now row.now.version }
    requires row { row.now.update ≡ at }
    requires tall { tall ≡ height_of row.now.version.page_size (size_now row.now.version) }
    requires at { at ≡ newest_known row.now.version (tree_range row.now.version.page_size (level + 1) q) }
    ensures low { result.0 ≡ newest_known row.now.version (tree_range row.now.version.page_size level (2 * q)) }
    ensures high { result.1 ≡ newest_known row.now.version (tree_range row.now.version.page_size level (2 * q + 1)) }
    ensures steps { steps.new ≤ steps.old + 1 }
{
    range_log::laws::newest_is_greatest();
    range_log::laws::newest_has_node();
    range_log::laws::logs_are_grown();
    range_log::laws::page_bytes_stay();
    tree_geom::laws::spans_hold();
    tree_geom::laws::ranges_align();
    row.stands();
    if at == 0 {
        return (0, 0);
    }
    if tall <= level {
        return (at, 0);
    }
    row.links(nodes, level + 1, q, steps)
}
