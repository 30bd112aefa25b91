// The visit bound of a read, told before the read.
ghost use Rattle.std.specs.Prelude.{◌≡◌, ℕ, ◌+◌, ◌*◌, ◌^◌, ◌<◌, ◌≤◌, IfOk, IfErr, Err};
ghost use Rattle.tree_geom.specs.Geometry.{tree_range};
ghost use Rattle.range_log.specs.Walk.{nodes_visited};
ghost use Rattle.snapshot.specs.Versions.{size_now, HasNodeFor, NodesLieIn};
ghost use Rattle.range_reader.specs.Reading.{newest_in, backs_in, bound, bound_of_tree};
ghost use Rattle.range_reader.specs.Answers.{OnPastSize, OnPageFault};

use crate::reader::ReadFault;
use crate::source::leaf;
use node_store::NodeHouse;
use snapshot::{Snapshot, View};
use std::sync::ledger::Ledger;
use tree_geom::{Range, Steps, halves, height};

/// Tells the most nodes that a read of `length` bytes of the version from byte `offset` on visits.
///
/// The number is exact: it is 2 for each page that the bytes meet, 2 for each level of the version's tree, and the depths
/// of those pages' newest leaves. So it depends in part on how often the pages were changed in part since they were last
/// written whole or stored anew. For no bytes it is 0.
///
/// It visits each inner node above those pages once and the newest leaf of each, follows no back, and reads no stored page.
/// It takes no lock and no memory. Its node steps are bounded by the clause `steps`; there are none for no bytes and for a
/// range past the size, which alone is refused.
pub fn stated<L: Ledger>(
    snapshot: &Snapshot,
    nodes: &NodeHouse,
    offset: u64,
    length: u64,
    steps: &mut Steps<L>,
) -> Result<u64, ReadFault>
    requires here { NodesLieIn nodes.now snapshot.now }
    ensures exact { IfOk result (λ most. most ≡ bound snapshot.now offset length) }
    ensures refused { size_now snapshot.now < offset + length → result ≡ Err (ReadFault.RangePastSize (offset + length) (size_now snapshot.now)) }
    ensures past { IfErr result (λ fault. OnPastSize fault (size_now snapshot.now < offset + length)) }
    ensures no_page_fault { IfErr result (λ fault. OnPageFault fault (λ _. ⊥)) }
    ensures no_steps { size_now snapshot.now < offset + length → steps.new ≡ steps.old }
    ensures steps { steps.new ≤ steps.old + bound_of_tree snapshot.now offset length }
{
    range_log::laws::page_bytes_stay();
    range_log::laws::newest_is_greatest();
    range_log::walks::links_find();
    range_log::walks::visited_are_few();
    let size = snapshot.size();
    let end = u128::from(offset) + u128::from(length);
    if end > u128::from(size) {
        return Err(ReadFault::RangePastSize { end, size });
    }
    if length == 0 {
        return Ok(0);
    }
    let Some(root) = snapshot.root() else {
        return Ok(0);
    };
    let version = snapshot.version();
    let page_size = snapshot.page_size();
    let bytes = page_size.bytes();
    let pages = (offset + length - 1) / bytes + 1 - offset / bytes;
    let levels = u64::from(height(page_size, size));
    let view = snapshot.view();
    let backs = depths(&view, nodes, version, root.range, offset, length, steps);
    Ok(2 * pages + 2 * levels + backs)
}

// The sum of the depths of the newest leaves of the pages that `count` bytes from byte `from` on meet. The bytes lie in
// the range whose newest node is that of version `at`.
fn depths<L: Ledger>(
    snapshot: &View,
    nodes: &NodeHouse,
    at: u64,
    range: Range,
    from: u64,
    count: u64,
    steps: &mut Steps<L>,
) -> u64
    requires here { NodesLieIn nodes.now snapshot.now }
    requires newest { at ≡ newest_in snapshot.now range }
    requires has { HasNodeFor snapshot.now at range }
    requires begins { range.offset ≤ from }
    requires ends { from + count ≤ range.offset + range.size }
    requires fits { range.offset + range.size ≤ 2 ^ 40 }
    requires valid { from + count ≤ size_now snapshot.now }
    requires some { 1 ≤ count }
    ensures depths { result ≡ backs_in snapshot.now from count }
    ensures few { result ≤ count * 1048576 }
    ensures steps { (h q first last : ℕ) → range ≡ tree_range snapshot.now.page_size h q → first * snapshot.now.page_size ≤ from
        → from + count ≤ (last + 1) * snapshot.now.page_size → steps.new ≤ steps.old + nodes_visited h q first last }
{
    range_log::walks::links_step();
    range_log::walks::visited_are_few();
    range_log::laws::page_bytes_stay();
    range_log::laws::depth_counts_backs();
    snapshot.stands();
    let size = snapshot.page_size().bytes();
    if range.size == size {
        let newest = leaf(snapshot, nodes, at, range.offset / size, steps);
        return u64::from(newest.depth);
    }
    let (left, right) = snapshot.links(nodes, at, range, steps);
    let (low, high) = halves(range);
    let end = from + count;
    if end <= high.offset {
        return depths(snapshot, nodes, left, low, from, count, steps);
    }
    if high.offset <= from {
        return depths(snapshot, nodes, right, high, from, count, steps);
    }
    let middle = high.offset;
    let front = depths(snapshot, nodes, left, low, from, middle - from, steps);
    let back = depths(snapshot, nodes, right, high, middle, end - middle, steps);
    front + back
}
