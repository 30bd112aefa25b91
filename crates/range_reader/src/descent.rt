// The way down from a version's root to the newest leaf of a page.
ghost use Rattle.std.specs.Prelude.{◌≡◌, ℕ, ◌+◌, ◌*◌, ◌/◌, ◌^◌, ◌<◌, ◌≤◌, length, All};
ghost use Rattle.tree_geom.specs.Geometry.{page_range, tree_range, height_of};
ghost use Rattle.range_log.specs.Walk.{nodes_visited};
ghost use Rattle.snapshot.specs.Versions.{size_now, HasNodeFor, NodesLieIn};
ghost use Rattle.range_reader.specs.Reading.{newest_in, IsKnown};

use crate::known::{KnownNode, known_links};
use crate::source::link_toward;
use node_store::NodeHouse;
use snapshot::View;
use std::sync::ledger::Ledger;
use tree_geom::{Range, Steps, halves};

// The version of the newest leaf of the page, in a tree of that many levels above its leaves. The leaf itself isn't asked for. The links
// mostly lead on in one row, so a row is looked up only where they lead to another.
pub(crate) fn newest_of_page<L: Ledger>(
    snapshot: &View,
    nodes: &NodeHouse,
    levels: u32,
    page: u64,
    steps: &mut Steps<L>,
) -> u64
    requires here { NodesLieIn nodes.now snapshot.now }
    requires levels { levels ≡ height_of snapshot.now.page_size (size_now snapshot.now) }
    requires low { levels ≤ 38 }
    requires valid { page * snapshot.now.page_size < size_now snapshot.now }
    ensures newest { result ≡ newest_in snapshot.now (page_range snapshot.now.page_size page) }
    ensures has { HasNodeFor snapshot.now result (page_range snapshot.now.page_size page) }
    ensures steps { steps.new ≡ steps.old + levels }
{
    tree_geom::laws::spans_hold();
    tree_geom::laws::ranges_align();
    range_log::laws::page_bytes_stay();
    range_log::laws::newest_is_greatest();
    range_log::walks::links_find();
    range_log::walks::links_step();
    let mut at = snapshot.version();
    let mut row = snapshot.row_of(at);
    for level in (0..levels).rev() {
        let on = link_toward(&row, nodes, level, page, steps);
        if on != at {
            row = snapshot.row_of(on);
        }
        at = on;
    }
    at
}

// The same of the page of byte `at`. Of the inner nodes none is asked for that is known, and some of the others are known from then on.
pub(crate) fn newest_knowing<L: Ledger>(
    snapshot: &View,
    nodes: &NodeHouse,
    known: &mut [KnownNode],
    levels: u32,
    at: u64,
    steps: &mut Steps<L>,
) -> u64
    requires here { NodesLieIn nodes.now snapshot.now }
    requires known { All (IsKnown snapshot.now) known.old }
    requires levels { levels ≡ height_of snapshot.now.page_size (size_now snapshot.now) }
    requires low { levels ≤ 38 }
    requires valid { at < size_now snapshot.now }
    ensures newest { result ≡ newest_in snapshot.now (page_range snapshot.now.page_size (at / snapshot.now.page_size)) }
    ensures has { HasNodeFor snapshot.now result (page_range snapshot.now.page_size (at / snapshot.now.page_size)) }
    ensures steps { steps.new ≤ steps.old + 2 * levels }
    ensures known { All (IsKnown snapshot.now) known.new }
    ensures room { length known.new ≡ length known.old }
{
    tree_geom::laws::spans_hold();
    range_log::laws::page_bytes_stay();
    range_log::laws::newest_is_greatest();
    range_log::walks::links_find();
    range_log::walks::visited_are_few();
    if known.is_empty() {
        let bytes = snapshot.page_size().bytes();
        return newest_of_page(snapshot, nodes, levels, at / bytes, steps);
    }
    let version = snapshot.version();
    let Some(root) = snapshot.root() else {
        unreachable!()
    };
    newest_leaf(snapshot, nodes, known, 1, version, root.range, at, steps)
}

// The same from a node on down: that of `version`, the newest of the range, in which byte `at` lies. The root's place among those that are
// known is 1, and the places of a node's halves are twice its own and the one after that.
fn newest_leaf<L: Ledger>(
    snapshot: &View,
    nodes: &NodeHouse,
    known: &mut [KnownNode],
    place: u64,
    version: u64,
    range: Range,
    at: u64,
    steps: &mut Steps<L>,
) -> u64
    requires here { NodesLieIn nodes.now snapshot.now }
    requires known { All (IsKnown snapshot.now) known.old }
    requires newest { version ≡ newest_in snapshot.now range }
    requires has { HasNodeFor snapshot.now version range }
    requires begins { range.offset ≤ at }
    requires ends { at < range.offset + range.size }
    requires fits { range.offset + range.size ≤ 2 ^ 40 }
    requires valid { at < size_now snapshot.now }
    ensures newest { result ≡ newest_in snapshot.now (page_range snapshot.now.page_size (at / snapshot.now.page_size)) }
    ensures has { HasNodeFor snapshot.now result (page_range snapshot.now.page_size (at / snapshot.now.page_size)) }
    ensures steps { (h q : ℕ) → range ≡ tree_range snapshot.now.page_size h q
        → steps.new < steps.old + nodes_visited h q (at / snapshot.now.page_size) (at / snapshot.now.page_size) }
    ensures known { All (IsKnown snapshot.now) known.new }
    ensures room { length known.new ≡ length known.old }
{
    range_log::walks::links_step();
    range_log::walks::visited_are_few();
    range_log::laws::page_bytes_stay();
    snapshot.stands();
    if range.size == snapshot.page_size().bytes() {
        return version;
    }
    let (left, right) = known_links(snapshot, nodes, known, place, version, range, steps);
    let (low, high) = halves(range);
    let below = place.saturating_add(place);
    if at < high.offset {
        return newest_leaf(snapshot, nodes, known, below, left, low, at, steps);
    }
    let below = below.saturating_add(1);
    newest_leaf(snapshot, nodes, known, below, right, high, at, steps)
}
