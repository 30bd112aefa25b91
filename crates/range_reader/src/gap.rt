// The bytes of a page that a buffer for them lacks yet, where they lie side by side: the first leaf that has some of them, and how a leaf
// fills them from an end.
ghost use Rattle.std.specs.Prelude.{◌≡◌, ◌↔◌, ℕ, ◌+◌, ◌*◌, ◌^◌, ◌<◌, ◌≤◌, length, map, sum_by, All, IsTrue, IsNone, IfSome};
ghost use Rattle.tree_geom.specs.Geometry.{page_range};
ghost use Rattle.range_log.specs.Visits.{backs_of};
ghost use Rattle.page_store.specs.Count.{HasRisen};
ghost use Rattle.snapshot.specs.Versions.{HasNodeFor, IsVersionIn, NodesLieIn};
ghost use Rattle.range_reader.specs.Filling.{AreAlike, IsMetBy, Narrowed};
ghost use Rattle.range_reader.specs.Reading.{falls, page_in, IsLeafOf};
ghost use Rattle.range_reader.specs.Holders.{HasByte, IsReached};
ghost use Rattle.range_reader.specs.Faults.{CountsKept, IsLedTo, PieceFailed};

use crate::source::{LeafAt, ReadSource, leaf};
use crate::whole::take_leaf;
use node_store::{LeafParts, NodeHouse};
use page_fan::Doors;
use page_store::Door;
use snapshot::View;
use std::sync::ledger::Ledger;
use tree_geom::Steps;

/// The bytes of a page from its byte `low` on, up to byte `high`.
#[derive(Clone, Copy)]
pub(crate) struct Gap {
    pub low: usize,
    pub high: usize,
}

impl Gap {
    // Whether the leaf's own bytes lie between the ends of the gap, so that some of it is left on both sides of them.
    #[inline(always)]
    pub(crate) fn is_split_by(&self, leaf: &LeafParts) -> bool
        ensures { IsTrue result ↔ (self.now.low < leaf.now.start) × (leaf.now.start + (leaf.now.first.len + leaf.now.second.len) < self.now.high) }
    {
        self.low < leaf.start as usize && leaf.end() < self.high
    }
}

// The first leaf that has some of the gap's bytes, and its version: the leaf of version `from`, or one to which the backs lead from there
// past leaves that have none of them.
pub(crate) fn first_with<L: Ledger>(
    view: &View,
    nodes: &NodeHouse,
    from: u64,
    page: u64,
    gap: Gap,
    steps: &mut Steps<L>,
) -> (u64, LeafParts)
    requires here { NodesLieIn nodes.now view.now }
    requires has { HasNodeFor view.now from (page_range view.now.page_size page) }
    requires fits { page * view.now.page_size ≤ 2 ^ 40 }
    requires some { gap.low < gap.high }
    requires valid { gap.high ≤ length (page_in view.now from page) }
    ensures upto { result.0 ≤ from }
    ensures has { HasNodeFor view.now result.0 (page_range view.now.page_size page) }
    ensures leaf { IsLeafOf view.now result.0 page result.1 }
    ensures met { IsMetBy gap.low gap.high result.1 }
    ensures reached { (b : ℕ) → gap.low ≤ b → b < gap.high → IsReached view.now page b from → IsReached view.now page b result.0 }
    ensures led { IsLedTo view.now page from → IsLedTo view.now page result.0 }
    ensures alike { AreAlike (page_in view.now from page) (page_in view.now result.0 page) gap.low gap.high }
    ensures steps { let s = view.now in
        steps.new + backs_of s.page_size (falls s) result.0 page ≤ steps.old + 1 + backs_of s.page_size (falls s) from page }
{
    range_log::laws::leaves_fill();
    range_log::laws::folds_are();
    range_log::laws::page_bytes_stay();
    range_log::laws::links_name_nodes();
    range_log::laws::no_holes();
    range_log::laws::newest_is_greatest();
    range_log::laws::backs_step();
    view.stands();
    let mut version = from;
    loop {
        let parts = leaf(view, nodes, version, page, steps);
        if parts.meets(gap.low, gap.high - gap.low) {
            return (version, parts);
        }
        version = parts.back;
    }
}

// Fetches the bytes of a leaf that lie in the gap of its page, and tells what is left of the gap. The leaf has an end of the gap.
// The buffer begins at byte `begin` of the page. None where all doors of one stored page failed.
#[inline(always)]
pub(crate) fn fill_end<D: Door>(
    source: &ReadSource,
    doors: &mut Doors<D>,
    leaf: LeafAt,
    gap: Gap,
    begin: usize,
    out: &mut [u8],
) -> Option<Gap>
    requires here { IsVersionIn source.now.nodes.now source.now.houses.now source.now.view.now }
    requires doors { length doors.old ≡ length source.now.houses.now }
    requires has { HasNodeFor source.now.view.now leaf.version (page_range source.now.view.now.page_size leaf.page) }
    requires leaf { IsLeafOf source.now.view.now leaf.version leaf.page leaf.parts }
    requires within { begin + length out.old ≤ source.now.view.now.page_size }
    requires low { begin ≤ gap.low }
    requires some { gap.low < gap.high }
    requires high { gap.high ≤ begin + length out.old }
    requires met { IsMetBy gap.low gap.high leaf.parts }
    requires end { ¬ ((gap.low < leaf.parts.start) × (leaf.parts.start + (leaf.parts.first.len + leaf.parts.second.len) < gap.high)) }
    ensures left { IfSome result (λ left. (gap.low ≤ left.low) × (left.low ≤ left.high) × (left.high ≤ gap.high)) }
    ensures lacks { IfSome result (λ left. (b : ℕ) → left.low ≤ b → b < left.high → ¬ HasByte source.now.view.now leaf.version leaf.page b) }
    ensures narrowed { All D.is_true doors.old
        → IfSome result (λ left. Narrowed (page_in source.now.view.now leaf.version leaf.page) begin gap.low gap.high left.low left.high out.old out.new) }
    ensures failed { IsNone result → PieceFailed source.now.view.now (map D.faults doors.old) (map D.faults doors.new) leaf.page leaf.version }
    ensures counted { IsNone result → HasRisen (sum_by D.faults doors.old) (sum_by D.faults doors.new) }
    ensures kept { CountsKept (map D.faults doors.old) (map D.faults doors.new) (sum_by D.faults doors.old) (sum_by D.faults doors.new) }
    ensures count { length doors.new ≡ length doors.old }
    ensures truth_stays { All D.is_true doors.old → All D.is_true doors.new }
{
    source.view.page_size().stands();
    let parts = leaf.parts;
    let from = gap.low.max(parts.start as usize);
    let to = gap.high.min(parts.end());
    let part = &mut out[from - begin..to - begin];
    if !take_leaf(source, doors, leaf, from, part) {
        return None;
    }
    if from == gap.low {
        return Some(Gap {
            low: to,
            high: gap.high,
        });
    }
    Some(Gap {
        low: gap.low,
        high: from,
    })
}
