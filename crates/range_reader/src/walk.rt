// The walk by links, from a node down to the leaves.
ghost use Rattle.std.specs.Prelude.{◌≡◌, ℕ, ◌+◌, ◌*◌, ◌%◌, ◌^◌, ◌≤◌, length, map, sum_by, All, OnOk, IfErr};
ghost use Rattle.tree_geom.specs.Geometry.{tree_range, height_of};
ghost use Rattle.page_store.specs.Count.{HasRisen};
ghost use Rattle.range_log.specs.Walk.{nodes_visited};
ghost use Rattle.snapshot.specs.Versions.{size_now, HasNodeFor, IsVersionIn};
ghost use Rattle.range_reader.specs.Reading.{newest_in, bytes_at, backs_in, bound, IsKnown};
ghost use Rattle.range_reader.specs.Faults.{CountsKept, PageFailedIn};

use crate::descent::newest_knowing;
use crate::known::KnownNode;
use crate::page::fill_page;
use crate::source::ReadSource;
use page_fan::Doors;
use page_store::Door;
use std::sync::ledger::Ledger;
use tree_geom::{Range, Steps, halves};

// Fills `out` with bytes of the version from byte `from` on, which lie in the range whose newest node is that of version
// `at`. Fails with the number of a page all of whose doors failed, of one of its stored pages.
pub(crate) fn walk<D: Door, L: Ledger>(
    source: &ReadSource,
    doors: &mut Doors<D>,
    steps: &mut Steps<L>,
    marks: &mut [bool],
    at: u64,
    range: Range,
    from: u64,
    out: &mut [u8],
) -> Result<(), u64>
    requires here { IsVersionIn source.now.nodes.now source.now.houses.now source.now.view.now }
    requires doors { length doors.old ≡ length source.now.houses.now }
    requires marks { length marks.old ≡ source.now.view.now.page_size }
    requires newest { at ≡ newest_in source.now.view.now range }
    requires has { HasNodeFor source.now.view.now at range }
    requires begins { range.offset ≤ from }
    requires ends { from + length out.old ≤ range.offset + range.size }
    requires fits { range.offset + range.size ≤ 2 ^ 40 }
    requires valid { from + length out.old ≤ size_now source.now.view.now }
    requires some { 1 ≤ length out.old }
    ensures bytes { All D.is_true doors.old → OnOk result (out.new ≡ bytes_at source.now.view.now from (length out.old)) }
    ensures steps { let s = source.now.view.now in
        (h q first last : ℕ) → range ≡ tree_range s.page_size h q → first * s.page_size ≤ from
        → from + length out.old ≤ (last + 1) * s.page_size
        → steps.new ≤ steps.old + nodes_visited h q first last + backs_in s from (length out.old) }
    ensures failed { IfErr result (λ page. PageFailedIn source.now.view.now from (length out.old) (map D.faults doors.old) (map D.faults doors.new) page) }
    ensures counted { IfErr result (λ _. HasRisen (sum_by D.faults doors.old) (sum_by D.faults doors.new)) }
    ensures kept { CountsKept (map D.faults doors.old) (map D.faults doors.new) (sum_by D.faults doors.old) (sum_by D.faults doors.new) }
    ensures count { length doors.new ≡ length doors.old }
    ensures truth_stays { All D.is_true doors.old → All D.is_true doors.new }
{
    range_log::walks::links_step();
    range_log::walks::visited_are_few();
    range_log::laws::page_bytes_stay();
    source.view.stands();
    let size = source.view.page_size().bytes();
    if range.size == size {
        let page = range.offset / size;
        let begin = (from - range.offset) as usize;
        let wanted = &mut marks[..out.len()];
        return match fill_page(source, doors, steps, at, page, begin, wanted, out) {
            true => Ok(()),
            false => Err(page),
        };
    }
    let (left, right) = source.view.links(source.nodes, at, range, steps);
    let (low, high) = halves(range);
    let end = from + out.len() as u64;
    if end <= high.offset {
        return walk(source, doors, steps, marks, left, low, from, out);
    }
    if high.offset <= from {
        return walk(source, doors, steps, marks, right, high, from, out);
    }
    let (front, back) = out.split_at_mut((high.offset - from) as usize);
    walk(source, doors, steps, marks, left, low, from, front)?;
    walk(source, doors, steps, marks, right, high, high.offset, back)
}

// Does what `walk` does from the root, where all of `out` lies in one page, in a tree of that many levels above its leaves. Of the inner
// nodes above the page those that are known aren't asked for, and some of the others are known from then on.
pub(crate) fn walk_to_page<D: Door, L: Ledger>(
    source: &ReadSource,
    doors: &mut Doors<D>,
    steps: &mut Steps<L>,
    marks: &mut [bool],
    known: &mut [KnownNode],
    levels: u32,
    from: u64,
    out: &mut [u8],
) -> Result<(), u64>
    requires here { IsVersionIn source.now.nodes.now source.now.houses.now source.now.view.now }
    requires doors { length doors.old ≡ length source.now.houses.now }
    requires marks { length marks.old ≡ source.now.view.now.page_size }
    requires known { All (IsKnown source.now.view.now) known.old }
    requires levels { levels ≡ height_of source.now.view.now.page_size (size_now source.now.view.now) }
    requires low { levels ≤ 38 }
    requires valid { from + length out.old ≤ size_now source.now.view.now }
    requires some { 1 ≤ length out.old }
    requires one_page { from % source.now.view.now.page_size + length out.old ≤ source.now.view.now.page_size }
    ensures bytes { All D.is_true doors.old → OnOk result (out.new ≡ bytes_at source.now.view.now from (length out.old)) }
    ensures steps { steps.new ≤ steps.old + bound source.now.view.now from (length out.old) }
    ensures failed { IfErr result (λ page. PageFailedIn source.now.view.now from (length out.old) (map D.faults doors.old) (map D.faults doors.new) page) }
    ensures counted { IfErr result (λ _. HasRisen (sum_by D.faults doors.old) (sum_by D.faults doors.new)) }
    ensures kept { CountsKept (map D.faults doors.old) (map D.faults doors.new) (sum_by D.faults doors.old) (sum_by D.faults doors.new) }
    ensures count { length doors.new ≡ length doors.old }
    ensures truth_stays { All D.is_true doors.old → All D.is_true doors.new }
    ensures known { All (IsKnown source.now.view.now) known.new }
    ensures room { length known.new ≡ length known.old }
{
    range_log::laws::page_bytes_stay();
    source.view.stands();
    let view = source.view;
    let newest = newest_knowing(view, source.nodes, known, levels, from, steps);
    let size = view.page_size().bytes();
    let page = from / size;
    let begin = (from % size) as usize;
    let wanted = &mut marks[..out.len()];
    match fill_page(source, doors, steps, newest, page, begin, wanted, out) {
        true => Ok(()),
        false => Err(page),
    }
}
