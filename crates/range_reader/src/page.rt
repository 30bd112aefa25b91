// The bytes of one page, from its newest leaf and along the backs.
ghost use Rattle.std.specs.Prelude.{◌≡◌, ℕ, ◌+◌, ◌*◌, ◌^◌, ◌<◌, ◌≤◌, length, map, sum_by, All, IsTrue, IsFalse, IsSome, IsNone, IfSome, true, false, slice_index_or, slice_range};
ghost use Rattle.tree_geom.specs.Geometry.{page_range};
ghost use Rattle.range_log.specs.Visits.{backs_of};
ghost use Rattle.page_store.specs.Count.{HasRisen};
ghost use Rattle.snapshot.specs.Versions.{size_now, HasNodeFor, IsVersionIn};
ghost use Rattle.range_reader.specs.Filling.{IsMetBy, OverlaidBy, TakenBy, IsNextWanted};
ghost use Rattle.range_reader.specs.Reading.{falls, newest_in, bytes_at, page_in, IsLeafOf};
ghost use Rattle.range_reader.specs.Faults.{CountsKept, IsLedTo, PieceFailed, PageFailed};

use crate::gap::{Gap, fill_end, first_with};
use crate::marks::{first_marked, mark_all};
use crate::piece::fill_piece;
use crate::source::{LeafAt, ReadSource, leaf};
use crate::whole::take_leaf;
use page_fan::Doors;
use page_store::Door;
use std::sync::ledger::Ledger;
use tree_geom::Steps;

// Fetches the wanted bytes of a leaf. The buffer begins at byte `begin` of the page.
fn fill_leaf<D: Door>(
    source: &ReadSource,
    doors: &mut Doors<D>,
    leaf: LeafAt,
    begin: usize,
    marks: &mut [bool],
    out: &mut [u8],
) -> bool
    requires here { IsVersionIn source.now.nodes.now source.now.houses.now source.now.view.now }
    requires doors { length doors.old ≡ length source.now.houses.now }
    requires has { HasNodeFor source.now.view.now leaf.version (page_range source.now.view.now.page_size leaf.page) }
    requires leaf { IsLeafOf source.now.view.now leaf.version leaf.page leaf.parts }
    requires within { begin + length out.old ≤ source.now.view.now.page_size }
    requires marked { length marks.old ≡ length out.old }
    ensures overlaid { All D.is_true doors.old → IsTrue result → OverlaidBy source.now.view.now leaf begin marks.old out.old out.new }
    ensures taken { IsTrue result → TakenBy source.now.view.now leaf begin marks.old marks.new }
    ensures failed { IsFalse result → PieceFailed source.now.view.now (map D.faults doors.old) (map D.faults doors.new) leaf.page leaf.version }
    ensures counted { IsFalse result → HasRisen (sum_by D.faults doors.old) (sum_by D.faults doors.new) }
    ensures kept { CountsKept (map D.faults doors.old) (map D.faults doors.new) (sum_by D.faults doors.old) (sum_by D.faults doors.new) }
    ensures count { length doors.new ≡ length doors.old }
    ensures truth_stays { All D.is_true doors.old → All D.is_true doors.new }
{
    range_log::laws::leaves_fill();
    range_log::laws::folds_are();
    range_log::laws::page_bytes_stay();
    source.view.stands();
    let version = leaf.version;
    let parts = leaf.parts;
    let start = parts.start as usize;
    if !fill_piece(
        source,
        doors,
        version,
        parts.first,
        start,
        begin,
        marks,
        out,
    ) {
        return false;
    }
    if parts.second.len == 0 {
        return true;
    }
    let middle = start + parts.first.len as usize;
    fill_piece(
        source,
        doors,
        version,
        parts.second,
        middle,
        begin,
        marks,
        out,
    )
}

// Fetches the wanted bytes of a leaf as `fill_leaf` does, and tells the first byte from `first` on that is still wanted, or
// the buffer's length. Byte `first` is wanted. A leaf that has none of the buffer's bytes is passed over, and no mark is
// looked at. None where all doors of one stored page failed.
fn fill_wanted<D: Door>(
    source: &ReadSource,
    doors: &mut Doors<D>,
    leaf: LeafAt,
    begin: usize,
    first: usize,
    marks: &mut [bool],
    out: &mut [u8],
) -> Option<usize>
    requires here { IsVersionIn source.now.nodes.now source.now.houses.now source.now.view.now }
    requires doors { length doors.old ≡ length source.now.houses.now }
    requires has { HasNodeFor source.now.view.now leaf.version (page_range source.now.view.now.page_size leaf.page) }
    requires leaf { IsLeafOf source.now.view.now leaf.version leaf.page leaf.parts }
    requires within { begin + length out.old ≤ source.now.view.now.page_size }
    requires marked { length marks.old ≡ length out.old }
    requires first { first < length out.old }
    requires wanted { slice_index_or marks.old first false ≡ true }
    ensures overlaid { All D.is_true doors.old → IsSome result → OverlaidBy source.now.view.now leaf begin marks.old out.old out.new }
    ensures taken { IsSome result → TakenBy source.now.view.now leaf begin marks.old marks.new }
    ensures next { IfSome result (λ next. IsNextWanted marks.new first next) }
    ensures failed { IsNone result → PieceFailed source.now.view.now (map D.faults doors.old) (map D.faults doors.new) leaf.page leaf.version }
    ensures counted { IsNone result → HasRisen (sum_by D.faults doors.old) (sum_by D.faults doors.new) }
    ensures kept { CountsKept (map D.faults doors.old) (map D.faults doors.new) (sum_by D.faults doors.old) (sum_by D.faults doors.new) }
    ensures count { length doors.new ≡ length doors.old }
    ensures truth_stays { All D.is_true doors.old → All D.is_true doors.new }
{
    source.view.page_size().stands();
    if !leaf.parts.meets(begin, out.len()) {
        return Some(first);
    }
    if !fill_leaf(source, doors, leaf, begin, marks, out) {
        return None;
    }
    Some(first_marked(marks, first, true))
}

// Fills `out` with bytes of the leaf's page from its byte `begin` on, as the leaf's version has them, byte by byte as the marks say:
// from this leaf, and along the backs for the bytes that it lacks. False where all doors of one stored page failed.
fn fill_along<D: Door, L: Ledger>(
    source: &ReadSource,
    doors: &mut Doors<D>,
    steps: &mut Steps<L>,
    head: LeafAt,
    begin: usize,
    marks: &mut [bool],
    out: &mut [u8],
) -> bool
    requires here { IsVersionIn source.now.nodes.now source.now.houses.now source.now.view.now }
    requires doors { length doors.old ≡ length source.now.houses.now }
    requires led { IsLedTo source.now.view.now head.page head.version }
    requires has { HasNodeFor source.now.view.now head.version (page_range source.now.view.now.page_size head.page) }
    requires leaf { IsLeafOf source.now.view.now head.version head.page head.parts }
    requires fits { head.page * source.now.view.now.page_size ≤ 2 ^ 40 }
    requires within { begin + length out.old ≤ source.now.view.now.page_size }
    requires valid { begin + length out.old ≤ length (page_in source.now.view.now head.version head.page) }
    requires some { 1 ≤ length out.old }
    requires marked { length marks.old ≡ length out.old }
    ensures bytes { All D.is_true doors.old → IsTrue result
        → out.new ≡ slice_range (page_in source.now.view.now head.version head.page) begin (begin + length out.old) }
    ensures steps { let s = source.now.view.now in steps.new ≤ steps.old + backs_of s.page_size (falls s) head.version head.page }
    ensures failed { IsFalse result → PageFailed source.now.view.now (map D.faults doors.old) (map D.faults doors.new) head.page }
    ensures counted { IsFalse result → HasRisen (sum_by D.faults doors.old) (sum_by D.faults doors.new) }
    ensures kept { CountsKept (map D.faults doors.old) (map D.faults doors.new) (sum_by D.faults doors.old) (sum_by D.faults doors.new) }
    ensures count { length doors.new ≡ length doors.old }
    ensures truth_stays { All D.is_true doors.old → All D.is_true doors.new }
{
    range_log::laws::leaves_fill();
    range_log::laws::folds_are();
    range_log::laws::page_bytes_stay();
    range_log::laws::links_name_nodes();
    range_log::laws::no_holes();
    range_log::laws::newest_is_greatest();
    range_log::laws::backs_step();
    source.view.stands();
    mark_all(marks, true);
    let page = head.page;
    let mut first = 0;
    let mut version = head.version;
    let mut parts = head.parts;
    loop {
        let at = LeafAt {
            version,
            page,
            parts,
        };
        let Some(next) = fill_wanted(source, doors, at, begin, first, marks, out) else {
            return false;
        };
        if next == out.len() {
            return true;
        }
        first = next;
        version = parts.back;
        parts = leaf(source.view, source.nodes, version, page, steps);
    }
}

// Does what `fill_along` does, without marks as long as what is still wanted lies side by side: each leaf that has some of it has an end
// of it, as the leaf at hand does. Where a leaf has bytes between its ends, the rest is filled as the marks say.
fn fill_ends<D: Door, L: Ledger>(
    source: &ReadSource,
    doors: &mut Doors<D>,
    steps: &mut Steps<L>,
    head: LeafAt,
    begin: usize,
    marks: &mut [bool],
    out: &mut [u8],
) -> bool
    requires here { IsVersionIn source.now.nodes.now source.now.houses.now source.now.view.now }
    requires doors { length doors.old ≡ length source.now.houses.now }
    requires led { IsLedTo source.now.view.now head.page head.version }
    requires has { HasNodeFor source.now.view.now head.version (page_range source.now.view.now.page_size head.page) }
    requires leaf { IsLeafOf source.now.view.now head.version head.page head.parts }
    requires fits { head.page * source.now.view.now.page_size ≤ 2 ^ 40 }
    requires within { begin + length out.old ≤ source.now.view.now.page_size }
    requires valid { begin + length out.old ≤ length (page_in source.now.view.now head.version head.page) }
    requires some { 1 ≤ length out.old }
    requires met { IsMetBy begin (begin + length out.old) head.parts }
    requires marked { length marks.old ≡ length out.old }
    ensures bytes { All D.is_true doors.old → IsTrue result
        → out.new ≡ slice_range (page_in source.now.view.now head.version head.page) begin (begin + length out.old) }
    ensures steps { let s = source.now.view.now in steps.new ≤ steps.old + backs_of s.page_size (falls s) head.version head.page }
    ensures failed { IsFalse result → PageFailed source.now.view.now (map D.faults doors.old) (map D.faults doors.new) head.page }
    ensures counted { IsFalse result → HasRisen (sum_by D.faults doors.old) (sum_by D.faults doors.new) }
    ensures kept { CountsKept (map D.faults doors.old) (map D.faults doors.new) (sum_by D.faults doors.old) (sum_by D.faults doors.new) }
    ensures count { length doors.new ≡ length doors.old }
    ensures truth_stays { All D.is_true doors.old → All D.is_true doors.new }
{
    range_log::laws::leaves_fill();
    range_log::laws::folds_are();
    range_log::laws::page_bytes_stay();
    range_log::laws::links_name_nodes();
    range_log::laws::no_holes();
    range_log::laws::newest_is_greatest();
    range_log::laws::backs_step();
    source.view.stands();
    let mut gap = Gap {
        low: begin,
        high: begin + out.len(),
    };
    let page = head.page;
    let mut version = head.version;
    let mut parts = head.parts;
    loop {
        let at = LeafAt {
            version,
            page,
            parts,
        };
        if gap.is_split_by(&parts) {
            let wanted = &mut marks[gap.low - begin..gap.high - begin];
            let rest = &mut out[gap.low - begin..gap.high - begin];
            return fill_along(source, doors, steps, at, gap.low, wanted, rest);
        }
        let Some(left) = fill_end(source, doors, at, gap, begin, out) else {
            return false;
        };
        if left.low == left.high {
            return true;
        }
        gap = left;
        let (older, found) = first_with(source.view, source.nodes, parts.back, page, gap, steps);
        version = older;
        parts = found;
    }
}

// Fills `out` with bytes of the page from its byte `begin` on: from the first leaf that has some of them, and along the backs for
// the bytes that it lacks. A byte that a newer leaf has is never written again, and marks are made only where a leaf has bytes
// between others that are still wanted. False where all doors of one stored page failed. `newest` is the version of the newest leaf.
pub(crate) fn fill_page<D: Door, L: Ledger>(
    source: &ReadSource,
    doors: &mut Doors<D>,
    steps: &mut Steps<L>,
    newest: u64,
    page: u64,
    begin: usize,
    marks: &mut [bool],
    out: &mut [u8],
) -> bool
    requires here { IsVersionIn source.now.nodes.now source.now.houses.now source.now.view.now }
    requires doors { length doors.old ≡ length source.now.houses.now }
    requires newest { newest ≡ newest_in source.now.view.now (page_range source.now.view.now.page_size page) }
    requires has { HasNodeFor source.now.view.now newest (page_range source.now.view.now.page_size page) }
    requires within { begin + length out.old ≤ source.now.view.now.page_size }
    requires valid { page * source.now.view.now.page_size + begin + length out.old ≤ size_now source.now.view.now }
    requires some { 1 ≤ length out.old }
    requires marked { length marks.old ≡ length out.old }
    ensures bytes { let s = source.now.view.now in
        All D.is_true doors.old → IsTrue result → out.new ≡ bytes_at s (page * s.page_size + begin) (length out.old) }
    ensures steps { let s = source.now.view.now in
        steps.new ≤ steps.old + 1 + backs_of s.page_size (falls s) (length s.rows) page }
    ensures failed { IsFalse result → PageFailed source.now.view.now (map D.faults doors.old) (map D.faults doors.new) page }
    ensures counted { IsFalse result → HasRisen (sum_by D.faults doors.old) (sum_by D.faults doors.new) }
    ensures kept { CountsKept (map D.faults doors.old) (map D.faults doors.new) (sum_by D.faults doors.old) (sum_by D.faults doors.new) }
    ensures count { length doors.new ≡ length doors.old }
    ensures truth_stays { All D.is_true doors.old → All D.is_true doors.new }
{
    range_log::laws::leaves_fill();
    range_log::laws::folds_are();
    range_log::laws::page_bytes_stay();
    range_log::laws::newest_is_greatest();
    range_log::laws::backs_step();
    source.view.stands();
    let whole = Gap {
        low: begin,
        high: begin + out.len(),
    };
    let (version, parts) = first_with(source.view, source.nodes, newest, page, whole, steps);
    let head = LeafAt {
        version,
        page,
        parts,
    };
    if parts.has_all(begin, out.len()) {
        return take_leaf(source, doors, head, begin, out);
    }
    fill_ends(source, doors, steps, head, begin, marks, out)
}
