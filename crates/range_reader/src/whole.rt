// The bytes of a leaf that has all that is wanted of its page: they are fetched without marks.
ghost use Rattle.std.specs.Prelude.{◌≡◌, ℕ, ◌+◌, ◌-◌, ◌*◌, ◌<◌, ◌≤◌, length, map, sum_by, All, IsTrue, IsFalse, slice_range};
ghost use Rattle.tree_geom.specs.Geometry.{page_range};
ghost use Rattle.page_store.specs.Count.{HasRisen};
ghost use Rattle.node_store.specs.UpdateRows.{stored_of};
ghost use Rattle.snapshot.specs.Versions.{row_at, HasNodeFor, IsVersionIn};
ghost use Rattle.range_reader.specs.Reading.{page_in, stored_bytes, IsLeafOf};
ghost use Rattle.range_reader.specs.Faults.{CountsKept, PieceFailed, StoredFailed};

use crate::source::{LeafAt, ReadSource};
use node_store::Piece;
use page_fan::{Doors, fetch};
use page_store::Door;

// Fills the buffer with bytes of a piece of update `j`, from byte `skip` of the piece on. False where all doors of the
// stored page failed.
fn take_piece<D: Door>(
    source: &ReadSource,
    doors: &mut Doors<D>,
    j: u64,
    piece: Piece,
    skip: usize,
    out: &mut [u8],
) -> bool
    requires here { IsVersionIn source.now.nodes.now source.now.houses.now source.now.view.now }
    requires doors { length doors.old ≡ length source.now.houses.now }
    requires version { (1 ≤ j) × (j ≤ length source.now.view.now.rows) }
    requires number { piece.page < length (stored_of (row_at source.now.view.now.rows j)) }
    requires fits { piece.from + piece.len ≤ length (stored_bytes source.now.view.now j piece.page) }
    requires within { skip + length out.old ≤ piece.len }
    ensures bytes { let from = piece.from + skip in
        All D.is_true doors.old → IsTrue result
        → out.new ≡ slice_range (stored_bytes source.now.view.now j piece.page) from (from + length out.old) }
    ensures failed { IsFalse result → StoredFailed source.now.view.now (map D.faults doors.old) (map D.faults doors.new) j piece.page }
    ensures counted { IsFalse result → HasRisen (sum_by D.faults doors.old) (sum_by D.faults doors.new) }
    ensures kept { CountsKept (map D.faults doors.old) (map D.faults doors.new) (sum_by D.faults doors.old) (sum_by D.faults doors.new) }
    ensures count { length doors.new ≡ length doors.old }
    ensures truth_stays { All D.is_true doors.old → All D.is_true doors.new }
{
    source.view.page_size().stands();
    let view = source.view;
    view.stands();
    let stored = view.page(j, piece.page);
    let _whole = stored.len();
    fetch(doors, source.houses, stored, piece.from + skip as u32, out)
}

// Fills the buffer with bytes of the leaf, which has them all. The buffer begins at byte `begin` of the page. False where all
// doors of one stored page failed.
pub(crate) fn take_leaf<D: Door>(
    source: &ReadSource,
    doors: &mut Doors<D>,
    leaf: LeafAt,
    begin: usize,
    out: &mut [u8],
) -> bool
    requires here { IsVersionIn source.now.nodes.now source.now.houses.now source.now.view.now }
    requires doors { length doors.old ≡ length source.now.houses.now }
    requires has { HasNodeFor source.now.view.now leaf.version (page_range source.now.view.now.page_size leaf.page) }
    requires leaf { IsLeafOf source.now.view.now leaf.version leaf.page leaf.parts }
    requires low { leaf.parts.start ≤ begin }
    requires high { begin + length out.old ≤ leaf.parts.start + leaf.parts.first.len + leaf.parts.second.len }
    ensures bytes { All D.is_true doors.old → IsTrue result
        → out.new ≡ slice_range (page_in source.now.view.now leaf.version leaf.page) begin (begin + length out.old) }
    ensures failed { IsFalse result → PieceFailed source.now.view.now (map D.faults doors.old) (map D.faults doors.new) leaf.page leaf.version }
    ensures counted { IsFalse result → HasRisen (sum_by D.faults doors.old) (sum_by D.faults doors.new) }
    ensures kept { CountsKept (map D.faults doors.old) (map D.faults doors.new) (sum_by D.faults doors.old) (sum_by D.faults doors.new) }
    ensures count { length doors.new ≡ length doors.old }
    ensures truth_stays { All D.is_true doors.old → All D.is_true doors.new }
{
    range_log::laws::leaves_fill();
    range_log::laws::folds_are();
    range_log::laws::page_bytes_stay();
    source.view.stands();
    let version = leaf.version;
    let parts = leaf.parts;
    let skip = begin - parts.start as usize;
    let first = parts.first.len as usize;
    if skip + out.len() <= first {
        return take_piece(source, doors, version, parts.first, skip, out);
    }
    if first <= skip {
        return take_piece(source, doors, version, parts.second, skip - first, out);
    }
    let (front, back) = out.split_at_mut(first - skip);
    if !take_piece(source, doors, version, parts.first, skip, front) {
        return false;
    }
    take_piece(source, doors, version, parts.second, 0, back)
}
