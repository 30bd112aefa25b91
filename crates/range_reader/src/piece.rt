// The bytes of a leaf's pieces, fetched where they are wanted.
ghost use Rattle.std.specs.Prelude.{◌≡◌, ℕ, ◌+◌, ◌*◌, ◌<◌, ◌≤◌, length, map, sum_by, All, IsTrue, IsFalse, false, slice_index_or};
ghost use Rattle.page_store.specs.Count.{HasRisen};
ghost use Rattle.page_store.specs.House.{IsProvider};
ghost use Rattle.page_store.specs.Page.{IsAmong};
ghost use Rattle.node_store.specs.UpdateRows.{stored_of};
ghost use Rattle.snapshot.specs.Versions.{row_at, IsVersionIn};
ghost use Rattle.range_reader.specs.Reading.{stored_bytes};
ghost use Rattle.range_reader.specs.Filling.{Filled, Overlaid, Taken};
ghost use Rattle.range_reader.specs.Faults.{CountsKept, AllRose, StoredFailed};

use crate::marks::{first_marked, mark_all};
use crate::source::ReadSource;
use node_store::Piece;
use page_fan::{Doors, fetch};
use page_store::{Door, Houses, StoredPage};

// Fetches the bytes that are marked, those of the stored page from byte `from` on, and takes the marks away. False where
// all doors of the stored page failed.
pub(crate) fn fill_marked<D: Door>(
    houses: &Houses,
    doors: &mut Doors<D>,
    stored: &StoredPage,
    from: u32,
    marks: &mut [bool],
    out: &mut [u8],
) -> bool
    requires here { All (IsAmong houses.now) stored.now.spots }
    requires served { All (λ spot. IsProvider (length doors.old) spot.provider) stored.now.spots }
    requires room { from + length out.old ≤ length stored.now.bytes }
    requires marked { length marks.old ≡ length out.old }
    ensures filled { All D.is_true doors.old → IsTrue result → Filled from stored.now.bytes marks.old out.old out.new }
    ensures taken { IsTrue result → (x : ℕ) → x < length marks.old → slice_index_or marks.new x false ≡ false }
    ensures failed { IsFalse result → AllRose (map D.faults doors.old) (map D.faults doors.new) stored.now.spots }
    ensures counted { IsFalse result → HasRisen (sum_by D.faults doors.old) (sum_by D.faults doors.new) }
    ensures kept { CountsKept (map D.faults doors.old) (map D.faults doors.new) (sum_by D.faults doors.old) (sum_by D.faults doors.new) }
    ensures count { length doors.new ≡ length doors.old }
    ensures truth_stays { All D.is_true doors.old → All D.is_true doors.new }
{
    let _whole = stored.len();
    let mut first = first_marked(marks, 0, true);
    while first < out.len() {
        let past = first_marked(marks, first, false);
        if !fetch(
            doors,
            houses,
            stored,
            from + first as u32,
            &mut out[first..past],
        ) {
            return false;
        }
        first = first_marked(marks, past, true);
    }
    mark_all(marks, false);
    true
}

// Fetches the wanted bytes of a piece of update `j`, whose bytes stand in the blob's page from byte `start` on. The buffer
// begins at byte `begin` of the page.
pub(crate) fn fill_piece<D: Door>(
    source: &ReadSource,
    doors: &mut Doors<D>,
    j: u64,
    piece: Piece,
    start: usize,
    begin: usize,
    marks: &mut [bool],
    out: &mut [u8],
) -> bool
    requires here { IsVersionIn source.now.nodes.now source.now.houses.now source.now.view.now }
    requires doors { length doors.old ≡ length source.now.houses.now }
    requires version { (1 ≤ j) × (j ≤ length source.now.view.now.rows) }
    requires number { piece.page < length (stored_of (row_at source.now.view.now.rows j)) }
    requires fits { piece.from + piece.len ≤ length (stored_bytes source.now.view.now j piece.page) }
    requires placed { start + piece.len ≤ source.now.view.now.page_size }
    requires within { begin + length out.old ≤ source.now.view.now.page_size }
    requires marked { length marks.old ≡ length out.old }
    ensures overlaid { All D.is_true doors.old → IsTrue result
        → Overlaid start piece.len piece.from begin (stored_bytes source.now.view.now j piece.page) marks.old out.old out.new }
    ensures taken { IsTrue result → Taken start piece.len begin marks.old marks.new }
    ensures failed { IsFalse result → StoredFailed source.now.view.now (map D.faults doors.old) (map D.faults doors.new) j piece.page }
    ensures counted { IsFalse result → HasRisen (sum_by D.faults doors.old) (sum_by D.faults doors.new) }
    ensures kept { CountsKept (map D.faults doors.old) (map D.faults doors.new) (sum_by D.faults doors.old) (sum_by D.faults doors.new) }
    ensures count { length doors.new ≡ length doors.old }
    ensures truth_stays { All D.is_true doors.old → All D.is_true doors.new }
{
    source.view.page_size().stands();
    let end = (start + piece.len as usize).min(begin + out.len());
    let low = start.max(begin);
    if end <= low {
        return true;
    }
    let view = source.view;
    view.stands();
    let stored = view.page(j, piece.page);
    let _whole = stored.len();
    let from = piece.from + (low - start) as u32;
    fill_marked(
        source.houses,
        doors,
        stored,
        from,
        &mut marks[low - begin..end - begin],
        &mut out[low - begin..end - begin],
    )
}
