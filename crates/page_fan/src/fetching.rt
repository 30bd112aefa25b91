// Pages are read from whichever of their doors gives them.
ghost use Rattle.std.specs.Prelude.{◌≡◌, ◌+◌, ◌≤◌, length, IsTrue, IsFalse, All, map, sum_by, slice_range};
ghost use Rattle.page_store.specs.Count.{HasRisen};
ghost use Rattle.page_store.specs.House.{IsProvider};
ghost use Rattle.page_store.specs.Page.{IsAmong};
ghost use Rattle.page_fan.specs.Counts.{NoneFell, RoseAt, OthersStay};
ghost use Rattle.page_fan.specs.Used.{AreTrueAt, StayTrue, CalledFor, CameFrom};

use crate::doors::Doors;
use page_store::{Door, GetAnswer, Houses, StoredPage};

/// Fills `out` with the page's bytes from byte `from` on, and answers whether it did.
///
/// It tries the replicas in order up to the first whose door gives it, and answers false where every replica's door
/// failed; `out` then holds any bytes. It waits for nobody and takes no memory.
pub fn fetch<D: Door>(
    doors: &mut Doors<D>,
    houses: &Houses,
    page: &StoredPage,
    from: u32,
    out: &mut [u8],
) -> bool
    requires here { All (IsAmong houses.now) page.now.spots }
    requires served { All (λ spot. IsProvider (length doors.old) spot.provider) page.now.spots }
    requires room { from + length out.old ≤ length page.now.bytes }
    ensures got { IsTrue result → AreTrueAt D.is_true doors.old page.now.spots
        → out.new ≡ slice_range page.now.bytes from (from + length out.old) }
    ensures in_order { IsTrue result → CameFrom D.called D.faults page.now.spots doors.old doors.new }
    ensures failed { IsFalse result
        → All (λ spot. RoseAt (map D.faults doors.old) (map D.faults doors.new) spot.provider) page.now.spots }
    ensures counted { IsFalse result → HasRisen (sum_by D.faults doors.old) (sum_by D.faults doors.new) }
    ensures called { IsFalse result → CalledFor D.called page.now.spots doors.old doors.new }
    ensures others { IsFalse result → OthersStay page.now.spots (map D.faults doors.old) (map D.faults doors.new) }
    ensures none_fell { NoneFell (map D.faults doors.old) (map D.faults doors.new) }
    ensures sum_never_falls { sum_by D.faults doors.old ≤ sum_by D.faults doors.new }
    ensures count { length doors.new ≡ length doors.old }
    ensures stay_true { StayTrue D.is_true doors.old doors.new }
    ensures truth_stays { All D.is_true doors.old → All D.is_true doors.new }
{
    for i in 0..page.replica_count() {
        match doors.get(houses, page.replica(i), from, out) {
            GetAnswer::Got => return true,
            GetAnswer::Failed => {}
        }
    }
    false
}
