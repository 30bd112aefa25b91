// The bytes of an update are stored before it is numbered.
ghost use Rattle.std.specs.Prelude.{◌≡◌, ◌*◌, ◌<◌, ◌≤◌, length, IfOk, IfErr, All, map, sum_by};
ghost use Rattle.std.specs.Arc.{arc_value};
ghost use Rattle.page_store.specs.Count.{HasRisen};
ghost use Rattle.page_store.specs.Stored.{bytes_of_pages, IsCut, LieAmong};
ghost use Rattle.page_fan.specs.Counts.{NoneFell};
ghost use Rattle.page_fan.specs.Fault.{OnLostPage, OnPageFault};
ghost use Rattle.page_store.specs.Page.{IsAmong};
ghost use Rattle.page_fan.specs.Lost.{IsFirstLost, NoneTook};
ghost use Rattle.page_fan.specs.Put.{ArePut, IsPut};

use crate::beside::BesideDoor;
use crate::doors::Doors;
use crate::storing::{StoreFault, store};
use page_store::{Houses, Pages, StoredPage};
use provider_manager::SharedLoads;
use std::alloc::Global;
use std::sync::{Arc, Wait};
use std::thread::Threads;
use tree_geom::PageSize;

/// Places the bytes of an update, from 1 to 16,777,216, and stores them as pages of `p` bytes, the last one of what is left.
///
/// Each page is put at as many providers as the loads have replicas, and counts as stored where one door of these took it.
/// `PageFault` comes where a page was taken by no door of its placement. It names the first such page, from 0, and has the pages
/// before it. After a fault pages that were put may lie unused in their houses.
///
/// It may wait for the lock of the loads and for another thread's push into a house, and may start threads, which it has joined
/// when it answers.
pub fn store_bytes<D: BesideDoor, R: Threads + Wait + Sync>(
    rt: &R,
    alloc: Global,
    loads: &SharedLoads,
    doors: &mut Doors<D>,
    houses: &Houses,
    p: PageSize,
    bytes: &[u8],
) -> Result<Arc<Pages>, StoreFault>
    requires some { 1 ≤ length bytes.now }
    requires few { length bytes.now ≤ 16777216 }
    requires served { loads.now.providers ≡ length doors.old }
    requires housed { length doors.old ≤ length houses.now }
    ensures bytes { IfOk result (λ pages. bytes_of_pages (arc_value pages).pages ≡ bytes.now) }
    ensures page_size { IfOk result (λ pages. (arc_value pages).page_size ≡ p) }
    ensures cut { IfOk result (λ pages. IsCut p (arc_value pages).pages) }
    ensures here { IfOk result (λ pages. LieAmong houses.now (arc_value pages).pages) }
    ensures put { IfOk result (λ pages. ArePut D.called D.faults loads.now.providers loads.now.replicas doors.old doors.new (arc_value pages).pages) }
    ensures first_lost { IfErr result (λ fault. OnLostPage fault
        (IsFirstLost houses.now p bytes.now loads.now.providers loads.now.replicas (map D.faults doors.old) (map D.faults doors.new))) }
    ensures page { IfErr result (λ fault. OnPageFault fault (λ i. p * i < length bytes.now)) }
    ensures counted { IfErr result (λ fault. OnPageFault fault (λ _. HasRisen (sum_by D.faults doors.old) (sum_by D.faults doors.new))) }
    ensures none_fell { NoneFell (map D.faults doors.old) (map D.faults doors.new) }
    ensures sum_never_falls { sum_by D.faults doors.old ≤ sum_by D.faults doors.new }
    ensures count { length doors.new ≡ length doors.old }
    ensures truth_stays { All D.is_true doors.old → All D.is_true doors.new }
{
    let pages = store_pages(rt, alloc, loads, doors, houses, p, bytes)?;
    match Arc::new(alloc, pages) {
        Ok(pages) => Ok(pages),
        Err(_) => Err(StoreFault::NoMemory),
    }
}

// Places and stores them, for `store_bytes` and for one page.
#[tactic(auto, using(crate::proofs::Placements::pages_enough))]
fn store_pages<D: BesideDoor, R: Threads + Wait + Sync>(
    rt: &R,
    alloc: Global,
    loads: &SharedLoads,
    doors: &mut Doors<D>,
    houses: &Houses,
    p: PageSize,
    bytes: &[u8],
) -> Result<Pages, StoreFault>
    requires some { 1 ≤ length bytes.now }
    requires few { length bytes.now ≤ 16777216 }
    requires served { loads.now.providers ≡ length doors.old }
    requires housed { length doors.old ≤ length houses.now }
    ensures bytes { IfOk result (λ pages. bytes_of_pages pages.pages ≡ bytes.now) }
    ensures page_size { IfOk result (λ pages. pages.page_size ≡ p) }
    ensures cut { IfOk result (λ pages. IsCut p pages.pages) }
    ensures here { IfOk result (λ pages. LieAmong houses.now pages.pages) }
    ensures put { IfOk result (λ pages. ArePut D.called D.faults loads.now.providers loads.now.replicas doors.old doors.new pages.pages) }
    ensures first_lost { IfErr result (λ fault. OnLostPage fault
        (IsFirstLost houses.now p bytes.now loads.now.providers loads.now.replicas (map D.faults doors.old) (map D.faults doors.new))) }
    ensures page { IfErr result (λ fault. OnPageFault fault (λ i. p * i < length bytes.now)) }
    ensures counted { IfErr result (λ fault. OnPageFault fault (λ _. HasRisen (sum_by D.faults doors.old) (sum_by D.faults doors.new))) }
    ensures none_fell { NoneFell (map D.faults doors.old) (map D.faults doors.new) }
    ensures sum_never_falls { sum_by D.faults doors.old ≤ sum_by D.faults doors.new }
    ensures count { length doors.new ≡ length doors.old }
    ensures truth_stays { All D.is_true doors.old → All D.is_true doors.new }
{
    let count = bytes.len().div_ceil(p.bytes() as usize) as u32;
    let Ok(placements) = loads.place(rt, alloc, count) else {
        return Err(StoreFault::NoMemory);
    };
    store(rt, alloc, doors, houses, p, bytes, &placements)
}

/// Places at most `p` bytes, and stores them as one page.
pub fn store_page<D: BesideDoor, R: Threads + Wait + Sync>(
    rt: &R,
    alloc: Global,
    loads: &SharedLoads,
    doors: &mut Doors<D>,
    houses: &Houses,
    p: PageSize,
    bytes: &[u8],
) -> Result<StoredPage, StoreFault>
    requires some { 1 ≤ length bytes.now }
    requires few { length bytes.now ≤ p }
    requires served { loads.now.providers ≡ length doors.old }
    requires housed { length doors.old ≤ length houses.now }
    ensures bytes { IfOk result (λ page. page.bytes ≡ bytes.now) }
    ensures here { IfOk result (λ page. All (IsAmong houses.now) page.spots) }
    ensures put { IfOk result (λ page. IsPut D.called D.faults loads.now.providers loads.now.replicas doors.old doors.new page) }
    ensures failed { IfErr result (λ fault. OnPageFault fault (λ _.
        NoneTook loads.now.providers loads.now.replicas (map D.faults doors.old) (map D.faults doors.new))) }
    ensures counted { IfErr result (λ fault. OnPageFault fault (λ _. HasRisen (sum_by D.faults doors.old) (sum_by D.faults doors.new))) }
    ensures none_fell { NoneFell (map D.faults doors.old) (map D.faults doors.new) }
    ensures sum_never_falls { sum_by D.faults doors.old ≤ sum_by D.faults doors.new }
    ensures count { length doors.new ≡ length doors.old }
    ensures truth_stays { All D.is_true doors.old → All D.is_true doors.new }
{
    p.stands();
    match store_pages(rt, alloc, loads, doors, houses, p, bytes) {
        Ok(pages) => Ok(pages.into_page()),
        Err(fault) => Err(fault),
    }
}
