// A buffer is cut into pages, and each page is put at its placed providers.
ghost use Rattle.std.specs.Prelude.{◌≡◌, ℕ, ◌+◌, ◌*◌, ◌<◌, ◌≤◌, List, length, take, IfOk, OnOk, IfErr, IfSome};
ghost use Rattle.std.specs.Prelude.{All, map, sum_by, [], ◌∷◌, ◌++◌};
ghost use Rattle.std.specs.Prelude.{slice_index_or};
ghost use Rattle.std.specs.Option.{option_map_or};
ghost use Rattle.page_store.specs.Count.{HasRisen};
ghost use Rattle.page_store.specs.House.{IsProvider};
ghost use Rattle.page_store.specs.Stored.{bytes_of_pages, AllFull, IsCut, LieAmong};
ghost use Rattle.replica_place.specs.Chosen.{chosen};
ghost use Rattle.page_fan.specs.Answer.{AreAnswered, AreStored, HaveLengths, IsLostAt, IsGathered, IsPageAnswer, with_page};
ghost use Rattle.page_fan.specs.Counts.{NoneFell};
ghost use Rattle.page_fan.specs.Replicas.{AreReplicated};
ghost use Rattle.page_fan.specs.Fault.{OnLostPage, OnPageFault, UnlessNoMemory, FirstFailed};
ghost use Rattle.page_fan.specs.Listed.{HasPages, puts_from};
ghost use Rattle.page_fan.specs.Stands.{counts_of, EachPut};
ghost use Rattle.page_fan.specs.Used.{CalledAsPlaced};

use crate::beside::BesideDoor;
use crate::doors::Doors;
use crate::joining::join_pages;
use crate::listing::list_puts;
use crate::putting::put_page;
use crate::stand::Stand;
use page_store::{Door, Houses, NoMemory, Pages, StoredPage};
use provider_manager::Placements;
use std::alloc::Global;
use std::collections::VecDeque;
use std::sync::Wait;
use std::thread::Threads;
use thiserror::Error;
use tree_geom::PageSize;

/// Why a buffer was not stored. Pages that were put may lie unused in their houses.
#[derive(Debug, Drop, Error)]
pub enum StoreFault {
    /// No door took the page of this number, from 0. It is the first such page: `before` are the pages before it, which were
    /// all stored.
    #[error("no door took page {page}")]
    PageFault { page: u64, before: Pages },
    /// Memory was refused.
    #[error("no memory")]
    NoMemory,
}

/// Stores the buffer as pages of `p` bytes, the last one of what is left, each at the providers of its placement.
///
/// For a page to count as stored, one door of its placement that takes it is enough. Every page is put, at each
/// provider of its placement, whatever became of the pages before it; only where memory is refused may some be left out.
///
/// Where the buffer is worth one thread at most to that kind of door (`BesideDoor::bytes_a_thread`), as every buffer is to doors
/// that put into memory, the calling thread puts page after page, each at the doors of its placement in turn. Else it may start
/// threads, and has joined them when it answers: one for each provider's group of puts but one, which the calling thread has
/// itself, as long as the buffer has so many bytes for each of them. Where no thread can be made, the calling thread does that
/// work too, with the same answer. It may wait for another thread's push into a house.
pub fn store<D: BesideDoor, R: Threads + Wait + Sync>(
    rt: &R,
    alloc: Global,
    doors: &mut Doors<D>,
    houses: &Houses,
    p: PageSize,
    buffer: &[u8],
    placements: &Placements,
) -> Result<Pages, StoreFault>
    requires some { 1 ≤ length buffer.now }
    requires enough { length buffer.now ≤ length placements.now * p }
    requires housed { length doors.old ≤ length houses.now }
    requires served { All (All (IsProvider (length doors.old))) placements.now }

    // Where all is well.
    ensures bytes { IfOk result (λ pages. bytes_of_pages pages.pages ≡ buffer.now) }
    ensures page_size { IfOk result (λ pages. pages.page_size ≡ p) }
    ensures cut { IfOk result (λ pages. IsCut p pages.pages) }
    ensures here { IfOk result (λ pages. LieAmong houses.now pages.pages) }
    ensures replicas { IfOk result (λ pages.
        AreReplicated (map D.faults doors.old) (map D.faults doors.new) placements.now pages.pages) }

    // Why a page fault is answered.
    ensures first_failed { IfErr result (λ fault. OnLostPage fault
        (FirstFailed houses.now p buffer.now placements.now (map D.faults doors.old) (map D.faults doors.new))) }
    ensures counted { IfErr result (λ fault. OnPageFault fault (λ _.
        HasRisen (sum_by D.faults doors.old) (sum_by D.faults doors.new))) }

    // What becomes of the doors.
    ensures called { (pages : ℕ) → HasPages p (length buffer.now) pages
        → UnlessNoMemory result (CalledAsPlaced D.called (take pages placements.now) doors.old doors.new) }
    ensures none_fell { NoneFell (map D.faults doors.old) (map D.faults doors.new) }
    ensures sum_never_falls { sum_by D.faults doors.old ≤ sum_by D.faults doors.new }
    ensures count { length doors.new ≡ length doors.old }
    ensures truth_stays { All D.is_true doors.old → All D.is_true doors.new }
{
    put_pages(rt, alloc, doors, houses, p, buffer, placements)
}

// The same, of which the pages and the fault are told in a record each.
fn put_pages<D: BesideDoor, R: Threads + Wait + Sync>(
    rt: &R,
    alloc: Global,
    doors: &mut Doors<D>,
    houses: &Houses,
    p: PageSize,
    buffer: &[u8],
    placements: &Placements,
) -> Result<Pages, StoreFault>
    requires enough { length buffer.now ≤ length placements.now * p }
    requires housed { length doors.old ≤ length houses.now }
    requires served { All (All (IsProvider (length doors.old))) placements.now }
    ensures stored { IfOk result
        (AreStored houses.now p buffer.now placements.now (map D.faults doors.old) (map D.faults doors.new)) }
    ensures first_failed { IfErr result (λ fault. OnLostPage fault
        (FirstFailed houses.now p buffer.now placements.now (map D.faults doors.old) (map D.faults doors.new))) }
    ensures called { (pages : ℕ) → HasPages p (length buffer.now) pages
        → UnlessNoMemory result (CalledAsPlaced D.called (take pages placements.now) doors.old doors.new) }
    ensures none_fell { NoneFell (map D.faults doors.old) (map D.faults doors.new) }
    ensures count { length doors.new ≡ length doors.old }
    ensures truth_stays { All D.is_true doors.old → All D.is_true doors.new }
{
    let stands = doors.stands.as_mut_slice();
    store_at_stands(rt, alloc, stands, houses, p, buffer, placements)
}

// The same at the doors' stands: in the calling thread alone, where the buffer is worth no more.
fn store_at_stands<D: BesideDoor, R: Threads + Wait + Sync>(
    rt: &R,
    alloc: Global,
    stands: &mut [Stand<D>],
    houses: &Houses,
    p: PageSize,
    buffer: &[u8],
    placements: &Placements,
) -> Result<Pages, StoreFault>
    requires enough { length buffer.now ≤ length placements.now * p }
    requires housed { length stands.old ≤ length houses.now }
    requires served { All (All (IsProvider (length stands.old))) placements.now }
    ensures stored { IfOk result
        (AreStored houses.now p buffer.now placements.now (counts_of D.faults stands.old) (counts_of D.faults stands.new)) }
    ensures first_failed { IfErr result (λ fault. OnLostPage fault
        (FirstFailed houses.now p buffer.now placements.now (counts_of D.faults stands.old) (counts_of D.faults stands.new))) }
    ensures put_once { (pages : ℕ) → HasPages p (length buffer.now) pages
        → UnlessNoMemory result (EachPut D.called (puts_from p 0 (take pages placements.now)) stands.old stands.new) }
    ensures none_fell { NoneFell (counts_of D.faults stands.old) (counts_of D.faults stands.new) }
    ensures truth_stays { All (λ s. D.is_true s.door) stands.old → All (λ s. D.is_true s.door) stands.new }
{
    if buffer.len() / D::bytes_a_thread() <= 1 {
        store_in_order(rt, alloc, stands, houses, p, buffer, placements)
    } else {
        store_in_groups(rt, alloc, stands, houses, p, buffer, placements)
    }
}

// The same, page after page: each is put by each door of its placement in turn, with no list of puts and no replies in trays.
fn store_in_order<D: Door, R: Wait>(
    rt: &R,
    alloc: Global,
    stands: &mut [Stand<D>],
    houses: &Houses,
    p: PageSize,
    buffer: &[u8],
    placements: &Placements,
) -> Result<Pages, StoreFault>
    requires enough { length buffer.now ≤ length placements.now * p }
    requires housed { length stands.old ≤ length houses.now }
    requires served { All (All (IsProvider (length stands.old))) placements.now }
    ensures stored { IfOk result
        (AreStored houses.now p buffer.now placements.now (counts_of D.faults stands.old) (counts_of D.faults stands.new)) }
    ensures first_failed { IfErr result (λ fault. OnLostPage fault
        (FirstFailed houses.now p buffer.now placements.now (counts_of D.faults stands.old) (counts_of D.faults stands.new))) }
    ensures put_once { (pages : ℕ) → HasPages p (length buffer.now) pages
        → UnlessNoMemory result (EachPut D.called (puts_from p 0 (take pages placements.now)) stands.old stands.new) }
    ensures none_fell { NoneFell (counts_of D.faults stands.old) (counts_of D.faults stands.new) }
    ensures truth_stays { All (λ s. D.is_true s.door) stands.old → All (λ s. D.is_true s.door) stands.new }
{
    let Ok(mut pages) = Pages::start(alloc, p.bytes(), placements.count()) else {
        return Err(StoreFault::NoMemory);
    };
    let page_size = p.bytes() as usize;
    let mut at = 0;
    let mut i = 0;
    while at < buffer.len() {
        let placement = placements.of(i);
        let Ok(page) = put_page(rt, alloc, stands, houses, p, buffer, placement, at) else {
            return Err(StoreFault::NoMemory);
        };
        keep(&mut pages, i, page);
        at += page_size;
        i += 1;
    }
    let stored = pages.count();
    if stored < i {
        return Err(StoreFault::PageFault {
            page: u64::from(stored),
            before: pages,
        });
    }
    Ok(pages)
}

// Adds the page of that number, if it was stored and so was each page before it. It takes no memory.
fn keep(pages: &mut Pages, number: u32, page: Option<StoredPage>)
    requires room { length pages.old.pages ≡ number → number < pages.old.room }
    requires full { length pages.old.pages ≡ number → AllFull pages.old.page_size pages.old.pages }
    requires fits { IfSome page (λ page. (1 ≤ length page.bytes) × (length page.bytes ≤ pages.old.page_size)) }
    ensures pages { pages.new.pages ≡ with_page number page pages.old.pages }
    ensures page_size { pages.new.page_size ≡ pages.old.page_size }
    ensures room { pages.new.room ≡ pages.old.room }
    ensures cut { IsCut pages.old.page_size pages.old.pages → IsCut pages.new.page_size pages.new.pages }
{
    if let Some(page) = page {
        if pages.count() == number {
            pages.add(page);
        }
    }
}

// The same, where the groups of the providers are put beside each other, and what their doors answered is joined.
fn store_in_groups<D: BesideDoor, R: Threads + Wait + Sync>(
    rt: &R,
    alloc: Global,
    stands: &mut [Stand<D>],
    houses: &Houses,
    p: PageSize,
    buffer: &[u8],
    placements: &Placements,
) -> Result<Pages, StoreFault>
    requires enough { length buffer.now ≤ length placements.now * p }
    requires housed { length stands.old ≤ length houses.now }
    requires served { All (All (IsProvider (length stands.old))) placements.now }
    ensures stored { IfOk result
        (AreStored houses.now p buffer.now placements.now (counts_of D.faults stands.old) (counts_of D.faults stands.new)) }
    ensures first_failed { IfErr result (λ fault. OnLostPage fault
        (FirstFailed houses.now p buffer.now placements.now (counts_of D.faults stands.old) (counts_of D.faults stands.new))) }
    ensures put_once { (pages : ℕ) → HasPages p (length buffer.now) pages
        → UnlessNoMemory result (EachPut D.called (puts_from p 0 (take pages placements.now)) stands.old stands.new) }
    ensures none_fell { NoneFell (counts_of D.faults stands.old) (counts_of D.faults stands.new) }
    ensures truth_stays { All (λ s. D.is_true s.door) stands.old → All (λ s. D.is_true s.door) stands.new }
{
    let Ok(pages) = Pages::start(alloc, p.bytes(), placements.count()) else {
        return Err(StoreFault::NoMemory);
    };
    let Ok(answer) = put_in_groups(rt, alloc, stands, houses, p, buffer, placements) else {
        return Err(StoreFault::NoMemory);
    };
    match gather(pages, answer) {
        Ok(pages) => Ok(pages),
        Err(before) => Err(StoreFault::PageFault {
            page: u64::from(before.count()),
            before,
        }),
    }
}

// Adds the pages of the answer up to the first that is lost. Where one is, the error has the pages before it. It takes no
// memory.
fn gather(mut pages: Pages, answer: Vec<Option<StoredPage>>) -> Result<Pages, Pages>
    requires fresh { pages.pages ≡ [] }
    requires room { length answer.items ≤ pages.room }
    requires lengths { HaveLengths pages.page_size answer.items }
    ensures all { IfOk result (λ all. IsGathered pages.page_size answer.items (length answer.items) all) }
    ensures lost { IfErr result (λ before. IsLostAt answer.items (length before.pages)
        × IsGathered pages.page_size answer.items (length before.pages) before) }
{
    let mut rest = VecDeque::from_vec(answer);
    while let Some(next) = rest.pop_front() {
        match next {
            Some(page) => pages.add(page),
            None => return Err(pages),
        }
    }
    Ok(pages)
}

// Puts each page at the providers of its placement, and answers which of them were stored. The lists are made before the first put.
fn put_in_groups<D: BesideDoor, R: Threads + Wait + Sync>(
    rt: &R,
    alloc: Global,
    stands: &mut [Stand<D>],
    houses: &Houses,
    p: PageSize,
    buffer: &[u8],
    placements: &Placements,
) -> Result<Vec<Option<StoredPage>>, NoMemory>
    ghost before: { List ℕ }
    requires before { before ≡ counts_of D.faults stands.old }
    requires enough { length buffer.now ≤ length placements.now * p }
    requires housed { length stands.old ≤ length houses.now }
    requires served { All (All (IsProvider (length stands.old))) placements.now }
    ensures answered { IfOk result (λ answer.
        AreAnswered houses.now p buffer.now placements.now before (counts_of D.faults stands.new) answer.items) }
    ensures put_once { (pages : ℕ) → HasPages p (length buffer.now) pages
        → OnOk result (EachPut D.called (puts_from p 0 (take pages placements.now)) stands.old stands.new) }
    ensures none_fell { NoneFell (counts_of D.faults stands.old) (counts_of D.faults stands.new) }
    ensures truth_stays { All (λ s. D.is_true s.door) stands.old → All (λ s. D.is_true s.door) stands.new }
{
    let puts = list_puts(alloc, p, buffer, placements)?;
    let answer = Vec::with_capacity(alloc, placements.count() as usize)?;
    D::put_groups(rt, stands, houses, p, buffer, puts.as_slice());
    join_pages(rt, alloc, stands, houses, p, buffer, placements, answer)
}
