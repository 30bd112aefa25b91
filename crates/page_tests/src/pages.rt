//! Tests of stored pages and their doors, over three providers and two replicas.
ghost use Rattle.std.specs.Prelude.{◌≡◌, ◌*◌, ◌≤◌, ◌<◌, length, All, IfOk};
ghost use Rattle.page_store.specs.House.{IsProvider};
ghost use Rattle.page_store.specs.Stored.{LieAmong};

use page_fan::{BesideDoor, Doors, StoreFault, fetch, store};
use page_store::{
    Door, DoorMaker, FlakyDoor, FlakyMaker, Houses, PageHouse, Pages, PlainDoor, PlainMaker,
    PutAnswer, StoredPage,
};
use provider_manager::{LoadBook, Placements};
use std::alloc::Global;
use std::process::Abort;
use std::sync::Wait;
use std::thread::Threads;
use tree_geom::PageSize;

// The calls of the doors 1 to 3 that are to fail.
type Failing = [&'static [u64]; 3];

fn maker_of<R: Abort + AllocGlobal>(rt: &R, failing: &Failing) -> FlakyMaker {
    let mut lists = Vec::with_capacity(rt.alloc(), 3).expect(rt, "memory");
    for calls in failing {
        let calls = calls.to_vec(rt.alloc()).expect(rt, "memory");
        lists.push(calls).expect(rt, "memory");
    }
    FlakyMaker::new(rt.alloc(), lists)
}

/// The houses of three providers.
pub(crate) fn three_houses<R: Abort + AllocGlobal>(rt: &R) -> Houses
    ensures { length result ≡ 3 }
{
    Houses::new(rt.alloc(), 3).expect(rt, "memory")
}

/// The doors of any maker, to three providers.
pub(crate) fn three_doors<R: Abort + AllocGlobal, M: DoorMaker>(
    rt: &R,
    maker: &mut M,
) -> Doors<M::Door>
    ensures { length result ≡ 3 }
{
    Doors::new(rt.alloc(), maker, 3).expect(rt, "memory")
}

fn placed<R: Abort + AllocGlobal>(rt: &R, pages: u32) -> Placements
    ensures pages { length result ≡ pages }
    ensures known { All (All (IsProvider 3)) result }
{
    let mut book = LoadBook::new(rt.alloc(), 3, 2).expect(rt, "memory");
    book.place(rt.alloc(), pages).expect(rt, "places")
}

/// Stores bytes in so many pages of that size.
pub(crate) fn store_at<D: BesideDoor, R: Abort + AllocGlobal + Threads + Wait + Sync>(
    rt: &R,
    doors: &mut Doors<D>,
    houses: &Houses,
    page_size: u64,
    bytes: &[u8],
    count: u32,
) -> Result<Pages, StoreFault>
    requires doors { length doors.old ≡ 3 }
    requires houses { length houses.now ≡ 3 }
    requires some { 1 ≤ length bytes.now }
    requires enough { length bytes.now ≤ count * page_size }
    ensures here { IfOk result (λ pages. LieAmong houses.now pages.pages) }
    ensures doors { length doors.new ≡ 3 }
{
    let placements = placed(rt, count);
    let p = PageSize::new(page_size).expect(rt, "page size");
    store(rt, rt.alloc(), doors, houses, p, bytes, &placements)
}

// Stores six bytes in pages of four: the first goes to the providers 1 and 2, the second to 3 and 1.
fn store_six<D: BesideDoor, R: Abort + AllocGlobal + Threads + Wait + Sync>(
    rt: &R,
    doors: &mut Doors<D>,
    houses: &Houses,
) -> Result<Pages, StoreFault>
    requires doors { length doors.old ≡ 3 }
    requires houses { length houses.now ≡ 3 }
    ensures here { IfOk result (λ pages. LieAmong houses.now pages.pages) }
    ensures doors { length doors.new ≡ 3 }
{
    store_at(rt, doors, houses, 4, b"abcdef", 2)
}

// The page that is lost where such calls fail.
static LOST: [(Failing, u64); 3] = [
    ([&[1, 2], &[1, 2], &[1, 2]], 0),
    ([&[1], &[1], &[]], 0),
    ([&[2], &[], &[1]], 1),
];

// Whether this page was lost, behind as many as were stored before it.
fn is_lost(stored: &Result<Pages, StoreFault>, want: u64) -> bool {
    match stored {
        Err(StoreFault::PageFault { page, before }) => {
            *page == want && u64::from(before.count()) == want
        }
        _ => false,
    }
}

fn check_lost<R: Abort + AllocGlobal + Threads + Wait + Sync>(
    rt: &R,
    houses: &Houses,
    failing: &Failing,
    page: u64,
)
    requires { length houses.now ≡ 3 }
{
    let mut doors = three_doors(rt, &mut maker_of(rt, failing));
    let stored = store_six(rt, &mut doors, houses);
    assert!(rt; is_lost(&stored, page), "another page");
}

#[test]
fn a_fault_names_the_first_page_that_no_door_took(rt: HostRuntime) {
    let houses = three_houses(&rt);
    for (failing, page) in LOST.as_slice() {
        check_lost(&rt, &houses, failing, *page);
    }
}

// Whether the page's replicas are at these providers.
fn is_at(page: &StoredPage, providers: &[u32]) -> bool {
    if page.replica_count() as usize != providers.len() {
        return false;
    }
    for i in 0..page.replica_count() {
        if page.replica(i).provider() != providers[i as usize] {
            return false;
        }
    }
    true
}

/// The whole page, or none where no door gave it.
pub(crate) fn fetched<R: Abort, D: Door>(
    rt: &R,
    alloc: Global,
    doors: &mut Doors<D>,
    houses: &Houses,
    pages: &Pages,
    i: u32,
) -> Option<Vec<u8>>
    requires doors { length doors.old ≡ length houses.now }
    requires here { LieAmong houses.now pages.now.pages }
    requires page { i < length pages.now.pages }
    ensures { length doors.new ≡ length doors.old }
{
    let page = pages.page(i);
    let mut out = vec![in alloc; 0u8; page.len() as usize].expect(rt, "memory");
    if fetch(doors, houses, page, 0, out.as_mut_slice()) {
        Some(out)
    } else {
        None
    }
}

// The calls that fail, the providers of both pages of six bytes, what is read back of each page, and the faults that the doors
// count.
struct Stored {
    failing: Failing,
    providers: [&'static [u32]; 2],
    first: Option<&'static [u8]>,
    second: Option<&'static [u8]>,
    faults: u64,
}

// Door 1 puts both pages before its first get, the others one each.
static STORED: [Stored; 9] = [
    Stored {
        failing: [&[], &[], &[]],
        providers: [&[1, 2], &[3, 1]],
        first: Some(b"abcd"),
        second: Some(b"ef"),
        faults: 0,
    },
    Stored {
        failing: [&[1], &[], &[]],
        providers: [&[2], &[3, 1]],
        first: Some(b"abcd"),
        second: Some(b"ef"),
        faults: 1,
    },
    Stored {
        failing: [&[2], &[], &[]],
        providers: [&[1, 2], &[3]],
        first: Some(b"abcd"),
        second: Some(b"ef"),
        faults: 1,
    },
    Stored {
        failing: [&[], &[1], &[1]],
        providers: [&[1], &[1]],
        first: Some(b"abcd"),
        second: Some(b"ef"),
        faults: 2,
    },
    Stored {
        failing: [&[1], &[], &[1]],
        providers: [&[2], &[1]],
        first: Some(b"abcd"),
        second: Some(b"ef"),
        faults: 2,
    },
    Stored {
        failing: [&[3], &[], &[]],
        providers: [&[1, 2], &[3, 1]],
        first: Some(b"abcd"),
        second: Some(b"ef"),
        faults: 1,
    },
    Stored {
        failing: [&[3], &[2], &[]],
        providers: [&[1, 2], &[3, 1]],
        first: None,
        second: Some(b"ef"),
        faults: 2,
    },
    Stored {
        failing: [&[3, 4], &[2], &[2]],
        providers: [&[1, 2], &[3, 1]],
        first: None,
        second: None,
        faults: 4,
    },
    Stored {
        failing: [&[], &[], &[2]],
        providers: [&[1, 2], &[3, 1]],
        first: Some(b"abcd"),
        second: Some(b"ef"),
        faults: 1,
    },
];

// Whether these bytes were read, or none.
fn is_read(read: &Option<Vec<u8>>, want: Option<&[u8]>) -> bool {
    match (read, want) {
        (Some(bytes), Some(want)) => bytes.as_slice() == want,
        (None, None) => true,
        _ => false,
    }
}

// Checks that the page is at its providers, and is read back where it is to be.
fn check_page<R: Abort + AllocGlobal, D: Door>(
    rt: &R,
    doors: &mut Doors<D>,
    houses: &Houses,
    pages: &Pages,
    i: u32,
    providers: &[u32],
    want: Option<&[u8]>,
)
    requires doors { length doors.old ≡ length houses.now }
    requires here { LieAmong houses.now pages.now.pages }
    requires page { i < length pages.now.pages }
    ensures { length doors.new ≡ length doors.old }
{
    let read = fetched(rt, rt.alloc(), doors, houses, pages, i);
    assert!(rt; is_read(&read, want), "other bytes");
    assert!(rt; is_at(pages.page(i), providers), "other providers");
}

// Stores six bytes by these doors, and checks where they are.
fn check_doors<R: Abort + AllocGlobal + Threads + Wait + Sync, D: BesideDoor>(
    rt: &R,
    doors: &mut Doors<D>,
    row: &Stored,
)
    requires { length doors.old ≡ 3 }
{
    let houses = three_houses(rt);
    let pages = store_six(rt, doors, &houses).expect(rt, "stored");
    assert!(rt; pages.count() == 2, "other pages");
    assert!(rt; pages.len() == 6, "another length");
    check_page(rt, doors, &houses, &pages, 0, row.providers[0], row.first);
    check_page(rt, doors, &houses, &pages, 1, row.providers[1], row.second);
}

fn check_stored<R: Abort + AllocGlobal + Threads + Wait + Sync>(rt: &R, row: &Stored) {
    let mut maker = maker_of(rt, &row.failing);
    let mut doors = three_doors(rt, &mut maker);
    check_doors(rt, &mut doors, row);
    doors.back(&mut maker);
    assert!(rt; maker.faults() == row.faults, "other faults");
}

#[test]
fn a_fetch_passes_to_the_second_replica(rt: HostRuntime) {
    for row in STORED.as_slice() {
        check_stored(&rt, row);
    }
}

// Checks the number of pages of a mebibyte, and the size and the last byte of the last of them.
fn check_pages<R: Abort + AllocGlobal, D: Door>(
    rt: &R,
    doors: &mut Doors<D>,
    houses: &Houses,
    pages: &Pages,
    page_size: u64,
    count: u32,
)
    requires doors { length doors.old ≡ length houses.now }
    requires here { LieAmong houses.now pages.now.pages }
    requires some { 1 ≤ count }
{
    assert!(rt; pages.count() == count && pages.len() == 1_048_576);
    let last = fetched(rt, rt.alloc(), doors, houses, pages, count - 1).expect(rt, "fetched");
    assert!(rt; last.len() as u64 == page_size && last.last().copied() == Some(99));
}

// Checks a mebibyte that is cut into pages of this size.
fn check_cut<R: Abort + AllocGlobal + Threads + Wait + Sync>(
    rt: &R,
    update: &[u8],
    page_size: u64,
    count: u32,
)
    requires size { length update.now ≡ 1048576 }
    requires some { 1 ≤ count }
    requires cut { count * page_size ≡ 1048576 }
{
    let houses = three_houses(rt);
    let mut doors = three_doors(rt, &mut PlainMaker::new());
    let pages = store_at(rt, &mut doors, &houses, page_size, update, count).expect(rt, "stored");
    check_pages(rt, &mut doors, &houses, &pages, page_size, count);
}

#[test]
fn the_greatest_update_is_cut_at_the_page_size(rt: HostRuntime) {
    let mut update = Vec::with_capacity(rt.alloc(), 1_048_576).expect(&rt, "memory");
    for i in 0..1_048_576u32 {
        update.push((i / 4 % 251) as u8).expect(&rt, "memory");
    }
    assert!(rt; update.len() == 1_048_576);
    check_cut(&rt, update.as_slice(), 4096, 256);
    check_cut(&rt, update.as_slice(), 4, 262_144);
}

// Which page of the house a put adds, if any.
fn place_put<D: Door, R: Abort + Wait>(rt: &R, door: &mut D, house: &PageHouse) -> Option<u64> {
    match door.put(rt, house, b"abcd") {
        PutAnswer::Stored(page) => Some(page.place()),
        PutAnswer::Failed => None,
        PutAnswer::NoMemory => panic!(rt; "no memory"),
    }
}

// Checks which page of the house each of three puts adds, if any.
fn check_puts<D: Door, R: Abort + Wait>(
    rt: &R,
    door: &mut D,
    house: &PageHouse,
    want: &[Option<u64>],
) {
    for added in want {
        assert!(rt; place_put(rt, door, house) == *added);
    }
}

#[test]
fn a_put_adds_one_page_and_a_failed_put_none(rt: HostRuntime) {
    let house = PageHouse::new(rt.alloc(), 1).expect(&rt, "memory");
    check_puts(
        &rt,
        &mut PlainDoor::new(),
        &house,
        &[Some(0), Some(1), Some(2)],
    );
    let mut flaky = FlakyDoor::new(vec![in rt.alloc(); 2].expect(&rt, "memory"));
    check_puts(&rt, &mut flaky, &house, &[Some(3), None, Some(4)]);
}

#[test]
fn a_page_is_handed_on(rt: HostRuntime) {
    let houses = three_houses(&rt);
    let mut doors = three_doors(&rt, &mut PlainMaker::new());
    let pages = store_at(&rt, &mut doors, &houses, 4, b"abc", 1).expect(&rt, "stored");
    assert!(rt; pages.count() == 1);
    assert!(rt; is_at(&pages.into_page(), &[1, 2]));
}
