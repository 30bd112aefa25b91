//! An update that is stored, and read back by doors that don't fail.
ghost use Rattle.std.specs.Prelude.{◌≡◌, ◌<◌, IfOk, length};
ghost use Rattle.page_store.specs.House.{IsProvider};
ghost use Rattle.page_store.specs.Stored.{LieAmong};

use crate::fan::cases::{Case, Outcome};
use crate::pages::fetched;
use page_fan::{Doors, StoreFault, store};
use page_store::{DoorMaker, FlakyDoor, FlakyMaker, Houses, Pages, PlainMaker};
use std::alloc::Global;
use std::process::Abort;
use std::sync::Wait;
use std::thread::Threads;
use tree_geom::PageSize;

// The doors of any maker, to four providers.
fn four_doors<R: Abort, M: DoorMaker>(rt: &R, alloc: Global, maker: &mut M) -> Doors<M::Door>
    ensures { length result ≡ 4 }
{
    Doors::new(alloc, maker, 4).expect(rt, "memory")
}

// Adds the bytes of page `i`, by doors of its own.
fn add_page<R: Abort>(
    rt: &R,
    alloc: Global,
    houses: &Houses,
    pages: &Pages,
    i: u32,
    bytes: &mut Vec<u8>,
)
    requires houses { length houses.now ≡ 4 }
    requires here { LieAmong houses.now pages.now.pages }
    requires page { i < length pages.now.pages }
{
    let mut doors = four_doors(rt, alloc, &mut PlainMaker::new());
    let page = fetched(rt, alloc, &mut doors, houses, pages, i).expect(rt, "a page");
    bytes
        .extend_from_slice(page.as_slice())
        .expect(rt, "memory");
}

// The bytes of all pages, by doors that don't fail.
fn read_back<R: Abort>(rt: &R, alloc: Global, houses: &Houses, pages: &Pages) -> Vec<u8>
    requires houses { length houses.now ≡ 4 }
    requires here { LieAmong houses.now pages.now.pages }
{
    let mut bytes = Vec::new(alloc);
    for i in 0..pages.count() {
        add_page(rt, alloc, houses, pages, i, &mut bytes);
    }
    bytes
}

// The providers of page `i`, and a 0.
fn note_page<R: Abort>(rt: &R, pages: &Pages, i: u32, taken: &mut Vec<u32>)
    requires { i < length pages.now.pages }
{
    let page = pages.page(i);
    for j in 0..page.replica_count() {
        taken.push(page.replica(j).provider()).expect(rt, "memory");
    }
    taken.push(0).expect(rt, "memory");
}

// The providers of each page.
fn taken_of<R: Abort>(rt: &R, alloc: Global, pages: &Pages) -> Vec<u32> {
    let mut taken = Vec::new(alloc);
    for i in 0..pages.count() {
        note_page(rt, pages, i, &mut taken);
    }
    taken
}

// The pages hold these bytes.
fn check_bytes<R: Abort>(rt: &R, alloc: Global, houses: &Houses, pages: &Pages, bytes: &[u8])
    requires houses { length houses.now ≡ 4 }
    requires here { LieAmong houses.now pages.now.pages }
{
    let found = read_back(rt, alloc, houses, pages);
    assert!(rt; found.as_slice() == bytes, "other bytes");
}

// Who took the pages, where they hold these bytes, or which page was lost.
fn judged<R: Abort>(
    rt: &R,
    alloc: Global,
    houses: &Houses,
    stored: Result<Pages, StoreFault>,
    bytes: &[u8],
) -> Result<Vec<u32>, u64>
    requires houses { length houses.now ≡ 4 }
    requires here { IfOk stored (λ pages. LieAmong houses.now pages.pages) }
{
    match stored {
        Ok(pages) => {
            check_bytes(rt, alloc, houses, &pages, bytes);
            Ok(taken_of(rt, alloc, &pages))
        }
        Err(StoreFault::PageFault { page, before }) => {
            assert!(rt; u64::from(before.count()) == page, "other pages");
            Err(page)
        }
        Err(StoreFault::NoMemory) => panic!(rt; "no memory"),
    }
}

// How many calls of the provider's door failed.
fn faults_at(doors: &mut Doors<FlakyDoor>, provider: u32) -> u64
    requires { IsProvider (length doors.old) provider }
    ensures { length doors.new ≡ length doors.old }
{
    doors.door(provider).faults()
}

// How many calls of each of four doors failed.
fn faults_of(doors: &mut Doors<FlakyDoor>) -> [u64; 4]
    requires { length doors.old ≡ 4 }
{
    let first = faults_at(doors, 1);
    let second = faults_at(doors, 2);
    let third = faults_at(doors, 3);
    let fourth = faults_at(doors, 4);
    [first, second, third, fourth]
}

// Stores the case's update: who took its pages, or which page was lost.
fn put_by<R: Abort + Threads + Wait + Sync>(
    rt: &R,
    alloc: Global,
    doors: &mut Doors<FlakyDoor>,
    houses: &Houses,
    case: &Case,
    bytes: &[u8],
) -> Result<Vec<u32>, u64>
    requires houses { length houses.now ≡ 4 }
    requires doors { length doors.old ≡ 4 }
    ensures { length doors.new ≡ 4 }
{
    let placements = case.placed(rt, alloc);
    let p = PageSize::new(case.page_size).expect(rt, "a page size");
    let room = u64::from(placements.count()) * p.bytes();
    assert!(rt; !bytes.is_empty() && bytes.len() as u64 <= room);
    let stored = store(rt, alloc, doors, houses, p, bytes, &placements);
    judged(rt, alloc, houses, stored, bytes)
}

/// What `store` comes to.
pub(crate) fn put_grouped<R: Abort + Threads + Wait + Sync>(
    rt: &R,
    alloc: Global,
    case: &Case,
    bytes: &[u8],
) -> Outcome {
    let houses = Houses::new(alloc, 4).expect(rt, "memory");
    let mut maker = FlakyMaker::new(alloc, case.lists(rt, alloc));
    let mut doors = four_doors(rt, alloc, &mut maker);
    let taken = put_by(rt, alloc, &mut doors, &houses, case, bytes);
    let faults = faults_of(&mut doors);
    doors.back(&mut maker);
    Outcome { taken, faults }
}
