//! A plain loop over an update's plan: each page at each provider of its placement, in order.
ghost use Rattle.std.specs.Prelude.{◌≡◌, length};

use crate::fan::cases::{Case, Outcome};
use page_store::{Door, DoorMaker, FlakyDoor, FlakyMaker, Houses, MAX_PAGE, PutAnswer};
use provider_manager::Placements;
use replica_place::Placement;
use std::alloc::Global;
use std::process::Abort;
use std::sync::Wait;

// The doors of the case, that of provider 1 first.
fn doors_of<R: Abort>(rt: &R, alloc: Global, case: &Case) -> Vec<FlakyDoor> {
    let mut maker = FlakyMaker::new(alloc, case.lists(rt, alloc));
    let mut doors = Vec::with_capacity(alloc, 4).expect(rt, "memory");
    for provider in 1..5u32 {
        let door = maker.make(provider).expect(rt, "memory");
        doors.push(door).expect(rt, "memory");
    }
    doors
}

// Puts the page at one provider, and notes the provider where its door took it.
fn put_at<R: Abort + Wait>(
    rt: &R,
    doors: &mut Vec<FlakyDoor>,
    houses: &Houses,
    provider: u32,
    page: &[u8],
    taken: &mut Vec<u32>,
)
    requires { length houses.now ≡ 4 }
{
    assert!(rt; provider >= 1 && provider <= 4);
    assert!(rt; !page.is_empty() && page.len() <= MAX_PAGE);
    let door = doors.get_mut(provider as usize - 1).expect(rt, "a door");
    match door.put(rt, houses.house(provider), page) {
        PutAnswer::Stored(_) => taken.push(provider).expect(rt, "memory"),
        PutAnswer::Failed => {}
        PutAnswer::NoMemory => panic!(rt; "no memory"),
    }
}

// Puts the page at each provider of its placement, and answers whether a door took it.
fn put_page<R: Abort + Wait>(
    rt: &R,
    doors: &mut Vec<FlakyDoor>,
    houses: &Houses,
    placement: &Placement,
    page: &[u8],
    taken: &mut Vec<u32>,
) -> bool
    requires { length houses.now ≡ 4 }
{
    let before = taken.len();
    for provider in placement.chosen() {
        put_at(rt, doors, houses, *provider, page, taken);
    }
    let is_taken = taken.len() > before;
    taken.push(0).expect(rt, "memory");
    is_taken
}

// Puts all pages, also those behind one that was lost: who took them, or the first that was lost.
fn put_pages<R: Abort + Wait>(
    rt: &R,
    alloc: Global,
    doors: &mut Vec<FlakyDoor>,
    houses: &Houses,
    page_size: usize,
    bytes: &[u8],
    placements: &Placements,
) -> Result<Vec<u32>, u64>
    requires { length houses.now ≡ 4 }
{
    let mut taken = Vec::new(alloc);
    let mut lost = None;
    let mut rest = bytes;
    for i in 0..placements.count() {
        let (page, behind) = rest.split_at(page_size.min(rest.len()));
        let is_taken = put_page(rt, doors, houses, placements.of(i), page, &mut taken);
        if !is_taken && lost.is_none() {
            lost = Some(u64::from(i));
        }
        rest = behind;
    }
    match lost {
        None => Ok(taken),
        Some(i) => Err(i),
    }
}

// How many calls of each door failed.
fn faults_of(doors: &[FlakyDoor]) -> [u64; 4] {
    let mut faults = [0; 4];
    for i in 0..4usize {
        if let Some(door) = doors.get(i) {
            faults[i] = door.faults();
        }
    }
    faults
}

/// What the plain loop comes to.
pub(crate) fn put_plainly<R: Abort + Wait>(
    rt: &R,
    alloc: Global,
    case: &Case,
    bytes: &[u8],
) -> Outcome {
    let houses = Houses::new(alloc, 4).expect(rt, "memory");
    let placements = case.placed(rt, alloc);
    let mut doors = doors_of(rt, alloc, case);
    let page_size = case.page_size as usize;
    let taken = put_pages(
        rt,
        alloc,
        &mut doors,
        &houses,
        page_size,
        bytes,
        &placements,
    );
    let faults = faults_of(doors.as_slice());
    Outcome { taken, faults }
}
