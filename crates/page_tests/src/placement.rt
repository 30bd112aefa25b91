//! Tests of the choice of providers and of the book of loads.
ghost use Rattle.provider_manager.specs.Loads.{IsEven};

use provider_manager::{LoadBook, PlaceFault, Placements, SharedLoads};
use replica_place::choose;
use std::process::Abort;
use std::sync::Wait;

// The providers' loads, how many replicas a page gets, and the providers that are chosen.
type Chosen = (&'static [u64], u32, &'static [u32]);

static CHOSEN: [Chosen; 5] = [
    (&[2, 1, 1], 2, &[2, 3]),
    (&[0, 0, 0], 2, &[1, 2]),
    (&[1, 1, 0], 2, &[3, 1]),
    (&[7], 1, &[1]),
    (&[9, 8, 7, 6, 5, 4, 3, 2, 1], 8, &[9, 8, 7, 6, 5, 4, 3, 2]),
];

fn check_chosen<R: Abort>(rt: &R, loads: &[u64], replicas: u32, want: &[u32]) {
    assert!(rt; replicas >= 1 && replicas <= 8);
    assert!(rt; replicas as usize <= loads.len() && loads.len() <= 64);
    assert!(rt; choose(loads, replicas).chosen() == want);
}

#[test]
fn chooses_by_load_and_then_by_number(rt: HostRuntime) {
    for (loads, replicas, want) in CHOSEN.as_slice() {
        check_chosen(&rt, loads, *replicas, want);
    }
}

// Checks that the book is too full for so many pages.
fn check_spent<R: Abort + AllocGlobal>(rt: &R, book: &mut LoadBook, pages: u32)
    ensures { IsEven book.old.loads → IsEven book.new.loads }
{
    let refused = book.place(rt.alloc(), pages);
    assert!(rt; matches!(&refused, Err(PlaceFault::PlacesSpent)));
}

#[test]
fn a_full_book_places_nothing_more(rt: HostRuntime) {
    let half = 1 << 61;
    let mut book = LoadBook::with_loads(rt.alloc(), &[half, half], 1).expect(&rt, "memory");
    check_spent(&rt, &mut book, 1);
}

/// The placements of the next pages.
fn placed<R: Abort + AllocGlobal>(rt: &R, book: &mut LoadBook, pages: u32) -> Placements
    ensures { IsEven book.old.loads → IsEven book.new.loads }
{
    book.place(rt.alloc(), pages).expect(rt, "places")
}

/// Checks the providers of each page.
fn check_placed<R: Abort>(rt: &R, placed: &Placements, want: &[&[u32]]) {
    assert!(rt; placed.count() as usize == want.len());
    for page in 0..placed.count() {
        assert!(rt; placed.of(page).chosen() == want[page as usize]);
    }
}

#[test]
fn the_last_replica_is_placed_after_a_refusal(rt: HostRuntime) {
    let half = 1 << 61;
    let mut book = LoadBook::with_loads(rt.alloc(), &[half, half - 1], 1).expect(&rt, "memory");
    check_spent(&rt, &mut book, 2);
    check_placed(&rt, &placed(&rt, &mut book, 1), &[&[2]]);
}

#[test]
fn pages_take_turns(rt: HostRuntime) {
    let mut book = LoadBook::new(rt.alloc(), 3, 2).expect(&rt, "memory");
    let first = placed(&rt, &mut book, 3);
    check_placed(&rt, &first, &[&[1, 2], &[3, 1], &[2, 3]]);
    let more = placed(&rt, &mut book, 1);
    check_placed(&rt, &more, &[&[1, 2]]);
}

#[test]
fn no_pages_have_no_placements(rt: HostRuntime) {
    let mut book = LoadBook::new(rt.alloc(), 64, 8).expect(&rt, "memory");
    check_placed(&rt, &placed(&rt, &mut book, 0), &[]);
}

/// Checks where a shared book places the next pages.
pub(crate) fn check_shared<R: Abort + AllocGlobal + Wait>(
    rt: &R,
    loads: &SharedLoads,
    pages: u32,
    want: &[&[u32]],
) {
    let placed = loads.place(rt, rt.alloc(), pages).expect(rt, "places");
    check_placed(rt, &placed, want);
}

#[test]
fn a_shared_book_goes_on_from_its_loads(rt: HostRuntime) {
    let mut book = LoadBook::new(rt.alloc(), 3, 1).expect(&rt, "memory");
    check_placed(&rt, &placed(&rt, &mut book, 1), &[&[1]]);
    let loads = SharedLoads::new(book);
    check_shared(&rt, &loads, 1, &[&[2]]);
    check_shared(&rt, &loads, 3, &[&[3], &[1], &[2]]);
    check_shared(&rt, &loads, 1, &[&[3]]);
}
