//! A desk for tests, in pages of four bytes, and updates that are numbered at it.
ghost use Rattle.std.specs.Prelude.{◌≡◌, ◌≤◌, [], length, All};
ghost use Rattle.std.specs.Arc.{arc_value};
ghost use Rattle.page_store.specs.House.{IsProvider};
ghost use Rattle.page_store.specs.Stored.{bytes_of_pages, LieAmong};

use blob_model::{Limits, Place};
use node_store::NodeHouse;
use page_fan::{Doors, store};
use page_store::{Houses, Pages, PlainMaker};
use provider_manager::{LoadBook, Placements};
use std::alloc::Global;
use std::process::Abort;
use std::sync::{Arc, Wait};
use std::thread::Threads;
use tree_geom::PageSize;
use version_manager::Desk;

/// Who numbers the updates.
pub(crate) const CALLER: u32 = 1;

// Pages of four bytes.
fn four_bytes<R: Abort>(rt: &R) -> PageSize
    ensures { result ≡ 4 }
{
    PageSize::new(4).expect(rt, "four bytes")
}

/// One house, for the pages of one provider.
pub(crate) fn one_house<R: Abort>(rt: &R, alloc: Global) -> Arc<Houses>
    ensures { length (arc_value result) ≡ 1 }
{
    let houses = Houses::new(alloc, 1).expect(rt, "memory");
    Arc::new(alloc, houses).expect(rt, "memory")
}

/// A desk without blobs, and the house of its nodes.
pub(crate) fn desk_of<R: Abort>(
    rt: &R,
    alloc: Global,
    houses: &Arc<Houses>,
) -> (Desk, Arc<NodeHouse>)
    ensures new { result.0.history ≡ [] }
    ensures page_size { result.0.page_size ≡ 4 }
    ensures houses { result.0.houses ≡ arc_value houses.now }
    ensures nodes { result.0.nodes ≡ arc_value result.1 }
{
    let p = four_bytes(rt);
    let nodes = NodeHouse::new(alloc).expect(rt, "memory");
    let nodes = Arc::new(alloc, nodes).expect(rt, "memory");
    let desk = Desk::new(alloc, Limits::greatest(), p, houses, &nodes).expect(rt, "memory");
    (desk, nodes)
}

// The places of two pages at one provider.
fn two_places<R: Abort>(rt: &R, alloc: Global) -> Placements
    ensures pages { length result ≡ 2 }
    ensures served { All (All (IsProvider 1)) result }
{
    let mut book = LoadBook::new(alloc, 1, 1).expect(rt, "memory");
    book.place(alloc, 2).expect(rt, "places")
}

// The stored pages of six bytes, at one provider.
fn six_bytes<R: Threads + Wait + Sync + Abort>(rt: &R, alloc: Global, houses: &Houses) -> Arc<Pages>
    requires { length houses.now ≡ 1 }
    ensures some { 1 ≤ length (bytes_of_pages (arc_value result).pages) }
    ensures few { length (bytes_of_pages (arc_value result).pages) ≤ 8 }
    ensures page_size { (arc_value result).page_size ≡ 4 }
    ensures here { LieAmong houses.now (arc_value result).pages }
{
    let mut doors = Doors::new(alloc, &mut PlainMaker::new(), 1).expect(rt, "memory");
    let placed = two_places(rt, alloc);
    let p = four_bytes(rt);
    let pages = store(rt, alloc, &mut doors, houses, p, b"abcdef", &placed).expect(rt, "pages");
    Arc::new(alloc, pages).expect(rt, "memory")
}

// Numbers an update of blob 1.
fn number<R: Abort>(rt: &R, desk: &mut Desk, pages: &Arc<Pages>)
    requires some { 1 ≤ length (bytes_of_pages (arc_value pages.now).pages) }
    requires few { length (bytes_of_pages (arc_value pages.now).pages) ≤ 8 }
    requires cut { (arc_value pages.now).page_size ≡ 4 }
    requires page_size { desk.old.page_size ≡ 4 }
    requires here { LieAmong desk.old.houses (arc_value pages.now).pages }
    ensures page_size { desk.new.page_size ≡ 4 }
    ensures houses { desk.new.houses ≡ desk.old.houses }
    ensures nodes { desk.new.nodes ≡ desk.old.nodes }
{
    let numbered = desk.assign(CALLER, 1, Place::Append, pages);
    check(rt, numbered.is_ok(), true, "a version");
}

/// A desk with one blob, of which three updates of six bytes wait, and the house of its nodes.
pub(crate) fn three_waiting<R: Threads + Wait + Sync + Abort>(
    rt: &R,
    alloc: Global,
) -> (Desk, Arc<NodeHouse>)
    ensures { result.0.nodes ≡ arc_value result.1 }
{
    let houses = one_house(rt, alloc);
    let pages = six_bytes(rt, alloc, &houses);
    let (mut desk, nodes) = desk_of(rt, alloc, &houses);
    desk.create(CALLER).expect(rt, "a blob");
    number(rt, &mut desk, &pages);
    number(rt, &mut desk, &pages);
    number(rt, &mut desk, &pages);
    (desk, nodes)
}

/// What was told is as it must be. In a call of its own an assertion costs its caller no branch.
pub(crate) fn check<T: PartialEq + Drop, R: Abort>(rt: &R, told: T, expected: T, what: &str) {
    assert!(rt; told == expected, "{what}");
}
