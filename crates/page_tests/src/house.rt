//! Tests of one house whose pages are put and read by several threads.
ghost use Rattle.std.specs.Prelude.{◌≡◌, All, length};
ghost use Rattle.std.specs.Arc.{arc_value};
ghost use Rattle.page_store.specs.Page.{IsIn};

use page_store::{PageHouse, PageRef};
use std::alloc::Global;
use std::process::Abort;
use std::sync::{Arc, Wait};
use std::thread;
use std::thread::Threads;

// Page i of a writer: the writer's number, and then i.
fn page_of(writer: u8, i: u64) -> [u8; 9] {
    let mut bytes = [writer; 9];
    bytes[1..].copy_from_slice(&i.to_be_bytes());
    bytes
}

// Puts page i of a writer.
fn put_page(rt: &(impl Wait + Abort), house: &PageHouse, writer: u8, i: u64) -> PageRef
    ensures { IsIn house.now result.spot }
{
    house.put(rt, &page_of(writer, i)).expect(rt, "memory")
}

// Adds a page to those of a writer.
fn add_page<R: Abort>(rt: &R, house: &PageHouse, pages: &mut Vec<PageRef>, page: PageRef)
    requires all { All (λ page. IsIn house.now page.spot) pages.old.items }
    requires this { IsIn house.now page.spot }
    ensures { All (λ page. IsIn house.now page.spot) pages.new.items }
{
    pages.push(page).expect(rt, "memory");
}

// Puts a thousand pages of a writer.
fn put_thousand(
    rt: &(impl Wait + Abort),
    alloc: Global,
    house: &PageHouse,
    writer: u8,
) -> Vec<PageRef>
    ensures { All (λ page. IsIn house.now page.spot) result.items }
{
    let mut pages = Vec::new(alloc);
    for i in 0..1000u64 {
        let page = put_page(rt, house, writer, i);
        add_page(rt, house, &mut pages, page);
    }
    pages
}

// Two threads put pages, each as the writer of one of these numbers.
fn put_both<R: Threads + Wait + Sync + Abort>(
    rt: &R,
    alloc: Global,
    house: &PageHouse,
    one: u8,
    two: u8,
) -> (Vec<PageRef>, Vec<PageRef>)
    ensures one { All (λ page. IsIn house.now page.spot) result.0.items }
    ensures two { All (λ page. IsIn house.now page.spot) result.1.items }
{
    thread::join(
        rt,
        || put_thousand(rt, alloc, house, one),
        || put_thousand(rt, alloc, house, two),
    )
}

// How many of a writer's pages hold what was put.
fn count_right(house: &PageHouse, pages: &[PageRef], writer: u8) -> u64
    requires { All (λ page. IsIn house.now page.spot) pages.now }
{
    let mut right: u64 = 0;
    for i in 0..pages.len() {
        let page = &pages[i];
        let mut out = [0u8; 9];
        if page.len() == 9 {
            house.copy_to(page, 0, &mut out);
        }
        if out == page_of(writer, i as u64) {
            right = right.saturating_add(1);
        }
    }
    right
}

fn count_both(house: &PageHouse, one: &[PageRef], two: &[PageRef]) -> [u64; 2]
    requires one { All (λ page. IsIn house.now page.spot) one.now }
    requires two { All (λ page. IsIn house.now page.spot) two.now }
{
    [count_right(house, one, 1), count_right(house, two, 2)]
}

// Counts while two more threads put pages.
fn count_beside<R: Threads + Wait + Sync + Abort>(
    rt: &R,
    alloc: Global,
    house: &PageHouse,
    one: &[PageRef],
    two: &[PageRef],
) -> [u64; 2]
    requires one { All (λ page. IsIn house.now page.spot) one.now }
    requires two { All (λ page. IsIn house.now page.spot) two.now }
{
    let (right, _more) = thread::join(
        rt,
        || -> [u64; 2]
            requires one { All (λ page. IsIn house.now page.spot) one.now }
            requires two { All (λ page. IsIn house.now page.spot) two.now }
        { count_both(house, one, two) },
        || put_both(rt, alloc, house, 3, 4),
    );
    right
}

#[test]
fn pages_of_two_threads_are_read_by_a_third_while_others_put(rt: HostRuntime) {
    let alloc = rt.alloc();
    let house = PageHouse::new(alloc, 1).expect(&rt, "memory");
    let (one, two) = put_both(&rt, alloc, &house, 1, 2);
    let right = count_beside(&rt, alloc, &house, one.as_slice(), two.as_slice());
    assert!(rt; right == [1000, 1000]);
}

fn first_three(house: Arc<PageHouse>, page: Arc<PageRef>) -> [u8; 3]
    requires { IsIn (arc_value house) (arc_value page).spot }
{
    let mut out = [0; 3];
    if page.len() >= 3 {
        house.copy_to(&page, 0, &mut out);
    }
    out
}

// The value, shared by two.
fn shared_by_two<T: Drop, R: Abort>(rt: &R, alloc: Global, value: T) -> (Arc<T>, Arc<T>)
    ensures one { arc_value result.0 ≡ value }
    ensures two { arc_value result.1 ≡ value }
{
    let one = Arc::new(alloc, value).expect(rt, "memory");
    let two = Arc::try_clone(&one).expect(rt, "memory");
    (one, two)
}

#[test]
fn a_shared_reference_is_read_by_another_thread(rt: HostRuntime) {
    let house = PageHouse::new(rt.alloc(), 1).expect(&rt, "memory");
    let page = house.put(&rt, b"abcd").expect(&rt, "memory");
    let (house, their_house) = shared_by_two(&rt, rt.alloc(), house);
    let (page, their_page) = shared_by_two(&rt, rt.alloc(), page);
    let child = thread::spawn(
        &rt,
        move || -> [u8; 3]
            requires { IsIn (arc_value their_house) (arc_value their_page).spot }
        { first_three(their_house, their_page) },
    )
    .expect(&rt, "a thread");
    let ours = first_three(house, page);
    assert!(rt; [ours, child.join(&rt)] == [*b"abc", *b"abc"]);
}
