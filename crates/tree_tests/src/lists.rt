// Lists that share their nodes.
ghost use Rattle.std.specs.Prelude.{◌≡◌, ◌+◌, ◌<◌, ◌≤◌, length};

use radix_list::RadixList;
use std::alloc::Global;
use std::marker::Brand;
use std::process::Abort;
use std::sync::Arc;
use std::sync::ledger::{Blank, Ledger};
use std::thread;
use std::thread::Threads;
use tree_geom::Steps;

/// The list with the number at its end.
fn with_number<R: Abort + AllocGlobal>(rt: &R, list: &RadixList<u64>, number: u64) -> RadixList<u64>
    requires { length list.now < 1048576 }
    ensures { length result ≡ length list.now + 1 }
{
    let item = Arc::new(rt.alloc(), number).expect(rt, "memory");
    list.push(item).expect(rt, "memory")
}

/// The list of the numbers below `count`.
fn numbers<R: Abort + AllocGlobal>(rt: &R, count: u64) -> RadixList<u64>
    requires { count ≤ 1048576 }
    ensures { length result ≡ count }
{
    let mut list = RadixList::empty(rt.alloc());
    for number in 0..count {
        list = with_number(rt, &list, number);
    }
    list
}

/// Item `i`, and the steps to it.
fn counted<L: Ledger>(list: &RadixList<u64>, i: u64, blank: Blank) -> (Option<u64>, u64)
    requires name { blank.name ≡ L.name }
    requires parts { blank.parts ≡ L.parts }
    requires some { 0 < blank.parts }
{
    let mut steps = Steps::<L>::open(blank);
    let item = list.get(i, &mut steps).copied();
    (item, steps.taken())
}

fn item(list: &RadixList<u64>, i: u64) -> (Option<u64>, u64) {
    counted::<Brand>(list, i, Blank::new(1))
}

/// Whether the list is of the numbers below `count`: the first `body` of them found in four steps, in leaves, and the others in
/// one, in slots.
fn is_numbers(list: &RadixList<u64>, count: u64, body: u64) -> bool {
    for number in 0..count {
        let steps = if number < body { 4 } else { 1 };
        if item(list, number) != (Some(number), steps) {
            return false;
        }
    }
    list.len() == count && item(list, count).0.is_none()
}

/// Checks that the list is of the numbers below `count`, as `is_numbers` tells.
fn check_numbers<R: Abort>(rt: &R, list: &RadixList<u64>, count: u64, body: u64) {
    assert!(rt; is_numbers(list, count, body), "{count} numbers");
}

#[test]
fn a_new_level_leaves_the_older_list_as_it_was(rt: HostRuntime) {
    let before = numbers(&rt, 1_024);
    let after = with_number(&rt, &before, 1_024);
    check_numbers(&rt, &after, 1_025, 1_024);
    check_numbers(&rt, &before, 1_024, 992);
}

#[test]
fn items_in_as_many_slots_as_a_leaf_go_into_one(rt: HostRuntime) {
    for (count, body) in [
        (0u8, 0u8),
        (1, 0),
        (4, 0),
        (5, 0),
        (9, 0),
        (17, 0),
        (32, 0),
        (33, 32),
        (64, 32),
        (65, 64),
    ] {
        let list = numbers(&rt, count.into());
        check_numbers(&rt, &list, count.into(), body.into());
    }
}

/// Checks a list of `count` numbers, and of `last` after them, which lies in a slot.
fn check_grown<R: Abort>(rt: &R, list: &RadixList<u64>, count: u64, last: u64)
    requires { count < 1000000 }
{
    assert!(rt; list.len() == count + 1);
    assert!(rt; item(list, 0).0 == Some(0) && item(list, count / 2).0 == Some(count / 2));
    assert!(rt; item(list, count) == (Some(last), 1) && item(list, count + 1).0.is_none());
}

#[test]
fn a_prefix_grows_apart_from_its_list(rt: HostRuntime) {
    let list = numbers(&rt, 1_025);
    let prefix = list.prefix(3).expect(&rt, "memory");
    check_grown(&rt, &with_number(&rt, &prefix, 700), 3, 700);
    check_numbers(&rt, &list, 1_025, 1_024);
    let shared = list.share().expect(&rt, "memory");
    check_numbers(&rt, &shared, 1_025, 1_024);
}

#[test]
fn lists_that_grow_from_one_keep_apart(rt: HostRuntime) {
    for count in [1u8, 3, 4, 5, 31, 34] {
        let list = numbers(&rt, count.into());
        let first = with_number(&rt, &list, 700);
        let second = with_number(&rt, &list, 701);
        let third = with_number(&rt, &second, 702);
        check_grown(&rt, &first, count.into(), 700);
        check_grown(&rt, &second, count.into(), 701);
        assert!(rt;
            third.len() == u64::from(count) + 2 && item(&third, count.into()).0 == Some(701)
        );
        assert!(rt; list.len() == u64::from(count) && item(&list, count.into()).0.is_none());
    }
}

/// The list with a thousand numbers after its own, from `first` on.
fn with_thousand(
    rt: &impl Abort,
    alloc: Global,
    list: &RadixList<u64>,
    first: u64,
) -> RadixList<u64>
    requires { first < 1000000 }
{
    let mut longer = list.share().expect(rt, "memory");
    for number in first..first + 1_000 {
        assert!(rt; longer.len() < 1_000_000);
        let item = Arc::new(alloc, number).expect(rt, "memory");
        longer = longer.push(item).expect(rt, "memory");
    }
    longer
}

/// Two threads grow lists from one.
fn with_two_thousands<R: Threads + Sync + Abort>(
    rt: &R,
    alloc: Global,
    list: &RadixList<u64>,
) -> (RadixList<u64>, RadixList<u64>) {
    thread::join(
        rt,
        || with_thousand(rt, alloc, list, 10_000),
        || with_thousand(rt, alloc, list, 20_000),
    )
}

/// Whether the list is of three numbers and the thousand from `first` on.
fn has_thousand(list: &RadixList<u64>, first: u64) -> bool
    requires { first < 1000000 }
{
    for k in 0..1_000u64 {
        if item(list, 3 + k).0 != Some(first + k) {
            return false;
        }
    }
    list.len() == 1_003 && item(list, 2).0 == Some(2)
}

#[test]
fn two_threads_grow_lists_from_one(rt: HostRuntime) {
    let list = numbers(&rt, 3);
    let (one, other) = with_two_thousands(&rt, rt.alloc(), &list);
    assert!(rt; has_thousand(&one, 10_000) && has_thousand(&other, 20_000));
    check_numbers(&rt, &list, 3, 0);
}

/// The first `count` numbers of the list, and the twelve after them.
fn grown<R: Abort + AllocGlobal>(rt: &R, list: &RadixList<u64>, count: u64) -> RadixList<u64>
    requires within { count ≤ length list.now }
    requires few { count < 1000000 }
{
    let mut longer = list.prefix(count).expect(rt, "memory");
    for number in count..count + 12 {
        assert!(rt; longer.len() == number);
        longer = with_number(rt, &longer, number);
    }
    longer
}

/// Whether the list is of the numbers below `count`, wherever they lie.
fn has_numbers(list: &RadixList<u64>, count: u64) -> bool {
    for number in 0..count {
        if item(list, number).0 != Some(number) {
            return false;
        }
    }
    list.len() == count
}

/// Checks that a prefix of the numbers below 37, of which five lie in slots, grows on by the numbers after it, and leaves the list
/// as it was.
fn check_grows_on<R: Abort + AllocGlobal>(rt: &R, list: &RadixList<u64>, count: u64)
    requires within { count ≤ length list.now }
    requires few { count < 1000000 }
{
    let longer = grown(rt, list, count);
    assert!(rt; has_numbers(&longer, count + 12), "at {count}");
    check_numbers(rt, list, 37, 32);
}

#[test]
fn each_prefix_grows_on(rt: HostRuntime) {
    let list = numbers(&rt, 37);
    for count in 0..38u64 {
        check_grows_on(&rt, &list, count);
    }
}

#[test]
fn a_list_is_cut_beside_the_ends_of_nodes(rt: HostRuntime) {
    let list = numbers(&rt, 1_025);
    for count in [0, 31, 32, 33, 1_023, 1_024, 1_025] {
        let prefix = list.prefix(count).expect(&rt, "memory");
        check_numbers(&rt, &prefix, count, 1_024);
    }
}
