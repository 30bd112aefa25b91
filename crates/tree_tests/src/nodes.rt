//! Tests of one house whose nodes are put and read by several threads. Each row has two nodes, which tell the row's version and
//! their own number.
ghost use Rattle.std.specs.Prelude.{◌≡◌, All, length};
ghost use Rattle.node_store.specs.House.{IsIn};
ghost use Rattle.tree_tests.specs.TwoNodes.{AreTwoIn};

use node_store::{Node, NodeHouse, RowNodes};
use std::alloc::Global;
use std::process::Abort;
use std::sync::Wait;
use std::thread;
use std::thread::Threads;

fn node_of(version: u64, number: u64) -> Node {
    Node::Inner {
        left: version,
        right: number,
    }
}

// Puts the two nodes of a version.
fn put_two(rt: &(impl Wait + Abort), alloc: Global, house: &NodeHouse, version: u64) -> RowNodes
    ensures { AreTwoIn house.now result }
{
    let mut row = house.room(rt, alloc, version, 2).expect(rt, "memory");
    let first = node_of(version, 0);
    house.put(&mut row, first).expect(rt, "a free slot");
    let second = node_of(version, 1);
    house.put(&mut row, second).expect(rt, "a free slot");
    row
}

// Puts a thousand nodes: those of this version and of each second one after it.
fn put_thousand(
    rt: &(impl Wait + Abort),
    alloc: Global,
    house: &NodeHouse,
    first: u32,
) -> Vec<RowNodes>
    ensures { All (λ row. AreTwoIn house.now row) result.items }
{
    let mut rows = Vec::new(alloc);
    for i in 0..500u32 {
        let version = u64::from(first) + 2 * u64::from(i);
        let row = put_two(rt, alloc, house, version);
        rows.push(row).expect(rt, "memory");
    }
    rows
}

// Two threads put rows of one blob: those of odd versions, and those of even ones.
fn put_both<R: Threads + Wait + Sync + Abort>(
    rt: &R,
    alloc: Global,
    house: &NodeHouse,
) -> (Vec<RowNodes>, Vec<RowNodes>)
    ensures odd { All (λ row. AreTwoIn house.now row) result.0.items }
    ensures even { All (λ row. AreTwoIn house.now row) result.1.items }
{
    thread::join(
        rt,
        || put_thousand(rt, alloc, house, 1),
        || put_thousand(rt, alloc, house, 2),
    )
}

// How many of the rows have the nodes of their version, where the first row is of this version and each is two after the one before.
fn count_right(house: &NodeHouse, first: u64, rows: &[RowNodes]) -> u64
    requires { All (λ row. AreTwoIn house.now row) rows.now }
{
    let mut right: u64 = 0;
    let mut version = first;
    for i in 0..rows.len() {
        let row = &rows[i];
        let one = house.get(&row.node(0)) == node_of(version, 0);
        let other = house.get(&row.node(1)) == node_of(version, 1);
        if one && other {
            right = right.saturating_add(1);
        }
        version = version.saturating_add(2);
    }
    right
}

// Counts while two more threads put rows of the same versions.
fn count_beside<R: Threads + Wait + Sync + Abort>(
    rt: &R,
    alloc: Global,
    house: &NodeHouse,
    first: u64,
    rows: &[RowNodes],
) -> u64
    requires { All (λ row. AreTwoIn house.now row) rows.now }
{
    let (right, _more) = thread::join(
        rt,
        || -> u64
            requires { All (λ row. AreTwoIn house.now row) rows.now }
        { count_right(house, first, rows) },
        || put_both(rt, alloc, house),
    );
    right
}

#[test]
fn rows_of_two_threads_are_read_by_a_third_while_others_put(rt: HostRuntime) {
    let alloc = rt.alloc();
    let house = NodeHouse::new(alloc).expect(&rt, "memory");
    let (odd, even) = put_both(&rt, alloc, &house);
    assert!(rt; count_beside(&rt, alloc, &house, 1, odd.as_slice()) == 500);
    assert!(rt; count_beside(&rt, alloc, &house, 2, even.as_slice()) == 500);
}

#[test]
fn a_reference_leads_to_its_node_after_a_thousand_puts_more(rt: HostRuntime) {
    let alloc = rt.alloc();
    let house = NodeHouse::new(alloc).expect(&rt, "memory");
    let row = put_two(&rt, alloc, &house, 3);
    let node = row.node(1);
    let _more = put_thousand(&rt, alloc, &house, 3);
    assert!(rt; house.get(&node) == node_of(3, 1));
}
