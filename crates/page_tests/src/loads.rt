//! Tests of the book of loads that sessions share.

use crate::placement::check_shared;
use provider_manager::{LoadBook, Placements, SharedLoads};
use std::alloc::Global;
use std::process::Abort;
use std::sync::Wait;
use std::thread;
use std::thread::Threads;

// How many replicas each of three providers got.
type Given = [u64; 3];

fn count_replicas(given: &mut Given, placed: &Placements) {
    for page in 0..placed.count() {
        for provider in placed.of(page).chosen() {
            if let Some(replicas) = given.get_mut((*provider as usize).saturating_sub(1)) {
                *replicas = replicas.saturating_add(1);
            }
        }
    }
}

// Places 1,000 pages, ten at a time.
fn place_thousand(rt: &(impl Wait + Abort), alloc: Global, loads: &SharedLoads) -> Given {
    let mut given = [0; 3];
    for _ in 0..100 {
        let placed = loads.place(rt, alloc, 10).expect(rt, "memory");
        count_replicas(&mut given, &placed);
    }
    given
}

fn sum_of(one: Given, other: Given) -> Given {
    [
        one[0].saturating_add(other[0]),
        one[1].saturating_add(other[1]),
        one[2].saturating_add(other[2]),
    ]
}

// Two threads place 1,000 pages each.
fn place_beside<R: Threads + Wait + Sync + Abort>(
    rt: &R,
    alloc: Global,
    loads: &SharedLoads,
) -> Given {
    let (one, other) = thread::join(
        rt,
        || place_thousand(rt, alloc, loads),
        || place_thousand(rt, alloc, loads),
    );
    sum_of(one, other)
}

#[test]
fn two_threads_leave_an_even_book(rt: HostRuntime) {
    let book = LoadBook::new(rt.alloc(), 3, 2).expect(&rt, "memory");
    let loads = SharedLoads::new(book);
    assert!(rt; place_beside(&rt, rt.alloc(), &loads) == [1334, 1333, 1333]);
}

#[test]
fn a_full_shared_book_goes_on(rt: HostRuntime) {
    let half = 1 << 61;
    let book = LoadBook::with_loads(rt.alloc(), &[half, half - 1], 1).expect(&rt, "memory");
    let loads = SharedLoads::new(book);
    check_shared(&rt, &loads, 4, &[&[2], &[1], &[2], &[1]]);
}
