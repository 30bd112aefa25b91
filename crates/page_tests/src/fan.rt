//! Updates whose pages are put beside each other, and whose doors fail at each call in turn: they come to what a plain loop over
//! the same plan comes to.

mod cases;
mod grouped;
mod plain;

use crate::fan::cases::{Calls, Case, Outcome};
use crate::fan::grouped::put_grouped;
use crate::fan::plain::put_plainly;
use std::alloc::Global;
use std::process::Abort;
use std::sync::Wait;
use std::thread::Threads;

// Past the puts of any door here.
const CALLS: u64 = 8;

// What `store` comes to, which is what the plain loop comes to.
fn check_case<R: Abort + Threads + Wait + Sync>(rt: &R, alloc: Global, case: &Case) -> Outcome {
    let bytes = case.bytes(rt, alloc);
    let plain = put_plainly(rt, alloc, case, bytes.as_slice());
    let grouped = put_grouped(rt, alloc, case, bytes.as_slice());
    assert!(rt; grouped.is_as(&plain), "not as the plain loop");
    grouped
}

// The doors fail at those calls.
fn check_failing<R: Abort + Threads + Wait + Sync>(
    rt: &R,
    alloc: Global,
    calm: &Case,
    calls: Calls,
) {
    let case = Case {
        pages: calm.pages,
        replicas: calm.replicas,
        page_size: calm.page_size,
        calls,
    };
    check_case(rt, alloc, &case);
}

// Each door fails at those calls alone, and then all of them.
fn check_doors<R: Abort + Threads + Wait + Sync>(
    rt: &R,
    alloc: Global,
    calm: &Case,
    calls: (u64, u64),
) {
    for door in 0..4usize {
        let mut alone = [(0, 0); 4];
        alone[door] = calls;
        check_failing(rt, alloc, calm, alone);
    }
    check_failing(rt, alloc, calm, [calls; 4]);
}

// Each call fails, alone and with the next one.
fn check_calls<R: Abort + Threads + Wait + Sync>(rt: &R, alloc: Global, calm: &Case) {
    for before in 0..CALLS {
        check_doors(rt, alloc, calm, (before + 1, 0));
        check_doors(rt, alloc, calm, (before + 1, before + 2));
    }
}

// An update whose doors don't fail.
fn calm(pages: u32, replicas: u32, page_size: u64) -> Case {
    Case {
        pages,
        replicas,
        page_size,
        calls: [(0, 0); 4],
    }
}

#[test]
fn a_store_comes_to_what_a_plain_loop_comes_to(rt: HostRuntime) {
    for pages in 1..10u32 {
        check_calls(&rt, rt.alloc(), &calm(pages, 1, 4));
        check_calls(&rt, rt.alloc(), &calm(pages, 2, 4));
        check_calls(&rt, rt.alloc(), &calm(pages, 3, 4));
    }
}

// Of so many bytes that each group has a thread of its own.
#[test]
fn so_does_a_store_on_threads(rt: HostRuntime) {
    check_doors(&rt, rt.alloc(), &calm(4, 1, 65_536), (1, 0));
    check_doors(&rt, rt.alloc(), &calm(5, 2, 65_536), (1, 2));
    check_doors(&rt, rt.alloc(), &calm(5, 3, 65_536), (2, 3));
}

// Checks that page 1 is the one that is named.
fn check_lost<R: Abort + Threads + Wait + Sync>(
    rt: &R,
    alloc: Global,
    pages: u32,
    replicas: u32,
    calls: Calls,
) {
    let case = Case {
        pages,
        replicas,
        page_size: 4,
        calls,
    };
    let outcome = check_case(rt, alloc, &case);
    assert!(rt; matches!(&outcome.taken, Err(1)));
}

// Two pages are lost. The groups of small updates are put in the order of their doors, so that those of the later page
// fail first: door 1 loses page 4 before door 2 loses page 1, and doors 1 and 2 lose page 2 before doors 3 and 4 lose
// page 1.
#[test]
fn a_fault_names_the_earlier_page_whose_doors_failed_later(rt: HostRuntime) {
    check_lost(&rt, rt.alloc(), 5, 1, [(2, 0), (1, 0), (0, 0), (0, 0)]);
    check_lost(&rt, rt.alloc(), 3, 2, [(2, 0), (2, 0), (1, 0), (1, 0)]);
}
