//! Calls of doors that fail once.
//!
//! A door's puts and gets are numbered together, from 1. Of three providers, each page has two, so that it is lost only where both
//! of its doors fail.

use crate::program::{Row, check_row};
use crate::scripts::{SCRIPTS, Script};
use std::alloc::Global;
use std::process::Abort;
use std::sync::Wait;
use std::thread::Threads;

// Pages of four bytes over three providers, with two replicas of each.
const THREE: &str = "run --page 4 --providers 3 --replicas 2";

// Past the calls of any door here.
const CALLS: u64 = 14;

// A script over three doors that fail at these calls is answered so. How many calls failed.
fn check_script<R: Wait + Threads + Sync + Abort>(
    rt: &R,
    alloc: Global,
    script: &str,
    failing: &[&[u64]],
    out: &[u8],
) -> u64 {
    let row = Row {
        line: THREE,
        text: "",
        failing,
        script,
        out,
        status: 0,
    };
    check_row(rt, alloc, &row)
}

// Where one door fails, once or at two calls in a row, the other replica of each page is there and nothing is seen of it. A failing
// call is counted once.
fn check_alone<R: Wait + Threads + Sync + Abort>(
    rt: &R,
    alloc: Global,
    script: &Script,
    failing: &[&[u64]],
) {
    let faults = check_script(rt, alloc, script.lines, failing, script.replies);
    assert!(rt; faults <= 2);
}

// One of three doors fails at these calls.
fn check_each<R: Wait + Threads + Sync + Abort>(
    rt: &R,
    alloc: Global,
    script: &Script,
    calls: &[u64],
) {
    check_alone(rt, alloc, script, &[calls, &[], &[]]);
    check_alone(rt, alloc, script, &[&[], calls, &[]]);
    check_alone(rt, alloc, script, &[&[], &[], calls]);
}

fn check_doors<R: Wait + Threads + Sync + Abort>(rt: &R, alloc: Global, script: &Script) {
    for before in 0..CALLS {
        check_each(rt, alloc, script, &[before + 1]);
        check_each(rt, alloc, script, &[before + 1, before + 2]);
    }
}

#[test]
fn each_call_of_each_door_fails_once(rt: HostRuntime) {
    for script in SCRIPTS.as_slice() {
        check_doors(&rt, rt.alloc(), script);
    }
}

// A script's place, the two calls at which all three doors fail, how many calls fail then at least, how many lines of the replies are as
// ever, and the lines that stand in place of as many of the next ones. The last calls of each row are past those of its doors.
static CASES: [(usize, [u64; 2], u64, usize, &[u8]); 64] = [
    // Pages with replicas.
    (
        0,
        [1, 0],
        3,
        1,
        b"error page-fault 0\nversion 1 at 0 size 2\nerror not-published 2 1\nerror range-past-size 6 2\n",
    ),
    (
        0,
        [1, 2],
        4,
        1,
        b"error page-fault 0\nerror page-fault 0\nerror not-published 2 0\nerror not-published 1 0\n",
    ),
    (
        0,
        [2, 0],
        3,
        2,
        b"error page-fault 0\nerror not-published 2 1\n",
    ),
    (
        0,
        [2, 3],
        5,
        2,
        b"error page-fault 0\nerror not-published 2 1\nerror page-fault 0\n",
    ),
    (0, [3, 0], 3, 3, b"error page-fault 1\n"),
    (0, [3, 4], 4, 3, b"error page-fault 1\nerror page-fault 0\n"),
    (0, [4, 0], 2, 4, b"error page-fault 1\n"),
    (0, [4, 5], 2, 4, b"error page-fault 1\n"),
    (0, [5, 0], 0, 5, b""),
    (0, [5, 6], 0, 5, b""),
    // Tickets that finish in any order.
    (
        1,
        [1, 0],
        3,
        1,
        b"error page-fault 0\nticket 1 version 1 at 0 size 1\nerror no-ticket 2\nstatus assigned 1 published 0 held 1\nerror not-published 2 0\npublished 1\nerror not-published 2 1\n",
    ),
    (
        1,
        [1, 2],
        4,
        1,
        b"error page-fault 0\nerror page-fault 0\nerror no-ticket 2\nstatus assigned 0 published 0 held 0\nerror not-published 2 0\nerror no-ticket 1\nerror not-published 2 0\n",
    ),
    (1, [2, 0], 2, 7, b"error page-fault 0\n"),
    (1, [2, 3], 2, 7, b"error page-fault 0\n"),
    (1, [3, 0], 1, 8, b""),
    (1, [3, 4], 1, 8, b""),
    (1, [4, 0], 0, 8, b""),
    (1, [4, 5], 0, 8, b""),
    // Tickets over many pages.
    (
        2,
        [1, 0],
        3,
        1,
        b"error page-fault 0\nticket 1 version 1 at 0 size 31\nerror no-ticket 2\npublished 1\nerror not-published 2 1\n",
    ),
    (
        2,
        [1, 2],
        4,
        1,
        b"error page-fault 0\nerror page-fault 0\nerror no-ticket 2\nerror no-ticket 1\nerror not-published 2 0\n",
    ),
    (
        2,
        [2, 0],
        3,
        2,
        b"error page-fault 1\nerror no-ticket 2\npublished 1\nerror not-published 2 1\n",
    ),
    (
        2,
        [2, 3],
        3,
        2,
        b"error page-fault 1\nerror no-ticket 2\npublished 1\nerror not-published 2 1\n",
    ),
    (
        2,
        [3, 0],
        2,
        2,
        b"error page-fault 2\nerror no-ticket 2\npublished 1\nerror not-published 2 1\n",
    ),
    (
        2,
        [3, 4],
        2,
        2,
        b"error page-fault 2\nerror no-ticket 2\npublished 1\nerror not-published 2 1\n",
    ),
    (
        2,
        [4, 0],
        3,
        2,
        b"error page-fault 4\nerror no-ticket 2\npublished 1\nerror not-published 2 1\n",
    ),
    (
        2,
        [4, 5],
        3,
        2,
        b"error page-fault 4\nerror no-ticket 2\npublished 1\nerror not-published 2 1\n",
    ),
    (
        2,
        [5, 0],
        2,
        2,
        b"error page-fault 5\nerror no-ticket 2\npublished 1\nerror not-published 2 1\n",
    ),
    (
        2,
        [5, 6],
        2,
        2,
        b"error page-fault 5\nerror no-ticket 2\npublished 1\nerror not-published 2 1\n",
    ),
    (
        2,
        [6, 0],
        3,
        2,
        b"error page-fault 7\nerror no-ticket 2\npublished 1\nerror not-published 2 1\n",
    ),
    (
        2,
        [6, 7],
        3,
        2,
        b"error page-fault 7\nerror no-ticket 2\npublished 1\nerror not-published 2 1\n",
    ),
    (2, [7, 0], 2, 5, b"error page-fault 0\n"),
    (2, [7, 8], 2, 5, b"error page-fault 0\n"),
    (2, [8, 0], 2, 5, b"error page-fault 1\n"),
    (2, [8, 9], 2, 5, b"error page-fault 1\n"),
    (2, [9, 0], 2, 5, b"error page-fault 3\n"),
    (2, [9, 10], 2, 5, b"error page-fault 3\n"),
    (2, [10, 0], 2, 5, b"error page-fault 4\n"),
    (2, [10, 11], 2, 5, b"error page-fault 4\n"),
    (2, [11, 0], 2, 5, b"error page-fault 6\n"),
    (2, [11, 12], 2, 5, b"error page-fault 6\n"),
    (2, [12, 0], 2, 5, b"error page-fault 7\n"),
    (2, [12, 13], 2, 5, b"error page-fault 7\n"),
    (2, [13, 0], 0, 6, b""),
    (2, [13, 14], 0, 6, b""),
    // A branch.
    (
        3,
        [1, 0],
        3,
        1,
        b"error page-fault 0\nversion 1 at 0 size 2\nblob 2\nversion 2 at 2 size 3\nerror not-published 2 1\nerror range-past-size 7 3\n",
    ),
    (
        3,
        [1, 2],
        5,
        1,
        b"error page-fault 0\nerror page-fault 0\nerror not-published 1 0\nerror no-blob 2\nerror not-published 2 0\nerror no-blob 2\n",
    ),
    (
        3,
        [2, 0],
        3,
        2,
        b"error page-fault 0\nblob 2\nversion 2 at 6 size 7\nerror not-published 2 1\n",
    ),
    (
        3,
        [2, 3],
        5,
        2,
        b"error page-fault 0\nblob 2\nerror page-fault 0\nerror not-published 2 1\nerror not-published 2 1\n",
    ),
    (
        3,
        [3, 0],
        3,
        4,
        b"error page-fault 0\ndata 6162636465665859\nerror not-published 2 1\n",
    ),
    (
        3,
        [3, 4],
        4,
        4,
        b"error page-fault 0\nerror page-fault 0\nerror not-published 2 1\n",
    ),
    (3, [4, 0], 2, 5, b"error page-fault 0\n"),
    (3, [4, 5], 4, 5, b"error page-fault 0\nerror page-fault 0\n"),
    (3, [5, 0], 2, 6, b"error page-fault 0\n"),
    (3, [5, 6], 2, 6, b"error page-fault 0\n"),
    (3, [6, 0], 1, 7, b""),
    (3, [6, 7], 1, 7, b""),
    (3, [7, 0], 0, 7, b""),
    (3, [7, 8], 0, 7, b""),
    // Sync.
    (
        4,
        [1, 0],
        3,
        1,
        b"error page-fault 0\nticket 1 version 1 at 0 size 1\nerror no-ticket 2\nerror not-published 2 0\nerror not-published 3 0\npublished 1\nerror not-published 2 1\n",
    ),
    (
        4,
        [1, 2],
        4,
        1,
        b"error page-fault 0\nerror page-fault 0\nerror no-ticket 2\nerror not-published 2 0\nerror not-published 3 0\nerror no-ticket 1\nerror not-published 2 0\n",
    ),
    (4, [2, 0], 1, 9, b""),
    (4, [2, 3], 1, 9, b""),
    (4, [3, 0], 0, 9, b""),
    (4, [3, 4], 0, 9, b""),
];

// How many bytes so many lines of the text have.
fn end_of(text: &[u8], lines: usize) -> usize {
    let mut left = lines;
    let mut end = 0usize;
    for byte in text {
        if left == 0 {
            break;
        }
        end = end.saturating_add(1);
        if *byte == b'\n' {
            left -= 1;
        }
    }
    end
}

// The text in two: so many lines, and the others.
fn split_lines(text: &[u8], lines: usize) -> (&[u8], &[u8]) {
    text.split_at(end_of(text, lines).min(text.len()))
}

fn count_lines(text: &[u8]) -> usize {
    text.iter().filter(|byte| **byte == b'\n').count()
}

// So many lines of the replies, and then these in place of as many of the next ones.
fn replies_with<R: Abort>(
    rt: &R,
    alloc: Global,
    replies: &[u8],
    kept: usize,
    instead: &[u8],
) -> Vec<u8> {
    let (front, back) = split_lines(replies, kept);
    let (_, rest) = split_lines(back, count_lines(instead));
    let mut all = front.to_vec(alloc).expect(rt, "memory");
    all.extend_from_slice(instead).expect(rt, "memory");
    all.extend_from_slice(rest).expect(rt, "memory");
    all
}

fn check_case<R: Wait + Threads + Sync + Abort>(
    rt: &R,
    alloc: Global,
    script: &Script,
    calls: &[u64],
    failed: u64,
    kept: usize,
    instead: &[u8],
) {
    let out = replies_with(rt, alloc, script.replies, kept, instead);
    let failing = [calls, calls, calls];
    let faults = check_script(rt, alloc, script.lines, failing.as_slice(), out.as_slice());
    assert!(rt; faults >= failed);
}

#[test]
fn a_call_of_all_doors_fails_at_once(rt: HostRuntime) {
    for (index, calls, failed, kept, instead) in CASES.as_slice() {
        let script = SCRIPTS.get(*index).expect(&rt, "a script");
        check_case(
            &rt,
            rt.alloc(),
            script,
            calls.as_slice(),
            *failed,
            *kept,
            instead,
        );
    }
}
