//! Doors that fail at each call of a finish that stores a page of the blob anew.

use crate::program::{Row, check_row};
use std::alloc::Global;
use std::process::Abort;
use std::sync::Wait;
use std::thread::Threads;

// One provider, whose door's calls are numbered from 1: each of the first seventeen updates puts one page.
const WORDS: &str = "run --page 4 --providers 1 --replicas 1";

// Sixteen versions of two bytes.
const BEFORE: &str =
    "create\nappend 1 0000\nwrite 1 0 ff\nwrite 1 0 ff\nwrite 1 0 ff\nwrite 1 0 ff\nwrite 1 0 ff\nwrite 1 0 ff\n\
    write 1 0 ff\nwrite 1 0 ff\nwrite 1 0 ff\nwrite 1 0 ff\nwrite 1 0 ff\nwrite 1 0 ff\nwrite 1 0 ff\nwrite 1 0 ff\nwrite 1 0 aa\n";

// What they are answered.
const SAID: &str =
    "blob 1\nversion 1 at 0 size 2\nversion 2 at 0 size 2\nversion 3 at 0 size 2\nversion 4 at 0 size 2\nversion 5 at 0 size 2\n\
    version 6 at 0 size 2\nversion 7 at 0 size 2\nversion 8 at 0 size 2\nversion 9 at 0 size 2\nversion 10 at 0 size 2\nversion 11 at 0 size 2\n\
    version 12 at 0 size 2\nversion 13 at 0 size 2\nversion 14 at 0 size 2\nversion 15 at 0 size 2\nversion 16 at 0 size 2\n";

// An update that is started and then finished, and one that is to be finished at once. Where that can't be the ticket stays, and a later
// finish makes the same version.
const STARTED: &str = "start-write 1 0 bb\nfinish 1\nfinish 1\nread 1 17 0 2\n";

const AT_ONCE: &str = "write 1 0 bb\nfinish 1\nread 1 17 0 2\n";

// The call that fails, and the replies to both.
static CALLS: [(u64, &str, &str); 6] = [
    // The page of the update isn't stored.
    (
        17,
        "error page-fault 0\nerror no-ticket 1\nerror no-ticket 1\nerror not-published 17 16\n",
        "error page-fault 0\nerror no-ticket 1\nerror not-published 17 16\n",
    ),
    // Two pages of versions before are read, and that of the update, and the page is stored anew.
    (
        18,
        "ticket 1 version 17 at 0 size 2\nerror page-fault 0\npublished 17\ndata bb00\n",
        "ticket 1 version 17 at 0 size 2\npublished 17\ndata bb00\n",
    ),
    (
        19,
        "ticket 1 version 17 at 0 size 2\nerror page-fault 0\npublished 17\ndata bb00\n",
        "ticket 1 version 17 at 0 size 2\npublished 17\ndata bb00\n",
    ),
    (
        20,
        "ticket 1 version 17 at 0 size 2\nerror page-fault 0\npublished 17\ndata bb00\n",
        "ticket 1 version 17 at 0 size 2\npublished 17\ndata bb00\n",
    ),
    (
        21,
        "ticket 1 version 17 at 0 size 2\nerror page-fault 0\npublished 17\ndata bb00\n",
        "ticket 1 version 17 at 0 size 2\npublished 17\ndata bb00\n",
    ),
    // Then it is read alone.
    (
        22,
        "ticket 1 version 17 at 0 size 2\npublished 17\nerror no-ticket 1\nerror page-fault 0\n",
        "version 17 at 0 size 2\nerror no-ticket 1\nerror page-fault 0\n",
    ),
];

// One text and then another.
fn joined<R: Abort>(rt: &R, alloc: Global, front: &str, back: &str) -> String {
    let mut text = String::from_str(alloc, front).expect(rt, "memory");
    text.push_str(back).expect(rt, "memory");
    text
}

// Over doors that fail at these calls, the versions and then these lines are answered so. How many calls failed.
fn check_folding<R: Wait + Threads + Sync + Abort>(
    rt: &R,
    alloc: Global,
    line: &str,
    failing: &[&[u64]],
    lines: &str,
    replies: &str,
) -> u64 {
    let script = joined(rt, alloc, BEFORE, lines);
    let out = joined(rt, alloc, SAID, replies);
    let row = Row {
        line,
        text: "",
        failing,
        script: script.as_str(),
        out: out.as_str().as_bytes(),
        status: 0,
    };
    check_row(rt, alloc, &row)
}

// So it is over one door of which this call fails.
fn check_lines<R: Wait + Threads + Sync + Abort>(
    rt: &R,
    alloc: Global,
    call: u64,
    lines: &str,
    replies: &str,
) {
    let calls = [call];
    let failing = [calls.as_slice()];
    let faults = check_folding(rt, alloc, WORDS, failing.as_slice(), lines, replies);
    assert!(rt; faults == 1, "call {call}");
}

#[test]
fn a_finish_that_stores_a_page_anew_is_done_again_where_a_call_of_a_door_failed(rt: HostRuntime) {
    for (call, started, at_once) in CALLS.as_slice() {
        check_lines(&rt, rt.alloc(), *call, STARTED, started);
        check_lines(&rt, rt.alloc(), *call, AT_ONCE, at_once);
    }
}

// Of seventeen pages the first lies at the providers 1 and 2, the sixteenth too, and the last at 3 and 1. So the page that is stored anew, the
// eighteenth, is placed at 2 and 3, by the twelfth call of the door of 2 and the thirteenth of that of 3. Then a read begins at 2.
const THREE: &str = "run --page 4 --providers 3 --replicas 2";

const PUBLISHED: &str =
    "ticket 1 version 17 at 0 size 2\npublished 17\nerror no-ticket 1\ndata bb00\n";

const LOST: &str =
    "ticket 1 version 17 at 0 size 2\npublished 17\nerror no-ticket 1\nerror page-fault 0\n";

// The calls that fail of each provider's door, the replies to `STARTED`, and how many fail.
static REPLICAS: [(&[&[u64]], &str, u64); 6] = [
    // One replica is stored, and is read.
    (&[&[], &[12], &[]], PUBLISHED, 1),
    (&[&[], &[], &[13]], PUBLISHED, 1),
    // There is no other.
    (&[&[], &[12], &[14]], LOST, 2),
    (&[&[], &[13], &[13]], LOST, 2),
    // Where both are stored, one of them is enough for the read.
    (&[&[], &[13], &[]], PUBLISHED, 1),
    // None is stored at first.
    (
        &[&[], &[12], &[13]],
        "ticket 1 version 17 at 0 size 2\nerror page-fault 0\npublished 17\ndata bb00\n",
        2,
    ),
];

#[test]
fn a_page_that_is_stored_anew_has_a_replica_wherever_a_door_of_its_placement_took_it(
    rt: HostRuntime,
) {
    for (failing, replies, faults) in REPLICAS.as_slice() {
        let failed = check_folding(&rt, rt.alloc(), THREE, failing, STARTED, replies);
        assert!(rt; failed == *faults, "{faults} faults");
    }
}
