//! The program over doors of which some calls fail, and over doors to page nodes.

use crate::program::{ROOM, Row, check, check_over, check_rows};
use node_door::LoopMaker;
use std::alloc::Global;
use std::process::Abort;
use std::sync::Wait;
use std::thread::Threads;
use tree_geom::PageSize;

// Pages of four bytes, so that updates lie on several.
const SMALL_PAGES: &str = "run --page 4 --providers 3 --replicas 2";

// More calls than any door gets here.
const EVERY: &[u64] = &[1, 2, 3, 4, 5, 6, 7, 8];

// Of six bytes the first page lies at the providers 1 and 2, and the second at 3 and 1.
static LOST: [Row<'static>; 10] = [
    // The first get of the first replica fails.
    Row {
        line: SMALL_PAGES,
        text: "",
        failing: &[&[3], &[], &[]],
        script: "create\nappend 1 616263646566\nread 1 1 0 6\n",
        out: b"blob 1\nversion 1 at 0 size 6\ndata 616263646566\n",
        status: 0,
    },
    // Each get of both replicas of the first page fails, and the second page has another replica.
    Row {
        line: SMALL_PAGES,
        text: "",
        failing: &[&[3, 4, 5, 6, 7, 8], &[2, 3, 4, 5, 6, 7, 8], &[]],
        script: "create\nappend 1 616263646566\nread 1 1 0 6\nread 1 1 4 2\nread 1 1 3 1\nread 1 1 0 0\nread 1 1 0 7\n",
        out: b"blob 1\nversion 1 at 0 size 6\nerror page-fault 0\ndata 6566\nerror page-fault 0\ndata -\nerror range-past-size 7 6\n",
        status: 0,
    },
    // Both fail once.
    Row {
        line: SMALL_PAGES,
        text: "",
        failing: &[&[3], &[2], &[]],
        script: "create\nappend 1 616263646566\nread 1 1 0 6\nread 1 1 0 6\n",
        out: b"blob 1\nversion 1 at 0 size 6\nerror page-fault 0\ndata 616263646566\n",
        status: 0,
    },
    // The doors of the second page fail once, and it is the blob's page 1.
    Row {
        line: SMALL_PAGES,
        text: "",
        failing: &[&[3], &[], &[2]],
        script: "create\nappend 1 616263646566\nread 1 1 5 1\nread 1 1 5 1\n",
        out: b"blob 1\nversion 1 at 0 size 6\nerror page-fault 1\ndata 66\n",
        status: 0,
    },
    // A put fails, and the other replica is stored.
    Row {
        line: SMALL_PAGES,
        text: "",
        failing: &[&[1], &[], &[]],
        script: "create\nappend 1 616263646566\nread 1 1 0 6\n",
        out: b"blob 1\nversion 1 at 0 size 6\ndata 616263646566\n",
        status: 0,
    },
    // Each put fails.
    Row {
        line: SMALL_PAGES,
        text: "",
        failing: &[EVERY, EVERY, EVERY],
        script: "create\nappend 1 61\nstatus 1\n",
        out: b"blob 1\nerror page-fault 0\nstatus assigned 0 published 0 held 0\n",
        status: 0,
    },
    // Each put of the second page fails. The next update finds other providers.
    Row {
        line: SMALL_PAGES,
        text: "",
        failing: &[&[2], &[], &[1]],
        script: "create\nstart-write 1 0 616263646566\nappend 1 6162\nread 1 1 0 2\nfinish 1\n",
        out: b"blob 1\nerror page-fault 1\nversion 1 at 0 size 2\ndata 6162\nerror no-ticket 1\n",
        status: 0,
    },
    // An update of several pages that the store refuses calls no door. One of a single page is stored before it is refused, unless the
    // store refused the session's last one.
    Row {
        line: SMALL_PAGES,
        text: "",
        failing: &[EVERY, EVERY, EVERY],
        script: "create\nstart-write 1 7 61\nstart-write 1 7 616263646566\nappend 2 616263646566\nstart-write 1 7 61\n",
        out: b"blob 1\nerror page-fault 0\nerror offset-past-size 7 0\nerror no-blob 2\nerror offset-past-size 7 0\n",
        status: 0,
    },
    // Nor is it placed: the next page goes to the first two providers.
    Row {
        line: SMALL_PAGES,
        text: "",
        failing: &[&[1], &[1], &[]],
        script: "create\nstart-write 1 7 616263646566\nappend 1 61\n",
        out: b"blob 1\nerror offset-past-size 7 0\nerror page-fault 0\n",
        status: 0,
    },
    // A branch reads its parent's pages by the same doors.
    Row {
        line: SMALL_PAGES,
        text: "",
        failing: &[&[3], &[2], &[]],
        script: "create\nappend 1 616263646566\nbranch 1 1\nread 2 1 0 4\nread 2 1 0 4\n",
        out: b"blob 1\nversion 1 at 0 size 6\nblob 2\nerror page-fault 0\ndata 61626364\n",
        status: 0,
    },
];

#[test]
fn a_page_is_lost_only_where_all_its_doors_fail(rt: HostRuntime) {
    check_rows(&rt, rt.alloc(), LOST.as_slice());
}

const SIXTEEN_BYTES: &str = "create\nappend 1 000102030405060708090a0b0c0d0e0f\n";

// The first call of one provider fails. Pages go to one provider after another.
static PAGES: [Row<'static>; 9] = [
    Row {
        line: "run --settings s --replicas 1",
        text: "page = 4",
        failing: &[&[1]],
        script: SIXTEEN_BYTES,
        out: b"blob 1\nerror page-fault 0\n",
        status: 0,
    },
    Row {
        line: "run --settings s --replicas 1",
        text: "page = 4",
        failing: &[&[], &[1]],
        script: SIXTEEN_BYTES,
        out: b"blob 1\nerror page-fault 1\n",
        status: 0,
    },
    Row {
        line: "run --settings s --replicas 1",
        text: "page = 4",
        failing: &[&[], &[], &[], &[1]],
        script: SIXTEEN_BYTES,
        out: b"blob 1\nerror page-fault 3\n",
        status: 0,
    },
    Row {
        line: "run --settings s --replicas 1",
        text: "page = 8",
        failing: &[&[], &[1]],
        script: SIXTEEN_BYTES,
        out: b"blob 1\nerror page-fault 1\n",
        status: 0,
    },
    Row {
        line: "run --settings s --replicas 1",
        text: "page = 8",
        failing: &[&[], &[], &[1]],
        script: SIXTEEN_BYTES,
        out: b"blob 1\nversion 1 at 0 size 16\n",
        status: 0,
    },
    Row {
        line: "run --settings s",
        text: "page = 4",
        failing: &[&[], &[], &[], &[1]],
        script: SIXTEEN_BYTES,
        out: b"blob 1\nversion 1 at 0 size 16\n",
        status: 0,
    },
    Row {
        line: "run --page 4 --providers 3 --replicas 1",
        text: "",
        failing: &[&[], &[], &[1]],
        script: SIXTEEN_BYTES,
        out: b"blob 1\nerror page-fault 2\n",
        status: 0,
    },
    Row {
        line: "run --page 4 --providers 3 --replicas 1",
        text: "",
        failing: &[&[], &[], &[], &[1]],
        script: SIXTEEN_BYTES,
        out: b"blob 1\nversion 1 at 0 size 16\n",
        status: 0,
    },
    Row {
        line: "run --replicas 1",
        text: "",
        failing: &[&[], &[1]],
        script: SIXTEEN_BYTES,
        out: b"blob 1\nversion 1 at 0 size 16\n",
        status: 0,
    },
];

#[test]
fn pages_have_their_length_and_go_to_their_providers(rt: HostRuntime) {
    check_rows(&rt, rt.alloc(), PAGES.as_slice());
}

// Each door fails at its first three calls.
static NO_DOOR: [Row<'static>; 1] = [Row {
    line: "run",
    text: "",
    failing: &[&[1, 2, 3], &[1, 2, 3], &[1, 2, 3], &[1, 2, 3]],
    script: "create\nappend 1 61\nstatus 1\n",
    out: b"blob 1\nerror page-fault 0\nstatus assigned 0 published 0 held 0\n",
    status: 0,
}];

#[test]
fn an_update_that_no_door_takes_is_a_reply_and_numbers_nothing(rt: HostRuntime) {
    let faults = check_rows(&rt, rt.alloc(), NO_DOOR.as_slice());
    check(&rt, faults == 2, "a door for each of two replicas");
}

// More calls than any door gets here.
const ALL: &[u64] = &[
    1, 2, 3, 4, 5, 6, 7, 8, 9, 10, 11, 12, 13, 14, 15, 16, 17, 18, 19, 20, 21, 22, 23, 24, 25, 26,
    27, 28, 29, 30, 31, 32, 33, 34, 35, 36, 37, 38, 39, 40, 41, 42, 43, 44, 45, 46, 47, 48, 49, 50,
    51, 52, 53, 54, 55, 56, 57, 58, 59, 60, 61, 62, 63, 64,
];

const LOAD: &str = "load --providers 1 --replicas 1 --workers 3 --ops 2";

static LOADS: [Row<'static>; 3] = [
    Row {
        line: LOAD,
        text: "",
        failing: &[&[]],
        script: "",
        out: b"load workers 3 ops 2 seed 1\nlog size 96 versions 6 in-order 3\ngrid size 96 versions 7 sum 1056\n",
        status: 0,
    },
    Row {
        line: LOAD,
        text: "",
        failing: &[&[1]],
        script: "",
        out: b"",
        status: 8,
    },
    Row {
        line: LOAD,
        text: "",
        failing: &[ALL],
        script: "",
        out: b"",
        status: 8,
    },
];

#[test]
fn a_load_whose_pages_are_lost_ends_early(rt: HostRuntime) {
    check_rows(&rt, rt.alloc(), LOADS.as_slice());
}

const WATCH: &str = "watch --providers 1 --replicas 1 --readers 3 --ops 2";

static WATCHES: [Row<'static>; 3] = [
    Row {
        line: WATCH,
        text: "",
        failing: &[&[]],
        script: "",
        out: b"watch readers 3 ops 2 seed 1\nblob size 32 versions 2 agree 3\n",
        status: 0,
    },
    Row {
        line: WATCH,
        text: "",
        failing: &[&[1]],
        script: "",
        out: b"",
        status: 8,
    },
    Row {
        line: WATCH,
        text: "",
        failing: &[ALL],
        script: "",
        out: b"",
        status: 8,
    },
];

#[test]
fn a_watch_whose_pages_are_lost_ends_early(rt: HostRuntime) {
    check_rows(&rt, rt.alloc(), WATCHES.as_slice());
}

// The fifth call of each worker's door fails: it stores two pages for each operation, so this is past its first two.
static LATE: [Row<'static>; 1] = [Row {
    line: "load --providers 1 --replicas 1 --workers 2 --ops 3",
    text: "",
    failing: &[&[5]],
    script: "",
    out: b"",
    status: 8,
}];

#[test]
fn a_load_that_loses_a_worker_s_page_ends_early(rt: HostRuntime) {
    let faults = check_rows(&rt, rt.alloc(), LATE.as_slice());
    check(&rt, faults == 2, "a door for each of two workers");
}

static NODES: [Row<'static>; 3] = [
    Row {
        line: SMALL_PAGES,
        text: "",
        failing: &[],
        script: "create\nappend 1 616263646566\nread 1 1 0 6\n",
        out: b"blob 1\nversion 1 at 0 size 6\ndata 616263646566\n",
        status: 0,
    },
    Row {
        line: SMALL_PAGES,
        text: "",
        failing: &[],
        script: "create\nappend 1 616263646566\nappend 1 5859\nread 1 2 4 4\nread 1 1 0 6\n",
        out: b"blob 1\nversion 1 at 0 size 6\nversion 2 at 6 size 8\ndata 65665859\ndata 616263646566\n",
        status: 0,
    },
    Row {
        line: SMALL_PAGES,
        text: "",
        failing: &[],
        script: "create\nstart-append 1 aa\nstart-append 1 bb\nfinish 2\nread 1 2 0 2\nfinish 1\nread 1 2 0 2\n",
        out: b"blob 1\nticket 1 version 1 at 0 size 1\nticket 2 version 2 at 1 size 2\npublished 0\nerror not-published 2 0\npublished 2\ndata aabb\n",
        status: 0,
    },
];

// A row over nodes, each at the other end of a link in memory. No link fails.
fn check_nodes<R: Wait + Threads + Sync + Abort>(rt: &R, alloc: Global, row: &Row) {
    let p = PageSize::new(4).expect(rt, "a page size");
    let mut doors = LoopMaker::new(alloc, p, ROOM);
    check_over(rt, alloc, row, &mut doors);
    check(rt, doors.faults() == 0, "no link fails");
}

#[test]
fn a_store_whose_pages_lie_at_nodes_answers_each_script_by_its_lines(rt: HostRuntime) {
    for row in &NODES {
        check_nodes(&rt, rt.alloc(), row);
    }
}
