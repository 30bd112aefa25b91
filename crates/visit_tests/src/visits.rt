//! How many node steps a read takes: as many as the shape of the tree asks for, and no step more.
ghost use Rattle.std.specs.Prelude.{◌≡◌, ◌<◌};
ghost use Rattle.client_session.specs.Opening.{IsOfStore};

use crate::bounds::opened;
use crate::store::{Member, check, create, new_session, overwrite, store_of, update};
use blob_model::Place;
use request_form::Fault;
use snapshot::Snapshot;
use std::alloc::Global;
use std::marker::Brand;
use std::process::Abort;
use std::sync::Wait;
use std::sync::ledger::{Blank, Ledger};
use std::thread::Threads;
use tree_geom::Steps;

/// A range of a version of blob 1.
#[derive(Clone, Copy)]
pub(crate) struct Part {
    pub(crate) version: u64,
    pub(crate) offset: u64,
    pub(crate) count: u64,
}

// What is read of a blob that was updated.
#[derive(Clone, Copy)]
enum Look {
    // A range.
    At(Part),
    // The first two bytes of version 1, which is opened before byte 0 is written once more.
    Open,
    // The first two bytes, once an update of byte 1 is started and finished.
    Finished,
}

// Reads a range, and says what bytes came and how many node steps it took.
fn counted_by<R: Wait + Abort, L: Ledger>(
    rt: &R,
    session: &mut Member<'_>,
    part: Part,
    blank: Blank,
) -> (Vec<u8>, u64)
    requires name { blank.name ≡ L.name }
    requires parts { blank.parts ≡ L.parts }
    requires some { 0 < blank.parts }
{
    let mut steps = Steps::<L>::open(blank);
    let bytes = session.read(rt, 1, part.version, part.offset, part.count, &mut steps);
    let bytes = bytes.expect(rt, "a read");
    (bytes.into_vec(), steps.taken())
}

/// Reads a range, and says what bytes came and how many node steps it took.
pub(crate) fn counted<R: Wait + Abort>(
    rt: &R,
    session: &mut Member<'_>,
    part: Part,
) -> (Vec<u8>, u64) {
    counted_by::<R, Brand>(rt, session, part, Blank::new(1))
}

// Reads the first two bytes of what is open, and says what they are and how many node steps it took.
fn open_by<R: Abort, L: Ledger>(
    rt: &R,
    session: &mut Member<'_>,
    snapshot: &Snapshot,
    blank: Blank,
) -> (Vec<u8>, u64)
    requires name { blank.name ≡ L.name }
    requires parts { blank.parts ≡ L.parts }
    requires some { 0 < blank.parts }
    requires of_store { IsOfStore session.old.store snapshot.now }
{
    let mut steps = Steps::<L>::open(blank);
    let bytes = session.read_at(snapshot, 0, 2, &mut steps);
    let bytes = bytes.expect(rt, "a read");
    (bytes.into_vec(), steps.taken())
}

// Reads the first two bytes of version 1, which is opened before byte 0 is written once more.
fn open<R: Threads + Wait + Sync + Abort>(rt: &R, session: &mut Member<'_>) -> (Vec<u8>, u64) {
    let snapshot = opened(rt, session, 1).expect(rt, "a snapshot");
    overwrite(rt, session);
    open_by::<R, Brand>(rt, session, &snapshot, Blank::new(1))
}

// Finishes an update. Where the finish finds no memory it is done again.
fn finish<R: Threads + Wait + Sync>(
    rt: &R,
    session: &mut Member<'_>,
    ticket: u64,
) -> Result<u64, Fault> {
    match session.finish(rt, ticket) {
        Err(Fault::NoMemory) => session.finish(rt, ticket),
        finished => finished,
    }
}

// Starts an update of byte 1 and finishes it, and answers its version.
fn finished<R: Threads + Wait + Sync + Abort>(rt: &R, session: &mut Member<'_>) -> u64 {
    let started = session.start(rt, 1, Place::WriteAt(1), b"a".as_slice());
    let started = started.expect(rt, "a ticket");
    finish(rt, session, started.ticket).expect(rt, "a finished update")
}

fn looked<R: Threads + Wait + Sync + Abort>(
    rt: &R,
    session: &mut Member<'_>,
    what: Look,
) -> (Vec<u8>, u64) {
    let part = match what {
        Look::Open => return open(rt, session),
        Look::At(part) => part,
        Look::Finished => Part {
            version: finished(rt, session),
            offset: 0,
            count: 2,
        },
    };
    counted(rt, session, part)
}

// The updates of blob 1, after which its first byte is written so many times; what is read then, its bytes, and the node steps of reading it.
#[derive(Clone, Copy)]
struct Row<'a> {
    updates: &'a [(Place, &'a [u8])],
    parts: u32,
    look: Look,
    bytes: &'a [u8],
    steps: u64,
}

// Two bytes.
const TWO: &[(Place, &[u8])] = &[(Place::Append, b"\x00\x00")];

// Pages of four bytes.
const VISITS: [Row; 8] = [
    // The root, a leaf, and the older leaf of the same page.
    Row {
        updates: &[(Place::Append, b"abcdef"), (Place::Append, b"XY")],
        parts: 0,
        look: Look::At(Part {
            version: 2,
            offset: 4,
            count: 4,
        }),
        bytes: b"efXY",
        steps: 3,
    },
    Row {
        updates: &[
            (Place::Append, b"a"),
            (Place::Append, b"bcdefghijklmnopqrstuvwxyz012345"),
        ],
        parts: 0,
        look: Look::At(Part {
            version: 2,
            offset: 0,
            count: 32,
        }),
        bytes: b"abcdefghijklmnopqrstuvwxyz012345",
        steps: 16,
    },
    Row {
        updates: &[
            (Place::Append, b"abcd"),
            (Place::Append, b"efgh"),
            (Place::Append, b"i"),
        ],
        parts: 0,
        look: Look::At(Part {
            version: 3,
            offset: 0,
            count: 9,
        }),
        bytes: b"abcdefghi",
        steps: 6,
    },
    // Sixteen versions that write the first byte: the leaves of one page, one behind another.
    Row {
        updates: TWO,
        parts: 16,
        look: Look::At(Part {
            version: 16,
            offset: 0,
            count: 2,
        }),
        bytes: b"\xff\x00",
        steps: 16,
    },
    // The next one stores the page anew.
    Row {
        updates: TWO,
        parts: 16,
        look: Look::At(Part {
            version: 17,
            offset: 0,
            count: 2,
        }),
        bytes: b"\xff\x00",
        steps: 1,
    },
    Row {
        updates: &[(Place::Append, b"abcdef"), (Place::WriteAt(3), b"XY")],
        parts: 0,
        look: Look::At(Part {
            version: 2,
            offset: 0,
            count: 6,
        }),
        bytes: b"abcXYf",
        steps: 5,
    },
    // Back for each byte that newer leaves lack.
    Row {
        updates: &[
            (Place::Append, b"abcd"),
            (Place::WriteAt(0), b"\xff"),
            (Place::WriteAt(1), b"\xfe"),
        ],
        parts: 0,
        look: Look::At(Part {
            version: 3,
            offset: 0,
            count: 4,
        }),
        bytes: b"\xff\xfecd",
        steps: 3,
    },
    // No byte needs no node.
    Row {
        updates: &[(Place::Append, b"abcdef")],
        parts: 0,
        look: Look::At(Part {
            version: 1,
            offset: 6,
            count: 0,
        }),
        bytes: b"",
        steps: 0,
    },
];

// Writes the first byte so many times.
fn write_first<R: Threads + Wait + Sync + Abort>(rt: &R, session: &mut Member<'_>, times: u32) {
    for _ in 0..times {
        update(rt, session, Place::WriteAt(0), b"\xff");
    }
}

// Makes blob 1 and updates it.
fn update_all<R: Threads + Wait + Sync + Abort>(rt: &R, session: &mut Member<'_>, row: &Row) {
    create(rt, session);
    for (place, bytes) in row.updates {
        update(rt, session, *place, bytes);
    }
    write_first(rt, session, row.parts);
}

// What is read in a new store of pages of that size, and the node steps of reading it.
fn seen_after<R: Threads + Wait + Sync + Abort>(
    rt: &R,
    alloc: Global,
    page_size: u64,
    row: &Row,
) -> (Vec<u8>, u64) {
    let (shared, mut owner) = store_of(rt, alloc, page_size);
    let mut session = new_session(rt, alloc, &shared, &mut owner);
    update_all(rt, &mut session, row);
    looked(rt, &mut session, row.look)
}

// A reader sees what a row says, in as many node steps.
fn check_row<R: Threads + Wait + Sync + Abort>(rt: &R, alloc: Global, page_size: u64, row: &Row) {
    let (bytes, steps) = seen_after(rt, alloc, page_size, row);
    check(rt, bytes.as_slice() == row.bytes, true, "the bytes");
    check(rt, steps, row.steps, "as many node steps");
}

#[test]
fn a_read_takes_as_many_node_steps_as_it_needs(rt: HostRuntime) {
    for row in &VISITS {
        check_row(&rt, rt.alloc(), 4, row);
    }
}

// Version 16 is the last one: the first of two bytes was written fifteen times.
fn check_sixteen<R: Threads + Wait + Sync + Abort>(
    rt: &R,
    alloc: Global,
    look: Look,
    bytes: &[u8],
) {
    let row = Row {
        updates: TWO,
        parts: 15,
        look,
        bytes,
        steps: 1,
    };
    check_row(rt, alloc, 4, &row);
}

#[test]
fn what_is_held_open_is_read_whatever_has_come_since(rt: HostRuntime) {
    check_sixteen(&rt, rt.alloc(), Look::Open, b"\x00\x00");
}

// It stores the page anew. It comes to the same where an allocation of the finish is refused.
#[test]
fn a_finish_that_stores_a_page_anew_is_done_again_after_want_of_memory(rt: HostRuntime) {
    check_sixteen(&rt, rt.alloc(), Look::Finished, b"\xffa");
}

// So many bytes, of which no two pages have the same.
fn long_bytes<R: Abort>(rt: &R, alloc: Global, count: u32) -> Vec<u8> {
    let mut bytes = Vec::with_capacity(alloc, count as usize).expect(rt, "memory");
    for i in 0..count {
        bytes.push((i / 4 % 251) as u8).expect(rt, "memory");
    }
    bytes
}

#[test]
fn a_mebibyte_is_read_whole_in_511_node_steps(rt: HostRuntime) {
    let bytes = long_bytes(&rt, rt.alloc(), 1_048_576);
    let whole = Row {
        updates: &[(Place::Append, bytes.as_slice())],
        parts: 0,
        look: Look::At(Part {
            version: 1,
            offset: 0,
            count: 1_048_576,
        }),
        bytes: bytes.as_slice(),
        steps: 511,
    };
    check_row(&rt, rt.alloc(), 4096, &whole);
}
