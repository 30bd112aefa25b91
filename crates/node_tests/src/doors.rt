//! A put and a get of a page over links whose replies are written beforehand, and over links of which calls fail.

ghost use Rattle.std.specs.Prelude.{◌≡◌, length};
ghost use Rattle.page_store.specs.Page.{IsIn};

use crate::gated::{Failing, GatedLink};
use crate::served::bytes_of;
use memory_ports::{MemSink, MemSource};
use node_door::StreamDoor;
use page_store::{Door, GetAnswer, PageHouse, PageRef, PutAnswer};
use ports::pair::Pair;
use ports::stream::{Sink, Source};
use std::alloc::Global;
use std::process::Abort;
use std::sync::Wait;
use tree_geom::PageSize;

// More bytes than are written in a row.
const ROOM: usize = 256;

// What came of the put, and of the get behind it.
#[derive(Clone, Copy, PartialEq, Eq)]
enum Came {
    Got,
    GetFailed,
    PutFailed,
    NoMemory,
}

// How many calls failed.
fn faults_of(came: Came) -> u64 {
    match came {
        Came::Got | Came::NoMemory => 0,
        Came::GetFailed | Came::PutFailed => 1,
    }
}

// What a link gives, and what comes of the put of "abc" and of the get of its bytes 1 and 2: whether the door is spent, and the bytes
// that were written.
#[derive(Clone, Copy)]
struct Row<'a> {
    replies: &'a str,
    came: Came,
    spent: bool,
    written: &'a str,
}

const PUT: &str = "0000000420616263";

const BOTH: &str = "0000000420616263 0000001921 0000000000000000 0000000000000001 0000000000000002";

const RIGHT: &str = "00000009a00000000000000000 00000003a16263";

// All is well, under either id.
static WELL: [Row; 2] = [
    Row {
        replies: RIGHT,
        came: Came::Got,
        spent: false,
        written: BOTH,
    },
    Row {
        replies: "00000009a00000000000000105 00000003a16263",
        came: Came::Got,
        spent: false,
        written: "0000000420616263 0000001921 0000000000000105 0000000000000001 0000000000000002",
    },
];

// The page is stored, and the get fails.
static GETS: [Row; 10] = [
    // A wrong byte at either place, a byte too few, bytes too many.
    Row {
        replies: "00000009a00000000000000000 00000003a16363",
        came: Came::GetFailed,
        spent: false,
        written: BOTH,
    },
    Row {
        replies: "00000009a00000000000000000 00000003a16264",
        came: Came::GetFailed,
        spent: false,
        written: BOTH,
    },
    Row {
        replies: "00000009a00000000000000000 00000002a162",
        came: Came::GetFailed,
        spent: false,
        written: BOTH,
    },
    Row {
        replies: "00000009a00000000000000000 00000008a162636465666768",
        came: Came::GetFailed,
        spent: false,
        written: BOTH,
    },
    // Refusals, and a reply too many, which stands before the right one.
    Row {
        replies: "00000009a00000000000000000 00000011ff00000000000000170000000000000000",
        came: Came::GetFailed,
        spent: false,
        written: BOTH,
    },
    Row {
        replies: "00000009a00000000000000000 00000009ff0000000000000009",
        came: Came::GetFailed,
        spent: false,
        written: BOTH,
    },
    Row {
        replies: "00000009a00000000000000000 00000009a00000000000000000 00000003a16263",
        came: Came::GetFailed,
        spent: false,
        written: BOTH,
    },
    // A reply that ends in its middle or within its length, and none.
    Row {
        replies: "00000009a00000000000000000 00000003a162",
        came: Came::GetFailed,
        spent: true,
        written: BOTH,
    },
    Row {
        replies: "00000009a00000000000000000 0000",
        came: Came::GetFailed,
        spent: true,
        written: BOTH,
    },
    Row {
        replies: "00000009a00000000000000000",
        came: Came::GetFailed,
        spent: true,
        written: BOTH,
    },
];

// The page isn't stored.
static PUTS: [Row; 12] = [
    // Want of memory at the node, and other replies of a node.
    Row {
        replies: "00000009ff0000000000000009",
        came: Came::NoMemory,
        spent: false,
        written: PUT,
    },
    Row {
        replies: "00000011ff000000000000000b0000000000000003",
        came: Came::PutFailed,
        spent: false,
        written: PUT,
    },
    Row {
        replies: "00000003a16263",
        came: Came::PutFailed,
        spent: false,
        written: PUT,
    },
    Row {
        replies: "000000018d",
        came: Came::PutFailed,
        spent: false,
        written: PUT,
    },
    // No replies of a node: an unknown operation, a length of 0, one past the limit, a refusal of a store's, and refusals and an id with
    // other fields.
    Row {
        replies: "0000000981 0000000000000001",
        came: Came::PutFailed,
        spent: true,
        written: PUT,
    },
    Row {
        replies: "0000000000",
        came: Came::PutFailed,
        spent: true,
        written: PUT,
    },
    Row {
        replies: "00200001a1",
        came: Came::PutFailed,
        spent: true,
        written: PUT,
    },
    Row {
        replies: "00000009ff0000000000000015",
        came: Came::PutFailed,
        spent: true,
        written: PUT,
    },
    Row {
        replies: "00000009ff0000000000000017",
        came: Came::PutFailed,
        spent: true,
        written: PUT,
    },
    Row {
        replies: "00000008a0 00000000000000",
        came: Came::PutFailed,
        spent: true,
        written: PUT,
    },
    // A reply that ends in its middle, and none.
    Row {
        replies: "00000009a0 0000000000",
        came: Came::PutFailed,
        spent: true,
        written: PUT,
    },
    Row {
        replies: "",
        came: Came::PutFailed,
        spent: true,
        written: PUT,
    },
];

// Gets bytes 1 and 2 of the page, and says what came.
fn get<R: Abort, I: Source + Sink>(
    rt: &R,
    door: &mut StreamDoor<I>,
    house: &PageHouse,
    page: &PageRef,
) -> Came
    requires here { IsIn house.now page.now.spot }
    requires room { length page.now.bytes ≡ 3 }
{
    let mut out = [0u8; 2];
    match door.get(house, page, 1, &mut out) {
        GetAnswer::Got => {
            assert!(rt; out == *b"bc", "other bytes");
            Came::Got
        }
        GetAnswer::Failed => Came::GetFailed,
    }
}

// Puts a page and gets bytes of it.
fn put_and_get<R: Abort + Wait, I: Source + Sink>(
    rt: &R,
    door: &mut StreamDoor<I>,
    house: &PageHouse,
) -> Came {
    match door.put(rt, house, b"abc") {
        PutAnswer::Stored(page) => get(rt, door, house, &page),
        PutAnswer::Failed => Came::PutFailed,
        PutAnswer::NoMemory => Came::NoMemory,
    }
}

// Checks what comes of a put and a get, and that a spent door then fails at a put.
fn check_door<R: Abort + Wait, I: Source + Sink>(
    rt: &R,
    alloc: Global,
    door: &mut StreamDoor<I>,
    came: Came,
    spent: bool,
) {
    let house = PageHouse::new(alloc, 1).expect(rt, "memory");
    let found = put_and_get(rt, door, &house);
    assert!(rt; found == came, "another answer");
    assert!(rt; door.faults() == faults_of(came), "another count");
    assert!(rt; door.is_spent() == spent, "spent or not");
    if spent {
        let again = put_and_get(rt, door, &house);
        assert!(rt; again == Came::PutFailed, "a spent door answered");
        assert!(rt; door.faults() == 2, "a spent door counted nothing");
    }
}

// Checks a row over a link that gives its replies in pieces of so many bytes and takes so many, and that nothing else was written.
fn check_row<R: Abort + Wait>(rt: &R, alloc: Global, row: &Row, piece: usize, room: usize) {
    assert!(rt; piece > 0);
    let replies = bytes_of(rt, alloc, row.replies);
    let written = bytes_of(rt, alloc, row.written);
    let mut source = MemSource::new(replies, piece, Vec::new(alloc));
    let mut sink = MemSink::new(alloc, room).expect(rt, "memory");
    let io = Pair {
        source: &mut source,
        sink: &mut sink,
    };
    let p = PageSize::new(4).expect(rt, "a page size");
    let mut door = StreamDoor::new(alloc, 1, p, io).expect(rt, "memory");
    check_door(rt, alloc, &mut door, row.came, row.spent);
    let _io = door.into_link();
    assert!(rt; sink.bytes() == written.as_slice(), "other bytes written");
}

// Checks rows, in pieces of each length.
fn check_rows<R: Abort + Wait>(rt: &R, alloc: Global, rows: &[Row]) {
    for row in rows {
        check_row(rt, alloc, row, 1, ROOM);
        check_row(rt, alloc, row, 3, ROOM);
        check_row(rt, alloc, row, 99, ROOM);
    }
}

#[test]
fn a_door_answers_by_what_its_link_gives(rt: HostRuntime) {
    check_rows(&rt, rt.alloc(), WELL.as_slice());
    check_rows(&rt, rt.alloc(), GETS.as_slice());
    check_rows(&rt, rt.alloc(), PUTS.as_slice());
}

// A link that takes so many bytes, what comes then, and the bytes that were written.
static SHORT: [(usize, Came, &str); 5] = [
    (0, Came::PutFailed, ""),
    (5, Came::PutFailed, "0000000420"),
    (7, Came::PutFailed, "00000004206162"),
    (8, Came::GetFailed, PUT),
    (
        20,
        Came::GetFailed,
        "0000000420616263 0000001921 00000000000000",
    ),
];

#[test]
fn a_write_that_fails_leaves_a_front_of_the_frame(rt: HostRuntime) {
    for (room, came, written) in SHORT.as_slice() {
        let row = Row {
            replies: RIGHT,
            came: *came,
            spent: true,
            written,
        };
        check_row(&rt, rt.alloc(), &row, 99, *room);
    }
}

// The first call of the link that fails. A put writes twice and reads twice, and a get writes once and reads twice.
static CALLS: [(u64, Came); 7] = [
    (0, Came::PutFailed),
    (1, Came::PutFailed),
    (2, Came::PutFailed),
    (3, Came::PutFailed),
    (4, Came::GetFailed),
    (5, Came::GetFailed),
    (6, Came::GetFailed),
];

// Checks a link of which so many calls fail from that one on: the door makes no call after it.
fn check_failing<R: Abort + Wait>(rt: &R, alloc: Global, first: u64, count: u64, came: Came) {
    let p = PageSize::new(4).expect(rt, "a page size");
    let gate = Failing::new(first, count);
    let link = GatedLink::new(alloc, gate, p, ROOM).expect(rt, "memory");
    let mut door = StreamDoor::new(alloc, 1, p, link).expect(rt, "memory");
    check_door(rt, alloc, &mut door, came, came != Came::Got);
    let calls = door.into_link().gate.calls();
    assert!(rt; calls.saturating_sub(1) == first.min(6), "other calls");
}

#[test]
fn each_call_of_the_link_that_fails_spends_the_door(rt: HostRuntime) {
    for (first, came) in CALLS.as_slice() {
        check_failing(&rt, rt.alloc(), *first, 1, *came);
        check_failing(&rt, rt.alloc(), *first, 2, *came);
    }
    check_failing(&rt, rt.alloc(), 7, 1, Came::Got);
}

// A page that came into the house by another way is answered from there, by a spent door too.
fn check_other<R: Abort + Wait>(rt: &R, alloc: Global, replies: &str, came: Came) {
    let replies = bytes_of(rt, alloc, replies);
    let mut source = MemSource::new(replies, 99, Vec::new(alloc));
    let mut sink = MemSink::new(alloc, ROOM).expect(rt, "memory");
    let io = Pair {
        source: &mut source,
        sink: &mut sink,
    };
    let p = PageSize::new(4).expect(rt, "a page size");
    let house = PageHouse::new(alloc, 1).expect(rt, "memory");
    let mut door = StreamDoor::new(alloc, 1, p, io).expect(rt, "memory");
    let other = house.put(rt, b"xbc").expect(rt, "memory");
    assert!(rt;
        put_and_get(rt, &mut door, &house) == came,
        "another answer"
    );
    assert!(rt;
        get(rt, &mut door, &house, &other) == Came::Got,
        "not from the house"
    );
}

#[test]
fn a_page_of_another_door_comes_from_the_house(rt: HostRuntime) {
    check_other(&rt, rt.alloc(), RIGHT, Came::Got);
    check_other(&rt, rt.alloc(), "", Came::PutFailed);
}
