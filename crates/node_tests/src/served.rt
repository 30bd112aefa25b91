//! Streams that a node answers, as rows of bytes.

use memory_ports::{MemSink, MemSource};
use page_node::{Shelf, serve_node};
use ports::pair::Pair;
use server_core::End;
use std::alloc::Global;
use std::process::Abort;
use std::sync::Wait;
use std::thread::Threads;
use tree_geom::PageSize;

// More bytes than the replies of a row have.
const ROOM: usize = 256;

// A stream to a node whose pages have at most 4 bytes, whose reads fail as told, how many of its bytes are taken and how many of the
// replies, the replies, and how it ends.
#[derive(Clone, Copy)]
struct Row<'a> {
    frames: &'a str,
    failing: &'a [bool],
    limit: u64,
    room: usize,
    replies: &'a str,
    end: End,
}

const ONE: &str = "00000009a00000000000000000";

static ROWS: [Row; 9] = [
    // Nothing, and a quit, behind which nothing is answered.
    Row {
        frames: "",
        failing: &[],
        limit: 1,
        room: ROOM,
        replies: "",
        end: End::InputEnd,
    },
    Row {
        frames: "0000000220aa 000000010d 0000000220bb",
        failing: &[],
        limit: 999,
        room: ROOM,
        replies: "00000009a00000000000000000 000000018d",
        end: End::Quit,
    },
    // A frame that is cut, and a frame that is too long, of which not all bytes come.
    Row {
        frames: "0000000220aa 00000002",
        failing: &[],
        limit: 999,
        room: ROOM,
        replies: ONE,
        end: End::Cut,
    },
    Row {
        frames: "0000000220aa 002000012000",
        failing: &[],
        limit: 999,
        room: ROOM,
        replies: ONE,
        end: End::Cut,
    },
    Row {
        frames: "000000",
        failing: &[],
        limit: 999,
        room: ROOM,
        replies: "",
        end: End::Cut,
    },
    // The limit, behind a frame and within the next.
    Row {
        frames: "0000000220aa 0000000220bb",
        failing: &[],
        limit: 6,
        room: ROOM,
        replies: ONE,
        end: End::InputTooLong,
    },
    Row {
        frames: "0000000220aa 0000000220bb",
        failing: &[],
        limit: 11,
        room: ROOM,
        replies: ONE,
        end: End::InputTooLong,
    },
    // A write that fails, within the first reply and behind it.
    Row {
        frames: "0000000220aa 0000000220bb",
        failing: &[],
        limit: 999,
        room: 5,
        replies: "00000009a0",
        end: End::WriteFault,
    },
    Row {
        frames: "0000000220aa 0000000220bb",
        failing: &[],
        limit: 999,
        room: 15,
        replies: "00000009a000000000000000000000",
        end: End::WriteFault,
    },
];

// The bytes that digits spell, between which there may be spaces.
pub(crate) fn bytes_of<R: Abort>(rt: &R, alloc: Global, digits: &str) -> Vec<u8> {
    let mut packed = Vec::new(alloc);
    for byte in digits.as_bytes() {
        if *byte != b' ' {
            packed.push(*byte).expect(rt, "memory");
        }
    }
    hex::decode(alloc, packed).expect(rt, "digits")
}

// Checks how a stream is answered that comes in pieces of so many bytes.
fn check_row<R: Abort + Wait + Threads + Sync>(rt: &R, alloc: Global, row: &Row, piece: usize) {
    assert!(rt; piece > 0 && row.limit > 0);
    let frames = bytes_of(rt, alloc, row.frames);
    let replies = bytes_of(rt, alloc, row.replies);
    let failing = row.failing.to_vec(alloc).expect(rt, "memory");
    let p = PageSize::new(4).expect(rt, "a page size");
    let mut shelf = Shelf::new(alloc, p).expect(rt, "memory");
    let mut sink = MemSink::new(alloc, row.room).expect(rt, "memory");
    let mut io = Pair {
        source: &mut MemSource::new(frames, piece, failing),
        sink: &mut sink,
    };
    let end = serve_node(rt, alloc, &mut shelf, &mut io, row.limit);
    assert!(rt; end == row.end, "another end");
    assert!(rt; sink.bytes() == replies.as_slice(), "other replies");
}

#[test]
fn a_stream_ends_as_the_table_says_wherever_it_is_cut(rt: HostRuntime) {
    for row in ROWS.as_slice() {
        for piece in [1usize, 7, 999] {
            check_row(&rt, rt.alloc(), row, piece);
        }
    }
}

#[test]
fn a_read_fault_ends_a_stream_behind_its_whole_frames(rt: HostRuntime) {
    let row = Row {
        frames: "0000000220aa 0000000220bb",
        failing: &[false, true],
        limit: 999,
        room: ROOM,
        replies: ONE,
        end: End::ReadFault,
    };
    check_row(&rt, rt.alloc(), &row, 8);
}
