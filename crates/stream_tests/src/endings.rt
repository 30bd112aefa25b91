//! How a stream ends, and what is written then.

ghost use Rattle.std.specs.Prelude.{◌≡◌, []};

use crate::unasked::Unasked;
use frame_wire::FrameDialect;
use memory_ports::{MemSink, MemSource};
use ports::pair::Pair;
use request_form::Dialect;
use script_text::ScriptDialect;
use server_core::{End, serve_stream};
use std::alloc::Global;
use std::process::Abort;
use std::sync::Wait;
use std::thread::Threads;

// A stream, how its bytes come, how many bytes are taken of it and of the replies, and how it ends.
#[derive(Clone, Copy)]
struct Row<'a> {
    input: &'a [u8],
    piece: usize,
    failing: &'a [bool],
    limit: u64,
    room: usize,
    end: End,
    replies: &'a [u8],
}

const WRONG: &[u8] = b"error malformed\n";

const BYE: &[u8] = b"error malformed\nbye\n";

// Lines of which none asks for anything: wrong ones, comments, and a quit.
static LINES: [Row; 14] = [
    Row {
        input: b"",
        piece: 1,
        failing: &[],
        limit: 1,
        room: 9,
        end: End::InputEnd,
        replies: b"",
    },
    Row {
        input: b"x\n",
        piece: 1,
        failing: &[],
        limit: 3,
        room: 99,
        end: End::InputEnd,
        replies: WRONG,
    },
    Row {
        input: b"x",
        piece: 1,
        failing: &[],
        limit: 3,
        room: 99,
        end: End::InputEnd,
        replies: WRONG,
    },
    Row {
        input: b"x\nx",
        piece: 1,
        failing: &[],
        limit: 3,
        room: 99,
        end: End::InputTooLong,
        replies: WRONG,
    },
    Row {
        input: b"#x\n\nx\n",
        piece: 2,
        failing: &[],
        limit: 9,
        room: 99,
        end: End::InputEnd,
        replies: WRONG,
    },
    Row {
        input: b"x\nquit\nx\n",
        piece: 3,
        failing: &[],
        limit: 9,
        room: 99,
        end: End::Quit,
        replies: BYE,
    },
    Row {
        input: b"x\nquit",
        piece: 3,
        failing: &[],
        limit: 9,
        room: 99,
        end: End::Quit,
        replies: BYE,
    },
    Row {
        input: b"x\nquit",
        piece: 3,
        failing: &[],
        limit: 6,
        room: 99,
        end: End::InputTooLong,
        replies: WRONG,
    },
    Row {
        input: b"x\nx\n",
        piece: 2,
        failing: &[false, true],
        limit: 9,
        room: 99,
        end: End::ReadFault,
        replies: WRONG,
    },
    Row {
        input: b"x\nquit",
        piece: 9,
        failing: &[false, true],
        limit: 9,
        room: 99,
        end: End::ReadFault,
        replies: WRONG,
    },
    Row {
        input: b"x\nx\n",
        piece: 9,
        failing: &[],
        limit: 9,
        room: 20,
        end: End::WriteFault,
        replies: b"error malformed\nerro",
    },
    Row {
        input: b"xxxxxxx\nxxxxxxx\n",
        piece: 9,
        failing: &[],
        limit: 8,
        room: 99,
        end: End::InputTooLong,
        replies: WRONG,
    },
    // One return before a line feed, or at the end, is no part of the line.
    Row {
        input: b"q\ruit\nquit\r\r\n\rquit\nquit\r",
        piece: 1,
        failing: &[],
        limit: 99,
        room: 99,
        end: End::Quit,
        replies: b"error malformed\nerror malformed\nerror malformed\nbye\n",
    },
    Row {
        input: b"#quit\r\n\r\nquit\r\nx",
        piece: 1,
        failing: &[],
        limit: 99,
        room: 99,
        end: End::Quit,
        replies: b"bye\n",
    },
];

// Checks how a stream is answered, and what is written.
fn check_stream<R: Abort + Wait + Threads + Sync, T: Dialect>(
    rt: &R,
    alloc: Global,
    dialect: &mut T,
    row: &Row,
)
    requires { (T.reads dialect.old []).whole ≡ [] }
{
    assert!(rt; row.piece > 0 && row.limit > 0);
    let stream = row.input.to_vec(alloc).expect(rt, "memory");
    let failing = row.failing.to_vec(alloc).expect(rt, "memory");
    let mut source = MemSource::new(stream, row.piece, failing);
    let mut sink = MemSink::new(alloc, row.room).expect(rt, "memory");
    let mut io = Pair {
        source: &mut source,
        sink: &mut sink,
    };
    let end = serve_stream(rt, alloc, &mut Unasked, dialect, &mut io, row.limit);
    assert!(rt; end == row.end, "another end");
    assert!(rt; sink.bytes() == row.replies, "other replies");
}

fn check_lines<R: Abort + Wait + Threads + Sync>(rt: &R, alloc: Global, row: &Row) {
    let mut dialect = ScriptDialect::new(alloc).expect(rt, "memory");
    check_stream(rt, alloc, &mut dialect, row);
}

#[test]
fn streams_end_as_the_table_says(rt: HostRuntime) {
    for row in LINES.as_slice() {
        check_lines(&rt, rt.alloc(), row);
    }
}

#[test]
fn a_sink_may_fail_before_each_byte(rt: HostRuntime) {
    for room in 0..BYE.len() {
        let row = Row {
            input: b"x\nquit\n",
            piece: 1,
            failing: &[],
            limit: 99,
            room,
            end: End::WriteFault,
            replies: BYE.get(..room).expect(&rt, "a shorter one"),
        };
        check_lines(&rt, rt.alloc(), &row);
    }
}

const BAD: &[u8] = b"\x00\x00\x00\x09\xff\x00\x00\x00\x00\x00\x00\x00\x13";

// Frames of which none asks for anything: a stream, how it ends, and its replies.
static FRAMES: [(&[u8], End, &[u8]); 7] = [
    (b"", End::InputEnd, b""),
    (b"\x00\x00\x00\x00", End::InputEnd, BAD),
    // A frame that is cut: within its length, behind it, and before its last byte.
    (b"\x00\x00\x00\x00\x00\x00\x00", End::Cut, BAD),
    (b"\xff\xff\xff\xff", End::Cut, b""),
    (b"\x00\x20\x00\x00\x00", End::Cut, b""),
    (
        b"\x00\x00\x00\x09\x0e\x00\x00\x00\x00\x00\x00\x00",
        End::Cut,
        b"",
    ),
    (b"\x00\x00\x00\x01\xff\x00\x00\x00", End::Cut, BAD),
];

// Checks how frames are answered that come in pieces of this length.
fn check_frames<R: Abort + Wait + Threads + Sync>(
    rt: &R,
    alloc: Global,
    (input, end, replies): &(&[u8], End, &[u8]),
    piece: usize,
) {
    let row = Row {
        input,
        piece,
        failing: &[],
        limit: 99,
        room: 99,
        end: *end,
        replies,
    };
    let mut dialect = FrameDialect::new(alloc).expect(rt, "memory");
    check_stream(rt, alloc, &mut dialect, &row);
}

#[test]
fn frames_end_inside_one_or_behind_it(rt: HostRuntime) {
    for row in FRAMES.as_slice() {
        for piece in [1usize, 2, 3, 7, 99] {
            check_frames(&rt, rt.alloc(), row, piece);
        }
    }
}
