//! Tests of how replies are written to which no request here can lead, as lines and as frames; and which replies have a body of their own.

use blob_model::Bytes;
use frame_wire::FrameDialect;
use request_form::{Dialect, Fault, Reply};
use script_text::ScriptDialect;
use std::alloc::Global;
use std::process::Abort;

// The greatest size.
const SIZE: u64 = 18_446_744_073_709_551_615;

// A reply, its line, and its frame in hex digits.
const REPLIES: [(Reply, &str, &str); 6] = [
    (
        Reply::Appended {
            version: 2,
            at: 6,
            size: SIZE,
        },
        "version 2 at 6 size 18446744073709551615\n",
        "000000198200000000000000020000000000000006ffffffffffffffff",
    ),
    (
        Reply::Wrote {
            version: 2,
            at: 6,
            size: SIZE,
        },
        "version 2 at 6 size 18446744073709551615\n",
        "000000198300000000000000020000000000000006ffffffffffffffff",
    ),
    (
        Reply::AppendStarted {
            ticket: 3,
            version: 2,
            at: 6,
            size: SIZE,
        },
        "ticket 3 version 2 at 6 size 18446744073709551615\n",
        "0000002184000000000000000300000000000000020000000000000006ffffffffffffffff",
    ),
    (
        Reply::WriteStarted {
            ticket: 3,
            version: 2,
            at: 6,
            size: SIZE,
        },
        "ticket 3 version 2 at 6 size 18446744073709551615\n",
        "0000002185000000000000000300000000000000020000000000000006ffffffffffffffff",
    ),
    (
        Reply::Branched { blob: 258 },
        "blob 258\n",
        "000000098c0000000000000102",
    ),
    (
        Reply::HelloIs { version: 2 },
        "hello 2\n",
        "000000098e0000000000000002",
    ),
];

// A refusal, its line, and its frame in hex digits: the greatest limits; memory and doors that fail; and what only lines, or only frames,
// are refused by.
static FAULTS: [(Fault, &str, &str); 13] = [
    (
        Fault::TooManyVersions { limit: 1_048_576 },
        "error too-many-versions 1048576\n",
        "00000011ff00000000000000050000000000100000",
    ),
    (
        Fault::TooManyOpen { limit: 64 },
        "error too-many-open 64\n",
        "00000011ff00000000000000060000000000000040",
    ),
    (
        Fault::TooManyBlobs { limit: 65_535 },
        "error too-many-blobs 65535\n",
        "00000011ff0000000000000007000000000000ffff",
    ),
    (
        Fault::UpdateTooLong { length: 1_048_577 },
        "error update-too-long 1048577\n",
        "00000011ff000000000000000b0000000000100001",
    ),
    (
        Fault::TooManyTickets,
        "error too-many-tickets 64\n",
        "00000011ff000000000000000e0000000000000040",
    ),
    (
        Fault::NoMemory,
        "error no-memory\n",
        "00000009ff0000000000000009",
    ),
    (
        Fault::NoMemoryTicket { ticket: 7 },
        "error no-memory ticket 7\n",
        "00000011ff00000000000000160000000000000007",
    ),
    (
        Fault::PageFault { page: 0 },
        "error page-fault 0\n",
        "00000011ff000000000000000f0000000000000000",
    ),
    (
        Fault::Malformed,
        "error malformed\n",
        "00000009ff0000000000000011",
    ),
    (
        Fault::BadFrame,
        "error bad-frame\n",
        "00000009ff0000000000000013",
    ),
    (
        Fault::FrameTooLong { length: 2_097_153 },
        "error frame-too-long 2097153\n",
        "00000011ff00000000000000120000000000200001",
    ),
    (
        Fault::FrameTooLong { length: 16_777_313 },
        "error frame-too-long 16777313\n",
        "00000011ff00000000000000120000000001000061",
    ),
    (
        Fault::FrameTooLong {
            length: 4_294_967_295,
        },
        "error frame-too-long 4294967295\n",
        "00000011ff000000000000001200000000ffffffff",
    ),
];

// Checks a reply's line, and its frame in hex digits.
fn check_reply<R: Abort>(rt: &R, alloc: Global, reply: &Reply, line: &str, frame: &str) {
    let lines = ScriptDialect::new(alloc).expect(rt, "memory");
    let said = lines.say(reply).expect(rt, "memory");
    assert!(rt; said.as_slice() == line.as_bytes());
    let frames = FrameDialect::new(alloc).expect(rt, "memory");
    let said = frames.say(reply).expect(rt, "memory");
    let wanted = hex::decode(alloc, frame).expect(rt, "digits");
    assert!(rt; said.as_slice() == wanted.as_slice());
}

#[test]
fn replies_that_no_request_here_can_lead_to_are_lines_and_frames(rt: HostRuntime) {
    for (reply, line, frame) in REPLIES.as_slice() {
        check_reply(&rt, rt.alloc(), reply, line, frame);
    }
}

#[test]
fn refusals_that_no_request_here_can_lead_to_are_lines_and_frames(rt: HostRuntime) {
    for (fault, line, frame) in FAULTS.as_slice() {
        check_reply(&rt, rt.alloc(), &Reply::Refused(*fault), line, frame);
    }
}

// Checks how a reply is written in two parts.
fn check_parts<R: Abort, T: Dialect>(rt: &R, dialect: &T, reply: Reply, head: &[u8], body: &[u8]) {
    let parts = dialect.say_in_parts(reply).expect(rt, "memory");
    assert!(rt; parts.head.as_slice() == head);
    assert!(rt; parts.body.as_slice() == body);
}

// How many bytes were read, and the heads of their frames: of a read, and of a read of many ranges.
static HEADS: [(usize, &[u8], &[u8]); 5] = [
    (0, b"\x00\x00\x00\x01\x87", b"\x00\x00\x00\x01\x8f"),
    (1, b"\x00\x00\x00\x02\x87", b"\x00\x00\x00\x02\x8f"),
    (5, b"\x00\x00\x00\x06\x87", b"\x00\x00\x00\x06\x8f"),
    (4096, b"\x00\x00\x10\x01\x87", b"\x00\x00\x10\x01\x8f"),
    (100_000, b"\x00\x01\x86\xa1\x87", b"\x00\x01\x86\xa1\x8f"),
];

fn bytes_of<R: Abort>(rt: &R, alloc: Global, bytes: &[u8]) -> Bytes {
    Bytes::of(bytes.to_vec(alloc).expect(rt, "memory"))
}

#[test]
fn what_was_read_is_the_body_of_its_frame(rt: HostRuntime) {
    let frames = FrameDialect::new(rt.alloc()).expect(&rt, "memory");
    for (count, one, many) in HEADS.as_slice() {
        let read = vec![in rt.alloc(); b'z'; *count].expect(&rt, "memory");
        let read = read.as_slice();
        let bytes = bytes_of(&rt, rt.alloc(), read);
        check_parts(&rt, &frames, Reply::Content { bytes }, one, read);
        let bytes = bytes_of(&rt, rt.alloc(), read);
        check_parts(&rt, &frames, Reply::Contents { bytes }, many, read);
    }
}

#[test]
fn a_line_is_all_body_and_each_other_frame_all_head(rt: HostRuntime) {
    let lines = ScriptDialect::new(rt.alloc()).expect(&rt, "memory");
    let bytes = bytes_of(&rt, rt.alloc(), b"\x00abz\xff");
    check_parts(
        &rt,
        &lines,
        Reply::Content { bytes },
        b"",
        b"data 0061627aff\n",
    );
    let frames = FrameDialect::new(rt.alloc()).expect(&rt, "memory");
    check_parts(&rt, &frames, Reply::Bye, b"\x00\x00\x00\x01\x8d", b"");
}

#[test]
fn what_was_read_is_a_line_and_a_frame(rt: HostRuntime) {
    let bytes = bytes_of(&rt, rt.alloc(), b"\x00abz\xff");
    let read = Reply::Content { bytes };
    check_reply(
        &rt,
        rt.alloc(),
        &read,
        "data 0061627aff\n",
        "00000006870061627aff",
    );
    let bytes = bytes_of(&rt, rt.alloc(), b"cab");
    let read = Reply::Contents { bytes };
    check_reply(&rt, rt.alloc(), &read, "data 636162\n", "000000048f636162");
}
