//! When replies are written.

ghost use Rattle.std.specs.Prelude.{◌≡◌, ◌<◌, []};

use crate::noted::{Act, Noted};
use crate::sizes::Sizes;
use crate::unasked::Unasked;
use request_form::Dialect;
use script_text::ScriptDialect;
use server_core::{End, serve_stream};
use std::alloc::Global;
use std::process::Abort;
use std::sync::Wait;
use std::thread::Threads;

// A line that is no request, and the length of its reply.
const WRONG: &[u8] = b"x\n";

const REPLY: usize = 16;

// More bytes than any script here has.
const LIMIT: u64 = 1 << 30;

// A script of so many wrong lines.
fn wrong_lines<R: Abort>(rt: &R, alloc: Global, count: usize) -> Vec<u8> {
    let mut script = Vec::new(alloc);
    for _ in 0..count {
        script.extend_from_slice(WRONG).expect(rt, "memory");
    }
    script
}

// What is done with a stream of these bytes while it is served.
fn acts_of<R: Abort + Wait + Threads + Sync, T: Dialect>(
    rt: &R,
    alloc: Global,
    dialect: &mut T,
    script: Vec<u8>,
    piece: usize,
    end: End,
) -> Noted
    requires fresh { (T.reads dialect.old []).whole ≡ [] }
    requires piece { 0 < piece }
{
    let mut io = Noted::new(alloc, script, piece).expect(rt, "memory");
    let found = serve_stream(rt, alloc, &mut Unasked, dialect, &mut io, LIMIT);
    assert!(rt; found == end, "another end");
    io
}

// The same of a stream of lines.
fn acts_of_lines<R: Abort + Wait + Threads + Sync>(
    rt: &R,
    alloc: Global,
    script: Vec<u8>,
    piece: usize,
    end: End,
) -> Noted
    requires { 0 < piece }
{
    let mut dialect = ScriptDialect::new(alloc).expect(rt, "memory");
    acts_of(rt, alloc, &mut dialect, script, piece, end)
}

fn check_acts<R: Abort>(rt: &R, io: &Noted, expected: &[Act]) {
    assert_eq!(rt; io.acts(), expected);
}

static WRITES_BETWEEN_READS: [Act; 10] = [
    Act::Read,
    Act::Wrote(REPLY),
    Act::Read,
    Act::Wrote(REPLY),
    Act::Read,
    Act::Wrote(REPLY),
    Act::Read,
    Act::Read,
    Act::Read,
    Act::Wrote(4),
];

#[test]
fn each_reply_comes_before_the_next_line_is_read(rt: HostRuntime) {
    let mut script = wrong_lines(&rt, rt.alloc(), 3);
    script.extend_from_slice(b"quit\n").expect(&rt, "memory");
    let io = acts_of_lines(&rt, rt.alloc(), script, WRONG.len(), End::Quit);
    check_acts(&rt, &io, WRITES_BETWEEN_READS.as_slice());
}

// How often a stream was read and written, and how many bytes were written.
struct Counts {
    reads: u32,
    writes: u32,
    bytes: usize,
}

impl Counts {
    // Counts one more act.
    fn add<R: Abort>(&mut self, rt: &R, act: Act) {
        match act {
            Act::Read => self.reads = self.reads.saturating_add(1),
            Act::Wrote(n) => {
                assert!(rt; n < 131_072);
                self.writes = self.writes.saturating_add(1);
                self.bytes = self.bytes.saturating_add(n);
            }
        }
    }
}

// What acts come to, none of which writes 131,072 bytes or more.
fn counts_of<R: Abort>(rt: &R, acts: &[Act]) -> Counts {
    let mut counts = Counts {
        reads: 0,
        writes: 0,
        bytes: 0,
    };
    for act in acts {
        counts.add(rt, *act);
    }
    counts
}

#[test]
fn replies_to_many_lines_are_written_in_few_writes(rt: HostRuntime) {
    let script = wrong_lines(&rt, rt.alloc(), 100_000);
    let io = acts_of_lines(&rt, rt.alloc(), script, usize::MAX, End::InputEnd);
    let Counts {
        reads,
        writes,
        bytes,
    } = counts_of(&rt, io.acts());
    assert_eq!(rt; bytes, 100_000 * REPLY);
    // Three whole pieces of 32,768 lines, the rest of 1,696 lines, and the end. Fewer than 131,072 bytes are held.
    assert_eq!(rt; (reads, writes), (5, 3 * 5 + 1));
    assert!(rt; writes as usize <= bytes / 131_072 + reads as usize);
}

// Checks what is done with a stream whose replies are so many thousand bytes long each.
fn check_sizes<R: Abort + Wait + Threads + Sync>(
    rt: &R,
    alloc: Global,
    sizes: &[u8],
    expected: &[Act],
) {
    let mut dialect = Sizes::new(alloc).expect(rt, "memory");
    let script = sizes.to_vec(alloc).expect(rt, "memory");
    let io = acts_of(rt, alloc, &mut dialect, script, usize::MAX, End::InputEnd);
    check_acts(rt, &io, expected);
}

// Those before it go out in one write, and those behind it are gathered again.
static GATHERED_AROUND: [Act; 5] = [
    Act::Read,
    Act::Wrote(3_000),
    Act::Wrote(200_000),
    Act::Wrote(12_000),
    Act::Read,
];

// Where none is held, it goes out at once. One of 131,000 bytes is held, and goes out where another doesn't fit.
static AT_ONCE: [Act; 6] = [
    Act::Read,
    Act::Wrote(200_000),
    Act::Wrote(132_000),
    Act::Wrote(131_000),
    Act::Wrote(1_000),
    Act::Read,
];

#[test]
fn a_long_reply_is_written_by_itself(rt: HostRuntime) {
    let around = GATHERED_AROUND.as_slice();
    check_sizes(&rt, rt.alloc(), &[1, 2, 200, 3, 4, 5], around);
    let at_once = AT_ONCE.as_slice();
    check_sizes(&rt, rt.alloc(), &[200, 132, 131, 1], at_once);
}

// What was gathered before a long body goes out first.
static BODIES: [Act; 5] = [
    Act::Read,
    Act::Wrote(82_000),
    Act::Wrote(200_000),
    Act::Wrote(5_000),
    Act::Read,
];

#[test]
fn bodies_are_gathered_unless_they_are_long(rt: HostRuntime) {
    let expected = BODIES.as_slice();
    check_sizes(&rt, rt.alloc(), &[1, 16, 65, 200, 2, 3], expected);
}
