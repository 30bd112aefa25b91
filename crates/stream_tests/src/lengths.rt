//! A conversation whose items are no requests: lines are heard as their lengths.

ghost use Rattle.std.specs.Prelude.{IfOk, ◌≡◌, []};
ghost use Rattle.stream_tests.specs.Lengths.{heard_behind};

use blob_model::Bytes;
use items::{Chunk, Ending};
use memory_ports::{MemSink, MemSource};
use ports::pair::Pair;
use request_form::{NoMemory, Said};
use server_core::{Conversation, End, converse};
use std::alloc::Global;
use std::process::Abort;
use std::sync::Wait;
use std::thread::Threads;

// More bytes than there are in a test.
const ROOM: usize = 64;

/// Each line is answered by the greatest length so far. An empty line is the last.
#[derive(Drop)]
struct Lengths {
    alloc: Global,
    // The greatest length so far.
    greatest: u64,
    // How many bytes of a line were read.
    count: u64,
    rest: Chunk,
}

impl Lengths {
    fn new(alloc: Global) -> Result<Lengths, NoMemory>
        ensures { IfOk result (λ lengths. heard_behind lengths.count lengths.rest ≡ heard_behind 0 []) }
    {
        Ok(Lengths {
            alloc,
            greatest: 0,
            count: 0,
            rest: Chunk::with_room(alloc, ROOM)?,
        })
    }
}

impl Conversation for Lengths {
    ghost use Rattle.std.specs.Prelude.{◌++◌};
    ghost use Rattle.stream_tests.specs.Lengths.{heard_behind, lengths};

    type Item = u64;

    ghost talk = { lengths };

    ghost reads = { λ s more. heard_behind s.count (s.rest ++ more) };

    ghost session = { λ s. s.greatest };

    ghost faults = { λ s. 0 };

    ghost kept = { λ s. tt };

    fn feed(&mut self, piece: &[u8]) -> Result<(), NoMemory> {
        self.rest.add(piece)
    }

    // A line that is too long to be counted finds no memory.
    fn next(&mut self) -> Result<Option<u64>, NoMemory> {
        'bytes: while let Some(byte) = self.rest.as_slice().first() {
            let ends = *byte == b'\n';
            self.rest.take(1);
            if ends {
                let count = self.count;
                self.count = 0;
                return Ok(Some(count));
            }
            match self.count.checked_add(1) {
                Some(count) => self.count = count,
                None => return Err(NoMemory),
            }
        }
        Ok(None)
    }

    fn end(&mut self) -> Result<Ending<u64>, NoMemory> {
        if self.count > 0 {
            return Ok(Ending::Cut);
        }
        if !self.rest.as_slice().is_empty() {
            return Ok(Ending::Cut);
        }
        Ok(Ending::Clean)
    }

    fn is_last(item: &u64) -> bool {
        *item == 0
    }

    fn answer<R: Wait + Threads + Sync>(&mut self, _rt: &R, item: u64) -> Result<Said, NoMemory> {
        self.greatest = self.greatest.max(item);
        let text = format!(in self.alloc; "{}\n", self.greatest)?;
        Ok(Said::of_body(Bytes::of(text.into_bytes())))
    }
}

// A stream, how its bytes come, and how many are taken; the replies, and how it ends.
#[derive(Clone, Copy)]
struct Row<'a> {
    lines: &'a str,
    piece: usize,
    limit: u64,
    replies: &'a str,
    end: End,
}

static ROWS: [Row; 5] = [
    Row {
        lines: "ab\nabc\na\n",
        piece: 1,
        limit: 99,
        replies: "2\n3\n3\n",
        end: End::InputEnd,
    },
    Row {
        lines: "ab\nabc\na",
        piece: 4,
        limit: 99,
        replies: "2\n3\n",
        end: End::Cut,
    },
    Row {
        lines: "ab\n\nabc\n",
        piece: 99,
        limit: 99,
        replies: "2\n2\n",
        end: End::Quit,
    },
    Row {
        lines: "ab\nabc\n",
        piece: 99,
        limit: 6,
        replies: "2\n",
        end: End::InputTooLong,
    },
    Row {
        lines: "",
        piece: 1,
        limit: 1,
        replies: "",
        end: End::InputEnd,
    },
];

// Checks how a stream is answered, and what is written.
fn check_row<R: Abort + Wait + Threads + Sync>(rt: &R, alloc: Global, row: &Row) {
    assert!(rt; row.piece > 0 && row.limit > 0);
    let bytes = row.lines.as_bytes().to_vec(alloc).expect(rt, "memory");
    let source = &mut MemSource::new(bytes, row.piece, Vec::new(alloc));
    let mut sink = MemSink::new(alloc, ROOM).expect(rt, "memory");
    let mut lengths = Lengths::new(alloc).expect(rt, "memory");
    let mut io = Pair {
        source,
        sink: &mut sink,
    };
    let end = converse(rt, alloc, &mut lengths, &mut io, row.limit);
    assert!(rt; end == row.end, "another end");
    assert!(rt; sink.bytes() == row.replies.as_bytes(), "other replies");
}

#[test]
fn lines_are_answered_by_the_greatest_length_so_far(rt: HostRuntime) {
    for row in ROWS.as_slice() {
        check_row(&rt, rt.alloc(), row);
    }
}
