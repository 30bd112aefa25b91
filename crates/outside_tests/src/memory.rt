//! Sources and sinks in memory, and the two as a pair.
ghost use Rattle.std.specs.Prelude.{◌≡◌, ◌<◌, ℕ, List, length};
ghost use Rattle.std.specs.Bool.{OnTrue};
ghost use Rattle.std.specs.Io.KnownBytes.{Appends, Consumes};

use crate::drained::{TEXT, check_bytes, check_drained, check_reads, check_writes};
use memory_ports::{MemSink, MemSource};
use ports::pair::Pair;
use ports::stream::{Ends, Sink, Source, Taken, Written};
use std::alloc::Global;
use std::process::Abort;

static PIECES: [usize; 4] = [1, 2, 7, 65536];

// A source whose call number `i`, from 0, fails where `failing[i]` says so.
fn source_of<R: Abort>(
    rt: &R,
    alloc: Global,
    text: &[u8],
    piece: usize,
    failing: &[bool],
) -> MemSource
    requires { 0 < piece }
{
    let bytes = text.to_vec(alloc).expect(rt, "memory");
    let failing = failing.to_vec(alloc).expect(rt, "memory");
    MemSource::new(bytes, piece, failing)
}

fn check_piece<R: Abort>(rt: &R, alloc: Global, piece: usize) {
    let mut source = source_of(rt, alloc, TEXT.as_slice(), piece.max(1), &[]);
    check_drained(rt, alloc, &mut source, 4, TEXT.as_slice(), Taken::End);
}

#[test]
fn memory_gives_all_its_bytes_in_pieces_of_any_length(rt: HostRuntime) {
    for piece in PIECES.as_slice() {
        check_piece(&rt, rt.alloc(), *piece);
    }
}

#[test]
fn a_failing_call_in_the_middle_takes_nothing(rt: HostRuntime) {
    let alloc = rt.alloc();
    let mut source = source_of(&rt, alloc, TEXT.as_slice(), 2, &[false, true]);
    check_drained(&rt, alloc, &mut source, 7, b"ab", Taken::Failed);
    check_drained(&rt, alloc, &mut source, 7, b"cdefghi", Taken::End);
}

static READS: [(Taken, &[u8]); 3] = [
    (Taken::Got(2), b"ab.."),
    (Taken::End, b"ab.."),
    (Taken::End, b"ab.."),
];

#[test]
fn a_read_leaves_the_rest_of_the_buffer(rt: HostRuntime) {
    let mut source = source_of(&rt, rt.alloc(), b"ab", 7, &[]);
    check_reads(&rt, &mut source, READS.as_slice());
}

static WRITES: [(&[u8], Written); 4] = [
    (b"abc", Written::Whole),
    (b"defg", Written::Failed(1)),
    (b"h", Written::Failed(0)),
    (b"", Written::Whole),
];

#[test]
fn a_sink_in_memory_fails_before_the_byte_for_which_there_is_no_room(rt: HostRuntime) {
    let mut sink = MemSink::new(rt.alloc(), 4).expect(&rt, "memory");
    check_writes(&rt, &mut sink, WRITES.as_slice());
    check_bytes(&rt, sink.bytes(), b"abcd");
}

// Takes one piece off a stream and writes it back, and says whether it moved.
fn move_piece<I: Source + Sink>(io: &mut I) -> bool
    ensures moved { OnTrue result ((piece : List ℕ) × (0 < length piece)
        × Consumes (I.left io.old) (I.left io.new) piece
        × Appends (I.written io.old) (I.written io.new) piece) }
    ensures objects { I.objects io.new ≡ I.objects io.old }
{
    let mut buf = [0u8; 4];
    match io.read(&mut buf) {
        Taken::Got(n) => match io.write(&buf[..n]) {
            Written::Whole => true,
            Written::Failed(_) => false,
        },
        Taken::End | Taken::Failed => false,
    }
}

// The same from a source to a sink that are held apart: what the pair did is known of both.
fn move_between<S: Source, K: Sink>(source: &mut S, sink: &mut K) -> bool
    ensures { OnTrue result ((piece : List ℕ) × (0 < length piece)
        × Consumes (S.left source.old) (S.left source.new) piece
        × Appends (K.written sink.old) (K.written sink.new) piece) }
{
    let mut both = Pair { source, sink };
    move_piece(&mut both)
}

// Checks that one piece is moved, and that there is no room for the next.
fn check_moves<R: Abort, S: Source, K: Sink>(rt: &R, source: &mut S, sink: &mut K) {
    assert!(rt; move_between(source, sink));
    assert!(rt; !move_between(source, sink));
}

#[test]
fn a_pair_reads_by_the_one_and_writes_by_the_other(rt: HostRuntime) {
    let alloc = rt.alloc();
    let mut source = source_of(&rt, alloc, TEXT.as_slice(), 3, &[]);
    let mut sink = MemSink::new(alloc, 5).expect(&rt, "memory");
    check_moves(&rt, &mut source, &mut sink);
    check_bytes(&rt, sink.bytes(), b"abcde");
    check_drained(&rt, alloc, &mut source, 7, b"ghi", Taken::End);
}
