//! The adapters over readers and writers of std, which may be interrupted, fail or take less than they are given.
ghost use Rattle.std.specs.Prelude.{◌≤◌, length, IfOk};

use crate::drained::{TEXT, check_bytes, check_drained, check_reads, check_writes};
use ports::reader::ReaderSource;
use ports::stream::{Taken, Written};
use ports::writer::WriterSink;
use std::alloc::Global;
use std::io::{self, ErrorKind, Read, Write};
use std::process::Abort;

static ROOMS: [usize; 4] = [1, 2, 7, 10000];

fn check_room<R: Abort>(rt: &R, alloc: Global, room: usize) {
    let mut source = ReaderSource::new(TEXT.as_slice());
    check_drained(rt, alloc, &mut source, room, TEXT.as_slice(), Taken::End);
}

#[test]
fn a_std_reader_gives_all_its_bytes_at_any_room(rt: HostRuntime) {
    for room in ROOMS.as_slice() {
        check_room(&rt, rt.alloc(), *room);
    }
}

// A reader that is interrupted, gives a byte, fails, is interrupted, gives two bytes and ends. It writes over its whole buffer.
#[derive(Drop)]
struct RoughReader {
    calls: u8,
}

// Puts the bytes to the front of the buffer, and marks behind them.
fn give(buf: &mut [u8], bytes: &[u8]) -> usize
    ensures { result ≤ length buf.new }
{
    let n = bytes.len().min(buf.len());
    buf.fill(b'!');
    buf[..n].copy_from_slice(&bytes[..n]);
    n
}

impl Read for RoughReader {
    fn read(&mut self, buf: &mut [u8]) -> io::Result<usize> {
        let call = self.calls;
        self.calls = call.saturating_add(1);
        match call {
            0 | 3 => Err(io::Error::from(ErrorKind::Interrupted)),
            1 => Ok(give(buf, b"a")),
            2 => Err(io::Error::from(ErrorKind::Other)),
            4 => Ok(give(buf, b"bc")),
            _ => Ok(0),
        }
    }
}

static ROUGH_READS: [(Taken, &[u8]); 4] = [
    (Taken::Got(1), b"a..."),
    (Taken::Failed, b"a..."),
    (Taken::Got(2), b"bc.."),
    (Taken::End, b"bc.."),
];

#[test]
fn an_interrupted_read_is_tried_again_and_another_error_is_a_fault(rt: HostRuntime) {
    let mut source = ReaderSource::new(RoughReader { calls: 0 });
    check_reads(&rt, &mut source, ROUGH_READS.as_slice());
    let RoughReader { calls } = source.into_inner();
    assert!(rt; calls == 6);
}

static WRITES: [(&[u8], Written); 3] = [
    (b"ab", Written::Whole),
    (b"", Written::Whole),
    (b"cde", Written::Whole),
];

#[test]
fn a_std_writer_gets_all_bytes(rt: HostRuntime) {
    let mut sink = WriterSink::new(Vec::new(rt.alloc()));
    check_writes(&rt, &mut sink, WRITES.as_slice());
    let bytes = sink.into_inner();
    check_bytes(&rt, bytes.as_slice(), b"abcde");
}

// A writer that takes two bytes, is interrupted, takes one, fails, takes none, and from then on one at a time.
#[derive(Drop)]
struct RoughWriter {
    calls: u8,
    kept: Vec<u8>,
}

// Keeps so many bytes from the front.
fn keep(kept: &mut Vec<u8>, bytes: &[u8], n: usize) -> io::Result<usize>
    ensures { IfOk result (λ taken. taken ≤ length bytes.now) }
{
    let taken = n.min(bytes.len());
    kept.extend_from_slice(&bytes[..taken])?;
    Ok(taken)
}

impl Write for RoughWriter {
    fn write(&mut self, bytes: &[u8]) -> io::Result<usize> {
        let call = self.calls;
        self.calls = call.saturating_add(1);
        match call {
            0 => keep(&mut self.kept, bytes, 2),
            1 => Err(io::Error::from(ErrorKind::Interrupted)),
            3 => Err(io::Error::from(ErrorKind::BrokenPipe)),
            4 => Ok(0),
            _ => keep(&mut self.kept, bytes, 1),
        }
    }

    fn flush(&mut self) -> io::Result<()> {
        Ok(())
    }
}

static ROUGH_WRITES: [(&[u8], Written); 3] = [
    (b"abcdef", Written::Failed(3)),
    (b"def", Written::Failed(0)),
    (b"def", Written::Whole),
];

#[test]
fn a_short_write_goes_on_and_an_error_or_no_byte_is_a_fault(rt: HostRuntime) {
    let mut sink = WriterSink::new(RoughWriter {
        calls: 0,
        kept: Vec::new(rt.alloc()),
    });
    check_writes(&rt, &mut sink, ROUGH_WRITES.as_slice());
    let RoughWriter { calls, kept } = sink.into_inner();
    check_bytes(&rt, kept.as_slice(), b"abcdef");
    assert!(rt; calls == 8);
}
