//! What streams give and take, each checked by one call, so that a test keeps nothing of what a call ensures.
ghost use Rattle.std.specs.Prelude.{◌<◌, length};

use ports::stream::{Sink, Source, Taken, Written};
use std::alloc::Global;
use std::process::Abort;

/// What most sources here give.
pub const TEXT: [u8; 9] = *b"abcdefghi";

// Reads once, adds the bytes that came, and hands on the answer.
fn read_more<R: Abort, S: Source>(
    rt: &R,
    source: &mut S,
    buf: &mut [u8],
    bytes: &mut Vec<u8>,
) -> Taken
    requires { 0 < length buf.old }
{
    let answer = source.read(buf);
    if let Taken::Got(n) = answer {
        bytes.extend_from_slice(&buf[..n]).expect(rt, "memory");
    }
    answer
}

// Adds the bytes that a source gives up to its first end or fault, and hands on that answer.
fn drain<R: Abort, S: Source>(
    rt: &R,
    source: &mut S,
    buf: &mut [u8],
    bytes: &mut Vec<u8>,
) -> Taken {
    for _ in 0..100 {
        if buf.is_empty() {
            break;
        }
        let answer = read_more(rt, source, buf, bytes);
        if !matches!(answer, Taken::Got(_)) {
            return answer;
        }
    }
    Taken::Got(0)
}

/// Reads up to the first end or fault, with room for so many bytes a time, and checks all bytes and that answer.
pub fn check_drained<R: Abort, S: Source>(
    rt: &R,
    alloc: Global,
    source: &mut S,
    room: usize,
    want: &[u8],
    end: Taken,
) {
    let mut buf = vec![in alloc; 0u8; room].expect(rt, "memory");
    let mut bytes = Vec::new(alloc);
    let answer = drain(rt, source, buf.as_mut_slice(), &mut bytes);
    assert!(rt; answer == end);
    check_bytes(rt, bytes.as_slice(), want);
}

/// Checks bytes.
pub fn check_bytes<R: Abort>(rt: &R, bytes: &[u8], want: &[u8]) {
    assert!(rt; bytes == want);
}

// Reads once, and checks the answer and the whole buffer.
fn check_read<R: Abort, S: Source>(
    rt: &R,
    source: &mut S,
    buf: &mut [u8],
    answer: Taken,
    want: &[u8],
)
    requires { 0 < length buf.old }
{
    assert!(rt; source.read(buf) == answer);
    assert!(rt; &*buf == want);
}

/// Reads four bytes a time over dots, and checks each answer and what the buffer is then.
pub fn check_reads<R: Abort, S: Source>(rt: &R, source: &mut S, reads: &[(Taken, &[u8])]) {
    let mut buf = [b'.'; 4];
    for (answer, want) in reads {
        check_read(rt, source, &mut buf, *answer, want);
    }
}

// Writes once, and checks the answer.
fn check_write<R: Abort, K: Sink>(rt: &R, sink: &mut K, bytes: &[u8], answer: Written) {
    assert!(rt; sink.write(bytes) == answer);
}

/// Writes these bytes, and checks each answer.
pub fn check_writes<R: Abort, K: Sink>(rt: &R, sink: &mut K, writes: &[(&[u8], Written)]) {
    for (bytes, answer) in writes {
        check_write(rt, sink, bytes, *answer);
    }
}
