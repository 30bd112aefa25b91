ghost use Rattle.std.specs.Prelude.{◌≡◌, ◌<◌, ◌≤◌, ◌+◌, ◌*◌, ◌++◌, ◌∷◌, [], length, slice_index, IfOk, codes};
ghost use Rattle.std.specs.Fmt.{decimal};
ghost use Rattle.std.specs.String.{string_bytes};
ghost use Rattle.hex.specs.Hex.{lower_digits, encode_lower};
ghost use Rattle.script_text.specs.Said.{fault_text, hex_text, update_text, started_text, status_text, said};

use crate::written::Written;
use request_form::{Fault, Reply};
use std::alloc::{AllocError, Global};

// A fault's line.
fn fault_line(alloc: Global, fault: &Fault) -> Result<String, AllocError>
    ensures { IfOk result (λ line. string_bytes line ≡ fault_text fault.now ++ 10 ∷ []) }
{
    match fault {
        Fault::NoBlob { blob } => format!(in alloc; "error no-blob {blob}\n"),
        Fault::NotPublished { version, published } => {
            format!(in alloc; "error not-published {version} {published}\n")
        }
        Fault::OffsetPastSize { offset, size } => {
            format!(in alloc; "error offset-past-size {offset} {size}\n")
        }
        Fault::BlobTooBig { end, limit } => format!(in alloc; "error blob-too-big {end} {limit}\n"),
        Fault::TooManyVersions { limit } => format!(in alloc; "error too-many-versions {limit}\n"),
        Fault::TooManyOpen { limit } => format!(in alloc; "error too-many-open {limit}\n"),
        Fault::TooManyBlobs { limit } => format!(in alloc; "error too-many-blobs {limit}\n"),
        Fault::Already { version } => format!(in alloc; "error already {version}\n"),
        Fault::NoMemory => format!(in alloc; "error no-memory\n"),
        Fault::EmptyUpdate => format!(in alloc; "error empty-update\n"),
        Fault::UpdateTooLong { length } => format!(in alloc; "error update-too-long {length}\n"),
        Fault::RangePastSize { end, size } => {
            format!(in alloc; "error range-past-size {end} {size}\n")
        }
        Fault::NoTicket { ticket } => format!(in alloc; "error no-ticket {ticket}\n"),
        Fault::TooManyTickets => format!(in alloc; "error too-many-tickets 64\n"),
        Fault::PageFault { page } => format!(in alloc; "error page-fault {page}\n"),
        Fault::Pending { version, held } => {
            format!(in alloc; "error pending {version} held {held}\n")
        }
        Fault::Malformed => format!(in alloc; "error malformed\n"),
        Fault::FrameTooLong { length } => format!(in alloc; "error frame-too-long {length}\n"),
        Fault::BadFrame => format!(in alloc; "error bad-frame\n"),
        Fault::ReadTooLong { length } => format!(in alloc; "error read-too-long {length}\n"),
        Fault::NoMemoryTicket { ticket } => format!(in alloc; "error no-memory ticket {ticket}\n"),
    }
}

// The hex digit that counts so much.
#[inline(always)]
fn hex_digit(value: u8) -> u8
    requires { value < 16 }
    ensures { result ≡ slice_index lower_digits value }
{
    if value < 10 {
        b'0' + value
    } else {
        b'a' + (value - 10)
    }
}

// Writes bytes as hex digits into room for twice as many.
fn write_digits(bytes: &[u8], out: &mut [u8])
    requires { length out.old ≡ 2 * length bytes.now }
    ensures { out.new ≡ encode_lower bytes.now }
{
    'bytes: for i in 0..bytes.len() {
        out[2 * i] = hex_digit(bytes[i] / 16);
        out[2 * i + 1] = hex_digit(bytes[i] % 16);
    }
}

// The line of a read's bytes.
fn data_line(alloc: Global, bytes: &[u8]) -> Result<Vec<u8>, AllocError>
    ensures { IfOk result (λ line. line.items ≡ codes "data " ++ hex_text bytes.now ++ 10 ∷ []) }
{
    if bytes.is_empty() {
        return b"data -\n".to_vec(alloc);
    }
    let Some(room) = bytes.len().checked_mul(2).and_then(|n| n.checked_add(6)) else {
        return Err(AllocError);
    };
    let mut line = Vec::with_capacity(alloc, room)?;
    line.extend_from_slice(b"data ")?;
    line.resize(room - 1, 0)?;
    write_digits(bytes, &mut line.as_mut_slice()[5..]);
    line.push(b'\n')?;
    Ok(line)
}

// Puts what is said of an update before what stands there.
fn put_update(line: &mut Written, version: u64, at: u64, size: u64)
    requires { length line.old ≤ 20 }
    ensures text { line.new ≡ update_text version at size ++ line.old }
    ensures short { length line.new ≤ length line.old + 78 }
{
    line.put_number(b" size ", size);
    line.put_number(b" at ", at);
    line.put_number(b"version ", version);
}

// What is said of an update.
fn update_line(alloc: Global, version: u64, at: u64, size: u64) -> Result<Vec<u8>, AllocError>
    ensures { IfOk result (λ line. line.items ≡ update_text version at size ++ 10 ∷ []) }
{
    let mut line = Written::end();
    put_update(&mut line, version, at, size);
    line.to_vec(alloc)
}

// What is said of an update that is only started.
fn started_line(
    alloc: Global,
    ticket: u64,
    version: u64,
    at: u64,
    size: u64,
) -> Result<Vec<u8>, AllocError>
    ensures { IfOk result (λ line. line.items ≡ started_text ticket version at size ++ 10 ∷ []) }
{
    let mut line = Written::end();
    put_update(&mut line, version, at, size);
    line.put(b" ");
    line.put_number(b"ticket ", ticket);
    line.to_vec(alloc)
}

// What is said of how far a blob's updates are.
fn status_line(
    alloc: Global,
    assigned: u64,
    published: u64,
    held: u64,
) -> Result<Vec<u8>, AllocError>
    ensures { IfOk result (λ line. line.items ≡ status_text assigned published held ++ 10 ∷ []) }
{
    let mut line = Written::end();
    line.put_number(b" held ", held);
    line.put_number(b" published ", published);
    line.put_number(b"status assigned ", assigned);
    line.to_vec(alloc)
}

// A line of words and a number.
fn number_line(alloc: Global, words: &[u8], number: u64) -> Result<Vec<u8>, AllocError>
    requires { length words.now ≤ 20 }
    ensures { IfOk result (λ line. line.items ≡ words.now ++ decimal number ++ 10 ∷ []) }
{
    let mut line = Written::end();
    line.put_number(words, number);
    line.to_vec(alloc)
}

// What is said of the last version that is published.
fn recent_line(alloc: Global, version: u64, size: u64) -> Result<Vec<u8>, AllocError>
    ensures { IfOk result (λ line. line.items ≡ codes "recent " ++ decimal version ++ codes " size " ++ decimal size ++ 10 ∷ []) }
{
    let mut line = Written::end();
    line.put_number(b" size ", size);
    line.put_number(b"recent ", version);
    line.to_vec(alloc)
}

/// A reply's line, with its end.
pub fn reply_line(alloc: Global, reply: &Reply) -> Result<Vec<u8>, AllocError>
    ensures { IfOk result (λ line. line.items ≡ said reply.now) }
{
    match reply {
        Reply::Created { blob } | Reply::Branched { blob } => {
            number_line(alloc, b"blob ", *blob)
        }
        Reply::Appended { version, at, size } | Reply::Wrote { version, at, size } => {
            update_line(alloc, *version, *at, *size)
        }
        Reply::AppendStarted {
            ticket,
            version,
            at,
            size,
        }
        | Reply::WriteStarted {
            ticket,
            version,
            at,
            size,
        } => { started_line(alloc, *ticket, *version, *at, *size) }
        Reply::Finished { published } | Reply::Repaired { published } => {
            number_line(alloc, b"published ", *published)
        }
        Reply::Content { bytes } | Reply::Contents { bytes } => {
            data_line(alloc, bytes.as_slice())
        }
        Reply::RecentIs { version, size } => { recent_line(alloc, *version, *size) }
        Reply::SizeIs { size } => number_line(alloc, b"size ", *size),
        Reply::Synced { version } => number_line(alloc, b"synced ", *version),
        Reply::StatusIs {
            assigned,
            published,
            held,
        } => { status_line(alloc, *assigned, *published, *held) }
        Reply::HelloIs { version } => number_line(alloc, b"hello ", *version),
        Reply::Refused(fault) => Ok(fault_line(alloc, fault)?.into_bytes()),
        Reply::Bye => b"bye\n".to_vec(alloc),
    }
}
