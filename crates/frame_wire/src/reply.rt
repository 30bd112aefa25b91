ghost use Rattle.std.specs.Prelude.{◌≡◌, ◌∷◌, ◌++◌, IfOk};
ghost use Rattle.frame_wire.specs.Said.{frame_of, fault_fields, said, IsShort};

use crate::head::{Head, front, numbers_frame, range_frame};
use blob_model::Bytes;
use request_form::{Fault, Reply, Said};
use std::alloc::{AllocError, Global};

// A refusal's frame.
fn fault_frame(fault: &Fault) -> Head
    ensures { result.items ≡ frame_of (255 ∷ fault_fields fault.now) }
{
    match *fault {
        Fault::NoBlob { blob } => numbers_frame(255, &[1, blob]),
        Fault::NotPublished { version, published } => {
            numbers_frame(255, &[2, version, published])
        }
        Fault::OffsetPastSize { offset, size } => numbers_frame(255, &[3, offset, size]),
        Fault::BlobTooBig { end, limit } => numbers_frame(255, &[4, end, limit]),
        Fault::TooManyVersions { limit } => numbers_frame(255, &[5, limit]),
        Fault::TooManyOpen { limit } => numbers_frame(255, &[6, limit]),
        Fault::TooManyBlobs { limit } => numbers_frame(255, &[7, limit]),
        Fault::Already { version } => numbers_frame(255, &[8, version]),
        Fault::NoMemory => numbers_frame(255, &[9]),
        Fault::EmptyUpdate => numbers_frame(255, &[10]),
        Fault::UpdateTooLong { length } => numbers_frame(255, &[11, length]),
        Fault::RangePastSize { end, size } => range_frame(12, end, size),
        Fault::NoTicket { ticket } => numbers_frame(255, &[13, ticket]),
        Fault::TooManyTickets => numbers_frame(255, &[14, 64]),
        Fault::PageFault { page } => numbers_frame(255, &[15, page]),
        Fault::Pending { version, held } => numbers_frame(255, &[16, version, held]),
        Fault::Malformed => numbers_frame(255, &[17]),
        Fault::FrameTooLong { length } => numbers_frame(255, &[18, length]),
        Fault::BadFrame => numbers_frame(255, &[19]),
        Fault::ReadTooLong { length } => numbers_frame(255, &[20, length]),
        Fault::NoMemoryTicket { ticket } => numbers_frame(255, &[22, ticket]),
    }
}

// The head of a frame with an operation and what was read, which comes behind it.
fn content_head(operation: u8, bytes: &[u8]) -> Result<Head, AllocError>
    ensures { IfOk result (λ head. head.items ++ bytes.now ≡ frame_of (operation ∷ bytes.now)) }
{
    // No frame's length counts more.
    if bytes.len() >= u32::MAX as usize {
        return Err(AllocError);
    }
    Ok(front(operation, bytes.len() as u32))
}

// The frame of a reply that gives no bytes of a blob.
fn short_frame(reply: &Reply) -> Head
    requires { IsShort reply.now }
    ensures { result.items ≡ said reply.now }
{
    match reply {
        Reply::Created { blob } => numbers_frame(129, &[*blob]),
        Reply::Appended { version, at, size } => numbers_frame(130, &[*version, *at, *size]),
        Reply::Wrote { version, at, size } => numbers_frame(131, &[*version, *at, *size]),
        Reply::AppendStarted {
            ticket,
            version,
            at,
            size,
        } => numbers_frame(132, &[*ticket, *version, *at, *size]),
        Reply::WriteStarted {
            ticket,
            version,
            at,
            size,
        } => numbers_frame(133, &[*ticket, *version, *at, *size]),
        Reply::Finished { published } => numbers_frame(134, &[*published]),
        Reply::RecentIs { version, size } => numbers_frame(136, &[*version, *size]),
        Reply::SizeIs { size } => numbers_frame(137, &[*size]),
        Reply::Synced { version } => numbers_frame(138, &[*version]),
        Reply::StatusIs {
            assigned,
            published,
            held,
        } => numbers_frame(139, &[*assigned, *published, *held]),
        Reply::Branched { blob } => numbers_frame(140, &[*blob]),
        Reply::HelloIs { version } => numbers_frame(142, &[*version]),
        Reply::Repaired { published } => numbers_frame(144, &[*published]),
        Reply::Refused(fault) => fault_frame(fault),
        Reply::Bye => numbers_frame(141, &[]),
        Reply::Content { .. } | Reply::Contents { .. } => unreachable!(),
    }
}

// The frame of an operation and what was read.
fn content_frame(alloc: Global, operation: u8, bytes: &[u8]) -> Result<Vec<u8>, AllocError>
    ensures { IfOk result (λ frame. frame.items ≡ frame_of (operation ∷ bytes.now)) }
{
    let head = content_head(operation, bytes)?;
    let mut frame = Vec::with_capacity(alloc, head.len() + bytes.len())?;
    frame.extend_from_slice(head.as_slice())?;
    frame.extend_from_slice(bytes)?;
    Ok(frame)
}

/// A reply's frame.
pub fn reply_frame(alloc: Global, reply: &Reply) -> Result<Vec<u8>, AllocError>
    ensures { IfOk result (λ frame. frame.items ≡ said reply.now) }
{
    match reply {
        Reply::Content { bytes } => content_frame(alloc, 135, bytes.as_slice()),
        Reply::Contents { bytes } => content_frame(alloc, 143, bytes.as_slice()),
        other => Vec::from_slice(alloc, short_frame(other).as_slice()),
    }
}

// The frame of an operation and what was read, which is its body as it is.
fn content_parts(operation: u8, bytes: Bytes) -> Result<Said, AllocError>
    ensures { IfOk result (λ parts. parts.head.items ++ parts.body ≡ frame_of (operation ∷ bytes)) }
{
    let head = content_head(operation, bytes.as_slice())?;
    Ok(Said { head, body: bytes })
}

/// A reply's frame in two parts. What a read gave is the body, uncopied. Each other reply is all head.
pub fn reply_parts(alloc: Global, reply: Reply) -> Result<Said, AllocError>
    ensures { IfOk result (λ parts. parts.head.items ++ parts.body ≡ said reply) }
{
    match reply {
        Reply::Content { bytes } => content_parts(135, bytes),
        Reply::Contents { bytes } => content_parts(143, bytes),
        other => Ok(Said::of_head(alloc, short_frame(&other))),
    }
}
