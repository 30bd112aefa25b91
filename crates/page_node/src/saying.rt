//! How what a node is asked is framed, and what it answers. The frames of this module stand in place, and take no memory.
ghost use Rattle.std.specs.Prelude.{◌≡◌, ℕ, ◌+◌, ◌<◌, ◌≤◌, ◌^◌, ◌∷◌, ◌++◌, [], List, length, IfOk};
ghost use Rattle.frame_wire.specs.Said.{field, frame_of};
ghost use Rattle.page_node.specs.Said.{said, asked, fault_fields};
ghost use Rattle.page_node.specs.declared.form.NodeRequest.TheVariants as Requests;
ghost use Rattle.page_node.specs.declared.form.NodeReply.TheVariants as Replies;
ghost use Rattle.page_node.specs.declared.form.NodeFault.TheVariants as Faults;

use crate::form::{NodeFault, NodeReply};
use blob_model::Bytes;
use faults::NoMemory;
pub use frame_wire::head::Head;
use frame_wire::head::{front, numbers_frame, range_frame};
use request_form::Said;
use std::alloc::Global;

// The frame of an operation and one number.
fn number_frame(operation: u8, number: u64) -> Head
    ensures frame { result.items ≡ frame_of (operation ∷ field number) }
    ensures length { length result.items ≡ 13 }
{
    numbers_frame(operation, &[number])
}

// The frame of a refusal with one number.
fn refusal_frame(refusal: u64, number: u64) -> Head
    ensures { result.items ≡ frame_of (255 ∷ (field refusal ++ field number)) }
{
    numbers_frame(255, &[refusal, number])
}

/// A refusal's frame.
pub fn fault_frame(fault: &NodeFault) -> Head
    ensures { result.items ≡ said (Replies.Refused fault.now) }
{
    match *fault {
        NodeFault::NoMemory => number_frame(255, 9),
        NodeFault::EmptyUpdate => number_frame(255, 10),
        NodeFault::UpdateTooLong { length } => refusal_frame(11, length),
        NodeFault::NoPage { id } => refusal_frame(23, id),
        NodeFault::PastPage { end, length } => range_frame(24, end, length),
        NodeFault::FrameTooLong { length } => refusal_frame(18, length),
        NodeFault::BadFrame => number_frame(255, 19),
    }
}

/// The frame of want of memory.
pub fn memory_frame() -> Head
    ensures frame { result.items ≡ said (Replies.Refused Faults.NoMemory) }
    ensures length { length result.items ≡ 13 }
{
    number_frame(255, 9)
}

/// The frame of the reply to a put whose page is kept: it tells the page's id.
pub fn kept_frame(id: u64) -> Head
    ensures frame { result.items ≡ said (Replies.Kept id) }
    ensures length { length result.items ≡ 13 }
{
    number_frame(160, id)
}

/// The frame of the reply to the last request.
pub fn bye_frame() -> Head
    ensures { result.items ≡ said Replies.Bye }
{
    numbers_frame(141, &[])
}

/// The front of the reply that gives so many bytes, which stand behind it.
pub fn given_front(count: u32) -> Head
    requires { count + 1 < 2 ^ 32 }
    ensures { (bytes : List ℕ) → length bytes ≡ count → result.items ++ bytes ≡ said (Replies.Given bytes) }
{
    front(161, count)
}

/// The front of the frame that puts a page of so many bytes, which stand behind it.
pub fn put_front(count: u32) -> Head
    requires { count + 1 < 2 ^ 32 }
    ensures { (bytes : List ℕ) → length bytes ≡ count → result.items ++ bytes ≡ asked (Requests.Put bytes) }
{
    front(32, count)
}

/// The frame that asks for `length` bytes of the page with that id, from byte `from` on.
pub fn get_frame(id: u64, from: u64, length: u64) -> Head
    ensures { result.items ≡ asked (Requests.Get id from length) }
{
    numbers_frame(33, &[id, from, length])
}

// The frame of given bytes, which are its body as they are.
fn given(bytes: Bytes) -> Result<Said, NoMemory>
    ensures { IfOk result (λ parts. parts.head.items ++ parts.body ≡ said (Replies.Given bytes)) }
{
    // No frame's length counts more.
    if bytes.len() >= u32::MAX as usize {
        return Err(NoMemory);
    }
    let head = given_front(bytes.len() as u32);
    Ok(Said { head, body: bytes })
}

/// A reply's frame in two parts. The bytes that a node gives are the body, uncopied. Each other reply is all head.
pub(crate) fn say(alloc: Global, reply: NodeReply) -> Result<Said, NoMemory>
    ensures { IfOk result (λ parts. parts.head.items ++ parts.body ≡ said reply) }
{
    match reply {
        NodeReply::Kept { id } => Ok(Said::of_head(alloc, kept_frame(id))),
        NodeReply::Given { bytes } => given(bytes),
        NodeReply::Bye => Ok(Said::of_head(alloc, bye_frame())),
        NodeReply::Refused(fault) => Ok(Said::of_head(alloc, fault_frame(&fault))),
    }
}
