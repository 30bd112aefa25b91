//! What a node is asked, read from frames.
ghost use Rattle.std.specs.Prelude.{◌≡◌, ℕ, ◌+◌, ◌≤◌, List, [], ◌∷◌, ◌++◌, length, take, min, true, Some, None, IfOk, OnErr, MatchOption};
ghost use Rattle.frame_wire.specs.Requests.{number_at};
ghost use Rattle.page_node.specs.Frames.{request_of, get_of};
ghost use Rattle.page_node.specs.Asking.{number_of, fits};

use crate::form::{NodeFault, NodeHeard, NodeRequest};
use blob_model::Bytes;
use byteorder::{BigEndian, ByteOrder};
use faults::NoMemory;
use frame_wire::bytes::take_bytes;
use items::frames::Body;
use std::alloc::Global;
use std::marker::Model;

/// The most bytes that the length of a frame may count, of a node's requests and of its replies.
pub const MAX_FRAME: u32 = 2_097_152;

/// What a frame asks for, by its first byte.
#[derive(Clone, Copy, Debug, PartialEq, Eq)]
pub(crate) enum NodeOperation {
    Put,
    Get,
    Quit,
}

// The operation of that number.
fn operation_of(number: u8) -> Option<NodeOperation>
    ensures { MatchOption result
        ((fields : List ℕ) → request_of (number ∷ fields) ≡ None)
        (λ operation. number_of operation ≡ number) }
{
    match number {
        32 => Some(NodeOperation::Put),
        33 => Some(NodeOperation::Get),
        13 => Some(NodeOperation::Quit),
        _ => None,
    }
}

// Whether so many bytes behind an operation are whole fields, and nothing is left over.
fn fits(operation: NodeOperation, count: u32) -> bool
    ensures { result ≡ fits operation count }
{
    match operation {
        NodeOperation::Put => true,
        NodeOperation::Get => count == 24,
        NodeOperation::Quit => count == 0,
    }
}

/// What has come of a frame behind its length. Contracts see these bytes, and how many are still to come.
#[derive(Drop)]
pub(crate) struct Asking {
    operation: NodeOperation,
    bytes: Vec<u8>,
    left: u32,
}

impl Model for Asking {
    ghost use Rattle.std.specs.Prelude.{◌≡◌, ◌+◌, ◌∷◌, length, true};
    ghost use Rattle.items.specs.Come.{Come, come_coded};

    ghost Value = { Come };

    ghost coded = { come_coded };

    ghost use Rattle.page_node.specs.Asking.{number_of, fits};

    ghost view = { λ a. record { bytes = number_of a.operation ∷ a.bytes.items; left = a.left } };

    ghost invariant = { λ a. fits a.operation (length a.bytes.items + a.left) ≡ true };
}

impl Asking {
    // A frame of an operation, of which nothing more has come.
    fn of(alloc: Global, operation: NodeOperation, left: u32) -> Asking
        requires { fits operation left ≡ true }
        ensures { result ≡ record { bytes = number_of operation ∷ []; left = left } }
    {
        Asking {
            operation,
            bytes: Vec::new(alloc),
            left,
        }
    }

    // The request, now that all has come.
    fn into_request(self) -> NodeRequest
        requires { self.left ≡ 0 }
        ensures { request_of self.bytes ≡ Some result }
    {
        let Asking {
            operation,
            bytes,
            left: _,
        } = self;
        match operation {
            NodeOperation::Put => NodeRequest::Put {
                bytes: Bytes::of(bytes),
            },
            NodeOperation::Get => get_of(bytes.as_slice()),
            NodeOperation::Quit => NodeRequest::Quit,
        }
    }
}

/// The number in the 8 bytes of a frame's fields that start there, the most significant first.
pub fn number_at(fields: &[u8], start: usize) -> u64
    requires { start + 8 ≤ length fields.now }
    ensures { result ≡ number_at start fields.now }
{
    BigEndian::read_u64(&fields[start..])
}

// The get that three numbers ask for.
fn get_of(fields: &[u8]) -> NodeRequest
    requires { length fields.now ≡ 24 }
    ensures { get_of fields.now ≡ Some result }
{
    NodeRequest::Get {
        id: number_at(fields, 0),
        from: number_at(fields, 8),
        length: number_at(fields, 16),
    }
}

impl Body for Asking {
    ghost use Rattle.page_node.specs.Frames.{node_frames, node_frames_hold};

    type Item = NodeHeard;

    ghost framing = { node_frames };

    ghost IsWell = { λ heard. Unit {0} };

    ghost come = { λ a. a };

    fn limit() -> u32 {
        MAX_FRAME
    }

    fn begin(alloc: Global, first: u8, left: u32) -> Option<Asking> {
        match operation_of(first) {
            Some(operation) if fits(operation, left) => Some(Asking::of(alloc, operation, left)),
            _ => None,
        }
    }

    fn left(&self) -> u32 {
        self.left
    }

    fn take(&mut self, piece: &[u8]) -> Result<usize, NoMemory> {
        let count = take_bytes(&mut self.bytes, self.left, piece)?;
        self.left -= count as u32;
        Ok(count)
    }

    fn into_item(self) -> NodeHeard {
        NodeHeard::Asked(self.into_request())
    }

    fn bad() -> NodeHeard {
        NodeHeard::Wrong(NodeFault::BadFrame)
    }

    fn too_long(length: u32) -> NodeHeard {
        let length = u64::from(length);
        NodeHeard::Wrong(NodeFault::FrameTooLong { length })
    }

    ghost is_framing = { node_frames_hold };
}
