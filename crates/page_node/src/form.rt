//! What a node is asked, and what it answers.

use blob_model::Bytes;

/// What a node is asked.
#[derive(Drop)]
pub enum NodeRequest {
    /// To keep a page.
    Put { bytes: Bytes },
    /// `length` bytes of the page with that id, from byte `from` on.
    Get { id: u64, from: u64, length: u64 },
    /// No more.
    Quit,
}

/// Why a node refuses.
#[derive(Clone, Copy, Debug, PartialEq, Eq)]
pub enum NodeFault {
    /// No memory was found for a put or a get. Nothing changed.
    NoMemory,
    /// A put has no bytes.
    EmptyUpdate,
    /// A put has more bytes than a page takes.
    UpdateTooLong { length: u64 },
    /// There is no page with that id.
    NoPage { id: u64 },
    /// The asked bytes end past the page's length.
    PastPage { end: u128, length: u64 },
    /// The frame's length counts too many bytes.
    FrameTooLong { length: u64 },
    /// The frame asks for nothing.
    BadFrame,
}

/// One frame of a stream, as it is heard.
#[derive(Drop)]
pub enum NodeHeard {
    /// It asks for this.
    Asked(NodeRequest),
    /// It is refused.
    Wrong(NodeFault),
}

/// What a node answers.
#[derive(Drop)]
pub enum NodeReply {
    /// The page is kept, under this id.
    Kept { id: u64 },
    /// The asked bytes.
    Given { bytes: Bytes },
    /// It was the last request.
    Bye,
    /// The refusal.
    Refused(NodeFault),
}
