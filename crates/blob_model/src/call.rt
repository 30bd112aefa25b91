use crate::bytes::Bytes;

/// Where an update falls.
#[derive(Clone, Copy, Debug, PartialEq, Eq)]
pub enum Place {
    /// At this offset, in bytes from the blob's beginning.
    WriteAt(u64),
    /// At the size of the version before it.
    Append,
}

/// A change of the store, with the caller that made it.
#[derive(Drop)]
pub enum Event {
    /// A new blob.
    Create {
        caller: u32,
    },
    /// An update got its version.
    Assign {
        caller: u32,
        blob: u64,
        place: Place,
        bytes: Bytes,
    },
    /// An update was reported as stored.
    Finish {
        caller: u32,
        blob: u64,
        version: u64,
    },
    /// A new blob that shares the versions up to this one.
    Branch {
        caller: u32,
        blob: u64,
        version: u64,
    },
}

/// Why the store refuses a call, with the numbers that were compared.
#[derive(Clone, Copy, Debug, PartialEq, Eq)]
pub enum Refusal {
    /// There is no such blob.
    NoBlob { blob: u64 },
    /// The version isn't published, or wasn't numbered yet.
    NotPublished { version: u64, published: u64 },
    /// A write would begin past the size of the last numbered version.
    OffsetPastSize { offset: u64, size: u64 },
    /// The blob would have `end` bytes.
    BlobTooBig { end: u64, limit: u64 },
    /// The blob has as many versions as it may have.
    TooManyVersions { limit: u64 },
    /// The blob has as many waiting updates as it may have.
    TooManyOpen { limit: u64 },
    /// The store has as many blobs as it may have.
    TooManyBlobs { limit: u64 },
    /// The update is finished already.
    Already { version: u64 },
    /// The range would end at `end`, past the version's size.
    RangePastSize { end: u128, size: u64 },
    /// The version waits; `held` is the least unfinished version of its blob.
    Pending { version: u64, held: u64 },
}

/// What the store answers to a call.
#[derive(Drop)]
pub enum Outcome {
    /// The new blob's id.
    Blob(u64),
    /// The update's version, the offset at which it falls, and the blob's size then.
    Assigned {
        version: u64,
        at: u64,
        size: u64,
    },
    /// The greatest published version now.
    Published(u64),
    /// The bytes of a range.
    Content(Bytes),
    /// The greatest published version and its size.
    Recent {
        version: u64,
        size: u64,
    },
    /// The size of a version.
    Size(u64),
    /// The version is published.
    Synced(u64),
    /// The last numbered version, the greatest published one, and the least unfinished one or 0.
    Status {
        assigned: u64,
        published: u64,
        held: u64,
    },
    /// The call was refused.
    Refused(Refusal),
}

/// A call on the store. The first four change it; the others look.
#[derive(Drop)]
pub enum Call {
    /// Makes an empty blob.
    Create,
    /// Numbers an update of at least one byte.
    Assign {
        blob: u64,
        place: Place,
        bytes: Bytes,
    },
    /// Marks a numbered version as finished.
    Finish {
        blob: u64,
        version: u64,
    },
    /// Makes a blob with the versions up to a published one.
    Branch {
        blob: u64,
        version: u64,
    },
    /// Asks for `length` bytes from `offset` of a published version.
    Read {
        blob: u64,
        version: u64,
        offset: u64,
        length: u64,
    },
    /// Asks for the greatest published version and its size.
    Recent {
        blob: u64,
    },
    /// Asks for the size of a published version.
    Size {
        blob: u64,
        version: u64,
    },
    /// Asks whether a numbered version is published.
    Sync {
        blob: u64,
        version: u64,
    },
    /// Asks how far the blob's updates are.
    Status {
        blob: u64,
    },
}
