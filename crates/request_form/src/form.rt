use crate::ranges::RangeList;
use blob_model::{Bytes, Outcome, Refusal};

/// What a client asks of its session.
#[derive(Drop)]
pub enum Request {
    /// A new blob.
    Create,
    /// The bytes at the blob's end, as a new version.
    Append {
        blob: u64,
        bytes: Bytes,
    },
    /// The bytes in place of those from `offset` on, as a new version.
    Write {
        blob: u64,
        offset: u64,
        bytes: Bytes,
    },
    /// An append that is numbered now. A Finish of its ticket reports it.
    StartAppend {
        blob: u64,
        bytes: Bytes,
    },
    /// A write that is numbered now. A Finish of its ticket reports it.
    StartWrite {
        blob: u64,
        offset: u64,
        bytes: Bytes,
    },
    /// The report of the update that the session holds under this ticket.
    Finish {
        ticket: u64,
    },
    /// `length` bytes from `offset` of a published version.
    Read {
        blob: u64,
        version: u64,
        offset: u64,
        length: u64,
    },
    /// Which version of a blob is the last published one, and how long it is.
    Recent {
        blob: u64,
    },
    /// The size of a published version, in bytes.
    Size {
        blob: u64,
        version: u64,
    },
    /// Whether a numbered version is published.
    Sync {
        blob: u64,
        version: u64,
    },
    /// How far the updates of a blob are.
    Status {
        blob: u64,
    },
    /// A new blob that shares the versions up to a published one.
    Branch {
        blob: u64,
        version: u64,
    },
    /// From here on updates may have 16,777,216 bytes. The frames of the stream are of that version.
    Hello {
        version: u64,
    },
    /// Many ranges of a published version, of one store.
    ReadMany {
        blob: u64,
        version: u64,
        ranges: RangeList,
    },
    /// The report of an update that this session or another one has numbered.
    Repair {
        blob: u64,
        version: u64,
    },
    /// The end of the stream's requests.
    Quit,
}

/// Why a request isn't done, with the numbers that were compared.
#[derive(Clone, Copy, Debug, PartialEq, Eq)]
pub enum Fault {
    /// There is no such blob.
    NoBlob { blob: u64 },
    /// The version isn't published, or wasn't numbered yet.
    NotPublished { version: u64, published: u64 },
    /// A write would begin past the size of the last numbered version.
    OffsetPastSize { offset: u64, size: u64 },
    /// The blob would have `end` bytes.
    BlobTooBig { end: u64, limit: u64 },
    /// The blob has as many versions as it may have.
    TooManyVersions { limit: u64 },
    /// The blob has as many waiting updates as it may have.
    TooManyOpen { limit: u64 },
    /// The store has as many blobs as it may have.
    TooManyBlobs { limit: u64 },
    /// The update is finished already.
    Already { version: u64 },
    /// No memory was found. The blobs and the history are as before.
    NoMemory,
    /// An update without bytes.
    EmptyUpdate,
    /// An update of more bytes than the session takes: 1,048,576, or 16,777,216 once it was said hello.
    UpdateTooLong { length: u64 },
    /// The range would end at `end`, past the version's size.
    RangePastSize { end: u128, size: u64 },
    /// The session holds no such ticket.
    NoTicket { ticket: u64 },
    /// The session holds as many tickets as it may hold.
    TooManyTickets,
    /// No provider took, or gave, this page: of an update's bytes, or of the blob that is read, or whose update is finished.
    PageFault { page: u64 },
    /// The version waits; `held` is the least unfinished version of its blob. For a finish it is the version before, which the
    /// update needs.
    Pending { version: u64, held: u64 },
    /// A line that is no request.
    Malformed,
    /// A frame whose length counts more than 2,097,152 bytes, or in frames of version 2 more than 17,825,792.
    FrameTooLong { length: u64 },
    /// A frame that is no request.
    BadFrame,
    /// A read of more than 16,777,216 bytes. Of many ranges it is the first with which they have more together.
    ReadTooLong { length: u64 },
    /// No memory was found once the update was numbered. The session holds the update under this ticket.
    NoMemoryTicket { ticket: u64 },
}

impl Fault {
    ghost use Rattle.std.specs.Prelude.{◌≡◌};
    ghost use Rattle.request_form.specs.Replies.{fault_of};

    /// The store's refusal as a session's fault, with the same numbers.
    pub fn of(refusal: Refusal) -> Fault
        ensures { result ≡ fault_of refusal }
    {
        match refusal {
            Refusal::NoBlob { blob } => Fault::NoBlob { blob },
            Refusal::NotPublished { version, published } => {
                Fault::NotPublished { version, published }
            }
            Refusal::OffsetPastSize { offset, size } => Fault::OffsetPastSize { offset, size },
            Refusal::BlobTooBig { end, limit } => Fault::BlobTooBig { end, limit },
            Refusal::TooManyVersions { limit } => Fault::TooManyVersions { limit },
            Refusal::TooManyOpen { limit } => Fault::TooManyOpen { limit },
            Refusal::TooManyBlobs { limit } => Fault::TooManyBlobs { limit },
            Refusal::Already { version } => Fault::Already { version },
            Refusal::RangePastSize { end, size } => Fault::RangePastSize { end, size },
            Refusal::Pending { version, held } => Fault::Pending { version, held },
        }
    }
}

/// The answer to a request.
#[derive(Drop)]
pub enum Reply {
    /// The new blob's id.
    Created {
        blob: u64,
    },
    /// The append's version, the offset at which it fell, and the blob's size then. It is finished.
    Appended {
        version: u64,
        at: u64,
        size: u64,
    },
    /// The write's version, the offset at which it fell, and the blob's size then. It is finished.
    Wrote {
        version: u64,
        at: u64,
        size: u64,
    },
    /// The append's ticket, version and offset, and the blob's size then. It waits for its Finish. An Append is answered so too
    /// where the update stores pages of the blob anew, and these couldn't be read or stored yet.
    AppendStarted {
        ticket: u64,
        version: u64,
        at: u64,
        size: u64,
    },
    /// The write's ticket, version and offset, and the blob's size then. It waits for its Finish. A Write is answered so too, for
    /// the same reason.
    WriteStarted {
        ticket: u64,
        version: u64,
        at: u64,
        size: u64,
    },
    /// Which version of the ticket's blob is the last published one, now that the update is finished.
    Finished {
        published: u64,
    },
    /// The bytes of the range.
    Content {
        bytes: Bytes,
    },
    /// The greatest published version, and its size.
    RecentIs {
        version: u64,
        size: u64,
    },
    /// The version's size.
    SizeIs {
        size: u64,
    },
    /// The version is published.
    Synced {
        version: u64,
    },
    /// The last numbered version, the greatest published one, and the least unfinished one or 0.
    StatusIs {
        assigned: u64,
        published: u64,
        held: u64,
    },
    /// The new blob's id.
    Branched {
        blob: u64,
    },
    /// The version of frames that the stream speaks.
    HelloIs {
        version: u64,
    },
    /// The bytes of the ranges, one behind the other in their order.
    Contents {
        bytes: Bytes,
    },
    /// Which version of the blob is the last published one, now that the update is finished.
    Repaired {
        published: u64,
    },
    /// The request wasn't done.
    Refused(Fault),
    /// The stream's requests have ended.
    Bye,
}

impl Reply {
    ghost use Rattle.std.specs.Prelude.{◌≡◌};
    ghost use Rattle.request_form.specs.Replies.{reply_of};

    /// The store's outcome as a reply, with the same numbers and bytes: a new blob as that of a Create, and an update as
    /// an Append.
    pub fn of(outcome: Outcome) -> Reply
        ensures { result ≡ reply_of outcome }
    {
        match outcome {
            Outcome::Blob(blob) => Reply::Created { blob },
            Outcome::Assigned { version, at, size } => Reply::Appended { version, at, size },
            Outcome::Published(published) => Reply::Finished { published },
            Outcome::Content(bytes) => Reply::Content { bytes },
            Outcome::Recent { version, size } => Reply::RecentIs { version, size },
            Outcome::Size(size) => Reply::SizeIs { size },
            Outcome::Synced(version) => Reply::Synced { version },
            Outcome::Status {
                assigned,
                published,
                held,
            } => {
                Reply::StatusIs {
                    assigned,
                    published,
                    held,
                }
            }
            Outcome::Refused(refusal) => Reply::Refused(Fault::of(refusal)),
        }
    }
}

/// What a dialect heard: a request, or something else and its fault.
#[derive(Drop)]
pub enum Heard {
    Asked(Request),
    Wrong(Fault),
}

/// What the end of a stream of requests leaves over.
pub type Ending = items::Ending<Heard>;
