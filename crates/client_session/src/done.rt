/// An update that is numbered and waits for its finish.
#[derive(Clone, Copy, Debug, PartialEq, Eq)]
pub struct Started {
    /// The number under which the session holds it.
    pub ticket: u64,
    /// The update's version.
    pub version: u64,
    /// The byte of the blob at which it falls.
    pub at: u64,
    /// The blob's size then, in bytes.
    pub size: u64,
}

/// An update that is numbered and finished.
#[derive(Clone, Copy, Debug, PartialEq, Eq)]
pub struct Done {
    /// The update's version.
    pub version: u64,
    /// The byte of the blob at which it falls.
    pub at: u64,
    /// The blob's size then, in bytes.
    pub size: u64,
}

/// What became of an update that was to be finished at once.
#[derive(Clone, Copy, Debug, PartialEq, Eq)]
pub enum Updated {
    /// It is finished.
    Done(Done),
    /// It stores a page of the blob anew, which couldn't be read or stored yet: the session holds it, and `finish` goes on with it.
    Held(Started),
}

/// What became of the tickets that a session gave up, each counted once.
#[derive(Clone, Copy, Debug, PartialEq, Eq)]
pub struct HangUp {
    /// Those whose updates are finished, by the session or by others before it.
    pub finished: u32,
    /// Those that were dropped for want of memory. Their updates stay unfinished.
    pub no_memory: u32,
    /// Those whose updates store pages of the blob anew, which they read from the version before them, and that waits. Theirs stay
    /// unfinished too.
    pub pending: u32,
    /// Those whose updates store pages of the blob anew, of which no provider gave, or took, one. Theirs stay unfinished too.
    pub page_fault: u32,
}
