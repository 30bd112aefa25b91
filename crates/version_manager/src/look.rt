/// What can be asked of a blob and changes nothing.
#[derive(Clone, Copy, Debug, PartialEq, Eq)]
pub enum Look {
    /// The greatest published version and its size.
    Recent,
    /// The size of a published version, in bytes.
    Size { version: u64 },
    /// Whether a numbered version is published now.
    Sync { version: u64 },
    /// How far the blob's updates are: the last numbered version, the greatest published one, and the least unfinished one or 0.
    Status,
}
