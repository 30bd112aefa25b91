// The nodes of the rows of a blob, and what they are stored under.
use crate::range::Range;

/// What a node is stored under: the blob that its update was made on, that update's version, and the node's range.
#[derive(Clone, Copy, PartialEq, Eq, PartialOrd, Ord, Debug)]
pub struct NodeKey {
    pub blob: u64,
    pub version: u64,
    pub range: Range,
}

/// Bytes of one stored page of an update: `len` of them, from byte `from` of the page on.
///
/// `page` counts the update's stored pages from 0.
#[derive(Clone, Copy, PartialEq, Eq, Debug)]
pub struct Piece {
    pub page: u32,
    pub from: u32,
    pub len: u32,
}

/// A node of the row of an update. Links and backs are versions, and 0 is none.
#[derive(Clone, Copy, PartialEq, Eq, Debug)]
pub enum Node {
    /// A range of two pages or more: the versions whose rows have the nodes of its two halves.
    Inner {
        left: u64,
        right: u64,
    },
    /// One page: the update's own bytes in it, and where the others are.
    Leaf {
        /// The byte of the page at which the update's own bytes begin.
        start: u32,
        /// How many of the two pieces there are, 1 or 2. With 1 the second piece is all zeros.
        count: u32,
        first: Piece,
        second: Piece,
        /// How many backs lead on from this leaf, one after another, to a leaf without a back.
        depth: u32,
        /// The newest older version with a leaf of this page, or 0 where the pieces are all valid bytes of the page.
        back: u64,
    },
}
