// The atomic steps.
ghost use Rattle.std.specs.Prelude.{◌≡◌, ℕ, List, length};

use blob_model::{Bytes, Place};
use std::marker::Model;
use tree_geom::NodeKey;

/// A list of page numbers. Contracts see the list.
#[derive(Drop)]
pub struct PageList {
    numbers: Vec<u64>,
}

impl Model for PageList {
    ghost Value = { List ℕ };

    ghost view = { λ l. l.numbers.items };
}

impl PageList {
    /// Keeps the vector's numbers. Takes no memory.
    pub fn of(numbers: Vec<u64>) -> PageList
        ensures { result ≡ numbers.items }
    {
        PageList { numbers }
    }

    /// How many pages there are.
    pub fn len(&self) -> usize
        ensures { result ≡ length self.now }
    {
        self.numbers.len()
    }

    /// The numbers as a slice.
    pub fn as_slice(&self) -> &[u64]
        ensures { result.now ≡ self.now }
    {
        self.numbers.as_slice()
    }
}

/// One atomic act of one actor.
#[derive(Drop)]
pub enum Step {
    /// A page of 1 byte up to a page's size is stored under a new number.
    PagePut {
        page: u64,
        bytes: Bytes,
    },
    /// A new blob.
    Create {
        caller: u32,
    },
    /// An update whose bytes are those of the pages, joined, gets its version.
    Assign {
        caller: u32,
        blob: u64,
        place: Place,
        pages: PageList,
    },
    /// A page of the blob that a numbered update stores anew is stored.
    FoldPut {
        blob: u64,
        version: u64,
        page: u64,
    },
    /// The node of a numbered update for a range is woven and stored.
    NodePut {
        key: NodeKey,
    },
    /// A numbered update is reported as stored.
    Finish {
        caller: u32,
        blob: u64,
        version: u64,
    },
    /// A new blob that shares the versions up to a published one.
    Branch {
        caller: u32,
        blob: u64,
        version: u64,
    },
    /// `length` bytes from `offset` of a published version are read.
    Read {
        blob: u64,
        version: u64,
        offset: u64,
        length: u64,
    },
}
