//! The cases of the table, and what an update comes to.
ghost use Rattle.std.specs.Prelude.{◌≡◌, All, length};
ghost use Rattle.page_store.specs.House.{IsProvider};

use provider_manager::{LoadBook, Placements};
use std::alloc::Global;
use std::process::Abort;

/// The two calls at which each of four doors fails, that of provider 1 first. 0 is no call.
pub(crate) type Calls = [(u64, u64); 4];

/// An update over four providers, and the calls at which their doors fail.
#[derive(Drop)]
pub(crate) struct Case {
    pub(crate) pages: u32,
    pub(crate) replicas: u32,
    pub(crate) page_size: u64,
    pub(crate) calls: Calls,
}

/// What an update comes to: the providers of each page's replicas, with a 0 after each page, or the first page that has
/// none; and how many calls of each door failed.
#[derive(Drop)]
pub(crate) struct Outcome {
    pub(crate) taken: Result<Vec<u32>, u64>,
    pub(crate) faults: [u64; 4],
}

impl Outcome {
    /// Whether both are the same.
    pub(crate) fn is_as(&self, other: &Outcome) -> bool {
        let taken = match (&self.taken, &other.taken) {
            (Ok(mine), Ok(theirs)) => mine.as_slice() == theirs.as_slice(),
            (Err(mine), Err(theirs)) => *mine == *theirs,
            _ => false,
        };
        taken && self.faults == other.faults
    }
}

impl Case {
    /// The update's bytes: 1 to 3 fewer than the pages take, or as many where their number is a multiple of four.
    pub(crate) fn bytes<R: Abort>(&self, rt: &R, alloc: Global) -> Vec<u8> {
        let whole = u64::from(self.pages).saturating_mul(self.page_size);
        let mut bytes = Vec::new(alloc);
        for i in 0..whole.saturating_sub(u64::from(self.pages % 4)) {
            bytes.push((i % 251) as u8).expect(rt, "memory");
        }
        bytes
    }

    /// The lists of the calls at which the doors fail.
    pub(crate) fn lists<R: Abort>(&self, rt: &R, alloc: Global) -> Vec<Vec<u64>> {
        let mut lists = Vec::with_capacity(alloc, 4).expect(rt, "memory");
        for (first, second) in &self.calls {
            let calls = vec![in alloc; *first, *second].expect(rt, "memory");
            lists.push(calls).expect(rt, "memory");
        }
        lists
    }

    /// Where its pages go.
    pub(crate) fn placed<R: Abort>(&self, rt: &R, alloc: Global) -> Placements
        ensures pages { length result ≡ self.now.pages }
        ensures known { All (All (IsProvider 4)) result }
    {
        let replicas = self.replicas;
        assert!(rt; replicas >= 1 && replicas <= 4);
        let mut book = LoadBook::new(alloc, 4, replicas).expect(rt, "memory");
        book.place(alloc, self.pages).expect(rt, "memory")
    }
}
