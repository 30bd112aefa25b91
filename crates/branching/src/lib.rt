//! The lineage of a blob: under which blob's id the nodes of each of its versions are kept. [`laws`] says what the parents of
//! all blobs of a store tell of it, and that a [`Lineage`] tells the same.
#![tactic(auto)]

ghost use Rattle.std.specs.Prelude.{◌≡◌, ◌<◌, ◌≤◌, ℕ, IfOk, length};
ghost use Rattle.branching.specs.Line.{origin_of, begun_before};

pub mod laws;

pub use faults::NoMemory;
use std::alloc::Global;
use std::marker::Model;

/// The blob that a branch was made from, and the version that it was taken at.
#[derive(Clone, Copy)]
pub struct Parent {
    /// The blob.
    pub blob: u64,
    /// The version.
    pub version: u64,
}

/// The versions above `after` were made on this blob.
#[derive(Clone, Copy)]
struct Branch {
    after: u64,
    blob: u64,
}

/// Which blob each version of a blob was made on. A blob's own versions are those above the one that it was branched at; the
/// others are its parent's, or the parent's parent's, and so on.
#[derive(Drop)]
pub struct Lineage {
    root: u64,
    branches: Vec<Branch>,
    alloc: Global,
}

impl Model for Lineage {
    ghost use Rattle.branching.specs.Line.{Line};
    ghost use Rattle.branching.specs.Rising.{IsRising};

    ghost Value = { Line };

    ghost view = { λ l. record { root = l.root; branches = l.branches.items } };

    ghost invariant = { λ l. IsRising l.branches.items };
}

impl Lineage {
    /// The lineage of a blob without a parent: all versions are its own.
    pub fn first(alloc: Global, blob: u64) -> Result<Lineage, NoMemory>
        ensures { IfOk result (λ lineage. (version : ℕ) → origin_of lineage version ≡ blob) }
    {
        Ok(Lineage {
            root: blob,
            branches: Vec::new(alloc),
            alloc,
        })
    }

    /// The lineage of a new blob that was branched off this one at version `at`: the versions above it are its own, and the
    /// others have the origin that they have here.
    pub fn branch(&self, new_blob: u64, at: u64) -> Result<Lineage, NoMemory>
        ensures own { IfOk result (λ lineage. (version : ℕ) → at < version → origin_of lineage version ≡ new_blob) }
        ensures shared { IfOk result (λ lineage. (version : ℕ) → version ≤ at → origin_of lineage version ≡ origin_of self.now version) }
    {
        let kept = self.begun_before(at);
        let mut branches = Vec::with_capacity(self.alloc, kept + 1)?;
        branches.extend_from_slice(&self.branches[..kept])?;
        branches.push_reserved(Branch {
            after: at,
            blob: new_blob,
        });
        Ok(Lineage {
            root: self.root,
            branches,
            alloc: self.alloc,
        })
    }

    /// The blob that the version was made on, under whose id its nodes are named.
    pub fn origin(&self, version: u64) -> u64
        ensures { result ≡ origin_of self.now version }
    {
        let begun = self.begun_before(version);
        if begun == 0 {
            self.root
        } else {
            self.branches[begun - 1].blob
        }
    }

    // How many of the branches begin below the version.
    fn begun_before(&self, version: u64) -> usize
        ensures bound { result ≤ length self.now.branches }
        ensures is { result ≡ begun_before self.now.branches version }
    {
        self.branches
            .partition_point(|branch| branch.after < version)
    }
}
