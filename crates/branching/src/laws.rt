//! What holds of the origins of versions. Each law is the contract of a function that does nothing.
ghost use Rattle.branching.specs.Laws.{OriginsStay, NewAreOwn, BranchesOwn, BranchesShare, LinesStay, FirstLines, BranchedLines};

/// Which blob each version was made on, as blobs are made and branched: what was so stays so, a new blob's versions are its
/// own, and a branch shares its parent's up to the one that it was taken at.
pub fn origins_stay()
    ensures stay { OriginsStay }
    ensures new { NewAreOwn }
    ensures own { BranchesOwn }
    ensures shared { BranchesShare }
{}

/// Where each blob has a [`crate::Lineage`], made by `first` with the blob and by `branch` with a branch, each of them tells
/// the origins that the parents do, as long as blobs are made.
pub fn lineages_tell_origins()
    ensures stay { LinesStay }
    ensures first { FirstLines }
    ensures branched { BranchedLines }
{}
