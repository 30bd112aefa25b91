//! The laws of walks by links, over every list of updates in which each begins at the size before it at the latest. Each is
//! the contract of a function that does nothing.
ghost use Rattle.range_log.specs.Walk.{RootsStand, LinksFind, LinksStep, ChildStands, WeaverFinds, VisitedNone, VisitedLeaf, VisitedInner, VisitedAreFew, WalksAreBounded};

/// Links lead from a version's root to the newest version that touches a range.
pub fn links_find()
    ensures roots { RootsStand }
    ensures find { LinksFind }
{}

/// At each step of a walk the link leads to a node, which is the newest for its range.
pub fn links_step()
    ensures step { LinksStep }
    ensures child { ChildStands }
{}

/// The newest version for a range is the newest of the waiting ones that touch it, or else where the links from the
/// published root lead.
pub fn weaver_finds()
    ensures { WeaverFinds }
{}

/// How many nodes a walk to some pages visits: each node whose range meets the pages, once.
pub fn visited_are_few()
    ensures none { VisitedNone }
    ensures leaf { VisitedLeaf }
    ensures inner { VisitedInner }
    ensures few { VisitedAreFew }
    ensures bounded { WalksAreBounded }
{}
