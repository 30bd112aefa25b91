//! The laws of the rows of a blob's versions, over every list of updates in which each begins at the size before it at the
//! latest. Each is the contract of a function that does nothing.
ghost use Rattle.range_log.specs.Laws.{LinksNameNodes, LinksLead, BacksLead, NoHoles, LinksHaveNoHoles, BacksHaveNoHoles, PageBytesStay};
ghost use Rattle.range_log.specs.Laws.{ExtentsStand, LeavesFill, LeavesFit, PiecesJoin, PiecesFit, NewestIsGreatest, LinksAgree, NewestAbove};
ghost use Rattle.range_log.specs.Laws.{NewestOfNone, NewestHits, NewestMisses, NewestHasNode, NewestIsSome, NewestIsNone, TouchesAre, EachTouchIs};
ghost use Rattle.range_log.specs.Laws.{SizesAre, LogsAreGrown, RowKeysExact, RowKeysInOrder, LevelsAreFew, BacksStep, DepthsStep, DepthOfNewest};
ghost use Rattle.range_log.specs.Laws.{DepthCountsBacks, DepthsAreFew, DepthsStay, LogsGrow, RowsStay, ExtentsGrow, SizesStay, PlacesStay, ExtentsAre};
ghost use Rattle.range_log.specs.Laws.{EachExtentIs, ContentsGrow, FoldsAre, NoneFolds, VisitsAreFew};

/// Each link or back of a row that isn't 0 names a version whose row has a node for the link's range.
pub fn links_name_nodes()
    ensures nodes { LinksNameNodes }
    ensures links { LinksLead }
    ensures backs { BacksLead }
{}

/// Each half of an inner node that begins below the size has a link to a version; one that doesn't has 0. A leaf whose update
/// doesn't cover its page has a back to an older version, or none where the update stores the page anew.
pub fn no_holes()
    ensures nodes { NoHoles }
    ensures links { LinksHaveNoHoles }
    ensures backs { BacksHaveNoHoles }
{}

/// Where some updates fall, and what each leaves.
pub fn extents_hold()
    ensures count { ExtentsAre }
    ensures each { EachExtentIs }
    ensures contents { ContentsGrow }
{}

/// The valid bytes of a page at a version are those at the newest version up to it that touches the page.
pub fn page_bytes_stay()
    ensures bytes { PageBytesStay }
    ensures extents { ExtentsStand }
{}

/// A leaf's pieces, over the page at its back where they don't cover it, are the page.
pub fn leaves_fill()
    ensures fill { LeavesFill }
    ensures fit { LeavesFit }
    ensures join { PiecesJoin }
    ensures pieces { PiecesFit }
{}

/// What the log of some updates says, and how the sizes and pages in it stand to one another.
pub fn logs_are_grown()
    ensures count { TouchesAre }
    ensures touches { EachTouchIs }
    ensures sizes { SizesAre }
    ensures grown { LogsAreGrown }
{}

/// Which ranges have a newest version, and that its row has a node for the range.
pub fn newest_has_node()
    ensures node { NewestHasNode }
    ensures some { NewestIsSome }
    ensures none { NewestIsNone }
{}

/// The newest version is the greatest that touches the range. For a part of a range it may be asked from the newest version
/// of the range.
pub fn newest_is_greatest()
    ensures greatest { NewestIsGreatest }
    ensures agree { LinksAgree }
    ensures none { NewestOfNone }
    ensures hit { NewestHits }
    ensures miss { NewestMisses }
{}

/// The ranges of a row are those that have a node in it, each once: the largest first, and then by offset. There are not
/// many more of them than pages.
pub fn row_keys_exact()
    ensures exact { RowKeysExact }
    ensures order { RowKeysInOrder }
    ensures few { LevelsAreFew }
{}

/// A page has one back more than from the leaf that its newest leaf leads back to.
pub fn backs_step()
    ensures { BacksStep }
{}

/// A page has as many backs at a version as the depth of its newest leaf says.
pub fn depth_counts_backs()
    ensures backs { DepthCountsBacks }
    ensures step { DepthsStep }
    ensures newest { DepthOfNewest }
    ensures few { DepthsAreFew }
    ensures stay { DepthsStay }
{}

/// Which pages an update stores anew, and what that does for the visit bound.
pub fn folds_are()
    ensures folds { FoldsAre }
    ensures none { NoneFolds }
    ensures few { VisitsAreFew }
{}

/// What later updates leave: the newest version of a range that they don't touch, and all that is said of older versions.
pub fn older_versions_stay()
    ensures above { NewestAbove }
    ensures grow { LogsGrow }
    ensures rows { RowsStay }
    ensures extents { ExtentsGrow }
    ensures sizes { SizesStay }
    ensures places { PlacesStay }
{}
