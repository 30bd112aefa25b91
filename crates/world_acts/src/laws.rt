//! What ties the acts of the program to the steps of a world. A law is the contract of a function that does nothing.
ghost use Rattle.world_acts.specs.Worlds.{EmptyIsAWorld, WorldsAreReached, StoresAgree, LineagesAgree, WorldsOnlyGrow, HistoriesHaveWorlds, StepsAreInOrder};
ghost use Rattle.world_acts.specs.Commuting.{PutsCommute, SameWorldsGoOn};
ghost use Rattle.world_acts.specs.Together.{SessionsTogether};
ghost use Rattle.world_acts.specs.Pages.{PagePutsAreSteps, NumbersGoOn};
ghost use Rattle.world_acts.specs.Turns.{CreatesAreSteps, BranchesAreSteps, NumberingsAreSteps, FinishesAreSteps, LooksAreNoSteps, WaitingAreOwn};
ghost use Rattle.world_acts.specs.Puts.{HintsStay, FoldPutsAreSteps, NodePutsAreSteps, FoldsFollow};
ghost use Rattle.world_acts.specs.Reads.{ReadsAreSteps, WalksAgree};

use range_log::{laws as rows, walks};

/// For whoever follows a store from its start: the empty world is one of the empty history. Each world of a history is reached by allowed
/// steps, so all that `blob_core::steps_hold` promises is true of it; its store is the history's, and so are the parents of its blobs.
pub fn worlds_agree()
    ensures empty { EmptyIsAWorld }
    ensures reached { WorldsAreReached }
    ensures stores { StoresAgree }
    ensures lineages { LineagesAgree }
{
    blob_core::steps_hold();
}

/// What a world has stays in it as it is, whatever allowed steps follow: pages, the pages and hints of each update, pages that were stored
/// anew, and nodes. So what one act put is there when a later act needs it, whoever acts between.
///
/// Two puts, of which the second doesn't need the first, may change places: they are allowed in the other order too, and lead to the same world. Worlds
/// that are the same go on in the same way: the same steps are allowed, and are the same events. So it makes no difference in which order the puts of
/// many sessions come between two turns.
///
/// And no allowed steps finish an update that stores a page anew before the version before it is published.
pub fn worlds_only_grow()
    ensures grow { WorldsOnlyGrow }
    ensures commute { PutsCommute }
    ensures go_on { SameWorldsGoOn }
    ensures in_order { StepsAreInOrder }
{
    blob_core::steps_hold();
    rows::links_name_nodes();
    rows::no_holes();
    rows::page_bytes_stay();
    rows::leaves_fill();
    rows::newest_is_greatest();
    rows::row_keys_exact();
    rows::backs_step();
    rows::older_versions_stay();
    walks::links_find();
    walks::links_step();
    walks::weaver_finds();
    walks::visited_are_few();
}

/// One put of 1 byte up to a page's size, through a door that stored it, is a step, after which the page is there; there is always a number for it.
pub fn pages_are_put()
    ensures put { PagePutsAreSteps }
    ensures go_on { NumbersGoOn }
{}

/// The turns of a create and of a branch are steps where they are done, and none where they are refused or find no memory. The turn of a look
/// is no step at all.
pub fn turns_are_steps()
    ensures creates { CreatesAreSteps }
    ensures branches { BranchesAreSteps }
    ensures looks { LooksAreNoSteps }
{
    worlds_agree();
}

/// The turn of a numbering is a step, in each world that has the pages of the update. The world keeps the hints that the ticket has.
pub fn numberings_are_steps()
    ensures { NumberingsAreSteps }
{
    worlds_agree();
}

/// The turn of a finish is a step, in each world that has the nodes of the row. A version that waits was numbered in its own blob, for good.
pub fn finishes_are_steps()
    ensures finishes { FinishesAreSteps }
    ensures own { WaitingAreOwn }
{
    worlds_agree();
}

/// The hints of a ticket that the desk hands out tell published updates of its blob, and do so in each longer history: so a weaver may go by
/// them, whatever happens meanwhile.
pub fn hints_stay()
    ensures { HintsStay }
{
    blob_model::laws::old_versions_stay();
}

/// A world has a page that an update stored anew only where the version before the update is published.
pub fn folds_follow()
    ensures { FoldsFollow }
{
    worlds_agree();
}

/// One put of a page that an update stores anew, and one put of a node that `tree_weaver::plan` gave, are steps, where a leaf that stores its page
/// anew comes after the page. The page's bytes and the node are those that the world makes of its own hints, pages and nodes.
pub fn puts_are_steps()
    ensures fold { FoldPutsAreSteps }
    ensures node { NodePutsAreSteps }
{
    worlds_agree();
    blob_core::steps_hold();
    rows::extents_hold();
    rows::folds_are();
    rows::leaves_fill();
    rows::logs_are_grown();
    rows::newest_has_node();
    rows::newest_is_greatest();
}

/// The turn of a read is a step. Its walk, which comes later and takes no turn, brings what the world's own walk does in each later world, by
/// at most the visit bound.
pub fn reads_are_steps()
    ensures reads { ReadsAreSteps }
    ensures walks { WalksAgree }
{
    worlds_agree();
    blob_core::steps_hold();
    blob_model::laws::old_versions_stay();
}

/// Each history of a desk has a world. So what the other laws say of each world of a history is said of something, and `blob_core::steps_hold`
/// speaks of each such history.
///
/// What the program's commands hand on is such a history: that of `run`, `files`, `load` and `watch` comes about by the acts of its sessions, from
/// the empty world on: for each event in its order the puts of the session that made it and then its turn. Which puts of other sessions come
/// between is left open.
pub fn histories_have_worlds()
    ensures worlds { HistoriesHaveWorlds }
    ensures together { SessionsTogether }
{
    worlds_agree();
    worlds_only_grow();
    blob_core::steps_hold();
}
