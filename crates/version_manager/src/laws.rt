//! What stays true of a desk as it goes on. A law is the contract of a function that does nothing.
ghost use Rattle.version_manager.specs.Laws.{TicketsStay, UnfinishedStay, FinishedByGap, GapsAreOfOthers, EntriesAreEvents};

/// A ticket of a desk stays one of it, whatever is accepted after its numbering.
pub fn tickets_stay()
    ensures { TicketsStay }
{
    blob_model::laws::old_versions_stay();
}

/// An unfinished version stays unfinished, whatever is accepted but its own finish.
pub fn unfinished_stay()
    ensures { UnfinishedStay }
{}

/// A numbered version that is unfinished in what a pass has seen is finished after a gap exactly where the gap finishes it.
pub fn finished_by_gap()
    ensures { FinishedByGap }
{}

/// Where a pass has no entry in a gap, the gap's events are of other callers.
pub fn gaps_are_of_others()
    ensures { GapsAreOfOthers }
{}

/// The entries of a caller in a desk's history are its events there, in order.
pub fn entries_are_events()
    ensures { EntriesAreEvents }
{}
