//! What stays true of a session's tickets, and what bounds its reads. A law is the contract of a function that does nothing.
ghost use Rattle.client_session.specs.Bounds.{FoldNumberIsSixteen, BacksAreFew, VisitsAreBounded};
ghost use Rattle.client_session.specs.Finishing.{TicketsStayHere};

/// A ticket whose numbering a session has seen stays one, whatever the session sees then.
pub fn tickets_stay_here()
    ensures { TicketsStayHere }
{}

/// How many nodes a read visits at most: 17 for each page that its bytes meet, and 2 for each level of the version's tree. A page
/// is stored anew before a sixteenth back is needed.
pub fn reads_are_bounded()
    ensures fold { FoldNumberIsSixteen }
    ensures backs { BacksAreFew }
    ensures visits { VisitsAreBounded }
{
    range_log::laws::folds_are();
}
