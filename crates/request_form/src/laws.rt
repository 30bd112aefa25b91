//! Laws of answers and transcripts. A law is the contract of a function that does nothing.

ghost use Rattle.request_form.specs.Laws.{OwnIsAlone, AlwaysAnswered, AlwaysFed, OwnEventsAreMade, RunsMakeOwnEvents};
ghost use Rattle.request_form.specs.Laws.{LooksJoin, PublishedReadsStay, PublishedReadsAgree};
ghost use Rattle.request_form.specs.Laws.{GivingUpGoesOn, HangUpsHold, HungUpAreFinished};

/// A session that in the end has seen its own events alone was alone all along, and each list of items has a transcript
/// in which the outside failed for no request. Where the session's tickets are numbered there is one in which no reply to a
/// request tells that memory was wanting either.
pub fn transcripts_hold()
    ensures alone { OwnIsAlone }
    ensures always { AlwaysAnswered }
    ensures fed { AlwaysFed }
{
    blob_model::laws::old_versions_stay();
}

/// A session's own events after an answer are those before it and then the ones that the request made, as its reply tells.
/// Its caller stays, and it has seen more.
pub fn own_events_are_made()
    ensures { OwnEventsAreMade }
{}

/// The same of a whole run, whose items make their events one after another.
pub fn runs_make_own_events()
    ensures { RunsMakeOwnEvents }
{}

/// A look after a look is one that the first session could have had, with all that came in between as its gap.
pub fn looks_join()
    ensures { LooksJoin }
{}

/// Tickets that are given up one after another, and then one more.
pub fn giving_up_goes_on()
    ensures { GivingUpGoesOn }
{}

/// Hanging up leaves no ticket and 1 as the next number, counts each ticket that was held once, and adds to the session's
/// own events the finishes of the tickets whose reply was Finished, in their order.
pub fn hang_ups_hold()
    ensures { HangUpsHold }
{}

/// A ticket that hanging up counted as finished has its version finished in what the session has seen then.
pub fn hung_up_are_finished()
    ensures { HungUpAreFinished }
{
    blob_model::laws::old_versions_stay();
    blob_model::laws::finished_by_events();
}

/// A session that has seen a history answers a read of a version that is published there from the store of that history,
/// whatever has come since: the same bytes, or the same refusal, if nothing outside fails.
pub fn published_reads_stay()
    ensures { PublishedReadsStay }
{
    blob_model::laws::old_versions_stay();
    blob_model::laws::published_are_numbered();
}

/// Two sessions that have seen a history read the same bytes of a version that is published there.
pub fn published_reads_agree()
    ensures { PublishedReadsAgree }
{
    blob_model::laws::old_versions_stay();
    blob_model::laws::published_are_numbered();
}
