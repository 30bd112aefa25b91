//! What holds of every legal history of a load.

ghost use Rattle.workload_law.specs.Laws.{SummariesHold, LoadsReadBack, RefusedWhenFull, OpeningsGoOn, LoadsAreUnderway, BeginningsAreUnderway, BlobsAreThere, StoppedHaveBegun};
ghost use Rattle.workload_law.specs.Numbered.{VersionsHaveOneCaller, NumberedStays};
ghost use Rattle.workload_law.specs.Ends.{CreatesEnd, UpdatesEnd, FinishesEnd, HindrancesStay, LeavesAdd, StopsLater, HoldsLater, HoldsStay, HoldsItsOwn, LooksLeaveNone, ReportsLeave};
ghost use Rattle.workload_law.specs.Closing.{SeenAlone, NobodysAreNone, OpeningsAreFirst, OwnsStay, IdleOwnsAll, NothingElseHindersOpenings, NothingElseHinders, ReadsAreShort};
ghost use Rattle.workload_law.specs.Sessions.{GapsHaveNoOwn, EventsAreOwn, NumberingsAreOwn, UpdatesAreOwn, NumbersItsOwn, FinishesStayOwn, ReportsStayOwn, NobodyElseFinishes};

/// Every load comes to its plan's summary: nothing waits, each worker's records stand in the log once each and in order, each
/// cell lies at its place in the grid, and the sizes, versions and sums are the plan's.
pub fn summaries_hold()
    ensures { SummariesHold }
{}

/// After every load, a look at the most recent version of both blobs is not refused, and what it gives comes to the plan's
/// summary.
pub fn loads_read_back()
    ensures { LoadsReadBack }
{}

/// A load is refused nothing for good: its opening is accepted, and at every moment, also where workers stopped early, both
/// blobs are there and the workers' updates are refused only where too many updates wait.
pub fn loads_go_on()
    ensures opening { OpeningsGoOn }
    ensures full { RefusedWhenFull }
    ensures loads { LoadsAreUnderway }
    ensures beginnings { BeginningsAreUnderway }
    ensures there { BlobsAreThere }
    ensures stopped { StoppedHaveBegun }
{}

/// Each version was numbered by one caller. So where each caller finishes only what it numbered, nobody's update is finished by
/// another.
pub fn versions_have_one_caller()
    ensures one { VersionsHaveOneCaller }
    ensures stays { NumberedStays }
{}

/// What a session's calls make of its own events: a gap adds none, an update its numbering and its finish, any other change
/// its one event. Where every caller
/// finishes only what it numbered, no update is found finished by another.
pub fn sessions_own()
    ensures gaps { GapsHaveNoOwn }
    ensures events { EventsAreOwn }
    ensures numberings { NumberingsAreOwn }
    ensures updates { UpdatesAreOwn }
    ensures numbers { NumbersItsOwn }
    ensures stay { FinishesStayOwn }
    ensures reports { ReportsStayOwn }
    ensures nobody { NobodyElseFinishes }
{}

/// A new blob of a session is made or was hindered; an update is done, or is held back under a ticket, or is to be tried again as too
/// many updates of its blob wait, or was hindered; the finish of an update that is held is done, or is to be tried again as the
/// version before it waits, or was hindered. A page that an update lost is one of its bytes, or one of the blob that begins before
/// the update ends there.
pub fn calls_end()
    ensures creates { CreatesEnd }
    ensures updates { UpdatesEnd }
    ensures finishes { FinishesEnd }
    ensures stay { HindrancesStay }
{
    blob_model::laws::finished_by_events();
    blob_model::laws::old_versions_stay();
}

/// What a session's calls leave of its own events, one after another: a look nothing, a report a finish or nothing. An update is
/// held as long as they leave nothing.
pub fn calls_leave()
    ensures add { LeavesAdd }
    ensures stops { StopsLater }
    ensures holds { HoldsLater }
    ensures held { HoldsStay }
    ensures held_own { HoldsItsOwn }
    ensures looks { LooksLeaveNone }
    ensures reports { ReportsLeave }
{}

/// What is known of a load's history once all passes came back: what the first caller saw alone, whose finishes are whose, and
/// that nothing but the outside hinders the opening or a worker. A page that was lost then begins within the bytes to which the log
/// and the grid come.
pub fn loads_close()
    ensures alone { SeenAlone }
    ensures none { NobodysAreNone }
    ensures first { OpeningsAreFirst }
    ensures own { OwnsStay }
    ensures idle { IdleOwnsAll }
    ensures openings { NothingElseHindersOpenings }
    ensures workers { NothingElseHinders }
{
    blob_model::laws::old_versions_stay();
}

/// A read is no longer than was asked for.
pub fn reads_are_short()
    ensures { ReadsAreShort }
{}
