//! Which updates a window stands for as it goes on. The law is the contract of a function that does nothing.
ghost use Rattle.publisher.specs.Laws.{NewStands, NumberedStands, FinishedStands, PublishedRowsAre, PublishedLogIs, PublishedCounts};

/// A window stands for the updates that its rows are of: a new one for those of its snapshot, and each call takes it on. Its
/// published versions have the rows of these updates, and touch what its log begins with.
pub fn windows_stand()
    ensures new { NewStands }
    ensures numbered { NumberedStands }
    ensures finished { FinishedStands }
    ensures published { PublishedRowsAre }
    ensures logs { PublishedLogIs }
    ensures counts { PublishedCounts }
{
    range_log::laws::older_versions_stay();
    snapshot::laws::rows_stay();
    snapshot::laws::rows_tell();
}
