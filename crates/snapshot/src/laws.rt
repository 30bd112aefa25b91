//! What ties a snapshot to the updates of a blob. Each law is the contract of a function that does nothing.
ghost use Rattle.snapshot.specs.Laws.{RowsTell, OwnRowsStay, OwnRowsStood};

/// Rows that are those of a blob's updates tell these updates: where they fall, their bytes and what they leave.
pub fn rows_tell()
    ensures { RowsTell }
{
    range_log::laws::older_versions_stay();
}

/// The row of an update is its row among more updates too, and among fewer.
pub fn rows_stay()
    ensures more { OwnRowsStay }
    ensures fewer { OwnRowsStood }
{
    range_log::laws::older_versions_stay();
}
