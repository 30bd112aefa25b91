//! What refreshes hold, and what a reader that learnt of one reads. A law is the contract of a function that does nothing.
ghost use Rattle.read_board.specs.Laws.{ReadsAgree, RefreshesStay};
ghost use Rattle.read_board.specs.Telling.{BoardReadsTell, BoardReadsAgree};

/// What refreshes hold in a history they hold in each that goes on from it. So a session may go on between two refreshes.
pub fn refreshes_stay()
    ensures { RefreshesStay }
{
    blob_model::laws::old_versions_stay();
    range_log::laws::older_versions_stay();
    range_log::laws::extents_hold();
}

/// A reader whose list begins with what it learnt, and rises, reads each version up to a refresh that it learnt of from the
/// board, and its bytes are the content in each store whose updates that refresh holds, though it may go by a later refresh.
pub fn reads_agree()
    ensures { ReadsAgree }
{}

/// What a reader reads by the board is what the store answers, in each of its histories in which the version is published, earlier or
/// later, as it is of a read by a turn: so two reads of one version agree for ever, whichever way they took. The reader's list must be a
/// beginning of the keeper's (`Keeper::meet`), whose refreshes hold in what some session or the owner has seen (`Keeper::refresh`,
/// `refreshes_stay`).
pub fn board_reads_tell()
    ensures tell { BoardReadsTell }
    ensures agree { BoardReadsAgree }
{
    blob_model::laws::old_versions_stay();
    blob_model::laws::published_are_numbered();
}
