//! What ties a stored row to the blob's updates. Each law is the contract of a function that does nothing.
ghost use Rattle.tree_weaver.specs.Laws.{StoredRowsAreRows};

/// A row with the planned nodes of a ticket, the ticket's pages, and the bytes of the pages that it stores anew, is the row
/// of the update, in each list of updates that the ticket stands for and whose bytes are those of the pages.
pub fn stored_rows_are_rows()
    ensures { StoredRowsAreRows }
{
    range_log::laws::logs_are_grown();
}
