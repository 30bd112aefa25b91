// An entry of the stored history.

use blob_model::Place;
use page_store::Pages;
use std::sync::Arc;

/// One accepted change, with its caller. A numbering keeps the stored pages of its update and no bytes.
#[derive(Drop)]
pub(crate) enum Change {
    Create,
    Assign {
        blob: u64,
        place: Place,
        pages: Arc<Pages>,
    },
    Finish {
        blob: u64,
        version: u64,
    },
    Branch {
        blob: u64,
        version: u64,
    },
}

/// An entry of the history: who made the change, and what it was. A clause sees the event of the store.
#[derive(Drop)]
pub(crate) struct Entry {
    pub(crate) caller: u32,
    pub(crate) change: Change,
}
