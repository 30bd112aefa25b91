//! A session's doors to all providers, and pages that are put at several of them and read from whichever gives them. [`store_bytes`]
//! places the bytes of an update by the loads of the providers and stores them, before the update is numbered; [`store_page`] one page.
#![tactic(auto)]

mod beside;
mod cutting;
mod doors;
mod fetching;
mod joining;
mod listing;
mod putting;
mod stand;
mod storing;
mod writing;

pub use beside::{BesideDoor, put_all_groups};
pub use doors::Doors;
pub use fetching::fetch;
pub use stand::{Put, PutReply, Stand};
pub use storing::{StoreFault, store};
pub use writing::{store_bytes, store_page};
