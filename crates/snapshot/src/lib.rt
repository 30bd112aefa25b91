//! One published version of a blob: the rows of its updates, each proved to be the row of its update.
//!
//! What a snapshot means is a list of updates, from the first up to that of its version. Each of its rows tells one: a write
//! of the bytes of the row's pages, at the byte that the row keeps.
#![tactic(auto)]

pub mod laws;
mod version;
mod views;

pub use node_store::NoMemory;
pub use version::Snapshot;
pub use views::{RowView, View};
