//! Published snapshots on a board that a keeper fills, and readers that take them from there without a turn of the store's lock.
//!
//! `Board::new` makes a board of a store, with its one keeper and the stand from which its readers come. The keeper refreshes a blob by a
//! session of its own: it takes the snapshot of the greatest published version and puts it on the board. A standing reader reads each
//! version up to the last one that it knows of a blob by the board, and any other one by its session.
#![tactic(auto)]

mod author;
mod book;
mod chart;
mod keeper;
pub mod laws;
mod naming;
mod reader;
mod refresh;
mod refreshing;
mod shown;
mod stand;
mod standing;

pub use keeper::{Keeper, Note, RefreshFault};
pub use refresh::Refresh;
pub use stand::{Board, Stand};
pub use standing::{StandingReader, Way};
