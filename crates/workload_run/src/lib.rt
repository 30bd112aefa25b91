//! A load, in which many workers append records to one shared log and write cells of one shared grid, each by a session of its own;
//! and a watch, in which a writer appends to one blob, a keeper puts its published snapshots on a board, and standing readers read them
//! without a turn, all beside each other. What they come to is the same at every schedule. Both are made of updates of a session from
//! their first try to their end: an update is done again while too many of its blob wait, and finished later where it is held back.
#![tactic(auto)]

mod agreeing;
mod beside;
mod crew;
mod ending;
mod finishing;
mod keeping;
mod last;
mod loading;
mod looking;
mod making;
mod meeting;
mod notes;
mod opening;
mod reading;
mod starting;
mod trying;
mod updating;
mod waiting;
mod watch_crew;
mod watch_ending;
mod watch_making;
mod watching;
mod working;
mod writing;

pub use ending::EarlyEnd;
pub use loading::{LoadFault, load};
pub use notes::WatchNotes;
pub use updating::{Stopped, update};
pub use watching::{WatchFault, watch, watch_noted};
pub use workload_law::{WatchPlan, WatchSummary};
