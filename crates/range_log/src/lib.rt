//! What the updates of a blob touch, version by version: the newest version of each range, the ranges of a version's row,
//! the laws of the links between the rows, and those of walks by them.
//!
//! A log is the list of what each update touches; version `j` is its item `j - 1`. The definitions of newest, row, backs and
//! visit bound stand in `specs/`, over plain lists. `newest` and `row_keys` are the plain programs that compute the first
//! two, and [`laws`] has what holds of every log. [`walks`] has what holds at each step of a walk from a version's root to the newest
//! version that touches a range, or down to the leaves of some pages, and how many nodes such a walk visits.
#![tactic(auto)]

mod fold;
mod index;
mod keys;
pub mod laws;
mod log;
mod open;
pub mod walks;

pub use faults::NoMemory;
pub use fold::{FOLD, deeper, fold_stands};
pub use index::index_in_row;
pub use keys::row_keys;
pub use log::newest;
pub use open::{OpenCopy, OpenList, OpenTouch};
