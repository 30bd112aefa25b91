//! What a load and a watch come to, whatever the order in which their workers come.
//!
//! Of a load, caller 1 makes a log and a grid. Then workers run beside each other: each appends its records to the log, and writes its
//! cells into the grid. The laws of `laws` are over legal histories alone, and so over every interleaving of the workers. The
//! other functions are the plain parts of the program that runs a load: what a worker writes, what is counted in the end, and
//! the lines in which it is told.
//!
//! Of a watch, caller 1 makes a blob. Then one writer appends to it, while a keeper puts its published snapshots on a board and readers
//! read them. `watch_laws` has what holds of it.
#![tactic(auto)]

ghost use Rattle.std.specs.Prelude.{◌≡◌};

pub mod laws;
mod pieces;
mod plan;
mod said;
pub mod watch_laws;
mod watch_plan;
mod watch_said;

pub use pieces::{byte_sum, cell, in_order, record};
pub use plan::{LoadPlan, Summary};
pub use said::load_lines;
pub use watch_plan::{WatchPlan, WatchSummary};
pub use watch_said::watch_lines;
