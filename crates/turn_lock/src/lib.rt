//! A ticket lock whose state keeps a history that only grows. Who holds a pass knows a prefix of the history, and that whatever was added since is of other callers.
#![tactic(auto)]

mod journal;
mod plays;
mod rule;
mod steps;
mod turn;
mod view;

pub use faults::NoMemory;
pub use journal::{Act, Journaled};
pub use turn::{CloseRefused, Owner, Pass, PassFault, Turn};
