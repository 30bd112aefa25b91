//! The row of a numbered update: its nodes planned from its ticket alone, and stored.
//!
//! A plan is the row that would be made of the whole list of the blob's updates, whichever version was published at the
//! numbering, with the depths of its leaves: how many backs lead on from each. [`plan`] and [`put_row`] are the two steps.
//!
//! [`weave`] takes both for an update that stores no page of the blob anew. [`weave_anew`] takes them also for one that does, once
//! the version before it is published: it reads those pages there and stores them first. [`folds_of_ticket`] tells which they are.
#![tactic(auto)]

mod folding;
pub mod laws;
mod node;
mod planning;
mod put;
mod weaving;

pub use folding::WeaveFault;
pub use node_store::NoMemory;
pub use planning::{PlannedRow, folds_of_ticket, plan};
pub use put::put_row;
pub use weaving::{weave, weave_anew};
