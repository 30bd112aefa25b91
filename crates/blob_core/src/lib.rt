//! Every interleaving of a blob store's acts: a world that changes by atomic steps, and what holds of it after every list of
//! allowed steps.
//!
//! A step is one act of one actor: a page is put, an update is numbered, a page that an update stores anew is put, a node is put,
//! an update is finished, a blob is made or branched, a version is read. The definitions in `specs/` say when a step is allowed and what it leaves. [`steps_hold`]
//! is the theorem over all lists of steps, and [`replay`] computes the world of a list, or tells the first step that isn't
//! allowed. This crate isn't linked into the program, whose parts are specified by the same definitions and whose acts are
//! these steps.
#![tactic(auto)]

mod acts;
mod blobs;
mod finds;
mod folds;
mod laws;
mod leaves;
mod nodes;
mod pages;
mod replaying;
mod state;
mod step;
mod updates;
mod walk;
mod world;

pub use laws::steps_hold;
pub use range_log::NoMemory;
pub use replaying::{ReplayFault, replay};
pub use step::{PageList, Step};
pub use world::World;
