//! The version manager: the blobs of a store, the numbering and the publication of their updates, and the history of all
//! that it accepted.
//!
//! Writers store pages and tree nodes without regard to each other. What must come in one order is small: which number an
//! update gets, and from when on its version may be read. That is decided here, at one place, in short turns in which no
//! bytes move.
//!
//! - A [`Desk`] has the blobs of a store. It numbers an update once its pages are stored, and gives a *ticket*: the version,
//!   the published snapshot, and what the waiting updates below it touch, which is all that is needed to build the version's
//!   tree. It finishes an update by its row of nodes. A version is *published* when its update and all those below it are
//!   finished; from then on its [`snapshot`](Desk::snapshot_of) can be had, and never changes.
//! - The *history* is the list of all that the desk accepted: blobs made and branched, updates numbered and finished, each
//!   under the caller who asked. What the desk answers is what the definition of the store answers on that list.
//! - A [`SharedDesk`] is a desk that many threads use by turns. A [`Pass`] is the right to take turns as one caller. What a
//!   pass has seen is a beginning of the one history; between two of its turns others may enter events, and that *gap* is
//!   what its next answer speaks of. The [`Owner`] makes passes, takes them back, and closes the desk.
//!
//! ```text
//! let (shared, mut owner) = SharedDesk::new(alloc, desk)?;
//! let mut pass = shared.pass(&mut owner)?;               // caller 1
//! let blob = shared.create(rt, &mut pass)?;              // one turn: the event is entered under caller 1
//! shared.take_back(&mut owner, pass);
//! let desk = shared.close(owner)?;                       // no pass is out: the history is what the owner has seen
//! ```
#![tactic(auto)]

mod acts;
mod blob;
mod desk;
mod entry;
mod fault;
mod history;
mod journal;
pub mod laws;
mod look;
mod looks;
mod shared;
mod waiting;

pub use desk::Desk;
pub use fault::{DeskFault, OpenFault};
pub use journal::DeskFixed;
pub use look::Look;
pub use shared::{DeskOut, Owner, Pass, SharedDesk};
