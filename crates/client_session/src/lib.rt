//! Sessions of a shared store: what a client's calls do, and what they are answered, while other clients go on.
//!
//! A client wants to append, write, read and branch as if it were alone, and many do so at once. The session puts an act
//! together from steps of the layers below, and keeps what must not be lost in between.
//!
//! - A [`Shared`] store is what all sessions have in common: the houses of pages and of nodes, the loads of the providers,
//!   and the version manager's desk. Its [`Owner`] gives a [`Pass`] for each session, and closes the store in the end.
//! - A [`Session`] works with one pass and with doors of its own. An update is made in four steps: its pages are stored; it
//!   is numbered, in one turn of the desk; its tree nodes are stored; it is finished, in a second turn. One of more than one page
//!   looks first whether the store would refuse it, and so does each one of a session that was refused its last. A read takes one turn, in which it gets the version's snapshot, and then goes
//!   through the tree without any lock. It keeps the snapshot, and a read of that version or one below takes no turn then.
//! - An update that stores a page of the blob anew reads it from the version before it, so its nodes are stored once that is
//!   published: by a fresh ticket, for which it takes one turn more.
//! - A *ticket* is the session's hold on an update that is numbered and not finished. [`Session::start`] gives it to the
//!   client, and `append` and `write` keep it where memory is refused halfway, and where the version before the update waits or a
//!   page is lost that it stores anew: [`Session::finish`] does what is left. A session that ends hangs up, and finishes what it
//!   holds, since an unfinished version keeps those above it unpublished. What a session left that is gone any other one finishes:
//!   [`Session::repair`], or [`Session::ticket_for`] and [`Session::finish_with`].
//! - A *gap* is what others did between two of the session's turns. Each answer is the definition's answer on what the
//!   session had seen, then a gap of others' events, and then its own.
//!
//! ```text
//! let (shared, owner) = Shared::new(alloc, limits, page_size, providers, replicas)?;
//! let mut session = Session::new(alloc, &shared, &gate, pass, doors)?; // or pass and doors back
//! let blob = session.create(rt)?;
//! let updated = session.append(rt, blob, bytes)?;        // Done tells the version, where the bytes fell, and the size; or Held
//! let held = session.start(rt, blob, Place::Append, more)?;
//! let published = session.finish(rt, held.ticket)?;      // published, once the versions below are finished too
//! let published = session.repair(rt, blob, 7)?;          // whoever numbered version 7
//! session.hang_up(rt);
//! ```
#![tactic(auto)]

mod done;
mod finishing;
mod hanging_up;
mod held;
pub mod laws;
mod limit;
mod reading;
mod saying;
mod serve;
mod session;
mod shared;
mod updating;
mod waking;

pub use blob_model::{Bytes, Limits, Outcome, Place};
pub use done::{Done, HangUp, Started, Updated};
pub use page_fan::Doors;
pub use page_store::{PlainDoor, PlainMaker};
pub use ports::gate::FreeGate;
pub use request_form::{Fault, NoMemory, Reply, Request, Service};
pub use session::Session;
pub use shared::{Shared, SharedOut};
pub use tree_geom::PageSize;
pub use version_manager::{Look, Owner, Pass};
