//! What a versioned blob store answers to each call, over flat byte lists.
//!
//! The types are what crosses the store's edge: updates and events, calls, outcomes and refusals. The definitions in
//! `specs/` say what each call is answered, and what a history of events leaves.
#![tactic(auto)]

ghost use Rattle.std.specs.Prelude.{◌≡◌};

mod bytes;
mod call;
pub mod laws;
mod limits;

pub use bytes::Bytes;
pub use call::{Call, Event, Outcome, Place, Refusal};
pub use limits::Limits;
