//! Requests and their operations, replies, what a session may answer, and the traits of services and dialects.
#![tactic(auto)]

ghost use Rattle.std.specs.Prelude.{◌≡◌};

mod dialect;
mod form;
pub mod laws;
mod operation;
mod ranges;
mod service;

pub use dialect::{Dialect, Head, Said};
pub use faults::NoMemory;
pub use form::{Ending, Fault, Heard, Reply, Request};
pub use items::Chunk;
pub use operation::Operation;
pub use ranges::RangeList;
pub use service::Service;
