//! The outside of the store: streams that are read and written, listeners that hand out such streams, files, and the gate where a
//! session may be held up. Each has a form over std; those in memory, for tests,
//! are in `memory_ports`.
#![tactic(auto)]

ghost use Rattle.std.specs.Prelude.{◌≡◌};

mod accept;
mod account;
pub mod files;
pub mod gate;
pub mod host;
pub mod listener;
pub mod pair;
pub mod patience;
pub mod reader;
pub mod stream;
pub mod tcp;
pub mod writer;
