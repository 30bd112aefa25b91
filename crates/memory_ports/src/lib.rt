//! The outside in memory, for tests: streams, files and a listener that tell all of themselves, and fail where they are told to.
#![tactic(auto)]

ghost use Rattle.std.specs.Prelude.{◌≡◌};

mod files;
mod listener;
mod plan;
mod streams;

pub use files::MemFiles;
pub use listener::MemListener;
pub use streams::{MemSink, MemSource};
