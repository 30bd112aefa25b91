//! A server of many connections: a listener's peers are served by a pool of workers, each of which has a session of the store.
#![tactic(auto)]

ghost use Rattle.std.specs.Prelude.{◌≡◌};

mod bell;
mod new_peer;
mod peer;
mod pool;
mod queue;
mod server;
mod service;
mod sessions;
mod tally;
mod task;

pub use peer::serve_peer;
pub use server::{ServeFault, serve};
