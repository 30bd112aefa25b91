//! What speaks to a page node: the door of a session to a node at the other end of a stream, and such a stream in memory.
//!
//! - A [`StreamDoor`] is a session's way to a node: a `Door` over any stream that is a source and a sink. Doors over a
//!   [`BesideLink`] serve sessions.
//! - A [`LoopLink`] is such a stream in memory, with a shelf of its own at the other end.
//! - A [`LoopMaker`] makes doors over such links.
#![tactic(auto)]

ghost use Rattle.std.specs.Prelude.{◌≡◌};

mod beside;
mod door;
mod loop_link;
mod loop_maker;
mod own;
mod turn;
mod wire;

pub use beside::{BYTES_A_THREAD, BesideLink};
pub use door::StreamDoor;
pub use loop_link::LoopLink;
pub use loop_maker::LoopMaker;
