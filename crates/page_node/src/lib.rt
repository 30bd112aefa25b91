//! Page nodes: a provider of pages that is asked by frames.
//!
//! A node keeps pages and is asked for them by frames. A put adds a page and tells its place, from 0; a get gives bytes of one.
//!
//! - A [`Shelf`] is what a node keeps. [`serve_node`] answers a stream of frames from it, by the loop that serves every stream.
//! - The module [`saying`] frames what a node is asked and what it answers, for those that speak to one.
#![tactic(auto)]

ghost use Rattle.std.specs.Prelude.{◌≡◌};

mod asking;
mod form;
pub mod saying;
mod serving;
mod shelf;

pub use asking::{MAX_FRAME, number_at};
pub use form::{NodeFault, NodeHeard, NodeReply, NodeRequest};
pub use serving::serve_node;
pub use shelf::Shelf;
