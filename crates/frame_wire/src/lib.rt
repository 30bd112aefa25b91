//! Requests and replies as frames of bytes: which requests they spell, and how replies are framed.
//!
//! A stream of frames is read by `FrameDialect`. A stream whose first frame is a hello goes on in frames of version 2, which may be
//! longer and have two more operations. What it hears is the definition `heard` of the bytes that it was fed,
//! wherever they were cut into pieces, and a reply is framed as `said` tells.
#![tactic(auto)]

ghost use Rattle.std.specs.Prelude.{◌≡◌};

pub mod bytes;
mod dialect;
mod fields;
pub mod head;
mod number;
mod operation;
mod pairs;
mod reply;
mod second;
mod spoken;

pub use dialect::FrameDialect;
pub use request_form::Operation;
