//! Streams of items: what the bytes of a stream say, item by item, and the bytes that are still to be read.
//!
//! [`lines`] reads items that are lines, and [`frames`] those that are frames, wherever a stream is cut into pieces. Neither keeps more of
//! an item that is certainly wrong than it has to. What an item's bytes say, and how they are kept as they come, is a `Body`'s, of which
//! each has its own trait. [`number`] reads a number in decimal digits.
#![tactic(auto)]

ghost use Rattle.std.specs.Prelude.{◌≡◌};

mod begun_frame;
mod begun_line;
mod chunk;
mod digits;
mod ending;
mod frame;
mod frame_body;
pub mod frames;
mod line;
mod line_body;
pub mod lines;
mod part;

pub use chunk::Chunk;
pub use digits::number;
pub use ending::Ending;
