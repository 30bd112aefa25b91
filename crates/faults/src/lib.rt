//! Faults that many crates tell: want of memory, and counts of faults that rise and never fall.
#![tactic(auto)]

ghost use Rattle.std.specs.Prelude.{◌≡◌};

mod count;
mod no_memory;

pub use count::count_up;
pub use no_memory::NoMemory;
