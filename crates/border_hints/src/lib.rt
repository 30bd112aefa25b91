//! What a writer is told when its update is numbered, and the links over the border of its row that follow from it.
//!
//! A [`Ticket`] stands for what all updates up to its version touch: those of the published snapshot, those that wait, and
//! its own. From these alone [`borders`] finds the newest version of each range that the update's nodes link to and that the
//! update itself doesn't touch, so no writer waits for another one's nodes.
//!
//! They tell as well how deep the update's leaves lie. The depth of a leaf is how many backs lead on from it, one after
//! another, to a leaf that has none.
#![tactic(auto)]

mod border;
mod descent;
mod known;
mod ticket;

pub use border::Borders;
pub use descent::borders;
pub use ticket::{Hints, Ticket};
