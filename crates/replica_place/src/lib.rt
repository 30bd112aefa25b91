//! Where the replicas of a stored page go: to the providers that carry least.
//!
//! Providers are numbered from 1, and the load of provider `p` is element `p - 1` of the loads.
//! A load counts the replicas that a provider was given so far. No call takes memory.
#![tactic(auto)]

mod choice;
mod placement;

pub use choice::choose;
pub use placement::{MOST_REPLICAS, Placement};
