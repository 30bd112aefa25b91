//! The provider manager: how many replicas each provider was given, and where the pages of an update go.
//!
//! Providers are numbered from 1, and the load of provider `p` is element `p - 1` of a book's loads.
#![tactic(auto)]

mod book;
mod even;
mod loads;
mod placements;
mod shared;

pub use book::{LoadBook, MOST_PROVIDERS, MOST_REPLICAS_PLACED, PlaceFault};
pub use faults::NoMemory;
pub use placements::Placements;
pub use replica_place::Placement;
pub use shared::SharedLoads;
