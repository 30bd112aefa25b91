//! Reads bytes of a published version: a walk by links that takes no lock and no memory, in a number of node steps that is
//! bounded beforehand. `stated` tells that bound before the read, and `holder` the stored page that a byte lies in.
//!
//! [`read_range`] reads bytes of a version into a buffer of their own, and [`read_ranges`] those of many ranges, of which
//! [`first_past`] finds the first that ends past the size. [`Opened`] keeps snapshots, by which the versions that were opened once are
//! read again.
//!
//! The walk begins at the version's root, visits once each inner node above a page of the range, and comes to the newest leaf
//! of each such page. There it goes on along the backs for the bytes that the newer leaves lack. The bytes go straight into the caller's
//! buffer.
#![tactic(auto)]

mod bound;
mod descent;
mod gap;
mod known;
mod locate;
mod marks;
mod opened;
mod page;
mod piece;
mod ranges;
mod reader;
mod source;
mod walk;
mod whole;

pub use bound::stated;
pub use known::KnownNode;
pub use locate::holder;
pub use marks::ReadRoom;
pub use node_store::NoMemory;
pub use opened::Opened;
pub use ranges::{RangeFault, first_past, read_range, read_ranges};
pub use reader::{ReadFault, read, read_version};
pub use source::ReadSource;
