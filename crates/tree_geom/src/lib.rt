//! The geometry of a blob: pages, the pages that an update touches, and the ranges and nodes of a version's tree; and the
//! counter of the nodes that a walk visits.
//!
//! Offsets and sizes are in bytes, `first` and `last` are page numbers, and all count from 0. No call takes memory.
#![tactic(auto)]

pub mod laws;
mod node;
mod page;
mod range;
mod steps;
mod touch;

pub use node::{Node, NodeKey, Piece};
pub use page::{PageSize, height, span, span_stands};
pub use range::{Range, halves, range_of_page};
pub use steps::Steps;
pub use touch::{Touch, covers_page, meets, touched};
