//! Nodes of version trees in the house that all writers share, and the row of one update: all nodes that it adds to its blob's tree,
//! its stored pages, and the pages that it stores anew.
//!
//! A node is put through a shared reference, by one atomic step, and never changes; it is read without a lock while other threads put
//! more. What was put stands for the nodes for all time and in every thread.
#![tactic(auto)]

mod folds;
mod house;
mod index;
mod parts;
mod puts;
mod row;
mod run;
mod shape;
mod slots;
mod stored;

pub use faults::NoMemory;
pub use folds::Folds;
pub use house::{NodeHouse, NodeRef, RowNodes};
pub use parts::LeafParts;
pub use row::Row;
pub use tree_geom::{Node, NodeKey, Piece, Range, Touch};
