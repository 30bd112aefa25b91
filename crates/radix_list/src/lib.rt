//! A list of shared items that shares its nodes with the list it was made from, all but a few.
//!
//! Its items stand in the leaves of a tree of four levels, whose nodes have up to 32 children each, and the last few in slots that
//! are set once, of which there are as many at most as a leaf has room for. Lists that grow from one another share the slots: a push
//! sets the next one. Where another list has set it, the items in the slots are shared out into slots of its own, and where there are
//! no more, they go into a leaf, and the nodes on the path to it are made anew. A node never changes, and any number of lists may
//! share it.
#![tactic(auto)]

mod branch;
mod grown;
mod list;
mod packed;
mod puts;

pub use faults::NoMemory;
pub use list::RadixList;
