//! The order in which the updates of one blob are published: in the order of their versions, whichever finishes first.
#![tactic(auto)]

pub mod laws;
mod moving;
mod slot;
mod window;

pub use node_store::NoMemory;
pub use window::{FinishFault, Window};
