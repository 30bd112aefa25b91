//! Tests of files over blobs: the tree of names, and sessions of files beside each other.
#![tactic(auto)]

#[cfg(test)]
mod crowd;
#[cfg(test)]
mod heard;
#[cfg(test)]
mod names;
#[cfg(test)]
mod store;
