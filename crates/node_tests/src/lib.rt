//! Tests of page nodes: how a stream to a node ends, and what a door to a node makes of what its link gives.
#![tactic(auto)]

#[cfg(test)]
mod doors;
#[cfg(test)]
mod gated;
#[cfg(test)]
mod links;
#[cfg(test)]
mod served;
