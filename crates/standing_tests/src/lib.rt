//! Tests of standing readers, which read published snapshots on a board without a turn: what no clause says.
#![tactic(auto)]

#[cfg(test)]
mod calls;
#[cfg(test)]
mod crowd;
#[cfg(test)]
mod rows;
#[cfg(test)]
mod standing;
#[cfg(test)]
mod store;
