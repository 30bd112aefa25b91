//! Tests of the world of atomic steps, and of the links that it works with.
#![tactic(auto)]

#[cfg(test)]
mod empty;
#[cfg(test)]
mod folds;
#[cfg(test)]
mod links;
#[cfg(test)]
mod orders;
#[cfg(test)]
mod steps;
#[cfg(test)]
mod worlds;
