//! Tests of a store's desk: what it answers, tickets that it hands out anew, and the lock by which threads share it.
#![tactic(auto)]

#[cfg(test)]
mod desk;
#[cfg(test)]
mod repair;
#[cfg(test)]
mod shared_desk;
#[cfg(test)]
mod turn;
