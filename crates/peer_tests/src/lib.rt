//! Tests of ports over a network: one that the test plays with a clock of its own, and sockets. Which peers are handed on, and how long
//! one is waited for.
#![tactic(auto)]

#[cfg(test)]
mod played;
#[cfg(test)]
mod tcp;
#[cfg(test)]
mod waiting;
