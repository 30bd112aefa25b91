//! Tests of the outside: streams in memory and over std, gates, listeners in memory, files.
#![tactic(auto)]

#[cfg(test)]
mod adapters;
#[cfg(test)]
mod drained;
#[cfg(test)]
mod files;
#[cfg(test)]
mod gate;
#[cfg(test)]
mod listener;
#[cfg(test)]
mod memory;
