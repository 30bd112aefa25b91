//! Tests of how many nodes a read looks at, and of snapshots that are held open. Each counts the node steps of reads of a new store.
#![tactic(auto)]

#[cfg(test)]
mod bounds;
#[cfg(test)]
mod parts;
#[cfg(test)]
mod plain;
#[cfg(test)]
mod store;
#[cfg(test)]
mod visits;
