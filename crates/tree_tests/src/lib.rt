//! Tests of trees: pages and ranges, shared lists, whole plans, visit bounds told before a read, which stored page holds a byte, and
//! the order of publication; reads over nodes and rows that are built by hand, and by several threads.
#![tactic(auto)]

#[cfg(test)]
mod blob;
#[cfg(test)]
mod bounds;
#[cfg(test)]
mod geometry;
#[cfg(test)]
mod holders;
#[cfg(test)]
mod lists;
#[cfg(test)]
mod nodes;
#[cfg(test)]
mod pages;
#[cfg(test)]
mod plain;
#[cfg(test)]
mod plans;
#[cfg(test)]
mod row_list;
#[cfg(test)]
mod walk;
#[cfg(test)]
mod window;
