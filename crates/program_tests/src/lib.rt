//! Tests of the program over doors that fail, also those of an update that stores a page anew, and over doors to page nodes; of the server, over
//! peers in memory; of the workers of a load; and of a watch by its own call. No call of the program can show these. Reads and writes that fail
//! are shown by scripts.
#![tactic(auto)]

#[cfg(test)]
mod calls;
#[cfg(test)]
mod crush;
#[cfg(test)]
mod doors;
#[cfg(test)]
mod folding;
#[cfg(test)]
mod meeting;
#[cfg(test)]
mod peers;
#[cfg(test)]
mod program;
#[cfg(test)]
mod scripts;
#[cfg(test)]
mod serving;
#[cfg(test)]
mod watching;
#[cfg(test)]
mod working;
