//! Tests of pages: where they are placed, and how doors store and fetch them, one after another and on threads.
#![tactic(auto)]

#[cfg(test)]
mod beside;
#[cfg(test)]
mod fan;
#[cfg(test)]
mod house;
#[cfg(test)]
mod loads;
#[cfg(test)]
mod pages;
#[cfg(test)]
mod placement;
