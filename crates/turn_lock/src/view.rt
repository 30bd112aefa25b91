//! What a seat at the table knows. These types are for proofs alone: no value of them is made.
use std::collections::LinkedList;

/// Where a seat stands. `E` is the type of an entry.
pub enum Stage<E> {
    /// The seat was taken back.
    Gone,
    /// The owner's seat: how many callers it gave, and those that it keeps.
    Owns(u32, LinkedList<u32>),
    /// The owner's seat in the midst of a join: the same, the caller that it takes in, and what that caller had seen.
    Joins(u32, LinkedList<u32>, u32, LinkedList<(u32, E)>),
    /// A pass between two turns.
    Idle,
    /// A pass that has drawn this number, which counts on past 2^64.
    Waits(u64),
    /// A pass whose number is the turn's. The slot is out with it.
    Inside(u64),
}

/// What a seat knows. `F` is the type of the fixed data.
pub struct Known<E, F> {
    /// The caller, or 0 at the owner's seat.
    pub caller: u32,
    /// The prefix of the history that was seen, each entry with its caller.
    pub seen: LinkedList<(u32, E)>,
    /// What no act changes. Only a seat that was taken back has none.
    pub fixed: Option<F>,
    /// How many turns the seat has had: it drew their numbers and passed them on.
    pub turns: u64,
    /// Where the seat stands.
    pub stage: Stage<E>,
}
