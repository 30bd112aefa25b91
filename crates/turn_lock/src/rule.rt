//! The table that passes take turns on: three words, and a slot for the state.
use crate::journal::Journaled;
use crate::view::Known;
use atomic_table::{Seat, Shared, Table, TableRule};
use std::alloc::Global;
use std::snapshot::Snapshot;

/// Counts the turns drawn, modulo 2^64.
pub const DRAWN: usize = 0;

/// Counts the turns passed on, modulo 2^64: the number of the turn.
pub const PASSED: usize = 1;

/// Counts the entries of the history.
pub const ENTRIES: usize = 2;

/// The one slot, which has the state while no turn is held.
pub const STATE: usize = 0;

/// The rule of the table. Its key is the first state, from which the owner's view has the fixed data.
pub struct Turns;

impl<S: Journaled> TableRule<S, Known<S::Entry, S::Fixed>, Snapshot<S>> for Turns {
    ghost use Rattle.turn_lock.specs.Turns.{IsKept, opener};

    ghost holds = { λ _. IsKept S.history S.fixed };

    ghost first = { λ key. opener (S.fixed key.value) };
}

/// A seat at the table, of a pass or of the owner.
pub type TurnSeat<S> = Seat<S, Known<<S as Journaled>::Entry, <S as Journaled>::Fixed>>;

/// The table as all threads see it.
pub type TurnTable<S> = Shared<
    S,
    Known<<S as Journaled>::Entry, <S as Journaled>::Fixed>,
    Snapshot<S>,
    Turns,
>;

/// The table with its memory.
pub type Room<S> = Table<
    S,
    Known<<S as Journaled>::Entry, <S as Journaled>::Fixed>,
    Snapshot<S>,
    Turns,
    Global,
>;
