//! The kinds of step on the table, each with what it tells the seat that makes it.
ghost use Rattle.turn_lock.specs.Told.{drew, looked, booked, passed, settled, dealt, newcomer, gathered};
ghost use Rattle.turn_lock.specs.Turns.{gone};

use crate::journal::Journaled;
use crate::view::Known;
use atomic_table::{Join, Play, Split};

/// Draws a number.
pub struct Draw;

impl<S: Journaled> Play<S, Known<S::Entry, S::Fixed>> for Draw {
    ghost then = { drew };
}

/// Looks whose turn it is, and takes the state where it is its own.
pub struct Look;

impl<S: Journaled> Play<S, Known<S::Entry, S::Fixed>> for Look {
    ghost then = { looked S.history S.fixed };
}

/// Counts the entries that the act added.
pub struct Book;

impl<S: Journaled> Play<S, Known<S::Entry, S::Fixed>> for Book {
    ghost then = { booked S.history };
}

/// Passes the turn on, and gives the state back.
pub struct PassOn;

impl<S: Journaled> Play<S, Known<S::Entry, S::Fixed>> for PassOn {
    ghost then = { passed };
}

/// Splits a new pass off the owner's seat.
pub struct Deal;

impl<E, F> Split<Known<E, F>> for Deal {
    ghost left = { dealt };

    ghost right = { newcomer };
}

/// Joins a pass to the owner's seat. The table tells nothing at this load.
pub struct Gather;

impl<E, F> Join<Known<E, F>> for Gather {
    ghost both = { gathered };

    ghost spent = { gone };
}

/// The second load of a join, which tells how the two lists lie.
pub struct Settle;

impl<S: Journaled> Play<S, Known<S::Entry, S::Fixed>> for Settle {
    ghost then = { settled };
}
