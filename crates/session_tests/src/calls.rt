//! The calls of a session, each in a function that promises at most that the store stays: what the calls promise is proved of them, and
//! would stand in every goal of these tests. Where no blob is named it is blob 1.
ghost use Rattle.std.specs.Prelude.{◌≡◌};

use crate::store::Plain;
use blob_model::{Outcome, Place, Refusal};
use client_session::{HangUp, Session, Updated};
use page_fan::BesideDoor;
use ports::gate::{FreeGate, Gate};
use request_form::Fault;
use std::process::Abort;
use std::sync::Wait;
use std::thread::Threads;

/// Makes the next blob.
pub(crate) fn create<G: Gate, R: Wait + Abort>(rt: &R, session: &mut Plain<'_, G>)
    ensures { session.new.store ≡ session.old.store }
{
    session.create(rt).expect(rt, "a blob");
}

/// Appends.
pub(crate) fn append<G: Gate, R: Threads + Wait + Sync>(
    rt: &R,
    session: &mut Plain<'_, G>,
    bytes: &[u8],
) -> Result<Updated, Fault>
    ensures { session.new.store ≡ session.old.store }
{
    session.append(rt, 1, bytes)
}

/// Starts an update of a blob, and gives the number of its ticket.
pub(crate) fn start<D: BesideDoor, G: Gate, R: Threads + Wait + Sync + Abort>(
    rt: &R,
    session: &mut Session<'_, D, G>,
    blob: u64,
    place: Place,
    bytes: &[u8],
) -> u64
    ensures { session.new.store ≡ session.old.store }
{
    let started = session.start(rt, blob, place, bytes);
    started.expect(rt, "a ticket").ticket
}

/// Finishes the update of a ticket, and answers what is published then.
pub(crate) fn finish<G: Gate, R: Threads + Wait + Sync>(
    rt: &R,
    session: &mut Plain<'_, G>,
    ticket: u64,
) -> Result<u64, Fault> {
    session.finish(rt, ticket)
}

/// Finishes a version that some session numbered, and answers what is published then.
pub(crate) fn repair<G: Gate, R: Threads + Wait + Sync>(
    rt: &R,
    session: &mut Plain<'_, G>,
    version: u64,
) -> Result<u64, Fault>
    ensures { session.new.store ≡ session.old.store }
{
    session.repair(rt, 1, version)
}

/// Gives up all tickets.
pub(crate) fn hang_up<D: BesideDoor, G: Gate, R: Threads + Wait + Sync>(
    rt: &R,
    session: &mut Session<'_, D, G>,
) -> HangUp {
    session.hang_up(rt)
}

/// Looks whether a version waits: the version, and the least unfinished one.
pub(crate) fn pending<G: Gate, R: Wait>(
    rt: &R,
    session: &mut Plain<'_, G>,
    version: u64,
) -> Option<(u64, u64)>
    ensures { session.new.store ≡ session.old.store }
{
    match session.sync(rt, 1, version) {
        Outcome::Refused(Refusal::Pending { version, held }) => Some((version, held)),
        _ => None,
    }
}

/// Waits until a version is published, and answers which.
pub(crate) fn sync_wait<G: Gate, R: Wait>(
    rt: &R,
    session: &mut Plain<'_, G>,
    version: u64,
) -> Option<u64> {
    match session.sync_wait(rt, 1, version) {
        Outcome::Synced(version) => Some(version),
        _ => None,
    }
}

/// The greatest published version of a blob, and its size.
pub(crate) fn recent<G: Gate, R: Wait>(rt: &R, session: &mut Plain<'_, G>) -> Option<(u64, u64)> {
    match session.recent(rt, 1) {
        Outcome::Recent { version, size } => Some((version, size)),
        _ => None,
    }
}

/// The three numbers of a status: the last numbered version, the greatest published one, and the least unfinished one or 0.
pub(crate) fn status_of(outcome: &Outcome) -> Option<(u64, u64, u64)> {
    match outcome {
        Outcome::Status {
            assigned,
            published,
            held,
        } => Some((*assigned, *published, *held)),
        _ => None,
    }
}

/// How far the updates of a blob are, in the three numbers of a status.
pub(crate) fn status<G: Gate, R: Wait>(
    rt: &R,
    session: &mut Plain<'_, G>,
) -> Option<(u64, u64, u64)>
    ensures { session.new.store ≡ session.old.store }
{
    let outcome = session.status(rt, 1);
    status_of(&outcome)
}

// Writes bytes from byte 0 of a blob on.
fn write<R: Threads + Wait + Sync + Abort>(
    rt: &R,
    session: &mut Plain<'_, FreeGate>,
    blob: u64,
    bytes: &[u8],
) {
    session.write(rt, blob, 0, bytes).expect(rt, "a write");
}

/// Makes a blob of two bytes, of which the first is then written so many times.
pub(crate) fn written<R: Threads + Wait + Sync + Abort>(
    rt: &R,
    session: &mut Plain<'_, FreeGate>,
    blob: u64,
    times: u32,
) {
    create(rt, session);
    write(rt, session, blob, b"ab");
    for _ in 0..times {
        write(rt, session, blob, b"x");
    }
}

/// What was told is as it must be. In a call of its own an assertion costs its caller no branch.
pub(crate) fn check<T: PartialEq + Drop, R: Abort>(rt: &R, told: T, expected: T, what: &str) {
    assert!(rt; told == expected, "{what}");
}
