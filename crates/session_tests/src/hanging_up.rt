//! What becomes of the tickets of a session that gives them up, and of one that ends without doing so.
ghost use Rattle.std.specs.Prelude.{◌≡◌};
ghost use Rattle.client_session.specs.Sessions.{IsOwnerOf};

use crate::calls::{append, check, create, finish, hang_up, pending, repair, start, status};
use crate::store::{Plain, closed_status, end_session, plain_session, store_of};
use blob_model::Place;
use client_session::{HangUp, Owner, Shared};
use ports::gate::FreeGate;
use std::process::Abort;
use std::sync::Wait;
use std::thread;
use std::thread::Threads;

type Member<'a> = Plain<'a, FreeGate>;

// Starts an append of one byte, whose ticket has that number.
fn start_one<R: Threads + Wait + Sync + Abort>(rt: &R, session: &mut Member<'_>, expected: u64)
    ensures { session.new.store ≡ session.old.store }
{
    let ticket = start(rt, session, 1, Place::Append, b"a");
    check(rt, ticket, expected, "the next ticket in a row");
}

fn append_one<R: Threads + Wait + Sync + Abort>(rt: &R, session: &mut Member<'_>)
    ensures { session.new.store ≡ session.old.store }
{
    append(rt, session, b"b").expect(rt, "an append");
}

// Appends a byte so many times.
fn append_times<R: Threads + Wait + Sync + Abort>(rt: &R, session: &mut Member<'_>, times: u32) {
    for _ in 0..times {
        append_one(rt, session);
    }
}

// Gives up so many tickets, where memory is found.
fn hang_up_all<R: Threads + Wait + Sync + Abort>(rt: &R, session: &mut Member<'_>, finished: u32) {
    let expected = HangUp {
        finished,
        no_memory: 0,
        pending: 0,
        page_fault: 0,
    };
    check(rt, hang_up(rt, session), expected, "all are finished");
}

// Starts three updates and gives them up; then starts one more.
fn start_and_hang_up<R: Threads + Wait + Sync + Abort>(rt: &R, session: &mut Member<'_>) {
    for number in 1..4 {
        start_one(rt, session, number);
    }
    hang_up_all(rt, session, 3);
    start_one(rt, session, 1);
}

// The first session makes the blob and gives up its tickets, while the second goes on.
fn hang_up_beside<R: Threads + Wait + Sync + Abort>(
    rt: &R,
    one: &mut Member<'_>,
    two: &mut Member<'_>,
) {
    create(rt, one);
    let ((), ()) = thread::join(
        rt,
        || start_and_hang_up(rt, one),
        || append_times(rt, two, 20),
    );
}

// The first finishes the update that it started in the end, and has nothing left to give up.
fn finish_last<R: Threads + Wait + Sync + Abort>(
    rt: &R,
    one: &mut Member<'_>,
    two: &mut Member<'_>,
) {
    check(rt, finish(rt, one, 1), Ok(24), "the last one");
    check(rt, status(rt, two), Some((24, 24, 0)), "all finished");
    hang_up_all(rt, one, 0);
}

#[test]
fn a_session_that_hangs_up_leaves_no_update_unfinished(rt: HostRuntime) {
    let alloc = rt.alloc();
    let (shared, mut owner) = store_of(&rt, alloc, 3, 2);
    let mut one = plain_session(&rt, alloc, &shared, &mut owner, &FreeGate);
    let mut two = plain_session(&rt, alloc, &shared, &mut owner, &FreeGate);
    hang_up_beside(&rt, &mut one, &mut two);
    finish_last(&rt, &mut one, &mut two);
}

// A session makes the blob and starts two updates, and ends without hanging up.
fn start_and_end<R: Threads + Wait + Sync + Abort>(
    rt: &R,
    mut session: Member<'_>,
    shared: &Shared,
    owner: &mut Owner,
)
    requires session { session.store ≡ shared.now }
    requires owner { IsOwnerOf shared.now owner.old }
    ensures { IsOwnerOf shared.now owner.new }
{
    create(rt, &mut session);
    start_one(rt, &mut session, 1);
    start_one(rt, &mut session, 2);
    end_session(session, shared, owner);
}

// Another session appends twice. It sees how far the updates are and what its last version waits for, and finishes what the first left.
fn append_and_repair<R: Threads + Wait + Sync + Abort>(rt: &R, session: &mut Member<'_>)
    ensures { session.new.store ≡ session.old.store }
{
    append_one(rt, session);
    append_one(rt, session);
    let held = Some((4, 0, 1));
    check(rt, status(rt, session), held, "held by the first");
    let waits = Some((4, 1));
    check(rt, pending(rt, session, 4), waits, "waits for the first");
    check(rt, repair(rt, session, 2), Ok(0), "the second repaired");
    check(rt, repair(rt, session, 1), Ok(4), "the first repaired");
}

#[test]
fn a_session_that_ends_without_hanging_up_holds_the_others_back_until_they_repair(rt: HostRuntime) {
    let alloc = rt.alloc();
    let (shared, mut owner) = store_of(&rt, alloc, 3, 2);
    let one = plain_session(&rt, alloc, &shared, &mut owner, &FreeGate);
    let mut two = plain_session(&rt, alloc, &shared, &mut owner, &FreeGate);
    start_and_end(&rt, one, &shared, &mut owner);
    append_and_repair(&rt, &mut two);
    end_session(two, &shared, &mut owner);
    let told = closed_status(&rt, shared, owner);
    check(&rt, told, Some((4, 4, 0)), "on the desk in the end");
}
