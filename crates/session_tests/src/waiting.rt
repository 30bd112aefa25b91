//! Two sessions on two threads, of which one is held at its number and the other one waits for it.

use crate::calls::{append, check, create, pending, recent, status, sync_wait};
use crate::gate::Barrier;
use crate::store::{Plain, plain_session, store_of};
use client_session::{Done, Updated};
use ports::gate::Point;
use request_form::{Reply, Request, Service};
use std::process::Abort;
use std::sync::Wait;
use std::thread;
use std::thread::Threads;

type Member<'a> = Plain<'a, Barrier>;

// Reads nothing of version 0, and answers how many bytes came.
fn read_nothing<R: Threads + Wait + Sync>(rt: &R, session: &mut Member<'_>) -> Option<usize> {
    let nothing = Request::Read {
        blob: 1,
        version: 0,
        offset: 0,
        length: 0,
    };
    match session.answer(rt, nothing) {
        Reply::Content { bytes } => Some(bytes.len()),
        _ => None,
    }
}

// What an append of the version is told that ends at that size.
fn appended(version: u64, at: u64, size: u64) -> Updated {
    Updated::Done(Done { version, at, size })
}

// The second session goes on while the first has its number and is held: it appends, reads and is told for whom its version waits.
fn go_on<R: Threads + Wait + Sync + Abort>(rt: &R, session: &mut Member<'_>) {
    let numbered = Some((1, 0, 1));
    check(
        rt,
        status(rt, session),
        numbered,
        "the first has its number",
    );
    let done = Ok(appended(2, 3, 5));
    check(rt, append(rt, session, b"de"), done, "the second");
    check(rt, read_nothing(rt, session), Some(0), "version 0");
    let held = Some((2, 1));
    check(rt, pending(rt, session, 2), held, "waits for the first");
}

// Then it lets the first go on, and waits until its own version is published.
fn go_on_and_wait<R: Threads + Wait + Sync + Abort>(
    rt: &R,
    gate: &Barrier,
    session: &mut Member<'_>,
) {
    check(rt, gate.has_come(), true, "the first is held");
    go_on(rt, session);
    gate.release();
    check(rt, sync_wait(rt, session, 2), Some(2), "published");
}

// The first session appends, and is held at its number.
fn append_first<R: Threads + Wait + Sync + Abort>(rt: &R, session: &mut Member<'_>) {
    let done = Ok(appended(1, 0, 3));
    check(rt, append(rt, session, b"abc"), done, "the first");
}

fn work_beside<R: Threads + Wait + Sync + Abort>(
    rt: &R,
    gate: &Barrier,
    one: &mut Member<'_>,
    two: &mut Member<'_>,
) {
    create(rt, one);
    let ((), ()) = thread::join(
        rt,
        || append_first(rt, one),
        || go_on_and_wait(rt, gate, two),
    );
    check(rt, gate.ran_out(), false, "held until it was released");
    check(rt, recent(rt, two), Some((2, 5)), "both published");
}

#[test]
fn a_session_that_waits_goes_on_once_another_has_finished(rt: HostRuntime) {
    let alloc = rt.alloc();
    let gate = Barrier::new(Point::Numbered, 1);
    let (shared, mut owner) = store_of(&rt, alloc, 3, 2);
    let mut one = plain_session(&rt, alloc, &shared, &mut owner, &gate);
    let mut two = plain_session(&rt, alloc, &shared, &mut owner, &gate);
    work_beside(&rt, &gate, &mut one, &mut two);
}
