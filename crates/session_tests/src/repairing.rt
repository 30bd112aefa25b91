//! A session finishes what another one numbered, while that finishes it too.

use crate::calls::{append, check, create, finish, repair, start};
use crate::gate::Barrier;
use crate::store::{Plain, plain_session, store_of};
use blob_model::Place;
use ports::gate::Point;
use request_form::Fault;
use std::alloc::Global;
use std::process::Abort;
use std::sync::Wait;
use std::thread;
use std::thread::Threads;

type Member<'a> = Plain<'a, Barrier>;

// Who is held where its update is woven, while the other session finishes that.
#[derive(Clone, Copy)]
enum Held {
    // The session that appends it.
    Writer,
    // A session that repairs what the other one started.
    Mender,
}

// The session that is held comes too late.
fn come_late<R: Threads + Wait + Sync + Abort>(rt: &R, session: &mut Member<'_>, held: Held) {
    let told = match held {
        Held::Writer => append(rt, session, b"abc").err(),
        Held::Mender => repair(rt, session, 1).err(),
    };
    check(rt, told, Some(Fault::Already { version: 1 }), "too late");
}

// Finishes version 1 by a ticket of its own.
fn finish_by_ticket<R: Threads + Wait + Sync>(rt: &R, session: &mut Member<'_>) -> Option<u64> {
    match session.ticket_for(rt, 1, 1) {
        Ok(ticket) => session.finish_with(rt, &ticket).ok(),
        Err(_) => None,
    }
}

// The other session finishes the update once the first has woven it and is held, and lets that go on.
fn come_first<R: Threads + Wait + Sync + Abort>(
    rt: &R,
    gate: &Barrier,
    session: &mut Member<'_>,
    held: Held,
) {
    check(rt, gate.has_come(), true, "held");
    let published = match held {
        Held::Writer => finish_by_ticket(rt, session),
        Held::Mender => finish(rt, session, 1).ok(),
    };
    check(rt, published, Some(1), "first");
    gate.release();
}

fn overtake<R: Threads + Wait + Sync + Abort>(
    rt: &R,
    gate: &Barrier,
    late: &mut Member<'_>,
    first: &mut Member<'_>,
    held: Held,
) {
    let ((), ()) = thread::join(
        rt,
        || come_late(rt, late, held),
        || come_first(rt, gate, first, held),
    );
}

fn overtake_one<R: Threads + Wait + Sync + Abort>(
    rt: &R,
    gate: &Barrier,
    one: &mut Member<'_>,
    two: &mut Member<'_>,
    held: Held,
) {
    create(rt, one);
    match held {
        Held::Writer => overtake(rt, gate, one, two, held),
        Held::Mender => {
            start(rt, one, 1, Place::Append, b"abc");
            overtake(rt, gate, two, one, held);
        }
    }
}

// The caller of that number is held.
fn hold<R: Threads + Wait + Sync + Abort>(rt: &R, alloc: Global, caller: u32, held: Held) {
    let gate = Barrier::new(Point::Woven, caller);
    let (shared, mut owner) = store_of(rt, alloc, 3, 2);
    let mut one = plain_session(rt, alloc, &shared, &mut owner, &gate);
    let mut two = plain_session(rt, alloc, &shared, &mut owner, &gate);
    overtake_one(rt, &gate, &mut one, &mut two, held);
}

#[test]
fn of_two_that_finish_an_update_at_once_the_first_does(rt: HostRuntime) {
    hold(&rt, rt.alloc(), 1, Held::Writer);
    hold(&rt, rt.alloc(), 2, Held::Mender);
}
