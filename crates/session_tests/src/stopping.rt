//! A worker of a load that stops at an update which it holds: it finishes the update before it lets it go, however often that is hindered.
ghost use Rattle.client_session.specs.Sessions.{session_of};
ghost use Rattle.workload_run.specs.Updates.{IsReady};

use crate::calls::{check, finish, start, status, written};
use crate::store::{Flaky, Plain, flaky_session, plain_session, store_of};
use blob_model::Place;
use ports::gate::FreeGate;
use request_form::Fault;
use std::process::Abort;
use std::sync::Wait;
use std::thread;
use std::thread::Threads;
use workload_run::{Stopped, update};

type Other<'a> = Plain<'a, FreeGate>;

// The worker's door takes the page of its update. It fails at the first read of the worker's first finish, and at that of the next one.
const TWICE: [u64; 2] = [2, 3];

// The worker writes byte 0 of blob 1.
fn updated<R: Threads + Wait + Sync>(rt: &R, worker: &mut Flaky<'_>) -> Result<(), Stopped>
    requires { IsReady (session_of worker.old) }
{
    update(rt, worker, 1, Place::WriteAt(0), b"y".as_slice())
}

// How often the other session looks whether the worker's update has its number.
const LOOKS: u32 = 100_000_000;

// Looks until the worker's update has its number, and lets it begin to wait then.
fn sees_worker<R: Wait>(rt: &R, session: &mut Other<'_>) -> bool {
    for _ in 0..LOOKS {
        if status(rt, session) == Some((17, 15, 16)) {
            return true;
        }
        thread::yield_now();
    }
    false
}

fn let_wait() {
    for _ in 0..10_000 {
        thread::yield_now();
    }
}

// Finishes the update of ticket 1, after the worker has begun to wait for it. Where no memory is found it tries again, since the worker
// would wait forever.
fn finish_late<R: Threads + Wait + Sync>(rt: &R, session: &mut Other<'_>) -> Result<u64, Fault> {
    if sees_worker(rt, session) {
        let_wait();
    }
    match finish(rt, session, 1) {
        Err(Fault::NoMemory) => finish(rt, session, 1),
        finished => finished,
    }
}

// What the worker is told of its update, and the other session of its finish beside it.
fn work_beside<'a, R: Threads + Wait + Sync>(
    rt: &R,
    worker: Flaky<'a>,
    other: &mut Other<'_>,
) -> (Result<(), Stopped>, Result<u64, Fault>)
    requires { IsReady (session_of worker) }
{
    thread::join(
        rt,
        move || -> Result<(), Stopped>
            requires { IsReady (session_of worker) }
        {
            let mut worker = worker;
            updated(rt, &mut worker)
        },
        || finish_late(rt, other),
    )
}

// The worker lost the page that it reads. Its last finish lost it again, or found the update finished, where the other session was so early
// that the worker never waited.
fn is_lost(told: &Result<(), Stopped>) -> bool {
    match told {
        Ok(()) => false,
        Err(Stopped { fault, left }) => {
            *fault == Fault::PageFault { page: 0 }
                && matches!(left, None | Some(Fault::PageFault { page: 0 }))
        }
    }
}

// The worker is told that it lost the page; and the other session's update is published by its finish.
fn work_both<'a, R: Threads + Wait + Sync + Abort>(rt: &R, worker: Flaky<'a>, other: &mut Other<'_>)
    requires { IsReady (session_of worker) }
{
    let (told, finished) = work_beside(rt, worker, other);
    check(rt, finished, Ok(16), "the version before");
    check(rt, is_lost(&told), true, "a lost page");
    check(rt, status(rt, other), Some((17, 17, 0)), "all finished");
}

// The other session holds version 16 under its ticket 1. The worker's update stores the page anew, for which it needs that version.
#[test]
fn a_worker_that_loses_pages_of_an_update_that_it_holds_finishes_it_and_stops(rt: HostRuntime) {
    let alloc = rt.alloc();
    let (shared, mut owner) = store_of(&rt, alloc, 1, 1);
    let mut other = plain_session(&rt, alloc, &shared, &mut owner, &FreeGate);
    let worker = flaky_session(&rt, alloc, &shared, &mut owner, &TWICE);
    written(&rt, &mut other, 1, 14);
    start(&rt, &mut other, 1, Place::WriteAt(0), b"x");
    work_both(&rt, worker, &mut other);
}
