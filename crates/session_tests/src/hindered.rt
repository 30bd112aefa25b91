//! What a session counts that gives up its tickets while some finishes are hindered.

use crate::calls::{check, create, hang_up, start, written};
use crate::store::{Flaky, Plain, flaky_session, plain_session, store_of};
use blob_model::Place;
use client_session::HangUp;
use ports::gate::FreeGate;
use std::process::Abort;
use std::sync::Wait;
use std::thread::Threads;

// Each door takes two calls, and fails at those after them.
const LATER: [u64; 6] = [3, 4, 5, 6, 7, 8];

const FIRST: Place = Place::WriteAt(0);

// Version 17 of blob 1 and that of blob 2 store their page anew. The doors fail at the page that is read for the first of them, and the
// version before the second waits. Blob 3 has no bytes before its first version. Thirty-five pages are placed by then, of which the last
// three come to each provider twice.
fn start_all<R: Threads + Wait + Sync + Abort>(
    rt: &R,
    plain: &mut Plain<'_, FreeGate>,
    flaky: &mut Flaky<'_>,
) {
    written(rt, plain, 1, 15);
    written(rt, plain, 2, 14);
    create(rt, plain);
    start(rt, plain, 2, FIRST, b"x");
    for blob in 1..4 {
        start(rt, flaky, blob, FIRST, b"x");
    }
}

#[test]
fn a_session_that_hangs_up_counts_what_hindered_each_finish(rt: HostRuntime) {
    let alloc = rt.alloc();
    let (shared, mut owner) = store_of(&rt, alloc, 3, 2);
    let mut plain = plain_session(&rt, alloc, &shared, &mut owner, &FreeGate);
    let mut flaky = flaky_session(&rt, alloc, &shared, &mut owner, &LATER);
    start_all(&rt, &mut plain, &mut flaky);
    let expected = HangUp {
        finished: 1,
        no_memory: 0,
        pending: 1,
        page_fault: 1,
    };
    check(&rt, hang_up(&rt, &mut flaky), expected, "what hindered");
}
