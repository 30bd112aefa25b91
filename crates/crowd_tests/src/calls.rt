//! The calls of a session, each in a function that promises nothing: what the calls promise is proved of them, and would stand in every
//! goal of these tests. A call that is refused what it must be given ends the test.
ghost use Rattle.client_session.specs.Sessions.{IsOwnerOf};

use blob_model::{Bytes, Outcome, Place};
use client_session::{Done, Owner, Session, Shared, Started, Updated};
use page_fan::Doors;
use page_store::{PlainDoor, PlainMaker};
use ports::gate::FreeGate;
use request_form::{Fault, Reply, Request, Service};
use std::alloc::Global;
use std::process::Abort;
use std::sync::Wait;
use std::thread::Threads;

/// A session of the store.
pub(crate) type Member<'a> = Session<'a, PlainDoor, FreeGate>;

/// What was found is as it must be. In a call of its own an assertion costs its caller no branch.
pub(crate) fn check<T: PartialEq + Drop, R: Abort>(rt: &R, found: T, expected: T, what: &str) {
    assert!(rt; found == expected, "{what}");
}

/// A session with the next pass of the store.
pub(crate) fn new_member<'a, R: Abort>(
    rt: &R,
    alloc: Global,
    shared: &'a Shared,
    owner: &mut Owner,
) -> Member<'a>
    requires owner { IsOwnerOf shared.now owner.old }
    ensures { IsOwnerOf shared.now owner.new }
{
    let doors = Doors::new(alloc, &mut PlainMaker::new(), shared.providers());
    let doors = doors.expect(rt, "memory");
    let pass = shared.pass(owner).expect(rt, "a pass");
    let made = Session::new(alloc, shared, &FreeGate, pass, doors);
    made.ok().expect(rt, "memory")
}

/// The greatest published version of a blob, and its size.
pub(crate) fn recent<R: Wait>(rt: &R, member: &mut Member<'_>, blob: u64) -> Option<(u64, u64)> {
    match member.recent(rt, blob) {
        Outcome::Recent { version, size } => Some((version, size)),
        _ => None,
    }
}

/// The last numbered version of a blob, the greatest published one, and the least unfinished one or 0.
pub(crate) fn status<R: Wait>(
    rt: &R,
    member: &mut Member<'_>,
    blob: u64,
) -> Option<(u64, u64, u64)> {
    match member.status(rt, blob) {
        Outcome::Status {
            assigned,
            published,
            held,
        } => Some((assigned, published, held)),
        _ => None,
    }
}

/// The size of a version.
pub(crate) fn size<R: Wait>(
    rt: &R,
    member: &mut Member<'_>,
    blob: u64,
    version: u64,
) -> Option<u64> {
    match member.size(rt, blob, version) {
        Outcome::Size(size) => Some(size),
        _ => None,
    }
}

/// Makes a blob.
pub(crate) fn create<R: Wait + Abort>(rt: &R, member: &mut Member<'_>) -> u64 {
    member.create(rt).expect(rt, "a blob")
}

/// Branches a blob.
pub(crate) fn branch<R: Wait + Abort>(
    rt: &R,
    member: &mut Member<'_>,
    blob: u64,
    version: u64,
) -> u64 {
    member.branch(rt, blob, version).expect(rt, "a branch")
}

// Updates a blob at once, or holds the update.
fn try_update<R: Threads + Wait + Sync>(
    rt: &R,
    member: &mut Member<'_>,
    blob: u64,
    place: Place,
    bytes: &[u8],
) -> Result<Updated, Fault> {
    match place {
        Place::Append => member.append(rt, blob, bytes),
        Place::WriteAt(offset) => member.write(rt, blob, offset, bytes),
    }
}

// Finishes an update that stores a page anew, once the version before it is published.
fn finish_held<R: Threads + Wait + Sync + Abort>(
    rt: &R,
    member: &mut Member<'_>,
    blob: u64,
    started: Started,
) -> Done {
    wait_for(rt, member, blob, started.version.saturating_sub(1));
    member.finish(rt, started.ticket).expect(rt, "a finish");
    done_of(started)
}

/// Updates a blob, and waits for the version before where that is needed.
pub(crate) fn update<R: Threads + Wait + Sync + Abort>(
    rt: &R,
    member: &mut Member<'_>,
    blob: u64,
    place: Place,
    bytes: &[u8],
) -> Done {
    let updated = try_update(rt, member, blob, place, bytes);
    match updated.expect(rt, "an update") {
        Updated::Done(done) => done,
        Updated::Held(started) => finish_held(rt, member, blob, started),
    }
}

/// What an update will be once it is finished.
pub(crate) fn done_of(started: Started) -> Done {
    Done {
        version: started.version,
        at: started.at,
        size: started.size,
    }
}

/// Starts an update.
pub(crate) fn start<R: Threads + Wait + Sync + Abort>(
    rt: &R,
    member: &mut Member<'_>,
    blob: u64,
    place: Place,
    bytes: &[u8],
) -> Started {
    let started = member.start(rt, blob, place, bytes);
    started.expect(rt, "a ticket")
}

// Whether a finish came to what it may where other sessions repair.
fn is_well(finished: &Result<u64, Fault>) -> bool {
    matches!(
        finished,
        Ok(_) | Err(Fault::Already { .. }) | Err(Fault::Pending { .. })
    )
}

/// Finishes the update of a ticket, unless the version before it waits or another session has finished it.
pub(crate) fn try_finish<R: Threads + Wait + Sync + Abort>(
    rt: &R,
    member: &mut Member<'_>,
    ticket: u64,
) {
    let finished = member.finish(rt, ticket);
    check(rt, is_well(&finished), true, "a finish");
}

/// Repairs a version, unless the one before it waits or it is finished.
pub(crate) fn try_repair<R: Threads + Wait + Sync + Abort>(
    rt: &R,
    member: &mut Member<'_>,
    blob: u64,
    version: u64,
) {
    let finished = member.repair(rt, blob, version);
    check(rt, is_well(&finished), true, "a repair");
}

/// Repairs a version of which all before are published: it is finished then, by this session or by another before it.
pub(crate) fn repair<R: Threads + Wait + Sync + Abort>(
    rt: &R,
    member: &mut Member<'_>,
    blob: u64,
    version: u64,
) {
    let finished = member.repair(rt, blob, version);
    let is_finished = matches!(finished, Ok(_) | Err(Fault::Already { .. }));
    check(rt, is_finished, true, "every version is finished");
}

// Waits until the version is published.
fn wait_for<R: Wait + Abort>(rt: &R, member: &mut Member<'_>, blob: u64, version: u64) {
    let synced = member.sync_wait(rt, blob, version);
    let is_published = matches!(synced, Outcome::Synced(_));
    check(rt, is_published, true, "a publication");
}

fn content_of(reply: Reply) -> Option<Bytes> {
    match reply {
        Reply::Content { bytes } => Some(bytes),
        _ => None,
    }
}

/// The first `size` bytes of a version, once it is published.
pub(crate) fn read<R: Threads + Wait + Sync + Abort>(
    rt: &R,
    member: &mut Member<'_>,
    blob: u64,
    version: u64,
    size: u64,
) -> Bytes {
    wait_for(rt, member, blob, version);
    let request = Request::Read {
        blob,
        version,
        offset: 0,
        length: size,
    };
    let reply = member.answer(rt, request);
    content_of(reply).expect(rt, "a read")
}
