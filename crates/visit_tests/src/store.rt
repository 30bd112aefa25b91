//! A store, a session of it whose doors don't fail, and its calls, each in a function that promises little: what the calls promise is proved
//! of them, and would stand in every goal of these tests.
ghost use Rattle.std.specs.Prelude.{◌≡◌};
ghost use Rattle.client_session.specs.Sessions.{IsOwnerOf};

use blob_model::{Limits, Place};
use client_session::{Owner, Session, Shared, Updated};
use page_fan::Doors;
use page_store::{PlainDoor, PlainMaker};
use ports::gate::FreeGate;
use request_form::Fault;
use std::alloc::Global;
use std::process::Abort;
use std::sync::Wait;
use std::thread::Threads;
use tree_geom::PageSize;

/// A session whose doors don't fail.
pub(crate) type Member<'a> = Session<'a, PlainDoor, FreeGate>;

/// What was told is as it must be. In a call of its own an assertion costs its caller no branch.
pub(crate) fn check<T: PartialEq + Drop, R: Abort>(rt: &R, told: T, expected: T, what: &str) {
    assert!(rt; told == expected, "{what}");
}

/// A store with no blobs, and its owner: pages of so many bytes, three providers, two replicas of each page.
pub(crate) fn store_of<R: Abort>(rt: &R, alloc: Global, page_size: u64) -> (Shared, Owner)
    ensures { IsOwnerOf result.0 result.1 }
{
    let p = PageSize::new(page_size).expect(rt, "a page size");
    Shared::new(alloc, Limits::greatest(), p, 3, 2).expect(rt, "memory")
}

/// A session of a store, with the next pass of its owner.
pub(crate) fn new_session<'a, R: Abort>(
    rt: &R,
    alloc: Global,
    shared: &'a Shared,
    owner: &mut Owner,
) -> Member<'a>
    requires { IsOwnerOf shared.now owner.old }
{
    let doors = Doors::new(alloc, &mut PlainMaker::new(), shared.providers());
    let doors = doors.expect(rt, "memory");
    let pass = shared.pass(owner).expect(rt, "a pass");
    let made = Session::new(alloc, shared, &FreeGate, pass, doors);
    made.ok().expect(rt, "memory")
}

/// Makes the only blob of the store.
pub(crate) fn create<R: Wait + Abort>(rt: &R, session: &mut Member<'_>) {
    session.create(rt).expect(rt, "a blob");
}

fn try_update<R: Threads + Wait + Sync>(
    rt: &R,
    session: &mut Member<'_>,
    place: Place,
    bytes: &[u8],
) -> Result<Updated, Fault> {
    match place {
        Place::Append => session.append(rt, 1, bytes),
        Place::WriteAt(offset) => session.write(rt, 1, offset, bytes),
    }
}

/// Updates blob 1 at once.
pub(crate) fn update<R: Threads + Wait + Sync + Abort>(
    rt: &R,
    session: &mut Member<'_>,
    place: Place,
    bytes: &[u8],
) {
    let updated = try_update(rt, session, place, bytes);
    let is_done = matches!(updated, Ok(Updated::Done(_)));
    check(rt, is_done, true, "an update that is done at once");
}

/// Writes byte 0 of blob 1 once more.
pub(crate) fn overwrite<R: Threads + Wait + Sync + Abort>(rt: &R, session: &mut Member<'_>)
    ensures { session.new.store ≡ session.old.store }
{
    session
        .write(rt, 1, 0, b"z".as_slice())
        .expect(rt, "an update");
}
