//! A store, and sessions of it whose doors fail or don't.
ghost use Rattle.std.specs.Prelude.{◌≡◌};
ghost use Rattle.provider_manager.specs.Book.{AreCounts};
ghost use Rattle.client_session.specs.Sessions.{IsOwnerOf, session_of};
ghost use Rattle.workload_run.specs.Updates.{IsReady};

use crate::calls::status_of;
use blob_model::Limits;
use client_session::{Owner, Session, Shared};
use page_fan::Doors;
use page_store::{DoorMaker, FlakyDoor, FlakyMaker, PlainDoor, PlainMaker};
use ports::gate::{FreeGate, Gate};
use std::alloc::Global;
use std::process::Abort;
use tree_geom::PageSize;

/// A session whose doors don't fail.
pub(crate) type Plain<'a, G> = Session<'a, PlainDoor, G>;

/// A session whose doors fail at some calls.
pub(crate) type Flaky<'a> = Session<'a, FlakyDoor, FreeGate>;

/// A store with no blobs, and its owner: pages of four bytes, and so many providers and replicas of each page.
pub(crate) fn store_of<R: Abort>(
    rt: &R,
    alloc: Global,
    providers: u32,
    replicas: u32,
) -> (Shared, Owner)
    requires { AreCounts providers replicas }
    ensures { IsOwnerOf result.0 result.1 }
{
    let p = PageSize::new(4).expect(rt, "a page size");
    Shared::new(alloc, Limits::greatest(), p, providers, replicas).expect(rt, "memory")
}

// The next session of a store, with doors of that maker.
fn session_by<'a, M: DoorMaker, G: Gate, R: Abort>(
    rt: &R,
    alloc: Global,
    shared: &'a Shared,
    owner: &mut Owner,
    maker: &mut M,
    gate: &'a G,
) -> Session<'a, M::Door, G>
where
    M::Door: Drop,
    requires owner { IsOwnerOf shared.now owner.old }
    requires true_doors { M.is_true maker.old }
    ensures store { result.store ≡ shared.now }
    ensures ready { IsReady (session_of result) }
    ensures owner { IsOwnerOf shared.now owner.new }
{
    let doors = Doors::new(alloc, maker, shared.providers()).expect(rt, "memory");
    let pass = shared.pass(owner).expect(rt, "a pass");
    let made = Session::new(alloc, shared, gate, pass, doors);
    made.ok().expect(rt, "memory")
}

/// The next session of a store, with plain doors.
pub(crate) fn plain_session<'a, G: Gate, R: Abort>(
    rt: &R,
    alloc: Global,
    shared: &'a Shared,
    owner: &mut Owner,
    gate: &'a G,
) -> Plain<'a, G>
    requires owner { IsOwnerOf shared.now owner.old }
    ensures store { result.store ≡ shared.now }
    ensures owner { IsOwnerOf shared.now owner.new }
{
    session_by(rt, alloc, shared, owner, &mut PlainMaker::new(), gate)
}

/// The next session of a store, with a door to each of its providers that fails at those calls.
pub(crate) fn flaky_session<'a, R: Abort>(
    rt: &R,
    alloc: Global,
    shared: &'a Shared,
    owner: &mut Owner,
    failing: &[u64],
) -> Flaky<'a>
    requires owner { IsOwnerOf shared.now owner.old }
    ensures ready { IsReady (session_of result) }
    ensures owner { IsOwnerOf shared.now owner.new }
{
    let mut lists = Vec::new(alloc);
    for _ in 0..shared.providers() {
        let list = failing.to_vec(alloc).expect(rt, "memory");
        lists.push(list).expect(rt, "memory");
    }
    session_by(
        rt,
        alloc,
        shared,
        owner,
        &mut FlakyMaker::new(alloc, lists),
        &FreeGate,
    )
}

/// Ends a session of the store, and gives its pass back.
pub(crate) fn end_session(session: Plain<'_, FreeGate>, shared: &Shared, owner: &mut Owner)
    requires session { session.store ≡ shared.now }
    requires owner { IsOwnerOf shared.now owner.old }
    ensures { IsOwnerOf shared.now owner.new }
{
    let (pass, doors) = session.into_parts();
    shared.take_back(owner, pass);
    doors.back(&mut PlainMaker::new());
}

/// How far the updates of blob 1 are on the desk of a store whose sessions have all ended.
pub(crate) fn closed_status<R: Abort>(
    rt: &R,
    shared: Shared,
    owner: Owner,
) -> Option<(u64, u64, u64)>
    requires { IsOwnerOf shared owner }
{
    let desk = shared.close(owner).ok().expect(rt, "every pass came back");
    let outcome = desk.status(1);
    status_of(&outcome)
}
