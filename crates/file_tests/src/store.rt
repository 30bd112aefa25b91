//! A store with names for tests, and sessions of it.
ghost use Rattle.client_session.specs.Sessions.{IsOwnerOf};

use blob_model::Limits;
use client_session::{Owner, Session, Shared};
use page_fan::Doors;
use page_store::{PlainDoor, PlainMaker};
use ports::gate::FreeGate;
use std::alloc::Global;
use std::process::Abort;
use tree_geom::PageSize;

/// A store with no blobs, and its owner: pages of four bytes, three providers, two replicas of each page.
pub(crate) fn new_store<R: Abort>(rt: &R, alloc: Global) -> (Shared, Owner)
    ensures { IsOwnerOf result.0 result.1 }
{
    let p = PageSize::new(4).expect(rt, "four bytes");
    Shared::new(alloc, Limits::greatest(), p, 3, 2).expect(rt, "memory")
}

/// A new session of a store, with the next pass of its owner.
pub(crate) fn new_session<'a, R: Abort>(
    rt: &R,
    alloc: Global,
    shared: &'a Shared,
    owner: &mut Owner,
    gate: &'a FreeGate,
) -> Session<'a, PlainDoor, FreeGate>
    requires { IsOwnerOf shared.now owner.old }
    ensures { IsOwnerOf shared.now owner.new }
{
    let doors = Doors::new(alloc, &mut PlainMaker::new(), shared.providers()).expect(rt, "memory");
    let pass = shared.pass(owner).expect(rt, "a pass");
    let made = Session::new(alloc, shared, gate, pass, doors);
    made.ok().expect(rt, "memory")
}
