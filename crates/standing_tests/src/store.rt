//! A store for tests, and sessions of it.
ghost use Rattle.std.specs.Prelude.{◌≡◌, ◌≤◌, ◌∷◌, []};
ghost use Rattle.client_session.specs.Sessions.{IsOwnerOf};
ghost use Rattle.standing_tests.specs.Boards.{MayRefresh};

use blob_model::Limits;
use client_session::{Owner, Session, Shared};
use page_fan::Doors;
use page_store::{DoorMaker, PlainDoor, PlainMaker};
use ports::gate::FreeGate;
use read_board::{Board, Keeper, Stand};
use std::alloc::Global;
use std::process::Abort;
use std::sync::Wait;
use tree_geom::PageSize;

/// A session that works by itself.
pub(crate) type Client<'a> = Session<'a, PlainDoor, FreeGate>;

/// A store with no blobs, and its owner: pages of 64 bytes, three providers, two replicas of each page.
pub(crate) fn new_store<R: Abort>(rt: &R, alloc: Global) -> (Shared, Owner)
    ensures { IsOwnerOf result.0 result.1 }
{
    let p = PageSize::new(64).expect(rt, "64 bytes");
    Shared::new(alloc, Limits::greatest(), p, 3, 2).expect(rt, "memory")
}

/// A new session of a store, with the next pass of its owner and doors of that maker.
pub(crate) fn session_by<'a, M: DoorMaker, R: Abort>(
    rt: &R,
    alloc: Global,
    shared: &'a Shared,
    owner: &mut Owner,
    maker: &mut M,
) -> Session<'a, M::Door, FreeGate>
where
    M::Door: Drop,
    requires owner { IsOwnerOf shared.now owner.old }
    requires true_doors { M.is_true maker.old }
    ensures session { result.store ≡ shared.now }
    ensures owner { IsOwnerOf shared.now owner.new }
{
    let doors = Doors::new(alloc, maker, shared.providers()).expect(rt, "memory");
    let pass = shared.pass(owner).expect(rt, "a pass");
    let made = Session::new(alloc, shared, &FreeGate, pass, doors);
    made.ok().expect(rt, "memory")
}

/// The same with plain doors.
pub(crate) fn new_session<'a, R: Abort>(
    rt: &R,
    alloc: Global,
    shared: &'a Shared,
    owner: &mut Owner,
) -> Client<'a>
    requires owner { IsOwnerOf shared.now owner.old }
    ensures session { result.store ≡ shared.now }
    ensures owner { IsOwnerOf shared.now owner.new }
{
    session_by(rt, alloc, shared, owner, &mut PlainMaker::new())
}

/// A board of a store for so many readers: its keeper, the session by which it refreshes, the stand, and a session that writes.
pub(crate) fn new_board<'a, 'r, R: Wait + Abort>(
    rt: &'r R,
    alloc: Global,
    shared: &'a Shared,
    owner: &mut Owner,
    readers: u32,
) -> (Keeper<&'r R>, Client<'a>, Stand, Client<'a>)
    requires owner { IsOwnerOf shared.now owner.old }
    requires readers { (1 ≤ readers) × (readers ≤ 16) }
    ensures owner { IsOwnerOf shared.now owner.new }
    ensures may { MayRefresh result.0 result.1 }
    ensures stand { result.2 ≡ record { board = result.0.board; left = readers } }
    ensures store { result.0.board.store ≡ shared.now ∷ [] }
{
    let (keeper, stand) = Board::new(rt, alloc, shared, readers).expect(rt, "memory");
    let session = new_session(rt, alloc, shared, owner);
    let writer = new_session(rt, alloc, shared, owner);
    (keeper, session, stand, writer)
}
