//! Which reads go by the board, and when it is full.
ghost use Rattle.std.specs.Prelude.{◌≡◌, ◌+◌, ◌≤◌, ◌∷◌, []};
ghost use Rattle.client_session.specs.Sessions.{IsOwnerOf};
ghost use Rattle.standing_tests.specs.Boards.{MayRefresh};

use crate::calls::{append_after, begin, create, learn, read, refresh};
use crate::store::{Client, new_board, new_session, new_store};
use client_session::{Owner, Shared};
use page_store::PlainDoor;
use ports::gate::FreeGate;
use read_board::{Keeper, RefreshFault, Stand, StandingReader, Way};
use request_form::Fault;
use std::alloc::Global;
use std::process::Abort;
use std::sync::Wait;
use std::thread::Threads;

type Standing<'a> = StandingReader<'a, PlainDoor, FreeGate>;

// What a reader that learnt of version 2 reads: versions 2 and 1, a range past the end of version 1, and version 3. Each update has a
// part of one page, so that a read goes back for each byte that the newer leaves lack.
fn reads_rightly<R: Wait>(rt: &R, reader: &mut Standing<'_>) -> bool {
    read(rt, reader, 2, 3, 29) == Some((true, Way::Board, 2))
        && read(rt, reader, 1, 0, 16) == Some((true, Way::Board, 1))
        && read(rt, reader, 1, 1, 16).is_none()
        && read(rt, reader, 3, 5, 43) == Some((true, Way::Turn, 3))
}

// The next reader of the stand has a place, and reads by the board.
fn check_next<W: Wait + Drop, R: Wait + Abort>(
    rt: &R,
    keeper: &mut Keeper<W>,
    stand: &mut Stand,
    session: Client<'_>,
)
    requires board { stand.old.board ≡ keeper.old.board }
    requires session { stand.old.board.store ≡ session.store ∷ [] }
    requires left { 1 ≤ stand.old.left }
    ensures board { stand.new.board ≡ stand.old.board }
    ensures left { stand.new.left + 1 ≡ stand.old.left }
    ensures keeper { keeper.new ≡ keeper.old }
{
    let mut reader = stand.reader(session);
    assert!(rt; reader.has_place());
    learn(rt, keeper, &mut reader);
    keeper.meet(&reader);
    assert!(rt; reads_rightly(rt, &mut reader));
}

// Both readers of a board of two, to which the keeper put two versions of three.
fn check_two<R: Threads + Wait + Sync + Abort>(
    rt: &R,
    alloc: Global,
    shared: &Shared,
    owner: &mut Owner,
)
    requires { IsOwnerOf shared.now owner.old }
{
    let (mut keeper, mut session, mut stand, mut writer) = new_board(rt, alloc, shared, owner, 2);
    begin(rt, &mut writer, &mut keeper, &mut session, 2);
    assert!(rt; append_after(rt, &mut writer, 2));
    let first = new_session(rt, alloc, shared, owner);
    check_next(rt, &mut keeper, &mut stand, first);
    let second = new_session(rt, alloc, shared, owner);
    check_next(rt, &mut keeper, &mut stand, second);
}

#[test]
fn both_readers_of_a_board_of_two_have_a_place(rt: HostRuntime) {
    let (shared, mut owner) = new_store(&rt, rt.alloc());
    check_two(&rt, rt.alloc(), &shared, &mut owner);
}

// How many new blobs the keeper refreshes, one after another, until it is refused.
fn fill<W: Wait + Drop, R: Wait + Abort>(
    rt: &R,
    keeper: &mut Keeper<W>,
    session: &mut Client<'_>,
) -> u64
    requires { MayRefresh keeper.old session.old }
    ensures { MayRefresh keeper.new session.new }
{
    for before in 0..100 {
        let blob = create(rt, keeper, session).expect(rt, "a blob");
        match refresh(rt, keeper, session, blob) {
            Ok(version) => assert!(rt; version == 0),
            Err(fault) => {
                assert!(rt; fault == RefreshFault::BoardFull);
                return before;
            }
        }
    }
    100
}

// What the keeper of a full board answers: of blobs that are on it, and of others, which may be missing.
fn check_full<R: Wait + Abort>(rt: &R, alloc: Global, shared: &Shared, owner: &mut Owner)
    requires { IsOwnerOf shared.now owner.old }
{
    let (mut keeper, mut session, _stand, _writer) = new_board(rt, alloc, shared, owner, 1);
    let missing = RefreshFault::Fault(Fault::NoBlob { blob: 1 });
    assert!(rt; refresh(rt, &mut keeper, &mut session, 1) == Err(missing));
    assert!(rt; fill(rt, &mut keeper, &mut session) == 64);
    assert!(rt; refresh(rt, &mut keeper, &mut session, 64) == Ok(0));
    assert!(rt; refresh(rt, &mut keeper, &mut session, 65) == Err(RefreshFault::BoardFull));
    assert!(rt; refresh(rt, &mut keeper, &mut session, 66) == Err(RefreshFault::BoardFull));
}

#[test]
fn the_65th_blob_finds_the_board_full(rt: HostRuntime) {
    let (shared, mut owner) = new_store(&rt, rt.alloc());
    check_full(&rt, rt.alloc(), &shared, &mut owner);
}
