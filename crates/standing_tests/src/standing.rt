//! A reader that stands in a read by the board while the keeper publishes.
ghost use Rattle.std.specs.Prelude.{◌≡◌};
ghost use Rattle.client_session.specs.Sessions.{IsOwnerOf};
ghost use Rattle.standing_tests.specs.Boards.{MayRefresh};

use crate::calls::{Told, append_after, begin, learn, read, refresh};
use crate::store::{Client, new_board, new_store, session_by};
use client_session::{Owner, Session, Shared};
use page_store::{Door, DoorMaker, GetAnswer, NoMemory, PageHouse, PageRef, PutAnswer};
use ports::gate::FreeGate;
use read_board::{Keeper, RefreshFault, StandingReader, Way};
use std::alloc::Global;
use std::process::Abort;
use std::sync::Wait;
use std::sync::atomic::{AtomicBool, Ordering};
use std::thread;
use std::thread::{Threads, join};

// How often one looks whether the other came.
const LOOKS: u32 = 100_000_000;

// Where a reader and a keeper meet.
#[derive(Drop)]
struct Meeting {
    came: AtomicBool,
    may_go: AtomicBool,
}

// Waits until the flag is raised, for so many looks at most. Whether it is.
fn wait_for(flag: &AtomicBool) -> bool {
    for _ in 0..LOOKS {
        if flag.load(Ordering::SeqCst) {
            return true;
        }
        thread::yield_now();
    }
    false
}

// A door whose first fetch tells that it began, and waits until it may go on.
#[derive(Drop)]
struct StandingDoor<'a> {
    meeting: &'a Meeting,
    faults: u64,
}

impl<'a> Door for StandingDoor<'a> {
    ghost use Rattle.std.specs.Prelude.{⊤};

    ghost is_true = { λ _. ⊤ };

    ghost faults = { λ d. d.faults };

    ghost called = { λ _ _. ⊤ };

    fn put<R: Wait>(&mut self, rt: &R, house: &PageHouse, bytes: &[u8]) -> PutAnswer {
        let _faults = self.faults;
        match house.put(rt, bytes) {
            Ok(page) => PutAnswer::Stored(page),
            Err(NoMemory) => PutAnswer::NoMemory,
        }
    }

    fn get(&mut self, house: &PageHouse, page: &PageRef, from: u32, out: &mut [u8]) -> GetAnswer {
        self.meeting.came.store(true, Ordering::SeqCst);
        if wait_for(&self.meeting.may_go) {
            house.copy_to(page, from, out);
            return GetAnswer::Got;
        }
        self.faults = self.faults.saturating_add(1);
        GetAnswer::Failed
    }
}

// Makes such doors.
#[derive(Drop)]
struct StandingMaker<'a> {
    meeting: &'a Meeting,
    faults: u64,
}

impl<'a> DoorMaker for StandingMaker<'a> {
    ghost use Rattle.std.specs.Prelude.{⊤};

    type Door = StandingDoor<'a>;

    ghost is_true = { λ _. ⊤ };

    ghost faults = { λ m. m.faults };

    ghost makes = { λ _ _ _. ⊤ };

    ghost hands_out = { λ _ _. ⊤ };

    ghost takes_back = { λ _ _. ⊤ };

    fn make(&mut self, _provider: u32) -> Result<StandingDoor<'a>, NoMemory> {
        let _faults = self.faults;
        Ok(StandingDoor {
            meeting: self.meeting,
            faults: 0,
        })
    }

    fn back(&mut self, door: StandingDoor<'a>) {
        self.faults = self.faults.saturating_add(door.faults);
    }
}

// Publishes another version once the reader stands in its read, and only then lets it go on. Whether the reader had come, and what
// the refresh answered.
fn publish_meanwhile<R: Threads + Wait + Sync, W: Wait + Drop>(
    rt: &R,
    writer: &mut Client<'_>,
    keeper: &mut Keeper<W>,
    session: &mut Client<'_>,
    meeting: &Meeting,
) -> (bool, Result<u64, RefreshFault>)
    requires { MayRefresh keeper.old session.old }
{
    let has_come = wait_for(&meeting.came);
    let is_written = append_after(rt, writer, 1);
    let told = refresh(rt, keeper, session, 1);
    meeting.may_go.store(true, Ordering::SeqCst);
    (has_come && is_written, told)
}

// What the keeper and the reader of version 1 were told, beside each other.
fn stand_and_publish<'a, R: Threads + Wait + Sync, W: Wait + Drop + Send>(
    rt: &R,
    writer: Client<'a>,
    keeper: Keeper<W>,
    session: Client<'a>,
    reader: StandingReader<'a, StandingDoor<'a>, FreeGate>,
    meeting: &Meeting,
) -> ((bool, Result<u64, RefreshFault>), Told)
    requires { MayRefresh keeper session }
{
    join(
        rt,
        move || -> (bool, Result<u64, RefreshFault>)
            requires { MayRefresh keeper session }
        {
            let mut writer = writer;
            let mut keeper = keeper;
            let mut session = session;
            publish_meanwhile(rt, &mut writer, &mut keeper, &mut session, meeting)
        },
        move || -> Told {
            let mut reader = reader;
            read(rt, &mut reader, 1, 0, 16)
        },
    )
}

// What the keeper and a reader of version 1 are told, which learnt of it before.
fn told_beside<'a, R: Threads + Wait + Sync + Abort>(
    rt: &R,
    alloc: Global,
    shared: &'a Shared,
    owner: &mut Owner,
    reading: Session<'a, StandingDoor<'a>, FreeGate>,
    meeting: &'a Meeting,
) -> ((bool, Result<u64, RefreshFault>), Told)
    requires owner { IsOwnerOf shared.now owner.old }
    requires reading { reading.store ≡ shared.now }
{
    let (mut keeper, mut session, mut stand, mut writer) = new_board(rt, alloc, shared, owner, 1);
    let mut reader = stand.reader(reading);
    begin(rt, &mut writer, &mut keeper, &mut session, 1);
    learn(rt, &keeper, &mut reader);
    stand_and_publish(rt, writer, keeper, session, reader, meeting)
}

#[test]
fn the_keeper_publishes_while_a_reader_stands_in_a_read(rt: HostRuntime) {
    let meeting = Meeting {
        came: AtomicBool::new(false),
        may_go: AtomicBool::new(false),
    };
    let (shared, mut owner) = new_store(&rt, rt.alloc());
    let mut maker = StandingMaker {
        meeting: &meeting,
        faults: 0,
    };
    let reading = session_by(&rt, rt.alloc(), &shared, &mut owner, &mut maker);
    let told = told_beside(&rt, rt.alloc(), &shared, &mut owner, reading, &meeting);
    assert!(rt; told == ((true, Ok(2)), Some((true, Way::Board, 1))));
}
