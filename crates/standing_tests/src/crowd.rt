//! Sixteen readers read a hundred thousand ranges beside one writer and its keeper, and each is compared with the blob's bytes.
ghost use Rattle.std.specs.Prelude.{◌≡◌, ◌<◌, ◌≤◌, ◌∷◌, []};
ghost use Rattle.standing_tests.specs.Boards.{MayRefresh};
ghost use Rattle.client_session.specs.Sessions.{IsOwnerOf};

use crate::calls::{PIECE, append_after, begin, read, refresh};
use crate::store::{Client, new_board, new_session, new_store};
use client_session::{Owner, Shared};
use page_store::PlainDoor;
use ports::gate::FreeGate;
use read_board::{Keeper, Stand, StandingReader, Way};
use std::alloc::Global;
use std::process::Abort;
use std::sync::Wait;
use std::thread;
use std::thread::{Threads, join};

// How many readers there are, and how many ranges each reads.
const READERS: u32 = 16;

const READS: u32 = 6_250;

// How many versions are written, and how many of them before the readers come.
const VERSIONS: u64 = 64;

const BEFORE: u64 = 32;

// A reader, and whether all that it has read so far is right.
#[derive(Drop)]
struct Analyst<'a> {
    reader: StandingReader<'a, PlainDoor, FreeGate>,
    state: u64,
    is_right: bool,
}

impl<'a> Analyst<'a> {
    // A number below the bound, which is at least 1: the next of a row that depends on where it began.
    fn draw(&mut self, bound: u64) -> u64
        requires { 1 ≤ bound }
        ensures { result < bound }
    {
        self.state = self
            .state
            .wrapping_mul(6_364_136_223_846_793_005)
            .wrapping_add(1_442_695_040_888_963_407);
        (self.state >> 33) % bound
    }

    // Reads a range of some version. It comes by the board where the version was there before the readers came, and any other may not
    // be published yet.
    fn read_one<R: Wait>(&mut self, rt: &R) {
        let version = 1 + self.draw(VERSIONS);
        let offset = self.draw(version * PIECE);
        let count = 1 + self.draw(version * PIECE - offset).min(31);
        let is_right = match read(rt, &mut self.reader, version, offset, count) {
            Some((is_right, way, _)) => is_right && (way == Way::Board || version > BEFORE),
            None => version > BEFORE,
        };
        self.is_right = self.is_right && is_right;
    }

    fn read_many<R: Wait>(&mut self, rt: &R) {
        for _ in 0..READS {
            self.read_one(rt);
        }
    }
}

// The readers of a stand, each with a session of its own. Each reads the last version by the board, and has then seen what is on it.
fn analysts_of<'a, R: Wait + Abort>(
    rt: &R,
    alloc: Global,
    shared: &'a Shared,
    owner: &mut Owner,
    stand: &mut Stand,
) -> Vec<Analyst<'a>>
    requires owner { IsOwnerOf shared.now owner.old }
    requires store { stand.old.board.store ≡ shared.now ∷ [] }
    requires left { 16 ≤ stand.old.left }
{
    let mut all = Vec::new(alloc);
    for number in 0..READERS {
        let session = new_session(rt, alloc, shared, owner);
        let mut reader = stand.reader(session);
        let told = read(rt, &mut reader, BEFORE, 0, PIECE);
        let analyst = Analyst {
            reader,
            state: u64::from(number),
            is_right: matches!(told, Some((true, Way::Board, _))),
        };
        all.push(analyst).expect(rt, "memory");
    }
    all
}

// All read, beside each other.
fn read_all<R: Threads + Wait + Sync>(rt: &R, analysts: &mut [Analyst<'_>]) {
    thread::for_each_mut(
        rt,
        analysts,
        READERS as usize,
        &|_, analyst| { analyst.read_many(rt) },
    );
}

// Appends the versions that are left, and refreshes after each. Whether every refresh answered what was just written.
fn write_all<R: Threads + Wait + Sync, W: Wait + Drop>(
    rt: &R,
    writer: &mut Client<'_>,
    keeper: &mut Keeper<W>,
    session: &mut Client<'_>,
) -> bool
    requires { MayRefresh keeper.old session.old }
{
    let mut is_recent = true;
    for version in BEFORE..VERSIONS {
        let is_written = append_after(rt, writer, version);
        let told = refresh(rt, keeper, session, 1);
        is_recent = is_recent && is_written && told == Ok(version + 1);
    }
    is_recent
}

// The writer with its keeper, and the readers, beside each other.
fn work<'a, R: Threads + Wait + Sync, W: Wait + Drop + Send>(
    rt: &R,
    writer: Client<'a>,
    keeper: Keeper<W>,
    session: Client<'a>,
    analysts: &mut [Analyst<'a>],
) -> bool
    requires { MayRefresh keeper session }
{
    let (is_recent, ()) = join(
        rt,
        move || -> bool
            requires { MayRefresh keeper session }
        {
            let mut writer = writer;
            let mut keeper = keeper;
            let mut session = session;
            write_all(rt, &mut writer, &mut keeper, &mut session)
        },
        || read_all(rt, analysts),
    );
    is_recent
}

// Whether all that the readers read beside the writer is right.
fn agree<R: Threads + Wait + Sync + Abort>(
    rt: &R,
    alloc: Global,
    shared: &Shared,
    owner: &mut Owner,
) -> bool
    requires { IsOwnerOf shared.now owner.old }
{
    let (mut keeper, mut session, mut stand, mut writer) = new_board(
        rt, alloc, shared, owner, READERS,
    );
    begin(rt, &mut writer, &mut keeper, &mut session, BEFORE);
    let mut analysts = analysts_of(rt, alloc, shared, owner, &mut stand);
    let is_recent = work(rt, writer, keeper, session, analysts.as_mut_slice());
    is_recent && analysts.iter().all(|analyst| analyst.is_right)
}

#[test]
fn sixteen_readers_read_what_one_writer_wrote(rt: HostRuntime) {
    let (shared, mut owner) = new_store(&rt, rt.alloc());
    assert!(rt; agree(&rt, rt.alloc(), &shared, &mut owner));
}
