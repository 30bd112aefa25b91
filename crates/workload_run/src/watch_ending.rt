// The end of a watch: the readers are compared with the last session, one by one, and their sessions end.
ghost use Rattle.std.specs.Prelude.{◌≡◌, ◌≤◌, ◌<◌, ◌+◌, ◌-◌, ◌^◌, true, IfOk, IfErr, IfSome, vec_len, All};
ghost use Rattle.client_session.specs.Sessions.{IsOwnerOf};
ghost use Rattle.workload_run.specs.Updates.{told_faults};
ghost use Rattle.workload_run.specs.WatchStages.{IsIdle};
ghost use Rattle.workload_run.specs.Doors.{SessionsEnd};
ghost use Rattle.workload_run.specs.Left.{left_faults};
ghost use Rattle.workload_run.specs.WatchCrews.{IsEndable, IsDoneWatching, CameToEnd, AllCameToEnd};
ghost use Rattle.turn_lock.specs.History.{Begins};
ghost use Rattle.workload_run.specs.Agreeing.{IsToldBy, IsSeenIn};
ghost use Rattle.workload_run.specs.Stops.{Stops};

use crate::agreeing::{compare_by_place, compare_by_turn};
use crate::last::Last;
use crate::notes::Readings;
use crate::reading::Watcher;
use crate::watch_making::end_idle;
use client_session::{Owner, Session, Shared};
use page_store::DoorMaker;
use ports::gate::Gate;
use read_board::{Keeper, StandingReader};
use request_form::{Fault, NoMemory};
use std::alloc::Global;
use std::marker::Brand;
use std::sync::Wait;
use std::sync::ledger::Blank;
use store_sessions::renew_session;
use workload_law::laws::loads_close;

/// What readers are compared with: the last version, and the keeper that published it.
pub(crate) struct Standard<W: Wait + Drop> {
    pub(crate) keeper: Keeper<W>,
    pub(crate) last: Last,
}

// By hand, as of `Last`.
impl<W: Wait + Drop> Drop for Standard<W> {
    fn drop(self) {
        let Standard { keeper: _, last: _ } = self;
    }
}

/// Ends all readers, whose passes and doors go back, and answers the fault of the lowest that didn't come to its end.
pub(crate) fn end_watchers<M: DoorMaker, G: Gate>(
    shared: &Shared,
    owner: &mut Owner,
    maker: &mut M,
    mut watchers: Vec<Watcher<'_, M::Door, G>>,
) -> Option<Fault>
    requires owner { IsOwnerOf shared.now owner.old }
    requires endable { All (IsEndable M.Door.faults shared.now owner.old.seen) watchers.items }
    ensures stop { IfSome result (Stops shared.now.fixed owner.new.seen) }
    ensures sessions { SessionsEnd M.is_true M.makes M.hands_out M.takes_back shared.now (vec_len watchers.entry) owner.old owner.new maker.old maker.new }
    ensures owner { IsOwnerOf shared.now owner.new }
    ensures doors { M.faults maker.new < 2 ^ 64 - 1 → M.faults maker.old + left_faults result ≤ M.faults maker.new }
{
    let mut stop = None;
    while let Some(watcher) = watchers.pop() {
        let Watcher { reader, told } = watcher;
        end_idle(shared, owner, maker, reader.into_session());
        match told {
            Ok(_readings) => {}
            Err(fault) => stop = Some(fault),
        }
    }
    watchers.destroy_empty();
    stop
}

// Whether a reader with a place reads the last version's bytes, once it has learnt what the keeper published. Its session ends.
fn agree_by_place<R: Wait, W: Wait + Drop, M: DoorMaker, G: Gate>(
    rt: &R,
    shared: &Shared,
    owner: &mut Owner,
    maker: &mut M,
    standard: &Standard<W>,
    reader: StandingReader<'_, M::Door, G>,
) -> Result<bool, Fault>
    requires owner { IsOwnerOf shared.now owner.old }
    requires idle { IsIdle shared.now reader.session }
    requires board { reader.board ≡ standard.now.keeper.board }
    requires place { reader.has_place ≡ true }
    requires told { IsToldBy standard.now.keeper.shown standard.now.last }
    requires seen { IsSeenIn shared.now.fixed owner.old.seen standard.now.last }
    ensures agrees { IfOk result (λ same. same ≡ true) }
    ensures stop { IfErr result (Stops shared.now.fixed owner.new.seen) }
    ensures sessions { SessionsEnd M.is_true M.makes M.hands_out M.takes_back shared.now 1 owner.old owner.new maker.old maker.new }
    ensures begins { Begins reader.entry.session.log owner.new.seen }
    ensures made { owner.new.made ≡ owner.old.made }
    ensures owner { IsOwnerOf shared.now owner.new }
    ensures doors { M.faults maker.new < 2 ^ 64 - 1 → M.faults maker.old + told_faults result ≤ M.faults maker.new }
{
    let mut reader = reader;
    let told = match standard.keeper.note() {
        Ok(note) => compare_by_place::<R, M::Door, G, Brand>(
            rt,
            &mut reader,
            note,
            &standard.last,
            Blank::new(1),
        ),
        Err(NoMemory) => Err(Fault::NoMemory),
    };
    end_idle(shared, owner, maker, reader.into_session());
    told
}

// Whether one more session reads the last version's bytes, in place of a reader that has no place. It is made of the doors of the reader's
// session, which ends, and ends then itself.
fn agree_by_turn<R: Wait, M: DoorMaker, G: Gate>(
    rt: &R,
    alloc: Global,
    shared: &Shared,
    owner: &mut Owner,
    maker: &mut M,
    gate: &G,
    last: &Last,
    session: Session<'_, M::Door, G>,
) -> Result<bool, Fault>
    requires owner { IsOwnerOf shared.now owner.old }
    requires passes_left { (3 ≤ owner.old.made) × (owner.old.made < 1024) }
    requires idle { IsIdle shared.now session }
    requires seen { IsSeenIn shared.now.fixed owner.old.seen last.now }
    ensures agrees { IfOk result (λ same. same ≡ true) }
    ensures stop { IfErr result (Stops shared.now.fixed owner.new.seen) }
    ensures sessions { SessionsEnd M.is_true M.makes M.hands_out M.takes_back shared.now 1 owner.old owner.new maker.old maker.new }
    ensures begins { Begins session.entry.log owner.new.seen }
    ensures made { (owner.old.made ≤ owner.new.made) × (owner.new.made ≤ owner.old.made + 1) }
    ensures seen { IsSeenIn shared.now.fixed owner.new.seen last.now }
    ensures owner { IsOwnerOf shared.now owner.new }
    ensures doors { M.faults maker.new < 2 ^ 64 - 1 → M.faults maker.old + told_faults result ≤ M.faults maker.new }
{
    version_manager::laws::entries_are_events();
    loads_close();
    let Ok(mut next) = renew_session(alloc, shared, owner, maker, gate, session) else {
        return Err(Fault::NoMemory);
    };
    let told = compare_by_turn::<R, M::Door, G, Brand>(rt, &mut next, last, Blank::new(1));
    end_idle(shared, owner, maker, next);
    told
}

// Whether a reader that came to its end reads the last version's bytes, by its place or by one more session of its doors. Its session ends.
fn agree_one<R: Wait, W: Wait + Drop, M: DoorMaker, G: Gate>(
    rt: &R,
    alloc: Global,
    shared: &Shared,
    owner: &mut Owner,
    maker: &mut M,
    gate: &G,
    standard: &Standard<W>,
    reader: StandingReader<'_, M::Door, G>,
) -> Result<bool, Fault>
    requires owner { IsOwnerOf shared.now owner.old }
    requires passes_left { (3 ≤ owner.old.made) × (owner.old.made < 1024) }
    requires idle { IsIdle shared.now reader.session }
    requires board { reader.board ≡ standard.now.keeper.board }
    requires told { IsToldBy standard.now.keeper.shown standard.now.last }
    requires seen { IsSeenIn shared.now.fixed owner.old.seen standard.now.last }
    ensures agrees { IfOk result (λ same. same ≡ true) }
    ensures stop { IfErr result (Stops shared.now.fixed owner.new.seen) }
    ensures sessions { SessionsEnd M.is_true M.makes M.hands_out M.takes_back shared.now 1 owner.old owner.new maker.old maker.new }
    ensures begins { Begins reader.entry.session.log owner.new.seen }
    ensures seen { IsSeenIn shared.now.fixed owner.new.seen standard.now.last }
    ensures made { (owner.old.made ≤ owner.new.made) × (owner.new.made ≤ owner.old.made + 1) }
    ensures owner { IsOwnerOf shared.now owner.new }
    ensures doors { M.faults maker.new < 2 ^ 64 - 1 → M.faults maker.old + told_faults result ≤ M.faults maker.new }
{
    if reader.has_place() {
        return agree_by_place(rt, shared, owner, maker, standard, reader);
    }
    let session = reader.into_session();
    agree_by_turn(
        rt,
        alloc,
        shared,
        owner,
        maker,
        gate,
        &standard.last,
        session,
    )
}

// Whether a reader reads the last version's bytes, and what it read before; or why it didn't come to its end. Its session ends.
fn agree_with<R: Wait, W: Wait + Drop, M: DoorMaker, G: Gate>(
    rt: &R,
    alloc: Global,
    shared: &Shared,
    owner: &mut Owner,
    maker: &mut M,
    gate: &G,
    standard: &Standard<W>,
    watcher: Watcher<'_, M::Door, G>,
) -> Result<(bool, Readings), Fault>
    requires owner { IsOwnerOf shared.now owner.old }
    requires passes_left { (3 ≤ owner.old.made) × (owner.old.made < 1024) }
    requires done { IsDoneWatching M.Door.faults shared.now owner.old.seen standard.now.keeper.board watcher }
    requires told { IsToldBy standard.now.keeper.shown standard.now.last }
    requires seen { IsSeenIn shared.now.fixed owner.old.seen standard.now.last }
    ensures agrees { IfOk result (λ r. r.0 ≡ true) }
    ensures ended { IfOk result (λ r. CameToEnd owner.new.seen watcher.entry r.1) }
    ensures stop { IfErr result (Stops shared.now.fixed owner.new.seen) }
    ensures sessions { SessionsEnd M.is_true M.makes M.hands_out M.takes_back shared.now 1 owner.old owner.new maker.old maker.new }
    ensures seen { IsSeenIn shared.now.fixed owner.new.seen standard.now.last }
    ensures made { (owner.old.made ≤ owner.new.made) × (owner.new.made ≤ owner.old.made + 1) }
    ensures owner { IsOwnerOf shared.now owner.new }
    ensures doors { M.faults maker.new < 2 ^ 64 - 1 → M.faults maker.old + told_faults result ≤ M.faults maker.new }
{
    let Watcher { reader, told } = watcher;
    match told {
        Ok(readings) => {
            match agree_one(rt, alloc, shared, owner, maker, gate, standard, reader) {
                Ok(same) => Ok((same, readings)),
                Err(stopped) => Err(stopped),
            }
        }
        Err(fault) => {
            end_idle(shared, owner, maker, reader.into_session());
            Err(fault)
        }
    }
}

/// How many readers read the last version's bytes, and what all of them read before, one reader's reads after another's. All their sessions
/// end. Where a reader didn't come to its end, or its last read failed, it answers why, of the lowest such reader.
pub(crate) fn agree_all<R: Wait, W: Wait + Drop, M: DoorMaker, G: Gate>(
    rt: &R,
    alloc: Global,
    shared: &Shared,
    owner: &mut Owner,
    maker: &mut M,
    gate: &G,
    standard: &Standard<W>,
    mut watchers: Vec<Watcher<'_, M::Door, G>>,
) -> Result<(u32, Readings), Fault>
    requires owner { IsOwnerOf shared.now owner.old }
    requires passes_left { (3 ≤ owner.old.made) × (owner.old.made + vec_len watchers < 1024) }
    requires done { All (IsDoneWatching M.Door.faults shared.now owner.old.seen standard.now.keeper.board) watchers.items }
    requires told { IsToldBy standard.now.keeper.shown standard.now.last }
    requires seen { IsSeenIn shared.now.fixed owner.old.seen standard.now.last }
    ensures all { IfOk result (λ r. r.0 ≡ vec_len watchers.entry) }
    ensures ended { IfOk result (λ r. AllCameToEnd owner.new.seen watchers.entry.items r.1) }
    ensures stop { IfErr result (Stops shared.now.fixed owner.new.seen) }
    ensures sessions { SessionsEnd M.is_true M.makes M.hands_out M.takes_back shared.now (vec_len watchers.entry) owner.old owner.new maker.old maker.new }
    ensures owner { IsOwnerOf shared.now owner.new }
    ensures doors { M.faults maker.new < 2 ^ 64 - 1 → M.faults maker.old + told_faults result ≤ M.faults maker.new }
{
    let mut agree: u32 = 0;
    let mut readings = Readings::none();
    let mut stop = None;
    while let Some(watcher) = watchers.pop() {
        match agree_with(rt, alloc, shared, owner, maker, gate, standard, watcher) {
            Ok((same, own)) => {
                agree += u32::from(same);
                readings.put_before(&own);
            }
            Err(fault) => stop = Some(fault),
        }
    }
    watchers.destroy_empty();
    match stop {
        Some(fault) => Err(fault),
        None => Ok((agree, readings)),
    }
}
