// The callers of a watch that work beside each other.
ghost use Rattle.std.specs.Prelude.{◌≡◌, ◌≤◌, ◌<◌, ◌+◌, ◌-◌, ◌*◌, ◌^◌, ◌∷◌, [], ℕ, vec_len, IfOk, OnOk, OnErr, All};
ghost use Rattle.client_session.specs.Sessions.{IsOwnerOf};
ghost use Rattle.page_store.specs.Calls.{Traffic, AllCameBack};
ghost use Rattle.store_sessions.specs.Made.{IsNewSession};
ghost use Rattle.workload_run.specs.WatchCrews.{IsReadyToWatch};
ghost use Rattle.workload_run.specs.Doors.{MakesAsBefore};

use crate::notes::Readings;
use crate::reading::Watcher;
use crate::watch_ending::end_watchers;
use client_session::{Owner, Session, Shared};
use page_store::{Door, DoorMaker};
use ports::gate::Gate;
use read_board::{Keeper, Stand};
use request_form::NoMemory;
use std::alloc::Global;
use std::sync::Wait;
use store_sessions::{end_session, open_session};

/// The sessions that work beside each other: the writer's, the keeper's, and those of the readers.
#[derive(Drop)]
pub(crate) struct Crew<'a, D: Door, G: Gate> {
    pub(crate) writer: Session<'a, D, G>,
    pub(crate) keeping: Session<'a, D, G>,
    pub(crate) watchers: Vec<Watcher<'a, D, G>>,
}

/// All who work beside each other: the keeper of the board, and the sessions.
#[derive(Drop)]
pub(crate) struct Callers<'a, W: Wait + Drop, D: Door, G: Gate> {
    pub(crate) keeper: Keeper<W>,
    pub(crate) crew: Crew<'a, D, G>,
}

// The readers of a watch, each with a new session, none of which has read anything. Where no memory is found, those that were made
// have ended, and all doors have gone back.
fn watchers_of<'a, M: DoorMaker, G: Gate>(
    alloc: Global,
    shared: &'a Shared,
    owner: &mut Owner,
    maker: &mut M,
    gate: &'a G,
    stand: &mut Stand,
    count: u32,
) -> Result<Vec<Watcher<'a, M::Door, G>>, NoMemory>
    requires owner { IsOwnerOf shared.now owner.old }
    requires three { owner.old.made ≡ 3 }
    requires few { (count ≤ 16) × (count ≤ stand.old.left) }
    requires store { stand.old.board.store ≡ shared.now ∷ [] }
    requires true_doors { M.is_true maker.old }
    ensures ready { IfOk result (λ watchers. All (IsReadyToWatch M.Door.faults shared.now owner.new.seen stand.old.board) watchers.items) }
    ensures count { IfOk result (λ watchers. vec_len watchers ≡ count) }
    ensures given { OnOk result (owner.new ≡ record owner.old { made = owner.old.made + count; out = owner.old.out + count }) }
    ensures none_out { OnErr result (owner.new.out ≡ owner.old.out) }
    ensures owner { IsOwnerOf shared.now owner.new }
    ensures doors { M.faults maker.new < 2 ^ 64 - 1 → M.faults maker.old ≤ M.faults maker.new }
    ensures handed_out { OnOk result (Traffic M.hands_out M.takes_back (count * shared.now.providers) 0 maker.old maker.new) }
    ensures all_back { OnErr result (AllCameBack M.hands_out M.takes_back maker.old maker.new) }
    ensures maker { MakesAsBefore M.is_true M.makes maker.old maker.new }
{
    version_manager::laws::entries_are_events();
    let Ok(mut watchers) = Vec::with_capacity(alloc, count as usize) else {
        return Err(NoMemory);
    };
    'makes: while watchers.len() < count as usize {
        match open_session(alloc, shared, owner, maker, gate) {
            Ok(session) => watchers.push_reserved(Watcher {
                reader: stand.reader(session),
                told: Ok(Readings::none()),
            }),
            Err(NoMemory) => {
                let _none = end_watchers(shared, owner, maker, watchers);
                return Err(NoMemory);
            }
        }
    }
    Ok(watchers)
}

/// The callers from 2 up, each with a new session, none of which has done anything. Where no memory is found, those that were made have
/// ended, and all doors have gone back.
pub(crate) fn crew_of<'a, M: DoorMaker, G: Gate>(
    alloc: Global,
    shared: &'a Shared,
    owner: &mut Owner,
    maker: &mut M,
    gate: &'a G,
    stand: &mut Stand,
    readers: u32,
) -> Result<Crew<'a, M::Door, G>, NoMemory>
    requires owner { IsOwnerOf shared.now owner.old }
    requires one { owner.old.made ≡ 1 }
    requires few { (readers ≤ 16) × (readers ≤ stand.old.left) }
    requires store { stand.old.board.store ≡ shared.now ∷ [] }
    requires true_doors { M.is_true maker.old }
    ensures writer { IfOk result (λ crew. IsNewSession M.Door.faults shared.now owner.old crew.writer) }
    ensures keeping { IfOk result (λ crew. IsNewSession M.Door.faults shared.now (record owner.old { made = owner.old.made + 1; out = owner.old.out + 1 }) crew.keeping) }
    ensures ready { IfOk result (λ crew. All (IsReadyToWatch M.Door.faults shared.now owner.new.seen stand.old.board) crew.watchers.items) }
    ensures count { IfOk result (λ crew. vec_len crew.watchers ≡ readers) }
    ensures given { OnOk result (owner.new ≡ record owner.old { made = owner.old.made + 2 + readers; out = owner.old.out + 2 + readers }) }
    ensures none_out { OnErr result (owner.new.out ≡ owner.old.out) }
    ensures owner { IsOwnerOf shared.now owner.new }
    ensures doors { M.faults maker.new < 2 ^ 64 - 1 → M.faults maker.old ≤ M.faults maker.new }
    ensures handed_out { OnOk result (Traffic M.hands_out M.takes_back ((2 + readers) * shared.now.providers) 0 maker.old maker.new) }
    ensures all_back { OnErr result (AllCameBack M.hands_out M.takes_back maker.old maker.new) }
    ensures maker { MakesAsBefore M.is_true M.makes maker.old maker.new }
{
    let Ok(writer) = open_session(alloc, shared, owner, maker, gate) else {
        return Err(NoMemory);
    };
    let Ok(keeping) = open_session(alloc, shared, owner, maker, gate) else {
        end_session(shared, owner, maker, writer);
        return Err(NoMemory);
    };
    match watchers_of(alloc, shared, owner, maker, gate, stand, readers) {
        Ok(watchers) => Ok(Crew {
            writer,
            keeping,
            watchers,
        }),
        Err(NoMemory) => {
            end_session(shared, owner, maker, keeping);
            end_session(shared, owner, maker, writer);
            Err(NoMemory)
        }
    }
}
