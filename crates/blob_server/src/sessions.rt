// The sessions of the workers: made before the first peer is taken, and ended after the last one.
ghost use Rattle.std.specs.Prelude.{◌≡◌, ◌≤◌, ◌<◌, ◌+◌, ◌-◌, ◌*◌, ◌^◌, ◌↔◌, ℕ, min, length, All, IfOk, OnOk, OnErr, IfErr, sum_by, vec_len};
ghost use Rattle.page_store.specs.Calls.{Traffic, AllCameBack};
ghost use Rattle.turn_lock.specs.History.{Begins};
ghost use Rattle.client_session.specs.Sessions.{IsOwnerOf};
ghost use Rattle.blob_server.specs.Peers.{IsIdle, faults_of_doors};

use client_session::{Owner, Session, Shared};
use page_store::DoorMaker;
use ports::gate::Gate;
use request_form::NoMemory;
use std::alloc::Global;
use store_sessions::{end_session, open_session};

/// A session for each worker, with a new pass and new doors. Where no memory is found, what was made has gone back.
pub(crate) fn sessions_of<'a, M: DoorMaker, G: Gate>(
    alloc: Global,
    shared: &'a Shared,
    owner: &mut Owner,
    maker: &mut M,
    gate: &'a G,
    workers: u32,
) -> Result<Vec<Session<'a, M::Door, G>>, NoMemory>
    requires owner { IsOwnerOf shared.now owner.old }
    requires passes_left { owner.old.made + workers ≤ 1024 }
    requires true_doors { M.is_true maker.old }
    ensures idle { IfOk result (λ sessions. All (IsIdle shared.now) sessions.items) }
    ensures count { IfOk result (λ sessions. vec_len sessions ≡ workers) }
    ensures made { OnOk result (owner.new.made ≡ owner.old.made + workers) }
    ensures out { OnOk result (owner.new.out ≡ owner.old.out + workers) }
    ensures made_most { (owner.old.made ≤ owner.new.made) × (owner.new.made ≤ owner.old.made + workers) }
    ensures none_out { OnErr result (owner.new.out ≡ owner.old.out) }
    ensures seen { Begins owner.old.seen owner.new.seen }
    ensures owner { IsOwnerOf shared.now owner.new }
    ensures doors { M.faults maker.new < 2 ^ 64 - 1 → M.faults maker.old ≤ M.faults maker.new }
    ensures handed_out { OnOk result (Traffic M.hands_out M.takes_back (workers * shared.now.providers) 0 maker.old maker.new) }
    ensures all_back { OnErr result (AllCameBack M.hands_out M.takes_back maker.old maker.new) }
    ensures truth_stays { M.is_true maker.old ↔ M.is_true maker.new }
    ensures plan_stays { (n : ℕ) (door : _) → M.makes maker.old n door ↔ M.makes maker.new n door }
{
    let Ok(mut sessions) = Vec::with_capacity(alloc, workers as usize) else {
        return Err(NoMemory);
    };
    for _ in 0..workers {
        match open_session(alloc, shared, owner, maker, gate) {
            Ok(session) => sessions.push_reserved(session),
            Err(NoMemory) => {
                end_sessions(shared, owner, maker, sessions);
                return Err(NoMemory);
            }
        }
    }
    Ok(sessions)
}

/// Ends sessions: their passes go back to the store's owner, which has then seen what each of them has, and their doors to the maker, which adds up what they counted.
pub(crate) fn end_sessions<M: DoorMaker, G: Gate>(
    shared: &Shared,
    owner: &mut Owner,
    maker: &mut M,
    mut sessions: Vec<Session<'_, M::Door, G>>,
)
    requires owner { IsOwnerOf shared.now owner.old }
    requires idle { All (IsIdle shared.now) sessions.items }
    ensures out { owner.old.out ≡ owner.new.out + vec_len sessions.entry }
    ensures made { owner.new.made ≡ owner.old.made }
    ensures seen { Begins owner.old.seen owner.new.seen }
    ensures begin { All (λ s. Begins s.log owner.new.seen) sessions.entry.items }
    ensures owner { IsOwnerOf shared.now owner.new }
    ensures doors { min (M.faults maker.old + sum_by (faults_of_doors M.Door.faults) sessions.entry.items) (2 ^ 64 - 1) ≤ M.faults maker.new }
    ensures taken_back { Traffic M.hands_out M.takes_back 0 (vec_len sessions.entry * shared.now.providers) maker.old maker.new }
    ensures truth_stays { M.is_true maker.old ↔ M.is_true maker.new }
    ensures plan_stays { (n : ℕ) (door : _) → M.makes maker.old n door ↔ M.makes maker.new n door }
{
    while let Some(session) = sessions.pop() {
        end_session(shared, owner, maker, session);
    }
    sessions.destroy_empty();
}
