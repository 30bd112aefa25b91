//! Sessions of a shared store with all that they work with: each is made with a pass of its own and a door to each provider, and
//! when it ends the pass goes back to the store's owner and the doors to their maker, or to the session that comes after it.
#![tactic(auto)]

ghost use Rattle.std.specs.Prelude.{◌≡◌, ◌≤◌, ◌<◌, ◌+◌, ◌-◌, ◌^◌, ◌↔◌, ◌⊎◌, ◌++◌, [], ◌∷◌, ℕ, min, length, IfOk, OnOk, OnErr, sum_by, Contains};
ghost use Rattle.turn_lock.specs.History.{entries_by, Begins, longer};
ghost use Rattle.client_session.specs.Sessions.{IsOwnerOf, IsPassOf};
ghost use Rattle.page_store.specs.Calls.{Traffic, AllCameBack};
ghost use Rattle.store_sessions.specs.Made.{IsNewSession, IsRenewed};

use client_session::{Owner, Pass, Session, Shared};
use page_fan::Doors;
use page_store::DoorMaker;
use ports::gate::Gate;
use request_form::NoMemory;
use std::alloc::Global;

// A pass goes back to the store's owner, and doors to their maker, which adds up what they counted.
fn give_back<M: DoorMaker>(
    shared: &Shared,
    owner: &mut Owner,
    maker: &mut M,
    pass: Pass,
    doors: Doors<M::Door>,
)
    requires owner { IsOwnerOf shared.now owner.old }
    requires pass { IsPassOf shared.now pass }
    ensures counts { (owner.old.out ≡ owner.new.out + 1) × (owner.new ≡ record owner.old { out = owner.new.out; seen = owner.new.seen; kept = owner.old.kept ++ pass.caller ∷ [] }) }
    ensures seen { owner.new.seen ≡ longer owner.old.seen pass.seen }
    ensures begins { Begins owner.old.seen owner.new.seen × Begins pass.seen owner.new.seen }
    ensures own { entries_by pass.caller owner.new.seen ≡ entries_by pass.caller pass.seen }
    ensures before { (c : ℕ) → Contains owner.old.kept c → entries_by c owner.new.seen ≡ entries_by c owner.old.seen }
    ensures owner { IsOwnerOf shared.now owner.new }
    ensures doors { min (M.faults maker.old + sum_by M.Door.faults doors) (2 ^ 64 - 1) ≤ M.faults maker.new }
    ensures adds { M.faults maker.old ≤ 2 ^ 64 - 1 → M.faults maker.new ≡ min (M.faults maker.old + sum_by M.Door.faults doors) (2 ^ 64 - 1) }
    ensures taken_back { Traffic M.hands_out M.takes_back 0 (length doors) maker.old maker.new }
    ensures truth_stays { M.is_true maker.old ↔ M.is_true maker.new }
    ensures plan_stays { (n : ℕ) (door : _) → M.makes maker.old n door ↔ M.makes maker.new n door }
{
    shared.take_back(owner, pass);
    doors.back(maker);
}

/// A session with a new pass, which has seen what the store's owner has, and with new doors of the maker. It holds no ticket,
/// its first one will be number 1, and its updates have at most 1,048,576 bytes. The maker has made one door to each provider,
/// and its count of faults is as before. Where no memory is found the pass, if one was made, and the doors have gone back; that
/// pass's caller entered nothing.
pub fn open_session<'a, M: DoorMaker, G: Gate>(
    alloc: Global,
    shared: &'a Shared,
    owner: &mut Owner,
    maker: &mut M,
    gate: &'a G,
) -> Result<Session<'a, M::Door, G>, NoMemory>
    requires owner { IsOwnerOf shared.now owner.old }
    requires passes_left { owner.old.made < 1024 }
    requires true_doors { M.is_true maker.old }
    ensures session { IfOk result (λ s. IsNewSession M.Door.faults shared.now owner.old s) }
    ensures given { OnOk result (owner.new ≡ record owner.old { made = owner.old.made + 1; out = owner.old.out + 1 }) }
    ensures made_most { (owner.old.made ≤ owner.new.made) × (owner.new.made ≤ owner.old.made + 1) }
    ensures none_out { OnErr result (owner.new.out ≡ owner.old.out) }
    ensures seen { owner.new.seen ≡ owner.old.seen }
    ensures keeps { (c : ℕ) → Contains owner.old.kept c → Contains owner.new.kept c }
    ensures none_entered { OnErr result ((c : ℕ) → Contains owner.new.kept c → Contains owner.old.kept c ⊎ (entries_by c owner.new.seen ≡ [])) }
    ensures owner { IsOwnerOf shared.now owner.new }
    ensures doors { M.faults maker.new < 2 ^ 64 - 1 → M.faults maker.old ≤ M.faults maker.new }
    ensures count_stays { M.faults maker.old ≤ 2 ^ 64 - 1 → M.faults maker.new ≡ M.faults maker.old }
    ensures handed_out { OnOk result (Traffic M.hands_out M.takes_back shared.now.providers 0 maker.old maker.new) }
    ensures all_back { OnErr result (AllCameBack M.hands_out M.takes_back maker.old maker.new) }
    ensures truth_stays { M.is_true maker.old ↔ M.is_true maker.new }
    ensures plan_stays { (n : ℕ) (door : _) → M.makes maker.old n door ↔ M.makes maker.new n door }
{
    let Ok(doors) = Doors::new(alloc, maker, shared.providers()) else {
        return Err(NoMemory);
    };
    let Ok(pass) = shared.pass(owner) else {
        // Fewer passes than a store may have were made.
        unreachable!()
    };
    match Session::new(alloc, shared, gate, pass, doors) {
        Ok(session) => Ok(session),
        Err((pass, doors)) => {
            give_back(shared, owner, maker, pass, doors);
            Err(NoMemory)
        }
    }
}

/// Ends a session of the store, and makes another of its doors: its pass goes back to the store's owner, which has then seen what the
/// session has, and of its caller exactly the events that the session has seen, and the new session works with a new pass that has
/// seen what the owner has. It holds no ticket, its first one will be number 1, and its updates have at most 1,048,576 bytes. The
/// maker makes no door and takes none back. Where no memory is found the new pass goes back too, whose caller entered nothing, and so do
/// the doors.
/// Tickets that the ended session holds are dropped: hang up first.
pub fn renew_session<'a, M: DoorMaker, G: Gate>(
    alloc: Global,
    shared: &'a Shared,
    owner: &mut Owner,
    maker: &mut M,
    gate: &'a G,
    session: Session<'_, M::Door, G>,
) -> Result<Session<'a, M::Door, G>, NoMemory>
    requires owner { IsOwnerOf shared.now owner.old }
    requires passes_left { owner.old.made < 1024 }
    requires of_store { session.store ≡ shared.now }
    ensures session { IfOk result (λ s. IsRenewed shared.now owner.old owner.new.seen session.entry s) }
    ensures given { OnOk result (owner.new ≡ record owner.old { made = owner.old.made + 1; seen = owner.new.seen; kept = owner.old.kept ++ session.entry.caller ∷ [] }) }
    ensures made_most { (owner.old.made ≤ owner.new.made) × (owner.new.made ≤ owner.old.made + 1) }
    ensures none_out { OnErr result (owner.old.out ≡ owner.new.out + 1) }
    ensures begins { Begins owner.old.seen owner.new.seen × Begins session.entry.log owner.new.seen }
    ensures own { entries_by session.entry.caller owner.new.seen ≡ entries_by session.entry.caller session.entry.log }
    ensures before { (c : ℕ) → Contains owner.old.kept c → entries_by c owner.new.seen ≡ entries_by c owner.old.seen }
    ensures keeps { (c : ℕ) → Contains (owner.old.kept ++ session.entry.caller ∷ []) c → Contains owner.new.kept c }
    ensures none_entered { OnErr result ((c : ℕ) → Contains owner.new.kept c
        → Contains (owner.old.kept ++ session.entry.caller ∷ []) c ⊎ (entries_by c owner.new.seen ≡ [])) }
    ensures owner { IsOwnerOf shared.now owner.new }
    ensures same_maker { OnOk result (maker.new ≡ maker.old) }
    ensures doors { OnErr result (min (M.faults maker.old + sum_by M.Door.faults session.entry.doors) (2 ^ 64 - 1) ≤ M.faults maker.new) }
    ensures taken_back { OnErr result (Traffic M.hands_out M.takes_back 0 shared.now.providers maker.old maker.new) }
    ensures truth_stays { M.is_true maker.old ↔ M.is_true maker.new }
    ensures plan_stays { (n : ℕ) (door : _) → M.makes maker.old n door ↔ M.makes maker.new n door }
{
    let (ended, doors) = session.into_parts();
    shared.take_back(owner, ended);
    let Ok(next) = shared.pass(owner) else {
        // Fewer passes than a store may have were made.
        unreachable!()
    };
    match Session::new(alloc, shared, gate, next, doors) {
        Ok(renewed) => Ok(renewed),
        Err((unused, doors)) => {
            give_back(shared, owner, maker, unused, doors);
            Err(NoMemory)
        }
    }
}

/// Ends a session of the store: its pass goes back to the store's owner, which has then seen what the session has, and of its
/// caller exactly the events that the session has seen; its doors, one to each provider, go back to the maker, which adds up what
/// they counted.
/// Tickets that it holds are dropped: hang up first.
pub fn end_session<M: DoorMaker, G: Gate>(
    shared: &Shared,
    owner: &mut Owner,
    maker: &mut M,
    session: Session<'_, M::Door, G>,
)
    requires owner { IsOwnerOf shared.now owner.old }
    requires of_store { session.store ≡ shared.now }
    ensures counts { (owner.old.out ≡ owner.new.out + 1) × (owner.new ≡ record owner.old { out = owner.new.out; seen = owner.new.seen; kept = owner.old.kept ++ session.entry.caller ∷ [] }) }
    ensures begins { Begins owner.old.seen owner.new.seen × Begins session.entry.log owner.new.seen }
    ensures own { entries_by session.entry.caller owner.new.seen ≡ entries_by session.entry.caller session.entry.log }
    ensures before { (c : ℕ) → Contains owner.old.kept c → entries_by c owner.new.seen ≡ entries_by c owner.old.seen }
    ensures owner { IsOwnerOf shared.now owner.new }
    ensures doors { min (M.faults maker.old + sum_by M.Door.faults session.entry.doors) (2 ^ 64 - 1) ≤ M.faults maker.new }
    ensures adds { M.faults maker.old ≤ 2 ^ 64 - 1
        → M.faults maker.new ≡ min (M.faults maker.old + sum_by M.Door.faults session.entry.doors) (2 ^ 64 - 1) }
    ensures taken_back { Traffic M.hands_out M.takes_back 0 shared.now.providers maker.old maker.new }
    ensures truth_stays { M.is_true maker.old ↔ M.is_true maker.new }
    ensures plan_stays { (n : ℕ) (door : _) → M.makes maker.old n door ↔ M.makes maker.new n door }
{
    let (pass, doors) = session.into_parts();
    give_back(shared, owner, maker, pass, doors);
}
