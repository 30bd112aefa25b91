//! The lock, its owner and its passes.
ghost use Rattle.std.specs.Prelude.{◌≡◌, ◌≤◌, ◌<◌, ◌+◌, ◌++◌, [], ◌∷◌, ℕ, length, IfOk, IfSome, IfErr, OnOk, OnErr, IsErr, ◌↔◌, Contains};
ghost use Rattle.turn_lock.specs.History.{entries_by, Begins, longer, LacksUngiven};
ghost use Rattle.turn_lock.specs.Shown.{Turned};

use crate::journal::{Act, Journaled};
use crate::rule::{Room, TurnSeat};
use crate::steps::{LOOKS, deal, end_turns, take_in, take_turn};
use faults::NoMemory;
use std::alloc::Global;
use std::hint::spin_loop;
use std::marker::Model;
use std::snapshot::Snapshot;
use std::sync::{Mutex, MutexGuard, Wait};
use thiserror::Error;

// The most passes that one lock gives.
const MAX_PASSES: u32 = 1024;

// The number of the first turn. Words 0 and 1 wrap after three turns, so that every use of the lock goes past 2^64.
const FIRST: u64 = u64::MAX - 2;

/// A ticket lock: a state that passes change one after another, in the order in which they drew their turns. Contracts see which lock it is.
#[derive(Drop)]
pub struct Turn<S: Journaled> {
    table: Room<S>,
    // Where passes wait before they draw a number. A turn that is passed on then wakes one sleeper, and not all of them. No proof rests on it.
    queue: Mutex<()>,
}

impl<S: Journaled> Model for Turn<S> {
    ghost use Rattle.std.specs.Prelude.{◌≡◌};
    ghost use Rattle.atomic_table.specs.Seated.{TableId, table_id_coded};

    ghost Value = { TableId };

    ghost coded = { table_id_coded };

    ghost view = { λ t. t.table.shared.table_id };

    ghost invariant = { λ t. (t.table.shared.table_id.words ≡ 3) × (t.table.shared.table_id.slots ≡ 1) };
}

/// The right to take turns as one caller. It holds no turn between two calls. Contracts see its lock, its caller, the prefix of the
/// history that it has seen, the fixed data, and how many turns it has had.
pub struct Pass<S: Journaled> {
    seat: TurnSeat<S>,
    caller: u32,
}

// By hand, so that it is one call wherever a pass is let go: a derived drop stands, with all its calls, at each such place.
impl<S: Journaled + Drop> Drop for Pass<S> {
    fn drop(self) {
        let Pass { seat: _, caller: _ } = self;
    }
}

impl<S: Journaled> Model for Pass<S> {
    ghost use Rattle.turn_lock.specs.Told.{IsIdle};
    ghost use Rattle.turn_lock.specs.Shown.{PassView, view_of_pass};

    ghost Value = { PassView S.Entry S.Fixed };

    ghost view = { λ p. view_of_pass p.seat p.caller };

    ghost invariant = { λ p. IsIdle p.seat.me p.caller };
}

/// Makes the passes of a lock, takes them back, and ends the lock.
///
/// Contracts see its lock, how many passes it made and how many of them are out, the prefix of the history that it has seen,
/// the fixed data, and the callers of the passes that it took back.
pub struct Owner<S: Journaled> {
    seat: TurnSeat<S>,
    made: u32,
    out: u32,
}

// By hand, for the same.
impl<S: Journaled + Drop> Drop for Owner<S> {
    fn drop(self) {
        let Owner {
            seat: _,
            made: _,
            out: _,
        } = self;
    }
}

impl<S: Journaled> Model for Owner<S> {
    ghost use Rattle.turn_lock.specs.Shown.{OwnerView, view_of_owner, IsOwning};

    ghost Value = { OwnerView S.Entry S.Fixed };

    ghost view = { λ o. view_of_owner o.seat o.made o.out };

    ghost invariant = { λ o. IsOwning o.seat o.made o.out };
}

/// Why there is no further pass.
#[derive(Debug, Drop, Error)]
pub enum PassFault {
    /// The owner has made as many passes as a lock gives, whether they were taken back or not.
    #[error("{MAX_PASSES} passes were made")]
    TooManyPasses,
}

/// The lock can't be ended while passes are out. It comes back with its owner, as they were.
#[derive(Drop)]
pub struct CloseRefused<S: Journaled> {
    /// The lock.
    pub turn: Turn<S>,
    /// Its owner.
    pub owner: Owner<S>,
    /// How many passes are out, at least one.
    pub out: u32,
}

impl<S: Journaled + Drop> Turn<S> {
    /// A lock over a state with an empty history, and its owner. Where there is no memory the state is dropped.
    pub fn new(alloc: Global, state: S) -> Result<(Turn<S>, Owner<S>), NoMemory>
        requires { S.history state ≡ [] }
        ensures { IfOk result (λ t. t.1 ≡ record { lock = t.0; made = 0; out = 0; seen = []; fixed = Some (S.fixed state); kept = [] }) }
    {
        let about = Snapshot::of(&state);
        let Ok(mut slots) = Vec::with_capacity(alloc, 1) else {
            return Err(NoMemory);
        };
        slots.push_reserved(state);
        let Ok((table, seat)) = Room::new(alloc, &[FIRST, FIRST, 0], slots, &about) else {
            return Err(NoMemory);
        };
        let owner = Owner {
            seat,
            made: 0,
            out: 0,
        };
        let queue = Mutex::new(());
        Ok((Turn { table, queue }, owner))
    }
}

impl<S: Journaled> Turn<S> {
    /// Waits until all turns that were drawn before are passed on, lets the act change the state, and answers what it answers.
    ///
    /// The pass has then seen the whole history, at whose end the act's entry stands where it added one, and has had one turn more.
    pub fn with_turn<A: Act<S>, R: Wait>(&self, rt: &R, pass: &mut Pass<S>, act: A) -> A::Answer
        requires turn { pass.old.lock ≡ self.now }
        requires ready { IfSome pass.old.fixed (λ f. A.ready act pass.old.seen f) }
        ensures pass { pass.new ≡ record pass.old { seen = pass.new.seen; turns = pass.new.turns } }
        ensures one_turn { pass.new.turns ≡ pass.old.turns + 1 }
        ensures turned { Turned (λ before f after. A.gives act before f pass.old.caller result after) pass.old pass.new }
    {
        let caller = pass.caller;
        let _queued = self.queued(rt);
        take_turn(rt, &self.table.shared, &mut pass.seat, act, caller)
    }

    // Waits until the pass may draw a number: it looks a few times, and sleeps then.
    fn queued<R: Wait>(&self, rt: &R) -> MutexGuard<'_, ()> {
        for _ in 0..LOOKS {
            if let Some(queued) = self.queue.try_lock() {
                return queued;
            }
            spin_loop();
        }
        self.queue.lock(rt)
    }
}

impl<S: Journaled> Pass<S> {
    /// The caller of all entries that are added with this pass.
    pub fn caller(&self) -> u32
        ensures { result ≡ self.now.caller }
    {
        self.caller
    }
}

impl<S: Journaled> Pass<S> {
    ghost use Rattle.turn_lock.specs.Told.{IsIdle};
    ghost use Rattle.turn_lock.specs.Shown.{view_of_pass};

    // Its seat, which is idle.
    fn into_seat(self) -> TurnSeat<S>
        ensures idle { IsIdle result.me self.caller }
        ensures same { view_of_pass result self.caller ≡ self }
    {
        let Pass { seat, caller: _ } = self;
        seat
    }
}

impl<S: Journaled> Owner<S> {
    /// A new pass, which has seen what the owner has and has had no turn. Its caller is how many passes were made up to now, this one too, so no caller
    /// comes twice. After 1,024 passes there is none, whether they were taken back or not.
    pub fn pass(&mut self, turn: &Turn<S>) -> Result<Pass<S>, PassFault>
        requires { self.old.lock ≡ turn.now }
        ensures too_many { IsErr result ↔ (self.old.made ≡ 1024) }
        ensures pass { IfOk result (λ p. p ≡ record { lock = turn.now; caller = self.old.made + 1; seen = self.old.seen; fixed = self.old.fixed; turns = 0 }) }
        ensures own { IfOk result (λ p. entries_by p.caller p.seen ≡ []) }
        ensures counts { OnOk result (self.new ≡ record self.old { made = self.old.made + 1; out = self.old.out + 1 }) }
        ensures refused { OnErr result (self.new ≡ self.old) }
    {
        if self.made == MAX_PASSES {
            return Err(PassFault::TooManyPasses);
        }
        let seat = deal(&turn.table.shared, &mut self.seat, self.made);
        self.made += 1;
        self.out += 1;
        Ok(Pass {
            seat,
            caller: self.made,
        })
    }

    /// Takes a pass back and keeps its caller. The owner has then seen the longer of what both had seen, which begins with the other.
    pub fn take_back(&mut self, turn: &Turn<S>, pass: Pass<S>)
        requires { (self.old.lock ≡ turn.now) × (pass.lock ≡ turn.now) }
        ensures counts { (self.old.out ≡ self.new.out + 1) × (self.new ≡ record self.old { out = self.new.out; seen = self.new.seen; kept = self.old.kept ++ pass.caller ∷ [] }) }
        ensures seen { self.new.seen ≡ longer self.old.seen pass.seen }
        ensures begins { Begins self.old.seen self.new.seen × Begins pass.seen self.new.seen }
        ensures own { entries_by pass.caller self.new.seen ≡ entries_by pass.caller pass.seen }
        ensures before { (c : ℕ) → Contains self.old.kept c → entries_by c self.new.seen ≡ entries_by c self.old.seen }
    {
        take_in(
            &turn.table.shared,
            &mut self.seat,
            pass.into_seat(),
            self.made,
        );
        self.out -= 1;
    }

    /// Ends the lock and gives its state, whose history is what the owner has seen: for each pass exactly its entries, in order. Refused where passes are out.
    pub fn close(self, turn: Turn<S>) -> Result<S, CloseRefused<S>>
        requires { self.lock ≡ turn }
        ensures refused { IsErr result ↔ (1 ≤ self.out) }
        ensures same { IfErr result (λ e. (e.turn ≡ turn) × (e.owner ≡ self) × (e.out ≡ self.out)) }
        ensures history { IfOk result (λ x. S.history x ≡ self.seen) }
        ensures fixed { IfOk result (λ x. self.fixed ≡ Some (S.fixed x)) }
        ensures all_kept { OnOk result ((c : ℕ) → 0 < c → c ≤ self.made → Contains self.kept c) }
        ensures no_other { IfOk result (λ x. LacksUngiven self.made (S.history x)) }
    {
        if self.out >= 1 {
            let out = self.out;
            return Err(CloseRefused {
                turn,
                owner: self,
                out,
            });
        }
        let Owner { seat, made, out: _ } = self;
        let Turn { table, queue: _ } = turn;
        Ok(end_turns(table, seat, made))
    }
}
