//! What a seat does on the table, by the steps that its act takes.
ghost use Rattle.std.specs.Prelude.{◌≡◌, ◌+◌, ◌++◌, ◌%◌, ◌^◌, ◌<◌, ◌≤◌, [], ◌∷◌, ℕ, length, IfSome, Contains};
ghost use Rattle.turn_lock.specs.declared.view.Stage.TheVariants.{Idle, Waits, Inside, Owns};
ghost use Rattle.turn_lock.specs.History.{entries_by, Begins, Adds, longer, LacksUngiven};
ghost use Rattle.turn_lock.specs.Turns.{staged};
ghost use Rattle.turn_lock.specs.Told.{number_of, kept_of, Enters, Ran, Turned, Stays, IsIdle, Closes, dealt, newcomer, rested};

use crate::journal::{Act, Journaled};
use crate::plays::{Book, Deal, Draw, Gather, Look, PassOn, Settle};
use crate::rule::{DRAWN, ENTRIES, PASSED, Room, STATE, TurnSeat, TurnTable};
use std::hint::spin_loop;
use std::sync::Wait;

/// How often a thread looks before it sleeps: a turn is short, and a sleep costs more than these looks.
pub const LOOKS: u32 = 64;

// Draws a number.
fn draw<S: Journaled>(table: &TurnTable<S>, seat: &mut TurnSeat<S>) -> u64
    requires table { (seat.old.table_id ≡ table.now.table_id) × (table.now.table_id.words ≡ 3) }
    requires idle { seat.old.me.0.stage ≡ Idle }
    ensures seat { Stays seat.old seat.new }
    ensures drawn { result ≡ number_of seat.new.me.0.stage % 18446744073709551616 }
    ensures waits { seat.new.me ≡ (staged seat.old.me.0 (Waits (number_of seat.new.me.0.stage)), seat.old.me.1) }
{
    table.fetch_add::<Draw>(seat, DRAWN, 1)
}

// Waits for its turn, and takes the state.
fn enter<S: Journaled, R: Wait>(rt: &R, table: &TurnTable<S>, seat: &mut TurnSeat<S>, number: u64)
    requires table { (seat.old.table_id ≡ table.now.table_id) × (table.now.table_id.words ≡ 3) }
    requires waits { seat.old.me.0.stage ≡ Waits (number_of seat.old.me.0.stage) }
    requires drawn { number ≡ number_of seat.old.me.0.stage % 18446744073709551616 }
    ensures seat { Stays seat.old seat.new }
    ensures enters { Enters S.history S.fixed (number_of seat.old.me.0.stage) seat.old.me seat.new.me }
{
    let mut looks = 0;
    for _ in rt.forever() {
        let found = table.load::<Look>(seat, PASSED);
        if found == number {
            return;
        }
        if looks < LOOKS {
            looks += 1;
            spin_loop();
        } else {
            table.park(rt, PASSED, (found & 0xffff_ffff) as u32);
        }
    }
    unreachable!()
}

// Lets the act change the state where it lies, and tells how many entries it added.
fn run<S: Journaled, A: Act<S>>(
    table: &TurnTable<S>,
    seat: &mut TurnSeat<S>,
    act: A,
    caller: u32,
) -> (A::Answer, u64)
    requires table { (seat.old.table_id ≡ table.now.table_id) × (caller ≡ seat.old.me.0.caller) }
    requires held { (x : S) × (seat.old.me.1 ≡ (0, x) ∷ []) × A.ready act (S.history x) (S.fixed x) }
    ensures seat { Stays seat.old seat.new }
    ensures ran { (x : S) × (y : S) × (length (S.history y) < 2 ^ 38)
        × Ran S.history S.fixed (λ before f after. A.gives act before f caller result.0 after) seat.old.me seat.new.me result.1 x y }
{
    let state = seat.slot_mut(table, STATE);
    let before = state.count();
    let answer = act.act(state, caller);
    let added = state.count() - before;
    (answer, added)
}

// Counts what the act added.
fn book<S: Journaled>(table: &TurnTable<S>, seat: &mut TurnSeat<S>, added: u64)
    requires table { (seat.old.table_id ≡ table.now.table_id) × (table.now.table_id.words ≡ 3) }
    requires inside { seat.old.me.0.stage ≡ Inside (number_of seat.old.me.0.stage) }
    requires held { (x : S) × (seat.old.me.1 ≡ (0, x) ∷ []) × Adds seat.old.me.0.caller seat.old.me.0.seen (S.history x)
        × (length (S.history x) ≡ length seat.old.me.0.seen + added) × (length (S.history x) < 2 ^ 38) }
    ensures seat { Stays seat.old seat.new }
    ensures booked { (x : S) → seat.old.me.1 ≡ (0, x) ∷ []
        → seat.new.me ≡ (record { caller = seat.old.me.0.caller; seen = S.history x; fixed = seat.old.me.0.fixed; turns = seat.old.me.0.turns; stage = seat.old.me.0.stage }, seat.old.me.1) }
{
    table.fetch_add::<Book>(seat, ENTRIES, added);
}

// Gives the state back with the turn, and wakes those that sleep. Where no seat has a number none sleeps: a seat draws before
// it looks.
fn pass_on<S: Journaled>(table: &TurnTable<S>, seat: &mut TurnSeat<S>)
    requires table { (seat.old.table_id ≡ table.now.table_id) × (table.now.table_id.words ≡ 3) }
    requires inside { seat.old.me.0.stage ≡ Inside (number_of seat.old.me.0.stage) }
    requires held { (x : S) × (seat.old.me.1 ≡ (0, x) ∷ []) × (S.history x ≡ seat.old.me.0.seen) × (seat.old.me.0.fixed ≡ Some (S.fixed x)) }
    ensures seat { Stays seat.old seat.new }
    ensures passed { seat.new.me ≡ (rested seat.old.me.0, []) }
{
    let number = table.fetch_add::<PassOn>(seat, PASSED, 1);
    if table.peek(DRAWN) != number.wrapping_add(1) {
        table.wake_all(PASSED);
    }
}

/// A whole turn: draw, look, act, book, pass on.
pub fn take_turn<S: Journaled, A: Act<S>, R: Wait>(
    rt: &R,
    table: &TurnTable<S>,
    seat: &mut TurnSeat<S>,
    act: A,
    caller: u32,
) -> A::Answer
    requires table { (seat.old.table_id ≡ table.now.table_id) × (table.now.table_id.words ≡ 3) }
    requires idle { IsIdle seat.old.me caller }
    requires ready { IfSome seat.old.me.0.fixed (λ f. A.ready act seat.old.me.0.seen f) }
    ensures seat { Stays seat.old seat.new }
    ensures same { seat.new.me ≡ (record { caller = seat.old.me.0.caller; seen = seat.new.me.0.seen; fixed = seat.old.me.0.fixed; turns = seat.old.me.0.turns + 1; stage = Idle }, []) }
    ensures turned { Turned (λ before f after. A.gives act before f caller result after) seat.old.me.0 seat.new.me.0 }
{
    let number = draw(table, seat);
    enter(rt, table, seat, number);
    let (answer, added) = run(table, seat, act, caller);
    if added > 0 {
        book(table, seat, added);
    }
    pass_on(table, seat);
    answer
}

/// Splits the seat of a new pass off the owner's.
pub fn deal<S: Journaled>(table: &TurnTable<S>, seat: &mut TurnSeat<S>, made: u32) -> TurnSeat<S>
    requires table { (seat.old.table_id ≡ table.now.table_id) × (table.now.table_id.words ≡ 3) }
    requires owns { (seat.old.me.0.stage ≡ Owns made (kept_of seat.old.me.0.stage)) × (made < 1024) }
    ensures seat { Stays seat.old seat.new × (seat.new.me ≡ (dealt seat.old.me.0, seat.old.me.1)) }
    ensures new { (result.table_id ≡ seat.old.table_id) × (result.me ≡ (newcomer seat.old.me.0, [])) }
{
    table.split_seat::<Deal>(seat)
}

/// Joins a pass's seat to the owner's, by two loads: the table tells only at the second how what both had seen lies in one history.
pub fn take_in<S: Journaled>(
    table: &TurnTable<S>,
    seat: &mut TurnSeat<S>,
    other: TurnSeat<S>,
    made: u32,
)
    requires table { (seat.old.table_id ≡ table.now.table_id) × (other.table_id ≡ table.now.table_id) × (table.now.table_id.words ≡ 3) }
    requires owns { seat.old.me.0.stage ≡ Owns made (kept_of seat.old.me.0.stage) }
    requires idle { (other.me.0.stage ≡ Idle) × (other.me.1 ≡ []) }
    ensures seat { Stays seat.old seat.new × (seat.new.me.1 ≡ seat.old.me.1) × (seat.new.me.0.fixed ≡ seat.old.me.0.fixed) }
    ensures kept { seat.new.me.0.stage ≡ Owns made (kept_of seat.old.me.0.stage ++ other.me.0.caller ∷ []) }
    ensures longer { seat.new.me.0.seen ≡ longer seat.old.me.0.seen other.me.0.seen }
    ensures begins { Begins seat.old.me.0.seen seat.new.me.0.seen × Begins other.me.0.seen seat.new.me.0.seen }
    ensures own { entries_by other.me.0.caller seat.new.me.0.seen ≡ entries_by other.me.0.caller other.me.0.seen }
    ensures before { (c : ℕ) → Contains (kept_of seat.old.me.0.stage) c → entries_by c seat.new.me.0.seen ≡ entries_by c seat.old.me.0.seen }
    ensures room { LacksUngiven made seat.new.me.0.seen × (length (kept_of seat.old.me.0.stage) + 1 ≤ made) }
{
    table.join_seat::<Gather>(seat, other);
    table.load::<Settle>(seat, DRAWN);
}

/// Ends the table, where no pass is out.
pub fn end_turns<S: Journaled>(table: Room<S>, seat: TurnSeat<S>, made: u32) -> S
    requires table { (seat.table_id ≡ table.shared.table_id) × (table.shared.table_id.words ≡ 3) × (table.shared.table_id.slots ≡ 1) }
    requires owns { (seat.me.0.stage ≡ Owns made (kept_of seat.me.0.stage)) × (length (kept_of seat.me.0.stage) ≡ made) }
    ensures { Closes made seat.me.0 (S.history result) (S.fixed result) }
{
    let mut closed = table.close_with(seat);
    let state = closed.take(STATE);
    closed.free();
    state
}
