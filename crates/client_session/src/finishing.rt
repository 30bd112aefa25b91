// Numbered updates are finished: by the session that numbered them, or by another one.
ghost use Rattle.std.specs.Prelude.{◌≡◌, ◌⊎◌, ℕ, ◌+◌, ◌<◌, ◌≤◌, [], length, map, sum_by, All, true, false, Some, Err, IfOk, IfErr, IfSome, slice_get};
ghost use Rattle.std.specs.Arc.{arc_value};
ghost use denote.Param.Send.{IsSync};
ghost use Rattle.faults.specs.Counts.{RoseBy};
ghost use Rattle.blob_model.specs.History.{AllOther};
ghost use Rattle.request_form.specs.Replies.{page_faults, fault_count};
ghost use Rattle.request_form.specs.Session.{without_version};
ghost use Rattle.request_form.specs.Answers.{Answers};
ghost use Rattle.request_form.specs.declared.form.Request.TheVariants as Requests;
ghost use Rattle.version_manager.specs.Log.{MayFinish, IsWaitingTicket};
ghost use Rattle.tree_weaver.specs.Anew.{FoldFailed, StoresNoneAnew};
ghost use Rattle.tree_weaver.specs.Woven.{IsWoven};
ghost use Rattle.client_session.specs.Losses.{IfPageLost, LostAnew, LostOfHeld};
ghost use Rattle.client_session.specs.Memory.{IfNoMemory, IsLeft, IsHeldLeft};
ghost use Rattle.client_session.specs.Results.{weave_fault, finish_reply, repair_reply};
ghost use Rattle.client_session.specs.Sessions.{IsPassOf, Went, session_of, Continues};
ghost use Rattle.client_session.specs.SessionInvariant.{IsTicketHere};
ghost use Rattle.client_session.specs.Tickets.{OpenUpdate, tickets_of, HasRow, WithoutNumber, WithoutVersion};
ghost use Rattle.client_session.specs.TurnCounts.{UpTo, IsPlainRefusal, RefusedEarly, TakesTurns, FinishTurns, RowTurns, HeldTurns};
ghost use Rattle.client_session.specs.Finishing.{bare, Finishing, settles, IsEquipped, LookedFresh, Issuing, NotWoven, IsFreshHere, weaving_faults};

use crate::session::{Session, fault_of};
use crate::shared::Shared;
use border_hints::Ticket;
use node_store::Row;
use page_fan::{BesideDoor, Doors};
use page_store::Door;
use ports::gate::{Gate, Point};
use range_reader::ReadRoom;
use request_form::Fault;
use std::alloc::Global;
use std::sync::{Arc, Wait};
use std::thread::Threads;
use tree_weaver::{WeaveFault, weave, weave_anew};
use version_manager::{DeskFault, Pass};

// A numbered update.
#[derive(Clone, Copy)]
struct Numbered {
    blob: u64,
    version: u64,
}

// Whether the update of a finish is finished, by the session or by others: no ticket of it is wanted any more.
fn is_settled(finished: &Result<u64, Fault>) -> bool
    ensures { result ≡ settles finished.now }
{
    matches!(finished, Ok(_) | Err(Fault::Already { .. }))
}

// What the session says where an update was not woven.
fn fault_of_weaving(fault: WeaveFault) -> Fault
    ensures { result ≡ weave_fault fault }
{
    match fault {
        WeaveFault::PageFault(page) => Fault::PageFault { page },
        WeaveFault::NoMemory => Fault::NoMemory,
    }
}

// Reports an update as finished, in one turn, and wakes those that wait for a publication.
fn report<R: Wait>(
    rt: &R,
    shared: &Shared,
    pass: &mut Pass,
    ticket: &Ticket,
    row: Arc<Row>,
) -> Result<u64, Fault>
    requires pass { IsPassOf shared.now pass.old }
    requires may { MayFinish ticket.now (arc_value row) pass.old.seen shared.now.fixed }
    ensures pass { pass.new ≡ record pass.old { seen = pass.new.seen; turns = pass.new.turns } }
    ensures one_turn { pass.new.turns ≡ pass.old.turns + 1 }
    ensures went { Went shared.now.fixed pass.old.seen pass.new.seen }
    ensures finishing { Finishing shared.now.fixed pass.old.caller pass.old.seen ticket.now.blob ticket.now.version result pass.new.seen }
    ensures calm { fault_count (repair_reply result) ≡ 0 }
    ensures memory { IfErr result (λ fault. IfNoMemory fault (IsLeft (bare shared.now.fixed pass.old.caller pass.new.seen) ticket.now.blob ticket.now.version)) }
{
    version_manager::laws::gaps_are_of_others();
    ticket.stands();
    match shared.desk().finish(rt, pass, ticket, row) {
        Ok(published) => {
            shared.notices().notify();
            Ok(published)
        }
        Err((fault, _row)) => Err(fault_of(fault)),
    }
}

// The ticket of a waiting version, with the hints of now: one look.
fn fresh_ticket<R: Wait>(
    rt: &R,
    shared: &Shared,
    pass: &mut Pass,
    blob: u64,
    version: u64,
) -> Result<Ticket, DeskFault>
    requires pass { IsPassOf shared.now pass.old }
    ensures pass { pass.new ≡ record pass.old { seen = pass.new.seen; turns = pass.new.turns } }
    ensures one_turn { pass.new.turns ≡ pass.old.turns + 1 }
    ensures went { Went shared.now.fixed pass.old.seen pass.new.seen }
    ensures looked { LookedFresh shared.now.fixed pass.old.caller pass.old.seen blob version result pass.new.seen }
{
    version_manager::laws::gaps_are_of_others();
    match shared.desk().ticket_of(rt, pass, blob, version) {
        Ok(ticket) => {
            ticket.stands();
            Ok(ticket)
        }
        Err(fault) => Err(fault),
    }
}

// What is answered where an update isn't finished for want of memory. One look tells whether anything else stands against it.
fn starved<R: Wait>(rt: &R, shared: &Shared, pass: &mut Pass, blob: u64, version: u64) -> Fault
    requires pass { IsPassOf shared.now pass.old }
    ensures pass { pass.new ≡ record pass.old { seen = pass.new.seen; turns = pass.new.turns } }
    ensures one_turn { pass.new.turns ≡ pass.old.turns + 1 }
    ensures went { Went shared.now.fixed pass.old.seen pass.new.seen }
    ensures finishing { Finishing shared.now.fixed pass.old.caller pass.old.seen blob version (Err result) pass.new.seen }
    ensures calm { page_faults result ≡ 0 }
    ensures memory { IfNoMemory result (IsLeft (bare shared.now.fixed pass.old.caller pass.new.seen) blob version) }
{
    match fresh_ticket(rt, shared, pass, blob, version) {
        Ok(_ticket) => Fault::NoMemory,
        Err(fault) => fault_of(fault),
    }
}

// Weaves an update by its fresh ticket. Where it stores pages of the blob anew, these are read from the version before it, by which
// the ticket's snapshot must be, and stored.
fn woven_or_why<D: BesideDoor, R: Threads + Wait + Sync>(
    rt: &R,
    alloc: Global,
    shared: &Shared,
    doors: &mut Doors<D>,
    room: &mut ReadRoom,
    ticket: &Ticket,
) -> Result<Arc<Row>, Fault>
    requires sync { IsSync R.row }
    requires ready { IsEquipped D.is_true shared.now doors.old room.old }
    requires here { IsFreshHere shared.now.fixed ticket.now }
    ensures woven { IfOk result (λ row. IsWoven shared.now.fixed.nodes shared.now.fixed.houses ticket.now (arc_value row)) }
    ensures knows { IfOk result (λ _. StoresNoneAnew ticket.now ⊎ (length ticket.now.snapshot.rows + 1 ≡ ticket.now.version)) }
    ensures why { IfErr result (NotWoven ticket.now) }
    ensures failed { IfErr result (λ fault. IfPageLost fault
        (FoldFailed ticket.now shared.now.providers shared.now.replicas (map D.faults doors.old) (map D.faults doors.new))) }
    ensures untouched { IfErr result (λ fault. IsPlainRefusal fault → doors.new ≡ doors.old) }
    ensures risen { RoseBy (weaving_faults result) (sum_by D.faults doors.old) (sum_by D.faults doors.new) }
    ensures ready { IsEquipped D.is_true shared.now doors.new room.new }
{
    let (version, published) = (ticket.version(), ticket.hints().snapshot.version());
    if published + 1 < version {
        return match weave(rt, alloc, ticket, shared.nodes()) {
            Ok(Some(row)) => Ok(row),
            Ok(None) => Err(Fault::Pending {
                version: version - 1,
                held: published + 1,
            }),
            Err(_) => Err(Fault::NoMemory),
        };
    }
    let woven = weave_anew(
        rt,
        alloc,
        ticket,
        shared.nodes(),
        shared.loads(),
        doors,
        shared.houses(),
        room,
    );
    match woven {
        Ok(row) => Ok(row),
        Err(fault) => Err(fault_of_weaving(fault)),
    }
}

// Finishes an update by a fresh ticket: one look, and then it is woven and reported.
fn finish_fresh<D: BesideDoor, G: Gate, R: Threads + Wait + Sync>(
    rt: &R,
    alloc: Global,
    shared: &Shared,
    gate: &G,
    pass: &mut Pass,
    doors: &mut Doors<D>,
    room: &mut ReadRoom,
    update: Numbered,
) -> Result<u64, Fault>
    requires sync { IsSync R.row }
    requires pass { IsPassOf shared.now pass.old }
    requires ready { IsEquipped D.is_true shared.now doors.old room.old }
    ensures pass { pass.new ≡ record pass.old { seen = pass.new.seen; turns = pass.new.turns } }
    ensures turns { TakesTurns result 2 pass.old.turns pass.new.turns }
    ensures went { Went shared.now.fixed pass.old.seen pass.new.seen }
    ensures finishing { Finishing shared.now.fixed pass.old.caller pass.old.seen update.blob update.version result pass.new.seen }
    ensures failed { IfErr result (λ fault. IfPageLost fault
        (LostAnew shared.now pass.new.seen update.blob update.version (map D.faults doors.old) (map D.faults doors.new))) }
    ensures untouched { IfErr result (λ fault. RefusedEarly fault 2 pass.old.turns pass.new.turns → doors.new ≡ doors.old) }
    ensures risen { RoseBy (fault_count (repair_reply result)) (sum_by D.faults doors.old) (sum_by D.faults doors.new) }
    ensures ready { IsEquipped D.is_true shared.now doors.new room.new }
    ensures memory { IfErr result (λ fault. IfNoMemory fault (IsLeft (bare shared.now.fixed pass.old.caller pass.new.seen) update.blob update.version)) }
{
    let ticket = match fresh_ticket(rt, shared, pass, update.blob, update.version) {
        Ok(ticket) => ticket,
        Err(fault) => return Err(fault_of(fault)),
    };
    let row = match woven_or_why(rt, alloc, shared, doors, room, &ticket) {
        Ok(row) => row,
        Err(fault) => return Err(fault),
    };
    gate.at(rt, Point::Woven, pass);
    report(rt, shared, pass, &ticket, row)
}

// Finishes an update by this ticket of it, unless it stores pages of the blob anew: then by a fresh one, since the ticket's hints may
// be old.
fn finish_by<D: BesideDoor, G: Gate, R: Threads + Wait + Sync>(
    rt: &R,
    alloc: Global,
    shared: &Shared,
    gate: &G,
    pass: &mut Pass,
    doors: &mut Doors<D>,
    room: &mut ReadRoom,
    ticket: &Ticket,
) -> Result<u64, Fault>
    requires sync { IsSync R.row }
    requires pass { IsPassOf shared.now pass.old }
    requires ready { IsEquipped D.is_true shared.now doors.old room.old }
    requires ticket { IsTicketHere shared.now.fixed pass.old.seen ticket.now }
    ensures pass { pass.new ≡ record pass.old { seen = pass.new.seen; turns = pass.new.turns } }
    ensures turns { UpTo 2 pass.old.turns pass.new.turns }
    ensures finish_turns { IfOk result (λ _. FinishTurns ticket.now pass.old.turns pass.new.turns) }
    ensures went { Went shared.now.fixed pass.old.seen pass.new.seen }
    ensures finishing { Finishing shared.now.fixed pass.old.caller pass.old.seen ticket.now.blob ticket.now.version result pass.new.seen }
    ensures failed { IfErr result (λ fault. IfPageLost fault
        (LostAnew shared.now pass.new.seen ticket.now.blob ticket.now.version (map D.faults doors.old) (map D.faults doors.new))) }
    ensures untouched { IfErr result (λ fault. RefusedEarly fault 2 pass.old.turns pass.new.turns → doors.new ≡ doors.old) }
    ensures risen { RoseBy (fault_count (repair_reply result)) (sum_by D.faults doors.old) (sum_by D.faults doors.new) }
    ensures ready { IsEquipped D.is_true shared.now doors.new room.new }
    ensures memory { IfErr result (λ fault. IfNoMemory fault (IsLeft (bare shared.now.fixed pass.old.caller pass.new.seen) ticket.now.blob ticket.now.version)) }
{
    match weave(rt, alloc, ticket, shared.nodes()) {
        Ok(Some(row)) => {
            gate.at(rt, Point::Woven, pass);
            report(rt, shared, pass, ticket, row)
        }
        Ok(None) => finish_fresh(
            rt,
            alloc,
            shared,
            gate,
            pass,
            doors,
            room,
            Numbered {
                blob: ticket.blob(),
                version: ticket.version(),
            },
        ),
        Err(_) => Err(starved(rt, shared, pass, ticket.blob(), ticket.version())),
    }
}

impl<'a, D: BesideDoor, G: Gate> Session<'a, D, G> {
    // Finishes an update by a fresh ticket. What the session holds stays.
    fn finish_anew<R: Threads + Wait + Sync>(
        &mut self,
        rt: &R,
        blob: u64,
        version: u64,
    ) -> Result<u64, Fault>
        requires sync { IsSync R.row }
        ensures finishing { Finishing self.old.store.fixed self.old.caller self.old.log blob version result self.new.log }
        ensures failed { IfErr result (λ fault. IfPageLost fault
            (LostAnew self.old.store self.new.log blob version (map D.faults self.old.doors) (map D.faults self.new.doors))) }
        ensures untouched { IfErr result (λ fault. RefusedEarly fault 2 self.old.turns self.new.turns → self.new.doors ≡ self.old.doors) }
        ensures faults { RoseBy (fault_count (repair_reply result)) (sum_by D.faults self.old.doors) (sum_by D.faults self.new.doors) }
        ensures goes_on { Continues self.old self.new }
        ensures rest { self.new ≡ record self.old { log = self.new.log; doors = self.new.doors; turns = self.new.turns } }
        ensures turns { TakesTurns result 2 self.old.turns self.new.turns }
        ensures memory { IfErr result (λ fault. IfNoMemory fault (IsLeft (session_of self.new) blob version)) }
    {
        finish_fresh(
            rt,
            self.alloc,
            self.shared,
            self.gate,
            &mut self.pass,
            &mut self.doors,
            &mut self.room,
            Numbered { blob, version },
        )
    }

    // Finishes an update by this ticket of it, or by a fresh one. What the session holds stays.
    pub(crate) fn finish_by<R: Threads + Wait + Sync>(
        &mut self,
        rt: &R,
        ticket: &Ticket,
    ) -> Result<u64, Fault>
        requires sync { IsSync R.row }
        requires ticket { IsTicketHere self.old.store.fixed self.old.log ticket.now }
        ensures finishing { Finishing self.old.store.fixed self.old.caller self.old.log ticket.now.blob ticket.now.version result self.new.log }
        ensures failed { IfErr result (λ fault. IfPageLost fault
            (LostAnew self.old.store self.new.log ticket.now.blob ticket.now.version (map D.faults self.old.doors) (map D.faults self.new.doors))) }
        ensures untouched { IfErr result (λ fault. RefusedEarly fault 2 self.old.turns self.new.turns → self.new.doors ≡ self.old.doors) }
        ensures faults { RoseBy (fault_count (repair_reply result)) (sum_by D.faults self.old.doors) (sum_by D.faults self.new.doors) }
        ensures goes_on { Continues self.old self.new }
        ensures rest { self.new ≡ record self.old { log = self.new.log; doors = self.new.doors; turns = self.new.turns } }
        ensures turns { UpTo 2 self.old.turns self.new.turns }
        ensures finish_turns { IfOk result (λ _. FinishTurns ticket.now self.old.turns self.new.turns) }
        ensures memory { IfErr result (λ fault. IfNoMemory fault (IsLeft (session_of self.new) ticket.now.blob ticket.now.version)) }
    {
        finish_by(
            rt,
            self.alloc,
            self.shared,
            self.gate,
            &mut self.pass,
            &mut self.doors,
            &mut self.room,
            ticket,
        )
    }

    // Finishes the held update at that index: by its row, or by a fresh ticket where it has none. It stays held.
    fn finish_at<R: Threads + Wait + Sync>(&mut self, rt: &R, index: usize) -> Result<u64, Fault>
        requires sync { IsSync R.row }
        requires within { index < length self.old.held }
        ensures finishing { (o : OpenUpdate) → slice_get self.old.held index ≡ Some o
            → Finishing self.old.store.fixed self.old.caller self.old.log o.ticket.blob o.ticket.version result self.new.log }
        ensures failed { (o : OpenUpdate) → slice_get self.old.held index ≡ Some o → IfErr result (λ fault. IfPageLost fault
            (LostAnew self.old.store self.new.log o.ticket.blob o.ticket.version (map D.faults self.old.doors) (map D.faults self.new.doors))) }
        ensures untouched { IfErr result (λ fault. RefusedEarly fault 2 self.old.turns self.new.turns → self.new.doors ≡ self.old.doors) }
        ensures faults { RoseBy (fault_count (repair_reply result)) (sum_by D.faults self.old.doors) (sum_by D.faults self.new.doors) }
        ensures goes_on { Continues self.old self.new }
        ensures rest { self.new ≡ record self.old { log = self.new.log; doors = self.new.doors; turns = self.new.turns } }
        ensures turns { UpTo 2 self.old.turns self.new.turns }
        ensures row_turns { (o : OpenUpdate) → slice_get self.old.held index ≡ Some o → IfOk result (λ _. RowTurns o.row self.old.turns self.new.turns) }
        ensures row_most { (o : OpenUpdate) → slice_get self.old.held index ≡ Some o → IfSome o.row (λ _. UpTo 1 self.old.turns self.new.turns) }
        ensures row_doors { (o : OpenUpdate) → slice_get self.old.held index ≡ Some o → IfSome o.row (λ _. self.new.doors ≡ self.old.doors) }
        ensures memory { (o : OpenUpdate) → slice_get self.old.held index ≡ Some o
            → IfErr result (λ fault. IfNoMemory fault (IsLeft (session_of self.new) o.ticket.blob o.ticket.version)) }
    {
        let open = self.held.at(index);
        let (blob, version) = (open.ticket().blob(), open.ticket().version());
        match open.row() {
            Ok(Some(row)) => report(rt, self.shared, &mut self.pass, open.ticket(), row),
            Ok(None) => self.finish_anew(rt, blob, version),
            Err(_) => Err(starved(rt, self.shared, &mut self.pass, blob, version)),
        }
    }

    /// Finishes the update of a ticket, and gives the greatest published version of its blob.
    ///
    /// Where its tree is woven it reports by that, in one turn at most, and calls no door. Where it isn't woven yet it takes one look
    /// first, for the ticket with the hints of now. An update that stores pages of the blob anew can be woven once the version before
    /// it is published: it reads those pages from that, and stores them.
    ///
    /// `NoTicket` where this session holds no such ticket, and only then. `Already` where another session has finished the update.
    /// `Pending` where it stores pages anew and the version before it waits; it names that version, and the least unfinished one.
    /// `PageFault` names a page that it stores anew, of which no provider gave a page that is read for it, or took it. `NoMemory` comes
    /// only where the update isn't finished in what the session has seen then; where a look is needed to know that, it takes one. After `Ok` and
    /// `Already` the session holds the ticket no more, after any other fault it still does. The others that it holds stay, each with its
    /// row. A refusal in the first turn that is neither a lost page nor want of memory calls no door.
    pub fn finish<R: Threads + Wait + Sync>(&mut self, rt: &R, ticket: u64) -> Result<u64, Fault>
        requires sync { IsSync R.row }
        ensures answers { Answers AllOther (session_of self.old) (Requests.Finish ticket) (finish_reply result) (session_of self.new) }
        ensures failed { IfErr result (λ fault. IfPageLost fault
            (LostOfHeld self.old.store self.new.log self.old.held ticket (map D.faults self.old.doors) (map D.faults self.new.doors))) }
        ensures by_row { HasRow self.old.held ticket → self.new.doors ≡ self.old.doors }
        ensures by_row_turns { HasRow self.old.held ticket → UpTo 1 self.old.turns self.new.turns }
        ensures untouched { IfErr result (λ fault. RefusedEarly fault 2 self.old.turns self.new.turns → self.new.doors ≡ self.old.doors) }
        ensures held_stay { settles result ≡ false → self.new.held ≡ self.old.held }
        ensures given_up { settles result ≡ true → WithoutNumber self.old.held ticket self.new.held }
        ensures faults { RoseBy (fault_count (finish_reply result)) (sum_by D.faults self.old.doors) (sum_by D.faults self.new.doors) }
        ensures goes_on { Continues self.old self.new }
        ensures turns { UpTo 2 self.old.turns self.new.turns }
        ensures held_turns { IfOk result (λ _. HeldTurns self.old.held ticket self.old.turns self.new.turns) }
        ensures looks { self.new.looks_first ≡ self.old.looks_first }
        ensures memory { IfErr result (λ fault. IfNoMemory fault (IsHeldLeft self.old.held ticket (session_of self.new))) }
    {
        let Some(index) = self.held.find(ticket) else {
            return Err(Fault::NoTicket { ticket });
        };
        let finished = self.finish_at(rt, index);
        if is_settled(&finished) {
            self.held.remove(index);
        }
        finished
    }

    /// Finishes the update of a ticket that `ticket_for` gave, or one like it, and gives the greatest published version of its blob.
    ///
    /// Where the update stores pages of the blob anew it looks for a fresh ticket first. The faults are those of `finish`, and come where
    /// they do there, without `NoTicket`. Where it is `Ok` or `Already` the session gives up a ticket of that update that it holds. The others stay, each with
    /// its row.
    pub fn finish_with<R: Threads + Wait + Sync>(
        &mut self,
        rt: &R,
        ticket: &Ticket,
    ) -> Result<u64, Fault>
        requires sync { IsSync R.row }
        requires ticket { IsTicketHere self.old.store.fixed self.old.log ticket.now }
        ensures answers { Answers AllOther (session_of self.old) (Requests.Repair ticket.now.blob ticket.now.version) (repair_reply result) (session_of self.new) }
        ensures failed { IfErr result (λ fault. IfPageLost fault
            (LostAnew self.old.store self.new.log ticket.now.blob ticket.now.version (map D.faults self.old.doors) (map D.faults self.new.doors))) }
        ensures untouched { IfErr result (λ fault. RefusedEarly fault 2 self.old.turns self.new.turns → self.new.doors ≡ self.old.doors) }
        ensures faults { RoseBy (fault_count (repair_reply result)) (sum_by D.faults self.old.doors) (sum_by D.faults self.new.doors) }
        ensures held_stay { settles result ≡ false → self.new.held ≡ self.old.held }
        ensures let_go { settles result ≡ true → WithoutVersion self.old.held ticket.now.blob ticket.now.version self.new.held }
        ensures goes_on { Continues self.old self.new }
        ensures turns { UpTo 2 self.old.turns self.new.turns }
        ensures finish_turns { IfOk result (λ _. FinishTurns ticket.now self.old.turns self.new.turns) }
        ensures looks { self.new.looks_first ≡ self.old.looks_first }
        ensures memory { IfErr result (λ fault. IfNoMemory fault (IsLeft (session_of self.new) ticket.now.blob ticket.now.version)) }
    {
        let finished = self.finish_by(rt, ticket);
        if is_settled(&finished) {
            self.let_go(ticket.blob(), ticket.version());
        }
        finished
    }

    /// Finishes an update that this session, or another one, has numbered, and gives the greatest published version of its blob. It takes
    /// one look first, for the ticket with the hints of now.
    ///
    /// `NoBlob` where there is no such blob, `NotPublished` where the version was never numbered, `Already` where it is finished. Then
    /// `Pending`, `PageFault` and `NoMemory` as `finish`. Where it is `Ok` or `Already` the session gives up a ticket of that update
    /// that it holds; else its tickets stay.
    pub fn repair<R: Threads + Wait + Sync>(
        &mut self,
        rt: &R,
        blob: u64,
        version: u64,
    ) -> Result<u64, Fault>
        requires sync { IsSync R.row }
        ensures answers { Answers AllOther (session_of self.old) (Requests.Repair blob version) (repair_reply result) (session_of self.new) }
        ensures failed { IfErr result (λ fault. IfPageLost fault
            (LostAnew self.old.store self.new.log blob version (map D.faults self.old.doors) (map D.faults self.new.doors))) }
        ensures untouched { IfErr result (λ fault. RefusedEarly fault 2 self.old.turns self.new.turns → self.new.doors ≡ self.old.doors) }
        ensures faults { RoseBy (fault_count (repair_reply result)) (sum_by D.faults self.old.doors) (sum_by D.faults self.new.doors) }
        ensures held_stay { settles result ≡ false → self.new.held ≡ self.old.held }
        ensures let_go { settles result ≡ true → WithoutVersion self.old.held blob version self.new.held }
        ensures goes_on { Continues self.old self.new }
        ensures turns { TakesTurns result 2 self.old.turns self.new.turns }
        ensures looks { self.new.looks_first ≡ self.old.looks_first }
        ensures memory { IfErr result (λ fault. IfNoMemory fault (IsLeft (session_of self.new) blob version)) }
    {
        let finished = self.finish_anew(rt, blob, version);
        if is_settled(&finished) {
            self.let_go(blob, version);
        }
        finished
    }
}

impl<'a, D: Door, G: Gate> Session<'a, D, G> {
    // Gives up the ticket of that version of the blob, where one is held.
    fn let_go(&mut self, blob: u64, version: u64)
        ensures left { tickets_of self.new.held ≡ without_version (tickets_of self.old.held) blob version }
        ensures others_stay { WithoutVersion self.old.held blob version self.new.held }
        ensures rest { self.new ≡ record self.old { held = self.new.held } }
    {
        let Some(index) = self.held.find_version(blob, version) else {
            return;
        };
        self.held.remove(index);
    }

    /// The ticket of a waiting version of a blob, whoever numbered it, with the hints of now: `finish_with` finishes by it. One turn.
    ///
    /// `NoBlob` where there is no such blob, `NotPublished` where the version was never numbered, `Already` where it is finished, and
    /// `NoMemory` only where it is none of these. The held tickets and the doors stay.
    pub fn ticket_for<R: Wait>(&mut self, rt: &R, blob: u64, version: u64) -> Result<Ticket, Fault>
        ensures issuing { Issuing self.old blob version result self.new }
        ensures goes_on { Continues self.old self.new }
        ensures memory { IfErr result (λ fault. IfNoMemory fault (IsLeft (session_of self.new) blob version)) }
    {
        match fresh_ticket(rt, self.shared, &mut self.pass, blob, version) {
            Ok(ticket) => Ok(ticket),
            Err(fault) => Err(fault_of(fault)),
        }
    }
}
