// The updates of a session: started, or finished at once.
ghost use Rattle.std.specs.Prelude.{◌≡◌, ◌≢◌, ℕ, ◌+◌, ◌<◌, ◌≤◌, Bool, [], ◌∷◌, ◌++◌, length, map, sum_by, All};
ghost use Rattle.std.specs.Prelude.{IfOk, IfErr, IfNone, IfSome, OnOk, option_map, None};
ghost use Rattle.std.specs.Arc.{arc_value};
ghost use denote.Param.Send.{IsSync};
ghost use Rattle.faults.specs.Counts.{RoseBy};
ghost use Rattle.blob_model.specs.History.{AllOther};
ghost use Rattle.blob_model.specs.declared.call.Place.TheVariants.{WriteAt, Append};
ghost use Rattle.page_store.specs.Stored.{bytes_of_pages};
ghost use Rattle.page_fan.specs.Counts.{NoneFell};
ghost use Rattle.page_fan.specs.Put.{ArePut};
ghost use Rattle.request_form.specs.Session.{Session as Seen, store_at};
ghost use Rattle.request_form.specs.Replies.{page_faults, fault_count};
ghost use Rattle.request_form.specs.Answers.{Answers, update_fault, folds_in, update_faults, is_waiting_in};
ghost use Rattle.request_form.specs.declared.form.Request.TheVariants as Requests;
ghost use Rattle.tree_weaver.specs.Anew.{StoresSomeAnew, StoresNoneAnew};
ghost use Rattle.version_manager.specs.Log.{MayAssign, MayFinish};
ghost use Rattle.client_session.specs.SessionInvariant.{IsOpen, IsTicketHere};
ghost use Rattle.client_session.specs.Results.{store_fault, started_reply, updated_reply};
ghost use Rattle.client_session.specs.Sessions.{IsPassOf, Went, session_of, Continues};
ghost use Rattle.client_session.specs.Finishing.{bare};
ghost use Rattle.client_session.specs.Tickets.{HasRow, HasNoRow, AllHeldStill};
ghost use Rattle.client_session.specs.TurnCounts.{IsPlainRefusal, RefusedEarly, look_turns, numbering_turns, TakesTurns, UpdateTurns, DoneTurns, IsNotDone};
ghost use Rattle.client_session.specs.Losses.{IfPageLost, LostFirst, LostAnew, LostOrWaits};
ghost use Rattle.client_session.specs.Looking.{looks_after, looks_then, LostBehindLook};
ghost use Rattle.client_session.specs.Numbering.{LookedAhead, NotNumberedFor, Numbering};
ghost use Rattle.client_session.specs.Putting.{WerePut, WerePutAlone};
ghost use Rattle.client_session.specs.Updates.{update_request, start_request, start_reply, WasNumbered, NotNumbered, IsKept};

use crate::done::{Done, Started, Updated};
use crate::held::{MAX_TICKETS, OpenTicket};
use crate::session::{Session, fault_of};
use crate::shared::Shared;
use blob_model::{Place, Refusal};
use border_hints::Ticket;
use node_store::Row;
use page_fan::{BesideDoor, Doors, StoreFault, store_bytes};
use page_store::{Door, Pages};
use ports::gate::{Gate, Point};
use request_form::{Fault, NoMemory};
use std::alloc::{AllocError, Global};
use std::sync::{Arc, Wait};
use std::thread::Threads;
use tree_weaver::weave;
use version_manager::Pass;

// With each of so many updates the heap is made to grow at once by so many bytes.
const UPDATES_A_STEP: u32 = 32;

const BYTES_A_STEP: usize = 60_000;

// An update as a client asks for it.
#[derive(Clone, Copy)]
struct Asked<'b> {
    blob: u64,
    place: Place,
    bytes: &'b [u8],
}

// Why the session itself refuses an update, where it takes at most `limit` bytes and holds so many tickets.
fn fault_of_update(limit: u64, held: usize, bytes: &[u8]) -> Option<Fault>
    ensures fault { (s : Seen) → s.limit ≡ limit → length s.tickets ≡ held → result ≡ update_fault s bytes.now }
    ensures calm { IfSome result (λ fault. page_faults fault ≡ 0) }
    ensures some { IfNone result (1 ≤ length bytes.now) }
    ensures few { IfNone result (length bytes.now ≤ limit) }
    ensures room { IfNone result (held ≢ 64) }
    ensures untried { IfSome result (λ fault. (before : Bool) → looks_after before fault ≡ before) }
{
    let length = bytes.len() as u64;
    if length == 0 {
        return Some(Fault::EmptyUpdate);
    }
    if length > limit {
        return Some(Fault::UpdateTooLong { length });
    }
    if held == MAX_TICKETS {
        return Some(Fault::TooManyTickets);
    }
    None
}

// What the session says where pages were not stored.
fn fault_of_storing(fault: StoreFault) -> Fault
    ensures { result ≡ store_fault fault }
{
    match fault {
        StoreFault::PageFault { page, .. } => Fault::PageFault { page },
        StoreFault::NoMemory => Fault::NoMemory,
    }
}

// Whether a session looks first at its next update, after one with that fault.
fn looks_after(before: bool, fault: &Fault) -> bool
    ensures { result ≡ looks_after before fault.now }
{
    match fault {
        Fault::NoBlob { .. }
        | Fault::OffsetPastSize { .. }
        | Fault::BlobTooBig { .. }
        | Fault::TooManyVersions { .. }
        | Fault::TooManyOpen { .. } => true,
        Fault::Already { .. } | Fault::NoMemoryTicket { .. } => false,
        _ => before,
    }
}

// Looks whether the store would refuse the update, before any page of it is stored. For an update of one page its numbering tells that
// as soon, and only that page stays stored for nothing: it is looked for where the session was refused before, so that refusals one
// after another leave no more than that.
fn look_ahead<R: Wait>(
    rt: &R,
    shared: &Shared,
    pass: &mut Pass,
    looks_first: bool,
    asked: Asked<'_>,
) -> Option<Refusal>
    requires pass { IsPassOf shared.now pass.old }
    requires some { 1 ≤ length asked.bytes.now }
    requires few { length asked.bytes.now ≤ 16777216 }
    ensures pass { pass.new ≡ record pass.old { seen = pass.new.seen; turns = pass.new.turns } }
    ensures turns { pass.new.turns ≡ pass.old.turns + look_turns looks_first shared.now.fixed.page_size (length asked.entry.bytes.now) }
    ensures unseen { look_turns looks_first shared.now.fixed.page_size (length asked.entry.bytes.now) ≡ 0 → pass.new.seen ≡ pass.old.seen }
    ensures went { Went shared.now.fixed pass.old.seen pass.new.seen }
    ensures looked { LookedAhead shared.now.fixed pass.old.caller pass.old.seen looks_first asked.entry.blob asked.entry.place asked.entry.bytes.now result pass.new.seen }
{
    version_manager::laws::gaps_are_of_others();
    let length = asked.bytes.len() as u64;
    if !looks_first && length <= u64::from(shared.page_size().bytes()) {
        return None;
    }
    shared
        .desk()
        .refusal_of(rt, pass, asked.blob, asked.place, length)
}

// Stores the bytes of an update that the store doesn't refuse by a first look.
fn prepare<D: BesideDoor, R: Threads + Wait + Sync>(
    rt: &R,
    alloc: Global,
    shared: &Shared,
    pass: &mut Pass,
    doors: &mut Doors<D>,
    looks_first: bool,
    asked: Asked<'_>,
) -> Result<Arc<Pages>, Fault>
    requires sync { IsSync R.row }
    requires pass { IsPassOf shared.now pass.old }
    requires served { length doors.old ≡ shared.now.providers }
    requires some { 1 ≤ length asked.bytes.now }
    requires few { length asked.bytes.now ≤ 16777216 }
    ensures pass { pass.new ≡ record pass.old { seen = pass.new.seen; turns = pass.new.turns } }
    ensures turns { pass.new.turns ≡ pass.old.turns + look_turns looks_first shared.now.fixed.page_size (length asked.entry.bytes.now) }
    ensures unseen { look_turns looks_first shared.now.fixed.page_size (length asked.entry.bytes.now) ≡ 0 → pass.new.seen ≡ pass.old.seen }
    ensures went { Went shared.now.fixed pass.old.seen pass.new.seen }
    ensures looked { IfOk result (λ _. LookedAhead shared.now.fixed pass.old.caller pass.old.seen looks_first asked.entry.blob asked.entry.place asked.entry.bytes.now None pass.new.seen) }
    ensures bytes { IfOk result (λ pages. bytes_of_pages (arc_value pages).pages ≡ asked.entry.bytes.now) }
    ensures ready { IfOk result (λ pages. MayAssign (arc_value pages) shared.now.fixed) }
    ensures put { IfOk result (λ pages. ArePut D.called D.faults shared.now.providers shared.now.replicas doors.old doors.new (arc_value pages).pages) }
    ensures refused { IfErr result (λ fault. NotNumberedFor (bare shared.now.fixed pass.old.caller pass.old.seen) asked.entry.blob asked.entry.place asked.entry.bytes.now fault
        (bare shared.now.fixed pass.old.caller pass.new.seen)) }
    ensures first_lost { IfErr result (λ fault. IfPageLost fault (LostFirst shared.now asked.entry.bytes.now (map D.faults doors.old) (map D.faults doors.new))) }
    ensures risen { IfErr result (λ fault. RoseBy (page_faults fault) (sum_by D.faults doors.old) (sum_by D.faults doors.new)) }
    ensures untouched { IfErr result (λ fault. IsPlainRefusal fault → doors.new ≡ doors.old) }
    ensures none_fell { OnOk result (NoneFell (map D.faults doors.old) (map D.faults doors.new)) }
    ensures never_falls { sum_by D.faults doors.old ≤ sum_by D.faults doors.new }
    ensures count { length doors.new ≡ length doors.old }
    ensures truth_stays { All D.is_true doors.old → All D.is_true doors.new }
{
    if let Some(refusal) = look_ahead(rt, shared, pass, looks_first, asked) {
        return Err(Fault::of(refusal));
    }
    match store_bytes(
        rt,
        alloc,
        shared.loads(),
        doors,
        shared.houses(),
        shared.page_size(),
        asked.bytes,
    ) {
        Ok(pages) => Ok(pages),
        Err(fault) => Err(fault_of_storing(fault)),
    }
}

// With each thirty-second update, takes room for the ones to come and gives it back. A heap that the C library keeps for one thread grows
// by no more than is asked for, and each time the system is called: so it grows once for many updates. The room stays with the heap.
// Where there is none, nothing is lost.
fn widen(alloc: Global, begun: u32) {
    if begun % UPDATES_A_STEP == 0 {
        let room: Result<Vec<u8>, AllocError> = Vec::with_capacity(alloc, BYTES_A_STEP);
        drop(room);
    }
}

// Numbers the update of these pages, in one turn.
fn number_stored<R: Wait>(
    rt: &R,
    shared: &Shared,
    pass: &mut Pass,
    blob: u64,
    place: Place,
    pages: Arc<Pages>,
) -> Result<Ticket, Fault>
    requires pass { IsPassOf shared.now pass.old }
    requires ready { MayAssign (arc_value pages) shared.now.fixed }
    ensures pass { pass.new ≡ record pass.old { seen = pass.new.seen; turns = pass.new.turns } }
    ensures one_turn { pass.new.turns ≡ pass.old.turns + 1 }
    ensures went { Went shared.now.fixed pass.old.seen pass.new.seen }
    ensures numbered { IfOk result (λ t. Numbering shared.now.fixed pass.old.caller pass.old.seen blob place (bytes_of_pages (arc_value pages).pages) t pass.new.seen) }
    ensures pages { IfOk result (λ t. t.pages ≡ arc_value pages) }
    ensures refused { IfErr result (λ fault. NotNumberedFor (bare shared.now.fixed pass.old.caller pass.old.seen) blob place (bytes_of_pages (arc_value pages).pages) fault
        (bare shared.now.fixed pass.old.caller pass.new.seen)) }
    ensures calm { IfErr result (λ fault. page_faults fault ≡ 0) }
{
    version_manager::laws::gaps_are_of_others();
    match shared.desk().assign(rt, pass, blob, place, &pages) {
        Ok(ticket) => {
            ticket.stands();
            Ok(ticket)
        }
        Err(fault) => Err(fault_of(fault)),
    }
}

impl<'a, D: BesideDoor, G: Gate> Session<'a, D, G> {
    // Stores the bytes and numbers the update, which every form of update begins with. The gate is called once it is numbered.
    fn number<R: Threads + Wait + Sync>(
        &mut self,
        rt: &R,
        blob: u64,
        place: Place,
        bytes: &[u8],
    ) -> Result<Ticket, Fault>
        requires sync { IsSync R.row }
        ensures numbered { IfOk result (λ t. WasNumbered self.old blob place bytes.now t self.new) }
        ensures put { IfOk result (WerePut D.called D.faults self.old self.new) }
        ensures refused { IfErr result (λ fault. NotNumbered self.old blob place bytes.now fault self.new) }
        ensures first_lost { IfErr result (λ fault. IfPageLost fault (LostFirst self.old.store bytes.now (map D.faults self.old.doors) (map D.faults self.new.doors))) }
        ensures lost_behind { IfErr result (λ fault. IfPageLost fault (λ _. LostBehindLook self.old (length bytes.now) self.new)) }
        ensures looks { self.new.looks_first ≡ looks_then self.old.looks_first result }
        ensures risen { IfErr result (λ fault. RoseBy (page_faults fault) (sum_by D.faults self.old.doors) (sum_by D.faults self.new.doors)) }
        ensures untouched { IfErr result (λ fault. RefusedEarly fault (numbering_turns self.old.looks_first self.old.store.fixed.page_size (length bytes.now)) self.old.turns self.new.turns
            → self.new.doors ≡ self.old.doors) }
        ensures none_fell { OnOk result (NoneFell (map D.faults self.old.doors) (map D.faults self.new.doors)) }
        ensures never_falls { sum_by D.faults self.old.doors ≤ sum_by D.faults self.new.doors }
        ensures goes_on { Continues self.old self.new }
        ensures rest { self.new ≡ record self.old { log = self.new.log; doors = self.new.doors; looks_first = self.new.looks_first; turns = self.new.turns } }
        ensures turns { TakesTurns result (numbering_turns self.old.looks_first self.old.store.fixed.page_size (length bytes.now)) self.old.turns self.new.turns }
    {
        if let Some(fault) = fault_of_update(self.limit.bytes(), self.held.count(), bytes) {
            return Err(fault);
        }
        self.begun = self.begun.wrapping_add(1);
        widen(self.alloc, self.begun);
        let shared = self.shared;
        let pages = match prepare(
            rt,
            self.alloc,
            shared,
            &mut self.pass,
            &mut self.doors,
            self.looks_first,
            Asked { blob, place, bytes },
        ) {
            Ok(pages) => pages,
            Err(fault) => {
                self.looks_first = looks_after(self.looks_first, &fault);
                return Err(fault);
            }
        };
        match number_stored(rt, shared, &mut self.pass, blob, place, pages) {
            Ok(ticket) => {
                self.looks_first = false;
                self.gate.at(rt, Point::Numbered, &self.pass);
                Ok(ticket)
            }
            Err(fault) => {
                self.looks_first = looks_after(self.looks_first, &fault);
                Err(fault)
            }
        }
    }

    // The row of a numbered update, unless it stores pages of the blob anew. The gate is called once it is woven.
    fn woven<R: Wait>(&self, rt: &R, ticket: &Ticket) -> Result<Option<Arc<Row>>, NoMemory>
        requires { IsTicketHere self.now.store.fixed self.now.log ticket.now }
        ensures may { IfOk result (λ row. IfSome (option_map arc_value row) (λ r. MayFinish ticket.now r self.now.log self.now.store.fixed)) }
        ensures wherever { IfOk result (λ row. IfNone row (StoresSomeAnew ticket.now)) }
        ensures none_anew { IfOk result (λ row. IfSome row (λ _. StoresNoneAnew ticket.now)) }
    {
        let woven = weave(rt, self.alloc, ticket, self.shared.nodes())?;
        if woven.is_some() {
            self.gate.at(rt, Point::Woven, &self.pass);
        }
        Ok(woven)
    }

    /// Stores and numbers an update of a blob, and holds it under the session's next ticket number, until it is finished. Its tree is
    /// woven too, unless it stores pages of the blob anew: such an update is held without its row, and `finish` weaves it, since it must
    /// read the version before.
    ///
    /// The refusals come in this order: no bytes, more than the session's limit, 64 tickets held; for an update of more than one page,
    /// and for any where the store refused the last one that this session tried, those that a first look at the store finds, and no page
    /// is stored; then the first page that no door of its placement took, or
    /// want of memory;
    /// then the store's refusals at the numbering. Want of memory once it is numbered is `NoMemoryTicket`: it is held all the same, and
    /// `finish` goes on with it. After any other refusal the store is as before, but for pages that may lie unused at providers. One
    /// that comes before the numbering's turn, and is neither a lost page nor want of memory, calls no door. What was held before is
    /// held still, each with its row.
    pub fn start<R: Threads + Wait + Sync>(
        &mut self,
        rt: &R,
        blob: u64,
        place: Place,
        bytes: &[u8],
    ) -> Result<Started, Fault>
        requires sync { IsSync R.row }
        ensures answers { Answers AllOther (session_of self.old) (start_request blob place bytes.now) (started_reply place result) (session_of self.new) }
        ensures woven { IfOk result (λ started. folds_in self.new.store.fixed.page_size (store_at (session_of self.new) []) blob started.version ≡ []
            → HasRow self.new.held started.ticket) }
        ensures alone { IfOk result (λ started. folds_in self.new.store.fixed.page_size (store_at (session_of self.new) []) blob started.version ≢ []
            → HasNoRow self.new.held started.ticket) }
        ensures put { IfOk result (λ started. WerePutAlone D.called D.faults self.old self.new started.ticket) }
        ensures held_stay { AllHeldStill self.old.held self.new.held }
        ensures first_lost { IfErr result (λ fault. IfPageLost fault (LostFirst self.old.store bytes.now (map D.faults self.old.doors) (map D.faults self.new.doors))) }
        ensures lost_behind { IfErr result (λ fault. IfPageLost fault (λ _. LostBehindLook self.old (length bytes.now) self.new)) }
        ensures looks { self.new.looks_first ≡ looks_then self.old.looks_first result }
        ensures untouched { IfErr result (λ fault. RefusedEarly fault (numbering_turns self.old.looks_first self.old.store.fixed.page_size (length bytes.now)) self.old.turns self.new.turns
            → self.new.doors ≡ self.old.doors) }
        ensures faults { RoseBy (fault_count (started_reply place result)) (sum_by D.faults self.old.doors) (sum_by D.faults self.new.doors) }
        ensures goes_on { Continues self.old self.new }
        ensures turns { TakesTurns result (numbering_turns self.old.looks_first self.old.store.fixed.page_size (length bytes.now)) self.old.turns self.new.turns }
    {
        let ticket = match self.number(rt, blob, place, bytes) {
            Ok(ticket) => ticket,
            Err(fault) => return Err(fault),
        };
        let (version, at, size) = (ticket.version(), ticket.at(), ticket.size());
        let Ok(row) = self.woven(rt, &ticket) else {
            let ticket = self.hold(ticket, None);
            return Err(Fault::NoMemoryTicket { ticket });
        };
        let ticket = self.hold(ticket, row);
        Ok(Started {
            ticket,
            version,
            at,
            size,
        })
    }

    /// Appends the bytes to the blob: they are stored, numbered and finished. The refusals are those of `start`; `Already` where
    /// another session finished the update meanwhile.
    ///
    /// It is `Held` exactly where the update stores a page of the blob anew, and either the version before it still waits or a page
    /// fault met that page: the session holds the update then, as after `start`. Where that version waits no more, every door failed that
    /// the clause `held_lost` tells.
    pub fn append<R: Threads + Wait + Sync>(
        &mut self,
        rt: &R,
        blob: u64,
        bytes: &[u8],
    ) -> Result<Updated, Fault>
        requires sync { IsSync R.row }
        ensures answers { Answers AllOther (session_of self.old) (Requests.Append blob bytes.now) (updated_reply Append result) (session_of self.new) }
        ensures first_lost { IfErr result (λ fault. IfPageLost fault (LostFirst self.old.store bytes.now (map D.faults self.old.doors) (map D.faults self.new.doors))) }
        ensures lost_behind { IfErr result (λ fault. IfPageLost fault (λ _. LostBehindLook self.old (length bytes.now) self.new)) }
        ensures looks { self.new.looks_first ≡ looks_then self.old.looks_first result }
        ensures held_stay { AllHeldStill self.old.held self.new.held }
        ensures held_lost { LostOrWaits result (is_waiting_in (store_at (session_of self.new) []) blob)
            (λ version page. LostAnew self.old.store self.new.log blob version (map D.faults self.old.doors) (map D.faults self.new.doors) page) }
        ensures untouched { IfErr result (λ fault. RefusedEarly fault (numbering_turns self.old.looks_first self.old.store.fixed.page_size (length bytes.now)) self.old.turns self.new.turns
            → self.new.doors ≡ self.old.doors) }
        ensures faults { RoseBy (update_faults (session_of self.new) blob (updated_reply Append result)) (sum_by D.faults self.old.doors) (sum_by D.faults self.new.doors) }
        ensures goes_on { Continues self.old self.new }
        ensures turns { UpdateTurns result (numbering_turns self.old.looks_first self.old.store.fixed.page_size (length bytes.now)) self.old.turns self.new.turns }
        ensures done_turns { DoneTurns result (folds_in self.new.store.fixed.page_size (store_at (session_of self.new) []) blob)
            (numbering_turns self.old.looks_first self.old.store.fixed.page_size (length bytes.now)) self.old.turns self.new.turns }
    {
        self.update(rt, blob, Place::Append, bytes)
    }

    /// Writes the bytes into the blob from byte `offset` on: they are stored, numbered and finished. The refusals, and where it is
    /// `Held`, are those of `append`.
    pub fn write<R: Threads + Wait + Sync>(
        &mut self,
        rt: &R,
        blob: u64,
        offset: u64,
        bytes: &[u8],
    ) -> Result<Updated, Fault>
        requires sync { IsSync R.row }
        ensures answers { Answers AllOther (session_of self.old) (Requests.Write blob offset bytes.now) (updated_reply (WriteAt offset) result) (session_of self.new) }
        ensures first_lost { IfErr result (λ fault. IfPageLost fault (LostFirst self.old.store bytes.now (map D.faults self.old.doors) (map D.faults self.new.doors))) }
        ensures lost_behind { IfErr result (λ fault. IfPageLost fault (λ _. LostBehindLook self.old (length bytes.now) self.new)) }
        ensures looks { self.new.looks_first ≡ looks_then self.old.looks_first result }
        ensures held_stay { AllHeldStill self.old.held self.new.held }
        ensures held_lost { LostOrWaits result (is_waiting_in (store_at (session_of self.new) []) blob)
            (λ version page. LostAnew self.old.store self.new.log blob version (map D.faults self.old.doors) (map D.faults self.new.doors) page) }
        ensures untouched { IfErr result (λ fault. RefusedEarly fault (numbering_turns self.old.looks_first self.old.store.fixed.page_size (length bytes.now)) self.old.turns self.new.turns
            → self.new.doors ≡ self.old.doors) }
        ensures faults { RoseBy (update_faults (session_of self.new) blob (updated_reply (WriteAt offset) result)) (sum_by D.faults self.old.doors) (sum_by D.faults self.new.doors) }
        ensures goes_on { Continues self.old self.new }
        ensures turns { UpdateTurns result (numbering_turns self.old.looks_first self.old.store.fixed.page_size (length bytes.now)) self.old.turns self.new.turns }
        ensures done_turns { DoneTurns result (folds_in self.new.store.fixed.page_size (store_at (session_of self.new) []) blob)
            (numbering_turns self.old.looks_first self.old.store.fixed.page_size (length bytes.now)) self.old.turns self.new.turns }
    {
        self.update(rt, blob, Place::WriteAt(offset), bytes)
    }

    // An update that is finished at once, or held where it can't be.
    fn update<R: Threads + Wait + Sync>(
        &mut self,
        rt: &R,
        blob: u64,
        place: Place,
        bytes: &[u8],
    ) -> Result<Updated, Fault>
        requires sync { IsSync R.row }
        ensures answers { Answers AllOther (session_of self.old) (update_request blob place bytes.now) (updated_reply place result) (session_of self.new) }
        ensures first_lost { IfErr result (λ fault. IfPageLost fault (LostFirst self.old.store bytes.now (map D.faults self.old.doors) (map D.faults self.new.doors))) }
        ensures lost_behind { IfErr result (λ fault. IfPageLost fault (λ _. LostBehindLook self.old (length bytes.now) self.new)) }
        ensures looks { self.new.looks_first ≡ looks_then self.old.looks_first result }
        ensures held_stay { AllHeldStill self.old.held self.new.held }
        ensures held_lost { LostOrWaits result (is_waiting_in (store_at (session_of self.new) []) blob)
            (λ version page. LostAnew self.old.store self.new.log blob version (map D.faults self.old.doors) (map D.faults self.new.doors) page) }
        ensures untouched { IfErr result (λ fault. RefusedEarly fault (numbering_turns self.old.looks_first self.old.store.fixed.page_size (length bytes.now)) self.old.turns self.new.turns
            → self.new.doors ≡ self.old.doors) }
        ensures faults { RoseBy (update_faults (session_of self.new) blob (updated_reply place result)) (sum_by D.faults self.old.doors) (sum_by D.faults self.new.doors) }
        ensures goes_on { Continues self.old self.new }
        ensures turns { UpdateTurns result (numbering_turns self.old.looks_first self.old.store.fixed.page_size (length bytes.now)) self.old.turns self.new.turns }
        ensures done_turns { DoneTurns result (folds_in self.new.store.fixed.page_size (store_at (session_of self.new) []) blob)
            (numbering_turns self.old.looks_first self.old.store.fixed.page_size (length bytes.now)) self.old.turns self.new.turns }
    {
        let ticket = match self.number(rt, blob, place, bytes) {
            Ok(ticket) => ticket,
            Err(fault) => return Err(fault),
        };
        match self.finish_by(rt, &ticket) {
            Ok(_published) => Ok(Updated::Done(Done {
                version: ticket.version(),
                at: ticket.at(),
                size: ticket.size(),
            })),
            Err(fault) => self.keep(ticket, fault),
        }
    }
}

impl<'a, D: Door, G: Gate> Session<'a, D, G> {
    // Holds a numbered update whose finish had that fault, unless it is found finished.
    fn keep(&mut self, ticket: Ticket, fault: Fault) -> Result<Updated, Fault>
        requires open_ { IsOpen self.old.store.fixed self.old.log record { number = self.old.next; ticket = ticket; row = None } }
        requires room { length self.old.held < 64 }
        requires drawn { self.old.next ≤ length self.old.log }
        ensures kept { IsKept self.old ticket fault result self.new }
        ensures not_done { IsNotDone result }
        ensures calm { IfErr result (λ fault. page_faults fault ≡ 0) }
    {
        let (version, at, size) = (ticket.version(), ticket.at(), ticket.size());
        match fault {
            Fault::NoMemory => {
                let ticket = self.hold(ticket, None);
                Err(Fault::NoMemoryTicket { ticket })
            }
            Fault::Pending { .. } | Fault::PageFault { .. } => {
                let ticket = self.hold(ticket, None);
                Ok(Updated::Held(Started {
                    ticket,
                    version,
                    at,
                    size,
                }))
            }
            fault => Err(fault),
        }
    }

    // Holds a numbered update under the next number, which it answers.
    fn hold(&mut self, ticket: Ticket, row: Option<Arc<Row>>) -> u64
        requires open_ { IsOpen self.old.store.fixed self.old.log record { number = self.old.next; ticket = ticket; row = option_map arc_value row } }
        requires room { length self.old.held < 64 }
        requires drawn { self.old.next ≤ length self.old.log }
        ensures number { result ≡ self.old.next }
        ensures held { self.new ≡ record self.old { held = self.old.held ++ record { number = self.old.next; ticket = ticket; row = option_map arc_value row } ∷ []; next = self.old.next + 1 } }
    {
        let number = self.next;
        self.held.add(OpenTicket::new(number, ticket, row));
        self.next += 1;
        number
    }
}
