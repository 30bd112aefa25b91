// A session of a store.
ghost use Rattle.std.specs.Prelude.{◌≡◌, ◌≢◌, ℕ, ◌+◌, ◌<◌, ◌≤◌, List, [], true, false, length, map, sum_by, Err, IfOk, IfErr, All};
ghost use Rattle.faults.specs.Counts.{RoseBy};
ghost use Rattle.blob_model.specs.History.{AllOther};
ghost use Rattle.blob_model.specs.declared.call.Call.TheVariants as Calls;
ghost use Rattle.request_form.specs.Replies.{reply_of, page_faults, fault_count};
ghost use Rattle.request_form.specs.Answers.{Answers, LookAnswer, max_read, max_update, max_update_greater};
ghost use Rattle.request_form.specs.declared.form.Request.TheVariants as Requests;
ghost use Rattle.request_form.specs.declared.form.Reply.TheVariants as Replies;
ghost use Rattle.request_form.specs.declared.form.Fault.TheVariants as Faults;
ghost use Rattle.blob_model.specs.Content.{size_of};
ghost use Rattle.range_log.specs.Updates.{extents};
ghost use Rattle.range_log.specs.Visits.{visits};
ghost use Rattle.version_manager.specs.Desks.{unopened_size};
ghost use Rattle.version_manager.specs.Log.{outcome_in};
ghost use Rattle.version_manager.specs.Looks.{look_call};
ghost use Rattle.range_reader.specs.Ranges.{OverUpdates};
ghost use Rattle.range_reader.specs.Faults.{PageFailedIn};
ghost use Rattle.client_session.specs.Losses.{IfPageLost, LostInRead};
ghost use Rattle.client_session.specs.Memory.{IfNoMemory, IsTakenNow};
ghost use Rattle.client_session.specs.Results.{desk_fault, told_of, opened_of, unread_fault, range_of, create_reply, branch_reply, read_reply};
ghost use Rattle.client_session.specs.Opening.{Opening, IsOfStore, ReadsRange};
ghost use Rattle.client_session.specs.Kept.{all_kept, has_opened, IsViewAmong, KeptAfter, Coming, ReadByKept};
ghost use Rattle.client_session.specs.Sessions.{IsPassOf, session_of, pass_of, Continues, visits_seen, NoStepIfRefused, IsSettled, AnswersAsPublished};

use crate::held::Tickets;
use crate::limit::UpdateLimit;
use crate::shared::Shared;
use blob_model::{Bytes, Outcome, Refusal};
use node_store::NodeHouse;
use page_fan::Doors;
use page_store::Door;
use ports::gate::Gate;
use range_reader::{Opened, RangeFault, ReadRoom, ReadSource, first_past, read_range};
use request_form::{Fault, NoMemory};
use snapshot::{Snapshot, View};
use std::alloc::Global;
use std::marker::Model;
use std::sync::Wait;
use std::sync::ledger::Ledger;
use tree_geom::Steps;
use version_manager::{DeskFault, Look, OpenFault, Pass};

// The most bytes of a read.
pub(crate) const MAX_READ: u64 = 16_777_216;

// The version of frames with updates of the greater limit and reads of many ranges.
const GREATER_FRAMES: u64 = 2;

// The desk's fault as the session's.
pub(crate) fn fault_of(fault: DeskFault) -> Fault
    ensures is { result ≡ desk_fault fault }
    ensures calm { page_faults result ≡ 0 }
{
    match fault {
        DeskFault::Refused(refusal) => Fault::of(refusal),
        DeskFault::NoMemory => Fault::NoMemory,
    }
}

// The desk's answer as the session's.
fn told(answer: Result<u64, DeskFault>) -> Result<u64, Fault>
    ensures is { result ≡ told_of answer }
    ensures calm { IfErr result (λ fault. page_faults fault ≡ 0) }
{
    match answer {
        Ok(number) => Ok(number),
        Err(fault) => Err(fault_of(fault)),
    }
}

// The desk's snapshot as the session's.
fn opened(answer: Result<Snapshot, OpenFault>) -> Result<Snapshot, Fault>
    ensures is { result ≡ opened_of answer }
    ensures calm { IfErr result (λ fault. page_faults fault ≡ 0) }
{
    match answer {
        Ok(snapshot) => Ok(snapshot),
        Err(OpenFault::Refused(refusal)) => Err(Fault::of(refusal)),
        Err(OpenFault::NoMemory { .. }) => Err(Fault::NoMemory),
    }
}

// Why ranges of a version aren't read that the desk didn't open. Where it found no memory for that, one of them may end past the
// version's size.
pub(crate) fn unread(fault: OpenFault, ranges: &[(u64, u64)]) -> Fault
    ensures is { result ≡ unread_fault fault ranges.now }
    ensures calm { page_faults result ≡ 0 }
{
    match fault {
        OpenFault::Refused(refusal) => Fault::of(refusal),
        OpenFault::NoMemory { size } => match first_past(size, ranges) {
            Some(end) => Fault::RangePastSize { end, size },
            None => Fault::NoMemory,
        },
    }
}

// The view of a version by which it is read, of the snapshot of its blob that is kept.
pub(crate) fn kept_view(opened: &Opened, blob: u64, version: u64) -> View<'_>
    requires { has_opened (all_kept opened.now) blob version ≡ true }
    ensures { IsViewAmong opened.now blob version result }
{
    let kept = opened.of(blob, version).unwrap();
    kept.stands();
    kept.view_at(version)
}

// What the session says of a range.
pub(crate) fn range_told(answer: Result<Bytes, RangeFault>) -> Result<Bytes, Fault>
    ensures is { result ≡ range_of answer }
{
    match answer {
        Ok(bytes) => Ok(bytes),
        Err(RangeFault::RangePastSize { end, size }) => Err(Fault::RangePastSize { end, size }),
        Err(RangeFault::PageFault(page)) => Err(Fault::PageFault { page }),
        Err(RangeFault::NoMemory) => Err(Fault::NoMemory),
    }
}

// Whether it is said that the version is pending.
fn is_pending(outcome: &Outcome) -> bool
    ensures { result ≡ false → IsSettled outcome.now }
{
    matches!(outcome, Outcome::Refused(Refusal::Pending { .. }))
}

/// A session of a shared store: what one client's calls do, and what they are answered, while other sessions go on.
///
/// It works with one pass, under whose caller all its events are entered, and has a door to each provider. Its store is lent to
/// it; the gate is called between the acts of its updates. A contract sees the history that the session has seen, which is a
/// beginning of the store's one history and never gets shorter: each call sees what others have done meanwhile, the gap, and
/// then its own event. A call that is refused, and one that finds no memory before an update is numbered, enters nothing. It
/// holds no turn when a call returns, nor when the gate is called. A call that makes and finishes no update leaves the held tickets with their
/// rows as they are, and one that reads no bytes the doors too.
///
/// An update's pages are stored before it is numbered, and stay stored where the store refuses to number it. So a session looks first
/// whether the store would refuse an update of more than one page; and where it was refused one, it looks first at each of its next
/// updates, until one is numbered or it hangs up. Where a look is refused no page is stored.
///
/// What a read has opened of a blob the session keeps, until it hangs up: one snapshot of a blob, of at most four blobs, and the one that
/// came first goes. A read of a version up to that takes no turn and waits for nobody, since published versions never change.
pub struct Session<'a, D: Door, G: Gate> {
    pub(crate) alloc: Global,
    pub(crate) shared: &'a Shared,
    pub(crate) gate: &'a G,
    pub(crate) pass: Pass,
    pub(crate) doors: Doors<D>,
    pub(crate) held: Tickets,
    pub(crate) next: u64,
    pub(crate) room: ReadRoom,
    pub(crate) opened: Opened,
    pub(crate) limit: UpdateLimit,
    // the store refused the last update that was tried
    pub(crate) looks_first: bool,
    // how many updates it began to store, modulo 2^32: with each thirty-second the heap is made to grow
    pub(crate) begun: u32,
}

// By hand, so that it is one call wherever a session is let go: a derived drop stands, with all its calls, at each such place.
impl<'a, D: Door + Drop, G: Gate> Drop for Session<'a, D, G> {
    fn drop(self) {
        let Session {
            alloc: _,
            shared: _,
            gate: _,
            pass: _,
            doors: _,
            held: _,
            next: _,
            room: _,
            opened: _,
            limit: _,
            looks_first: _,
            begun: _,
        } = self;
    }
}

impl<'a, D: Door, G: Gate> Model for Session<'a, D, G> {
    ghost use Rattle.std.specs.Coded.{coded_list};
    ghost use Rattle.client_session.specs.Sessions.{SessionState, longest};
    ghost use Rattle.client_session.specs.SessionInvariant.{IsSession};
    ghost use Rattle.client_session.specs.Kept.{all_kept};

    ghost Value = { SessionState D };

    ghost view = { λ s.
        record {
          store = s.shared.now;
          caller = s.pass.caller;
          log = s.pass.seen;
          held = s.held;
          next = s.next;
          doors = s.doors;
          limit = longest s.limit;
          looks_first = s.looks_first;
          turns = s.pass.turns;
          opened = all_kept s.opened;
        } };

    ghost invariant = { λ s. IsSession D.is_true s.shared.now s.pass s.held s.next s.doors s.room s.opened };
}

impl<'a, D: Door, G: Gate> Session<'a, D, G> {
    /// A session that works with this pass of the store, and with doors that give back what was put, one to each of its
    /// providers. It has seen what the pass has, holds no ticket, and its first one will be number 1. Its updates have at most
    /// 1,048,576 bytes. Where no memory is found the pass and the doors come back.
    pub fn new(
        alloc: Global,
        shared: &'a Shared,
        gate: &'a G,
        pass: Pass,
        doors: Doors<D>,
    ) -> Result<Session<'a, D, G>, (Pass, Doors<D>)>
        requires pass { IsPassOf shared.now pass }
        requires served { length doors ≡ shared.now.providers }
        requires true_doors { All D.is_true doors }
        ensures session { IfOk result (λ s. s ≡
            record {
              store = shared.now;
              caller = pass.caller;
              log = pass.seen;
              held = [];
              next = 1;
              doors = doors;
              limit = max_update;
              looks_first = false;
              turns = pass.turns;
              opened = [];
            }) }
        ensures pass_back { IfErr result (λ e. e.0 ≡ pass) }
        ensures doors_back { IfErr result (λ e. e.1 ≡ doors) }
    {
        let _housed = shared.houses();
        let Ok(held) = Tickets::new(alloc) else {
            return Err((pass, doors));
        };
        let Ok(room) = ReadRoom::new(alloc, shared.page_size()) else {
            return Err((pass, doors));
        };
        let Ok(opened) = Opened::new(alloc) else {
            return Err((pass, doors));
        };
        Ok(Session {
            alloc,
            shared,
            gate,
            pass,
            doors,
            held,
            next: 1,
            room,
            opened,
            limit: UpdateLimit::AtFirst,
            looks_first: false,
            begun: 0,
        })
    }

    /// Ends the session. Its pass has seen what the session has, and is of the store still; its doors give back what was put, one to
    /// each provider, so that a session can be made of both again. Tickets that it holds are dropped with it, and their updates stay
    /// unfinished: hang up first.
    pub fn into_parts(self) -> (Pass, Doors<D>)
        ensures pass { result.0 ≡ pass_of self.entry }
        ensures pass_is { IsPassOf self.entry.store result.0 }
        ensures doors { result.1 ≡ self.entry.doors }
        ensures count { length result.1 ≡ self.entry.store.providers }
        ensures true_doors { All D.is_true result.1 }
    {
        let Session {
            alloc: _,
            shared: _,
            gate: _,
            pass,
            doors,
            held: _,
            next: _,
            room: _,
            opened: _,
            limit: _,
            looks_first: _,
            begun: _,
        } = self;
        (pass, doors)
    }

    /// From here on an update may have 16,777,216 bytes, until the session hangs up. It answers the version of frames that has
    /// them: 2. It takes no memory and no turn.
    pub fn hello(&mut self) -> u64
        ensures answers { (version : ℕ) → Answers AllOther (session_of self.old) (Requests.Hello version) (Replies.HelloIs result) (session_of self.new) }
        ensures rest { self.new ≡ record self.old { limit = max_update_greater } }
    {
        self.limit = UpdateLimit::AfterHello;
        GREATER_FRAMES
    }

    /// Makes an empty blob, and gives its id. One turn. `NoMemory` comes only where the store takes the call in that turn.
    pub fn create<R: Wait>(&mut self, rt: &R) -> Result<u64, Fault>
        ensures answers { Answers AllOther (session_of self.old) Requests.Create (create_reply result) (session_of self.new) }
        ensures faults { RoseBy (fault_count (create_reply result)) (sum_by D.faults self.old.doors) (sum_by D.faults self.new.doors) }
        ensures goes_on { Continues self.old self.new }
        ensures rest { self.new ≡ record self.old { log = self.new.log; turns = self.new.turns } }
        ensures one_turn { self.new.turns ≡ self.old.turns + 1 }
        ensures memory { IfErr result (λ fault. IfNoMemory fault (IsTakenNow (session_of self.new) Calls.Create)) }
    {
        version_manager::laws::gaps_are_of_others();
        let shared = self.shared;
        told(shared.desk().create(rt, &mut self.pass))
    }

    /// Makes a blob that shares the versions of this one up to a published one, and gives its id. One turn. `NoMemory` comes only where
    /// the store takes the call in that turn.
    pub fn branch<R: Wait>(&mut self, rt: &R, blob: u64, version: u64) -> Result<u64, Fault>
        ensures answers { Answers AllOther (session_of self.old) (Requests.Branch blob version) (branch_reply result) (session_of self.new) }
        ensures faults { RoseBy (fault_count (branch_reply result)) (sum_by D.faults self.old.doors) (sum_by D.faults self.new.doors) }
        ensures goes_on { Continues self.old self.new }
        ensures rest { self.new ≡ record self.old { log = self.new.log; turns = self.new.turns } }
        ensures one_turn { self.new.turns ≡ self.old.turns + 1 }
        ensures memory { IfErr result (λ fault. IfNoMemory fault (IsTakenNow (session_of self.new) (Calls.Branch blob version))) }
    {
        version_manager::laws::gaps_are_of_others();
        let shared = self.shared;
        told(shared.desk().branch(rt, &mut self.pass, blob, version))
    }

    /// What the store answers to that look at a blob. One turn. It takes no memory.
    pub fn look<R: Wait>(&mut self, rt: &R, blob: u64, look: Look) -> Outcome
        ensures answers { LookAnswer AllOther (session_of self.old) (look_call look blob) (reply_of result) (session_of self.new) }
        ensures faults { RoseBy (fault_count (reply_of result)) (sum_by D.faults self.old.doors) (sum_by D.faults self.new.doors) }
        ensures goes_on { Continues self.old self.new }
        ensures rest { self.new ≡ record self.old { log = self.new.log; turns = self.new.turns } }
        ensures one_turn { self.new.turns ≡ self.old.turns + 1 }
    {
        version_manager::laws::gaps_are_of_others();
        let shared = self.shared;
        shared.desk().look(rt, &mut self.pass, blob, look)
    }

    /// The greatest published version of a blob, and its size. One turn.
    pub fn recent<R: Wait>(&mut self, rt: &R, blob: u64) -> Outcome
        ensures answers { Answers AllOther (session_of self.old) (Requests.Recent blob) (reply_of result) (session_of self.new) }
        ensures faults { RoseBy (fault_count (reply_of result)) (sum_by D.faults self.old.doors) (sum_by D.faults self.new.doors) }
        ensures goes_on { Continues self.old self.new }
        ensures rest { self.new ≡ record self.old { log = self.new.log; turns = self.new.turns } }
        ensures one_turn { self.new.turns ≡ self.old.turns + 1 }
    {
        self.look(rt, blob, Look::Recent)
    }

    /// The size of a published version. One turn.
    pub fn size<R: Wait>(&mut self, rt: &R, blob: u64, version: u64) -> Outcome
        ensures answers { Answers AllOther (session_of self.old) (Requests.Size blob version) (reply_of result) (session_of self.new) }
        ensures faults { RoseBy (fault_count (reply_of result)) (sum_by D.faults self.old.doors) (sum_by D.faults self.new.doors) }
        ensures goes_on { Continues self.old self.new }
        ensures rest { self.new ≡ record self.old { log = self.new.log; turns = self.new.turns } }
        ensures one_turn { self.new.turns ≡ self.old.turns + 1 }
    {
        self.look(rt, blob, Look::Size { version })
    }

    /// Whether a numbered version is published: one look, in one turn.
    pub fn sync<R: Wait>(&mut self, rt: &R, blob: u64, version: u64) -> Outcome
        ensures answers { Answers AllOther (session_of self.old) (Requests.Sync blob version) (reply_of result) (session_of self.new) }
        ensures faults { RoseBy (fault_count (reply_of result)) (sum_by D.faults self.old.doors) (sum_by D.faults self.new.doors) }
        ensures goes_on { Continues self.old self.new }
        ensures rest { self.new ≡ record self.old { log = self.new.log; turns = self.new.turns } }
        ensures one_turn { self.new.turns ≡ self.old.turns + 1 }
    {
        self.look(rt, blob, Look::Sync { version })
    }

    /// How far the updates of a blob are. One turn.
    pub fn status<R: Wait>(&mut self, rt: &R, blob: u64) -> Outcome
        ensures answers { Answers AllOther (session_of self.old) (Requests.Status blob) (reply_of result) (session_of self.new) }
        ensures faults { RoseBy (fault_count (reply_of result)) (sum_by D.faults self.old.doors) (sum_by D.faults self.new.doors) }
        ensures goes_on { Continues self.old self.new }
        ensures rest { self.new ≡ record self.old { log = self.new.log; turns = self.new.turns } }
        ensures one_turn { self.new.turns ≡ self.old.turns + 1 }
    {
        self.look(rt, blob, Look::Status)
    }

    /// Waits until a numbered version is published. It looks at once, and then after each finish of a session of this store,
    /// while the version is pending, and never answers that it is. Between two looks it sleeps.
    pub fn sync_wait<R: Wait>(&mut self, rt: &R, blob: u64, version: u64) -> Outcome
        ensures answers { Answers AllOther (session_of self.old) (Requests.Sync blob version) (reply_of result) (session_of self.new) }
        ensures settled { IsSettled result }
        ensures faults { RoseBy (fault_count (reply_of result)) (sum_by D.faults self.old.doors) (sum_by D.faults self.new.doors) }
        ensures goes_on { Continues self.old self.new }
        ensures rest { self.new ≡ record self.old { log = self.new.log; turns = self.new.turns } }
        ensures turns { self.old.turns < self.new.turns }
    {
        for _ in rt.forever() {
            let finishes = self.shared.notices().count();
            let outcome = self.sync(rt, blob, version);
            if !is_pending(&outcome) {
                return outcome;
            }
            self.shared.notices().wait_past(rt, finishes);
        }
        unreachable!()
    }

    /// `count` bytes of a published version from byte `offset` on.
    ///
    /// `ReadTooLong` comes first, exactly where more than 16,777,216 bytes are asked for, then the store's refusals, then
    /// `PageFault`, only where every door failed of a stored page that the named page of the range needs. `NoMemory` comes only where
    /// the store of what the session has seen then refuses nothing: the version is published, and the range lies within its size. Where
    /// the session keeps a snapshot of the blob that reaches the version, it reads by that: it takes no turn, waits for nobody and sees
    /// nothing new. Else it takes one turn, in which it gets the version's snapshot, and keeps that, whatever becomes of the range; where
    /// it gets none, what it keeps stays. From there it goes through the tree holding no lock, and the clause `steps` bounds how many
    /// nodes it meets: none where it is refused. Where the version is published in any history that the session has seen, the reply is
    /// what the store of that history answers, whatever has come since.
    pub fn read<R: Wait, L: Ledger>(
        &mut self,
        rt: &R,
        blob: u64,
        version: u64,
        offset: u64,
        count: u64,
        steps: &mut Steps<L>,
    ) -> Result<Bytes, Fault>
        ensures answers { Answers AllOther (session_of self.old) (Requests.Read blob version offset count) (read_reply result) (session_of self.new) }
        ensures faults { RoseBy (fault_count (read_reply result)) (sum_by D.faults self.old.doors) (sum_by D.faults self.new.doors) }
        ensures goes_on { Continues self.old self.new }
        ensures rest { self.new ≡ record self.old { log = self.new.log; doors = self.new.doors; turns = self.new.turns; opened = self.new.opened } }
        ensures one_turn { count ≤ max_read → has_opened self.old.opened blob version ≡ false → self.new.turns ≡ self.old.turns + 1 }
        ensures no_turn { max_read < count → self.new.turns ≡ self.old.turns }
        ensures by_opened { has_opened self.old.opened blob version ≡ true → self.new ≡ record self.old { doors = self.new.doors } }
        ensures keeps { KeptAfter result blob version self.old.opened self.new.opened }
        ensures few { length self.new.opened ≤ 4 }
        ensures steps { steps.new ≤ steps.old + visits_seen (session_of self.new) blob version offset count }
        ensures failed { IfErr result (λ fault. IfPageLost fault
            (LostInRead self.old.store self.new.log blob version offset count (map D.faults self.old.doors) (map D.faults self.new.doors))) }
        ensures stays { AnswersAsPublished (session_of self.new) (record { blob = blob; version = version; offset = offset; count = count }) (read_reply result) }
        ensures no_step { NoStepIfRefused (session_of self.new) blob version offset count steps.old steps.new }
        ensures memory { IfErr result (λ fault. IfNoMemory fault (IsTakenNow (session_of self.new) (Calls.Read blob version offset count))) }
    {
        let _few = self.opened.count();
        if MAX_READ < count {
            return Err(Fault::ReadTooLong { length: count });
        }
        request_form::laws::published_reads_stay();
        match self.come(rt, blob, version) {
            Ok(_) => self.read_kept(blob, version, offset, count, steps),
            Err(fault) => Err(unread(fault, &[(offset, count)])),
        }
    }

    // Comes to a version that is read then: by a snapshot that is kept, or by one that is opened in a turn, and kept.
    pub(crate) fn come<R: Wait>(&mut self, rt: &R, blob: u64, version: u64) -> Result<(), OpenFault>
        ensures coming { Coming self.old blob version result self.new }
        ensures goes_on { Continues self.old self.new }
    {
        if self.opened.of(blob, version).is_some() {
            return Ok(());
        }
        match self.snapshot_of(rt, blob, version) {
            Ok(snapshot) => {
                self.opened.keep(snapshot);
                Ok(())
            }
            Err(fault) => Err(fault),
        }
    }

    // The snapshot of a published version, or why the desk has none, in one turn.
    fn snapshot_of<R: Wait>(
        &mut self,
        rt: &R,
        blob: u64,
        version: u64,
    ) -> Result<Snapshot, OpenFault>
        ensures opening { Opening self.old blob version (opened_of result) self.new }
        ensures not_opened { IfErr result (λ fault. outcome_in self.old.store.fixed self.new.log self.old.caller (Calls.Size blob version) ≡ unopened_size fault) }
        ensures goes_on { Continues self.old self.new }
    {
        version_manager::laws::gaps_are_of_others();
        let shared = self.shared;
        shared.desk().snapshot_of(rt, &mut self.pass, blob, version)
    }

    // Reads a range of a version by the snapshot that is kept.
    fn read_kept<L: Ledger>(
        &mut self,
        blob: u64,
        version: u64,
        offset: u64,
        count: u64,
        steps: &mut Steps<L>,
    ) -> Result<Bytes, Fault>
        requires kept { has_opened self.old.opened blob version ≡ true }
        requires few { count ≤ max_read }
        ensures few_kept { length self.old.opened ≤ 4 }
        ensures by { ReadByKept D.faults self.old blob version offset count result self.new steps.old steps.new }
        ensures faults { RoseBy (fault_count (read_reply result)) (sum_by D.faults self.old.doors) (sum_by D.faults self.new.doors) }
        ensures seen_stays { self.new ≡ record self.old { doors = self.new.doors } }
    {
        snapshot::laws::rows_tell();
        let _few = self.opened.count();
        let shared = self.shared;
        let view = kept_view(&self.opened, blob, version);
        let source = ReadSource {
            view: &view,
            nodes: shared.nodes(),
            houses: shared.houses(),
        };
        range_told(read_range(
            self.alloc,
            &source,
            &mut self.doors,
            &mut self.room,
            offset,
            count,
            steps,
        ))
    }

    /// A snapshot of a published version, by which the version is read as often as wanted, with no further turn. One turn.
    ///
    /// `NoBlob` comes exactly where there is no such blob, and then `NotPublished` exactly where the version isn't published, both by
    /// what the session has seen then, and `NoMemory` only where it is; the snapshot has the size that the store of that history answers.
    /// Nothing is entered, and the doors and the held tickets stay. A snapshot is good as long as it is kept, whatever comes later.
    pub fn open<R: Wait>(&mut self, rt: &R, blob: u64, version: u64) -> Result<Snapshot, Fault>
        ensures opening { Opening self.old blob version result self.new }
        ensures calm { IfErr result (λ fault. page_faults fault ≡ 0) }
        ensures goes_on { Continues self.old self.new }
        ensures memory { IfErr result (λ fault. IfNoMemory fault (IsTakenNow (session_of self.new) (Calls.Size blob version))) }
    {
        opened(self.snapshot_of(rt, blob, version))
    }

    /// The house of the store's nodes. Those of each snapshot that this session opened lie there, so that the stored pages of such a
    /// snapshot can be asked for (`range_reader::holder`). It takes no memory and no turn, and waits for nobody.
    pub fn nodes(&self) -> &NodeHouse
        ensures { result.now ≡ self.now.store.fixed.nodes }
    {
        self.shared.nodes()
    }

    /// `count` bytes of a snapshot of this store from byte `offset` on: those of its version, whatever has come since.
    ///
    /// `ReadTooLong` comes first, exactly where more than 16,777,216 bytes are asked for, then `RangePastSize`, exactly where the
    /// range ends past the snapshot's size, then `PageFault`, which names a page of the blob that the range meets, and only where
    /// every door failed of a stored page that it needs. It takes no turn and waits for nobody, and but for the doors the session stays
    /// as it is. The
    /// clause `steps` bounds how many nodes it meets: none where the range is too long or past the size.
    pub fn read_at<L: Ledger>(
        &mut self,
        snapshot: &Snapshot,
        offset: u64,
        count: u64,
        steps: &mut Steps<L>,
    ) -> Result<Bytes, Fault>
        requires of_store { IsOfStore self.old.store snapshot.now }
        ensures reads { OverUpdates snapshot.now (λ us. ReadsRange snapshot.now.page_size us (length snapshot.now.rows) offset count result) }
        ensures too_long { max_read < count → result ≡ Err (Faults.ReadTooLong count) }
        ensures past { OverUpdates snapshot.now (λ us. count ≤ max_read → size_of us (length snapshot.now.rows) < offset + count
            → result ≡ Err (Faults.RangePastSize (offset + count) (size_of us (length snapshot.now.rows)))) }
        ensures faults { RoseBy (fault_count (read_reply result)) (sum_by D.faults self.old.doors) (sum_by D.faults self.new.doors) }
        ensures steps { OverUpdates snapshot.now (λ us. steps.new ≤ steps.old + visits snapshot.now.page_size (extents us) (length snapshot.now.rows) offset count) }
        ensures no_step { OverUpdates snapshot.now (λ us. size_of us (length snapshot.now.rows) < offset + count → steps.new ≡ steps.old) }
        ensures no_step_too_long { max_read < count → steps.new ≡ steps.old }
        ensures failed { IfErr result (λ fault. IfPageLost fault
            (PageFailedIn snapshot.now offset count (map D.faults self.old.doors) (map D.faults self.new.doors))) }
        ensures seen_stays { self.new ≡ record self.old { doors = self.new.doors } }
    {
        self.read_view(&snapshot.view(), offset, count, steps)
    }

    /// Reads as `read_at` does, by the view of a version of this store. It shares nothing with other readers of the version.
    pub fn read_view<L: Ledger>(
        &mut self,
        view: &View,
        offset: u64,
        count: u64,
        steps: &mut Steps<L>,
    ) -> Result<Bytes, Fault>
        requires of_store { IsOfStore self.old.store view.now }
        ensures reads { OverUpdates view.now (λ us. ReadsRange view.now.page_size us (length view.now.rows) offset count result) }
        ensures too_long { max_read < count → result ≡ Err (Faults.ReadTooLong count) }
        ensures past { OverUpdates view.now (λ us. count ≤ max_read → size_of us (length view.now.rows) < offset + count
            → result ≡ Err (Faults.RangePastSize (offset + count) (size_of us (length view.now.rows)))) }
        ensures faults { RoseBy (fault_count (read_reply result)) (sum_by D.faults self.old.doors) (sum_by D.faults self.new.doors) }
        ensures steps { OverUpdates view.now (λ us. steps.new ≤ steps.old + visits view.now.page_size (extents us) (length view.now.rows) offset count) }
        ensures no_step { OverUpdates view.now (λ us. size_of us (length view.now.rows) < offset + count → steps.new ≡ steps.old) }
        ensures no_step_too_long { max_read < count → steps.new ≡ steps.old }
        ensures failed { IfErr result (λ fault. IfPageLost fault
            (PageFailedIn view.now offset count (map D.faults self.old.doors) (map D.faults self.new.doors))) }
        ensures seen_stays { self.new ≡ record self.old { doors = self.new.doors } }
    {
        if count > MAX_READ {
            return Err(Fault::ReadTooLong { length: count });
        }
        let shared = self.shared;
        let source = ReadSource {
            view,
            nodes: shared.nodes(),
            houses: shared.houses(),
        };
        range_told(read_range(
            self.alloc,
            &source,
            &mut self.doors,
            &mut self.room,
            offset,
            count,
            steps,
        ))
    }
}
