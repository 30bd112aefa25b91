// The blobs of a store and its history.
ghost use Rattle.std.specs.Prelude.{◌≡◌, ◌≢◌, ℕ, ◌+◌, ◌-◌, ◌^◌, ◌<◌, ◌≤◌, true, false, List, [], ◌∷◌, ◌++◌, Some, None};
ghost use Rattle.std.specs.Prelude.{length, map, MatchOption, IfOk, IfErr, OnOk, OnErr, vec_len};
ghost use Rattle.std.specs.Arc.{arc_value};
ghost use Rattle.page_store.specs.Stored.{bytes_of_pages, LieAmong};
ghost use Rattle.node_store.specs.UpdateRows.{IsRowIn};
ghost use Rattle.border_hints.specs.Numbered.{own_touch};
ghost use Rattle.publisher.specs.Windows.{version_of, waiting_of, window_on, with_numbered, with_finished};
ghost use Rattle.snapshot.specs.Versions.{IsVersionIn, older_version, under_blob, size_now};
ghost use Rattle.snapshot.specs.Laws.{AreRowsOf, TellUpdates};
ghost use Rattle.blob_model.specs.History.{is_refused, IsLegal};
ghost use Rattle.blob_model.specs.declared.call.Call.TheVariants as Calls;
ghost use Rattle.blob_model.specs.declared.call.Event.TheVariants as Events;
ghost use Rattle.blob_model.specs.declared.call.Outcome.TheVariants as Outcomes;
ghost use Rattle.blob_model.specs.declared.call.Refusal.TheVariants as Refusals;
ghost use Rattle.version_manager.specs.Desks.{empty_desk, store_now, outcome_now, updates_in, window_in, with_event, windows_with, windows_and};
ghost use Rattle.version_manager.specs.Desks.{is_finished_in, OnRefused, OnNoMemory, IsUnfinished, IsNumbering, IsTicketOf, IsRowFor, HasHints, HasHintsBelow};
ghost use Rattle.version_manager.specs.Desks.{most_bytes, refusal_in, ticket_refusal, opens_below, unopened_size};
ghost use Rattle.version_manager.specs.Folds.{IsInOrder, AreInOrder};
ghost use Rattle.version_manager.specs.Looks.{look_call};
ghost use Rattle.version_manager.specs.Origins.{LieUnderOrigins};

use crate::blob::{branch_in, first_in, refusal_of_update, ticket_again, ticket_over};
use crate::entry::{Change, Entry};
use crate::fault::{DeskFault, OpenFault};
use crate::history::History;
use crate::look::Look;
use crate::looks::{look_in, snapshot_in, unfinishable};
use crate::waiting::{BlobWindow, WaitingUpdate};
use blob_model::{Limits, Outcome, Place, Refusal};
use border_hints::Ticket;
use node_store::{NodeHouse, Row};
use page_store::{Houses, Pages};
use publisher::NoMemory;
use snapshot::Snapshot;
use std::alloc::Global;
use std::marker::Model;
use std::sync::Arc;
use tree_geom::PageSize;

/// The blobs of a store, and the history of all changes that it accepted, in order, each with its caller.
///
/// The history is legal, and the blobs are what it leaves. A call that is refused, and one that finds no memory, leaves the
/// desk as before. The pages and nodes of the desk's versions lie in the houses that it was made for, the nodes of each version
/// under the blob that it was numbered in. It has fewer than 2^38 entries. An update that stores pages of its blob anew is
/// finished only once the version before it is published.
pub struct Desk {
    alloc: Global,
    limits: Limits,
    page_size: PageSize,
    houses: Arc<Houses>,
    nodes: Arc<NodeHouse>,
    history: History,
    windows: Vec<BlobWindow>,
}

// By hand, so that it is one call wherever a desk is let go: a derived drop stands, with all its calls, at each such place.
impl Drop for Desk {
    fn drop(self) {
        let Desk {
            alloc: _,
            limits: _,
            page_size: _,
            houses: _,
            nodes: _,
            history: _,
            windows: _,
        } = self;
    }
}

impl Model for Desk {
    ghost use Rattle.std.specs.Prelude.{map};
    ghost use Rattle.std.specs.Arc.{arc_value};
    ghost use Rattle.version_manager.specs.Desks.{DeskState};
    ghost use Rattle.version_manager.specs.Entries.{event_of};
    ghost use Rattle.version_manager.specs.DeskInvariant.{IsDesk, numbered_of};

    ghost Value = { DeskState };

    ghost view = { λ d. record {
      limits = d.limits;
      page_size = d.page_size;
      houses = arc_value d.houses;
      nodes = arc_value d.nodes;
      history = map event_of d.history.entries;
      windows = numbered_of d.windows.items;
    } };

    ghost invariant = { λ d. IsDesk d.limits d.page_size (arc_value d.houses) (arc_value d.nodes) (map event_of d.history.entries) d.windows.items };
}

impl Desk {
    /// A desk without blobs, whose history is empty, for pages in these houses and nodes in this one.
    pub fn new(
        alloc: Global,
        limits: Limits,
        p: PageSize,
        houses: &Arc<Houses>,
        nodes: &Arc<NodeHouse>,
    ) -> Result<Desk, NoMemory>
        ensures { IfOk result (λ desk. desk ≡ empty_desk limits p (arc_value houses.now) (arc_value nodes.now)) }
    {
        p.stands();
        Ok(Desk {
            alloc,
            limits,
            page_size: p,
            houses: Arc::try_clone(houses)?,
            nodes: Arc::try_clone(nodes)?,
            history: History::new(alloc),
            windows: Vec::new(alloc),
        })
    }

    /// How much the desk takes.
    pub fn limits(&self) -> Limits
        ensures limits { result ≡ self.now.limits }
        ensures legal { IsLegal self.now.limits self.now.history }
        ensures short { length self.now.history < 2 ^ 38 }
        ensures in_order { AreInOrder self.now.page_size self.now.limits self.now.history }
    {
        self.limits
    }

    /// The history is legal, has fewer than 2^38 entries, and its finishes are in order. For proofs: it does nothing.
    pub fn stands(&self)
        ensures legal { IsLegal self.now.limits self.now.history }
        ensures short { length self.now.history < 2 ^ 38 }
        ensures in_order { AreInOrder self.now.page_size self.now.limits self.now.history }
    {
        let _limits = self.limits();
    }

    /// How many entries the history has.
    pub(crate) fn entries(&self) -> u64
        ensures count { result ≡ length self.now.history }
        ensures short { result < 2 ^ 38 }
    {
        self.history.count()
    }

    /// The page size of all blobs.
    pub fn page_size(&self) -> PageSize
        ensures { result ≡ self.now.page_size }
    {
        self.page_size
    }

    /// Makes an empty blob, and gives its id: the blobs are numbered from 1. `Refused` exactly where there are as many blobs
    /// as there may be.
    pub fn create(&mut self, caller: u32) -> Result<u64, DeskFault>
        ensures blob { IfOk result (λ blob. outcome_now self.old caller Calls.Create ≡ Outcomes.Blob blob) }
        ensures new { IfOk result (λ blob. self.new ≡ with_event self.old (Events.Create caller)
            (windows_and self.old (window_on record { blob = blob; page_size = self.old.page_size; rows = [] }))) }
        ensures refused { IfErr result (λ fault. OnRefused fault (λ refusal. outcome_now self.old caller Calls.Create ≡ Outcomes.Refused refusal)) }
        ensures memory { IfErr result (λ fault. OnNoMemory fault (is_refused (outcome_now self.old caller Calls.Create) ≡ false)) }
        ensures same { IfErr result (λ _. self.new ≡ self.old) }
    {
        let blob = match next_id(&self.windows, self.limits) {
            Ok(id) => id,
            Err(refusal) => return Err(DeskFault::Refused(refusal)),
        };
        let Ok(window) = first_in(self.alloc, blob, self.page_size) else {
            return Err(DeskFault::NoMemory);
        };
        let entry = Entry {
            caller,
            change: Change::Create,
        };
        let Ok(()) = add(&mut self.history, &mut self.windows, entry, window) else {
            return Err(DeskFault::NoMemory);
        };
        Ok(blob)
    }

    /// Numbers an update of the bytes of these pages, 1 to 16,777,216, and gives its ticket. `Refused` in the order of the reasons.
    pub fn assign(
        &mut self,
        caller: u32,
        blob: u64,
        place: Place,
        pages: &Arc<Pages>,
    ) -> Result<Ticket, DeskFault>
        requires some { 1 ≤ length (bytes_of_pages (arc_value pages.now).pages) }
        requires few { length (bytes_of_pages (arc_value pages.now).pages) ≤ most_bytes }
        requires page_size { (arc_value pages.now).page_size ≡ self.old.page_size }
        requires here { LieAmong self.old.houses (arc_value pages.now).pages }
        ensures assigned { IfOk result (λ t. outcome_now self.old caller (Calls.Assign blob place (bytes_of_pages (arc_value pages.now).pages)) ≡ Outcomes.Assigned t.version t.at t.size) }
        ensures numbering { IfOk result (λ t. IsNumbering self.old caller blob t) }
        ensures hints { IfOk result (λ t. HasHints self.old blob t) }
        ensures pages { IfOk result (λ t. t.pages ≡ arc_value pages.now) }
        ensures ticket { IfOk result (λ t. IsTicketOf self.new t) }
        ensures new { IfOk result (λ t. self.new ≡ with_event self.old (Events.Assign caller blob place (bytes_of_pages (arc_value pages.now).pages))
            (windows_with self.old blob (with_numbered (window_in self.old blob) (own_touch t)))) }
        ensures unfinished { IfOk result (λ t. IsUnfinished self.new blob t.version) }
        ensures refused { IfErr result (λ fault. OnRefused fault (λ refusal.
            outcome_now self.old caller (Calls.Assign blob place (bytes_of_pages (arc_value pages.now).pages)) ≡ Outcomes.Refused refusal)) }
        ensures memory { IfErr result (λ fault. OnNoMemory fault (is_refused (outcome_now self.old caller (Calls.Assign blob place (bytes_of_pages (arc_value pages.now).pages))) ≡ false)) }
        ensures same { IfErr result (λ _. self.new ≡ self.old) }
    {
        let Some(index) = index_of(&self.windows, blob) else {
            return Err(DeskFault::Refused(Refusal::NoBlob { blob }));
        };
        let window = &self.windows[index];
        window.stands();
        let ticket = match ticket_over(self.alloc, self.limits, caller, place, pages, window) {
            Ok(ticket) => ticket,
            Err(fault) => return Err(fault),
        };
        let Ok((pages, kept)) = shared_twice(pages) else {
            return Err(DeskFault::NoMemory);
        };
        let Ok(()) = self.history.make_room() else {
            return Err(DeskFault::NoMemory);
        };
        let update = WaitingUpdate {
            caller,
            at: ticket.at(),
            pages: kept,
        };
        self.windows[index].number(ticket.touch(), update);
        self.history.push_reserved(Entry {
            caller,
            change: Change::Assign { blob, place, pages },
        });
        Ok(ticket)
    }

    /// Finishes a ticket's update by its row, which is stored under the ticket's blob, and gives the version that is published
    /// now. `Refused` exactly where the version is finished already. On an error the row comes back. The caller waits before it: an
    /// update that stores pages of its blob anew is finished once the version before it is published.
    pub fn finish(
        &mut self,
        caller: u32,
        ticket: &Ticket,
        row: Arc<Row>,
    ) -> Result<u64, (DeskFault, Arc<Row>)>
        requires ticket { IsTicketOf self.old ticket.now }
        requires row { IsRowFor self.old ticket.now (arc_value row) }
        requires under { (arc_value row).blob ≡ ticket.now.blob }
        requires here { IsRowIn self.old.nodes self.old.houses (arc_value row) }
        requires in_order { IsInOrder self.old.page_size (store_now self.old) ticket.now.blob ticket.now.version }
        ensures published { IfOk result (λ published. outcome_now self.old caller (Calls.Finish ticket.now.blob ticket.now.version) ≡ Outcomes.Published published) }
        ensures new { IfOk result (λ _. self.new ≡ with_event self.old (Events.Finish caller ticket.now.blob ticket.now.version)
            (windows_with self.old ticket.now.blob (with_finished (window_in self.old ticket.now.blob) ticket.now.version (arc_value row)))) }
        ensures unfinished { IfOk result (λ _. is_finished_in self.old ticket.now.blob ticket.now.version ≡ false) }
        ensures finished { IfOk result (λ _. is_finished_in self.new ticket.now.blob ticket.now.version ≡ true) }
        ensures already { IfErr result (λ e. OnRefused e.0 (λ _. is_finished_in self.old ticket.now.blob ticket.now.version ≡ true)) }
        ensures waits { IfErr result (λ e. OnNoMemory e.0 (is_finished_in self.old ticket.now.blob ticket.now.version ≡ false)) }
        ensures refused { IfErr result (λ e. OnRefused e.0 (λ refusal.
            outcome_now self.old caller (Calls.Finish ticket.now.blob ticket.now.version) ≡ Outcomes.Refused refusal)) }
        ensures same { IfErr result (λ e. (e.1 ≡ row) × (self.new ≡ self.old)) }
    {
        let blob = ticket.blob();
        let version = ticket.version();
        let index = (blob - 1) as usize;
        let window = &self.windows[index];
        window.stands();
        if let Some(refusal) = unfinishable(window, version) {
            return Err((DeskFault::Refused(refusal), row));
        }
        let Ok(()) = self.history.make_room() else {
            return Err((DeskFault::NoMemory, row));
        };
        match self.windows[index].finish(version, row) {
            Ok(published) => {
                self.history.push_reserved(Entry {
                    caller,
                    change: Change::Finish { blob, version },
                });
                Ok(published)
            }
            Err((_, row)) => Err((DeskFault::NoMemory, row)),
        }
    }

    /// Makes a blob that shares the versions of this one up to a published one, and gives its id. No page and no node is
    /// copied. `Refused` in the order of the reasons.
    pub fn branch(&mut self, caller: u32, blob: u64, version: u64) -> Result<u64, DeskFault>
        ensures blob { IfOk result (λ id. outcome_now self.old caller (Calls.Branch blob version) ≡ Outcomes.Blob id) }
        ensures new { IfOk result (λ id. self.new ≡ with_event self.old (Events.Branch caller blob version)
            (windows_and self.old (window_on (under_blob (older_version (version_of (window_in self.old blob)) version) id)))) }
        ensures refused { IfErr result (λ fault. OnRefused fault (λ refusal. outcome_now self.old caller (Calls.Branch blob version) ≡ Outcomes.Refused refusal)) }
        ensures memory { IfErr result (λ fault. OnNoMemory fault (is_refused (outcome_now self.old caller (Calls.Branch blob version)) ≡ false)) }
        ensures same { IfErr result (λ _. self.new ≡ self.old) }
    {
        let Some(index) = index_of(&self.windows, blob) else {
            return Err(DeskFault::Refused(Refusal::NoBlob { blob }));
        };
        let parent = &self.windows[index];
        let published = parent.published();
        if version > published {
            return Err(DeskFault::Refused(Refusal::NotPublished { version, published }));
        }
        let id = match next_id(&self.windows, self.limits) {
            Ok(id) => id,
            Err(refusal) => return Err(DeskFault::Refused(refusal)),
        };
        let Ok(window) = branch_in(self.alloc, parent, id, version) else {
            return Err(DeskFault::NoMemory);
        };
        let entry = Entry {
            caller,
            change: Change::Branch { blob, version },
        };
        let Ok(()) = add(&mut self.history, &mut self.windows, entry, window) else {
            return Err(DeskFault::NoMemory);
        };
        Ok(id)
    }

    /// The snapshot of a published version. `Refused` in the order of the reasons, as the size of the version is; `NoMemory` tells
    /// the version's size. Each of the snapshot's rows is stored under the blob that its version was numbered in.
    pub fn snapshot_of(&self, blob: u64, version: u64) -> Result<Snapshot, OpenFault>
        ensures size { (caller : ℕ) → IfOk result (λ s. outcome_now self.now caller (Calls.Size blob version) ≡ Outcomes.Size (size_now s)) }
        ensures this { IfOk result (λ s. s ≡ older_version (version_of (window_in self.now blob)) version) }
        ensures blob { IfOk result (λ s. s.blob ≡ blob) }
        ensures version { IfOk result (λ s. length s.rows ≡ version) }
        ensures page_size { IfOk result (λ s. s.page_size ≡ self.now.page_size) }
        ensures tells { IfOk result (λ s. TellUpdates self.now.page_size (updates_in self.now blob) s.rows) }
        ensures not_opened { (caller : ℕ) → IfErr result (λ fault. outcome_now self.now caller (Calls.Size blob version) ≡ unopened_size fault) }
        ensures here { IfOk result (λ s. IsVersionIn self.now.nodes self.now.houses s) }
        ensures origins { IfOk result (λ s. LieUnderOrigins self.now.history blob s.rows) }
    {
        match index_of(&self.windows, blob) {
            Some(index) => snapshot_in(&self.windows[index], version),
            None => Err(OpenFault::Refused(Refusal::NoBlob { blob })),
        }
    }

    /// The ticket of a waiting version, whoever numbered it, by which anybody may finish it. It is as its numbering made it, but for
    /// its hints, which are of now: the published snapshot, and what those waiting updates touch that are below it.
    ///
    /// `Refused` with `NoBlob`; with `NotPublished` where the version was never numbered; with `Already` where it is finished,
    /// published or not, as version 0 always is. It looks at nothing but the blob's published version and the updates that wait.
    pub fn ticket_of(&self, blob: u64, version: u64) -> Result<Ticket, DeskFault>
        ensures ticket { IfOk result (λ t. IsTicketOf self.now t) }
        ensures blob { IfOk result (λ t. t.blob ≡ blob) }
        ensures version { IfOk result (λ t. t.version ≡ version) }
        ensures snapshot { IfOk result (λ t. t.snapshot ≡ version_of (window_in self.now blob)) }
        ensures waiting { IfOk result (λ t. t.waiting ≡ opens_below version (waiting_of (window_in self.now blob))) }
        ensures hints { IfOk result (λ t. HasHintsBelow self.now blob t) }
        ensures here { IfOk result (λ t. LieAmong self.now.houses t.pages.pages) }
        ensures unfinished { IfOk result (λ _. IsUnfinished self.now blob version) }
        ensures done { IfOk result (λ _. ticket_refusal self.now blob version ≡ None) }
        ensures refused { IfErr result (λ fault. OnRefused fault (λ refusal. ticket_refusal self.now blob version ≡ Some refusal)) }
        ensures memory { IfErr result (λ fault. OnNoMemory fault (ticket_refusal self.now blob version ≡ None)) }
    {
        let Some(index) = index_of(&self.windows, blob) else {
            return Err(DeskFault::Refused(Refusal::NoBlob { blob }));
        };
        let window = &self.windows[index];
        window.stands();
        if let Some(refusal) = unfinishable(window, version) {
            return Err(DeskFault::Refused(refusal));
        }
        let update = window.update_at(version);
        match ticket_again(self.alloc, window, version, update) {
            Ok(ticket) => Ok(ticket),
            Err(NoMemory) => Err(DeskFault::NoMemory),
        }
    }

    /// What the store would refuse now of an update of `len` bytes at that place, or `None`. It takes no memory.
    pub fn refusal_of(&self, blob: u64, place: Place, len: u64) -> Option<Refusal>
        requires some { 1 ≤ len }
        requires few { len ≤ most_bytes }
        ensures { (caller : ℕ) (bytes : List ℕ) → length bytes ≡ len → result ≡ refusal_in (outcome_now self.now caller (Calls.Assign blob place bytes)) }
    {
        match index_of(&self.windows, blob) {
            Some(index) => refusal_of_update(self.limits, &self.windows[index], place, len),
            None => Some(Refusal::NoBlob { blob }),
        }
    }

    /// What the store answers now to that look at the blob. It takes no memory.
    pub fn look(&self, blob: u64, look: Look) -> Outcome
        ensures { (caller : ℕ) → result ≡ outcome_now self.now caller (look_call look blob) }
    {
        match index_of(&self.windows, blob) {
            Some(index) => look_in(&self.windows[index], look),
            None => Outcome::Refused(Refusal::NoBlob { blob }),
        }
    }

    /// The greatest published version of the blob and its size.
    pub fn recent(&self, blob: u64) -> Outcome
        ensures { (caller : ℕ) → result ≡ outcome_now self.now caller (Calls.Recent blob) }
    {
        self.look(blob, Look::Recent)
    }

    /// The size of a published version, in bytes.
    pub fn size(&self, blob: u64, version: u64) -> Outcome
        ensures { (caller : ℕ) → result ≡ outcome_now self.now caller (Calls.Size blob version) }
    {
        self.look(blob, Look::Size { version })
    }

    /// Whether a numbered version is published. It takes one look.
    pub fn sync(&self, blob: u64, version: u64) -> Outcome
        ensures { (caller : ℕ) → result ≡ outcome_now self.now caller (Calls.Sync blob version) }
    {
        self.look(blob, Look::Sync { version })
    }

    /// How far the blob's updates are.
    pub fn status(&self, blob: u64) -> Outcome
        ensures { (caller : ℕ) → result ≡ outcome_now self.now caller (Calls.Status blob) }
    {
        self.look(blob, Look::Status)
    }
}

// The index of a blob's window, if the blob is there.
fn index_of(windows: &Vec<BlobWindow>, blob: u64) -> Option<usize>
    ensures { MatchOption result (1 ≤ blob → vec_len windows.now < blob) (λ index. (index ≡ blob - 1) × (1 ≤ blob) × (blob ≤ vec_len windows.now)) }
{
    if blob == 0 || blob > windows.len() as u64 {
        return None;
    }
    Some((blob - 1) as usize)
}

// The id of the next blob, or why there may be none more.
fn next_id(windows: &Vec<BlobWindow>, limits: Limits) -> Result<u64, Refusal>
    ensures id { IfOk result (λ id. id ≡ vec_len windows.now + 1) }
    ensures fewer { IfOk result (λ _. vec_len windows.now ≢ limits.max_blobs) }
    ensures full { IfErr result (λ refusal. (refusal ≡ Refusals.TooManyBlobs limits.max_blobs) × (vec_len windows.now ≡ limits.max_blobs)) }
{
    let count = windows.len() as u64;
    let limit = limits.max_blobs;
    if count == limit {
        return Err(Refusal::TooManyBlobs { limit });
    }
    Ok(count + 1)
}

// The same pages, shared twice.
fn shared_twice(pages: &Arc<Pages>) -> Result<(Arc<Pages>, Arc<Pages>), NoMemory>
    ensures { IfOk result (λ both. (arc_value both.0 ≡ arc_value pages.now) × (arc_value both.1 ≡ arc_value pages.now)) }
{
    let first = Arc::try_clone(pages)?;
    let second = Arc::try_clone(pages)?;
    Ok((first, second))
}

// Adds the window of a new blob, and the entry of its making.
fn add(
    history: &mut History,
    windows: &mut Vec<BlobWindow>,
    entry: Entry,
    window: BlobWindow,
) -> Result<(), NoMemory>
    ensures history { OnOk result (history.new.entries ≡ history.old.entries ++ entry ∷ []) }
    ensures windows { OnOk result (windows.new.items ≡ windows.old.items ++ window ∷ []) }
    ensures same_history { OnErr result (history.new.entries ≡ history.old.entries) }
    ensures same_windows { OnErr result (windows.new.items ≡ windows.old.items) }
    ensures short { OnOk result (length history.old.entries + 1 < 2 ^ 38) }
{
    history.make_room()?;
    windows.push(window)?;
    history.push_reserved(entry);
    Ok(())
}
