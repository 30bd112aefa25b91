// One blob's changes, each on its window alone. What a clause says of a blob holds of each one that the window keeps.
ghost use Rattle.std.specs.Prelude.{◌≡◌, ℕ, ◌+◌, ◌-◌, ◌^◌, ◌<◌, ◌≤◌, List, [], ◌∷◌, ◌++◌, length, take, Some, None, IfOk, IfErr};
ghost use Rattle.std.specs.Arc.{arc_value};
ghost use Rattle.blob_model.specs.Content.{Update, offset_of};
ghost use Rattle.blob_model.specs.Limits.{Bounds};
ghost use Rattle.blob_model.specs.Store.{Store, Blob, assigned, size_now, size_with, and_update, branch_of};
ghost use Rattle.blob_model.specs.Answer.{first_refusal};
ghost use Rattle.blob_model.specs.declared.call.Place.{Place};
ghost use Rattle.range_log.specs.Updates.{extents};
ghost use Rattle.page_store.specs.House.{House};
ghost use Rattle.page_store.specs.Stored.{bytes_of_pages};
ghost use Rattle.snapshot.specs.Versions.{IsVersion, under_blob, older_version};
ghost use Rattle.border_hints.specs.Numbered.{own_touch, IsTicketAmong};
ghost use Rattle.publisher.specs.Windows.{window_on, version_of, waiting_of, published_of, with_numbered};
ghost use Rattle.version_manager.specs.Desks.{OnRefused, OnNoMemory, most_bytes};
ghost use Rattle.version_manager.specs.Blobs.{Falls};
ghost use Rattle.version_manager.specs.DeskInvariant.{Keeps, IsWaitingUpdate, update_tests};

use crate::fault::DeskFault;
use crate::waiting::{BlobWindow, WaitingUpdate};
use blob_model::{Limits, Place, Refusal};
use border_hints::{Hints, Ticket};
use page_store::Pages;
use publisher::{NoMemory, Window};
use snapshot::Snapshot;
use std::alloc::Global;
use std::sync::Arc;
use tree_geom::PageSize;

/// The size of the last numbered version, in bytes.
pub(crate) fn size_of_last(window: &BlobWindow) -> u64
    ensures { (limits : Bounds) (b : Blob) → Keeps limits window.now.numbered b → result ≡ size_now b }
{
    window.stands();
    let waiting = window.waiting();
    match waiting.count() {
        0 => window.snapshot().size(),
        count => waiting.at(count - 1).touch.size,
    }
}

// Where an update falls in a blob of that size.
fn offset_in(place: Place, size: u64) -> u64
    ensures { result ≡ offset_of place size }
{
    match place {
        Place::WriteAt(offset) => offset,
        Place::Append => size,
    }
}

// Where an update falls in its blob, and the size of the blob after it, in bytes.
#[derive(Clone, Copy)]
struct Placed {
    at: u64,
    size: u64,
}

// Where an update of `len` bytes of this blob falls, or why the store refuses it: the first of its reasons.
fn place_update(
    limits: Limits,
    window: &BlobWindow,
    place: Place,
    len: u64,
) -> Result<Placed, Refusal>
    requires kept { (b : Blob) × Keeps limits window.now.numbered b }
    requires some { 1 ≤ len }
    requires few { len ≤ most_bytes }
    ensures refused { (b : Blob) (bytes : List ℕ) → Keeps limits window.now.numbered b → length bytes ≡ len
        → IfErr result (λ refusal. Some refusal ≡ first_refusal (update_tests limits b place bytes)) }
    ensures accepted { (b : Blob) (bytes : List ℕ) → Keeps limits window.now.numbered b → length bytes ≡ len → IfOk result (λ _. None ≡ first_refusal (update_tests limits b place bytes)) }
    ensures falls { (b : Blob) (bytes : List ℕ) → Keeps limits window.now.numbered b → length bytes ≡ len
        → IfOk result (λ p. Falls limits window.now.numbered b place bytes p.at p.size) }
{
    let size = size_of_last(window);
    let at = offset_in(place, size);
    if at > size {
        return Err(Refusal::OffsetPastSize { offset: at, size });
    }
    let end = size.max(at + len);
    if end > limits.max_size {
        return Err(Refusal::BlobTooBig {
            end,
            limit: limits.max_size,
        });
    }
    if window.assigned() == limits.max_versions {
        return Err(Refusal::TooManyVersions {
            limit: limits.max_versions,
        });
    }
    if u64::from(window.waiting().count()) == limits.max_open {
        return Err(Refusal::TooManyOpen {
            limit: limits.max_open,
        });
    }
    Ok(Placed { at, size: end })
}

/// Why the store refuses an update of `len` bytes of this blob: the first of its reasons.
pub(crate) fn refusal_of_update(
    limits: Limits,
    window: &BlobWindow,
    place: Place,
    len: u64,
) -> Option<Refusal>
    requires kept { (b : Blob) × Keeps limits window.now.numbered b }
    requires some { 1 ≤ len }
    requires few { len ≤ most_bytes }
    ensures refusal { (b : Blob) (bytes : List ℕ) → Keeps limits window.now.numbered b → length bytes ≡ len → result ≡ first_refusal (update_tests limits b place bytes) }
{
    match place_update(limits, window, place, len) {
        Ok(_placed) => None,
        Err(refusal) => Some(refusal),
    }
}

/// The ticket of the next update, of the bytes of these pages. `Refused` in the order of the reasons.
pub(crate) fn ticket_over(
    alloc: Global,
    limits: Limits,
    caller: u32,
    place: Place,
    pages: &Arc<Pages>,
    window: &BlobWindow,
) -> Result<Ticket, DeskFault>
    requires kept { (b : Blob) × Keeps limits window.now.numbered b }
    requires some { 1 ≤ length (bytes_of_pages (arc_value pages.now).pages) }
    requires few { length (bytes_of_pages (arc_value pages.now).pages) ≤ most_bytes }
    requires page_size { (arc_value pages.now).page_size ≡ window.now.numbered.page_size }
    ensures refused { (b : Blob) → Keeps limits window.now.numbered b
        → IfErr result (λ fault. OnRefused fault (λ refusal. first_refusal (update_tests limits b place (bytes_of_pages (arc_value pages.now).pages)) ≡ Some refusal)) }
    ensures accepted { (b : Blob) → Keeps limits window.now.numbered b → IfOk result (λ _. first_refusal (update_tests limits b place (bytes_of_pages (arc_value pages.now).pages)) ≡ None) }
    ensures memory { (b : Blob) → Keeps limits window.now.numbered b
        → IfErr result (λ fault. OnNoMemory fault (first_refusal (update_tests limits b place (bytes_of_pages (arc_value pages.now).pages)) ≡ None)) }
    ensures version { (b : Blob) → Keeps limits window.now.numbered b → IfOk result (λ t. t.version ≡ assigned b + 1) }
    ensures at { (b : Blob) → Keeps limits window.now.numbered b → IfOk result (λ t. t.at ≡ offset_of place (size_now b)) }
    ensures size { (b : Blob) → Keeps limits window.now.numbered b → IfOk result (λ t. t.size ≡ size_with b place (bytes_of_pages (arc_value pages.now).pages)) }
    ensures caller { IfOk result (λ t. t.caller ≡ caller) }
    ensures blob { IfOk result (λ t. t.blob ≡ window.now.numbered.blob) }
    ensures len { IfOk result (λ t. t.len ≡ length (bytes_of_pages (arc_value pages.now).pages)) }
    ensures published { IfOk result (λ t. IsVersion t.snapshot) }
    ensures snapshot { IfOk result (λ t. t.snapshot ≡ version_of window.now.numbered) }
    ensures waiting { IfOk result (λ t. t.waiting ≡ waiting_of window.now.numbered) }
    ensures pages { IfOk result (λ t. t.pages ≡ arc_value pages.now) }
    ensures stands { (b : Blob) (u : Update) → Keeps limits window.now.numbered b → u.place ≡ place → u.bytes ≡ bytes_of_pages (arc_value pages.now).pages
        → IfOk result (λ t. IsTicketAmong t (extents (b.updates ++ u ∷ []))) }
    ensures kept { (b : Blob) (u : Update) → Keeps limits window.now.numbered b → u.place ≡ place → u.bytes ≡ bytes_of_pages (arc_value pages.now).pages
        → IfOk result (λ t. Keeps limits (with_numbered window.now.numbered (own_touch t)) (and_update b u)) }
    ensures few { IfOk result (λ _. length window.now.numbered.log < published_of window.now.numbered + 64) }
    ensures room { IfOk result (λ _. length window.now.numbered.log < 1048576) }
{
    let placed = match place_update(limits, window, place, pages.len()) {
        Ok(placed) => placed,
        Err(refusal) => return Err(DeskFault::Refused(refusal)),
    };
    match next_ticket(alloc, caller, placed, pages, window) {
        Ok(ticket) => Ok(ticket),
        Err(NoMemory) => Err(DeskFault::NoMemory),
    }
}

// The ticket of the next update, which the blob takes where it was placed.
fn next_ticket(
    alloc: Global,
    caller: u32,
    placed: Placed,
    pages: &Arc<Pages>,
    window: &BlobWindow,
) -> Result<Ticket, NoMemory>
    requires falls { (limits : Bounds) × (b : Blob) × (place : Place) × Falls limits window.now.numbered b place (bytes_of_pages (arc_value pages.now).pages) placed.at placed.size }
    requires page_size { (arc_value pages.now).page_size ≡ window.now.numbered.page_size }
    ensures caller { IfOk result (λ t. t.caller ≡ caller) }
    ensures blob { IfOk result (λ t. t.blob ≡ window.now.numbered.blob) }
    ensures version { IfOk result (λ t. t.version ≡ length window.now.numbered.log + 1) }
    ensures len { IfOk result (λ t. t.len ≡ length (bytes_of_pages (arc_value pages.now).pages)) }
    ensures published { IfOk result (λ t. IsVersion t.snapshot) }
    ensures snapshot { IfOk result (λ t. t.snapshot ≡ version_of window.now.numbered) }
    ensures waiting { IfOk result (λ t. t.waiting ≡ waiting_of window.now.numbered) }
    ensures pages { IfOk result (λ t. t.pages ≡ arc_value pages.now) }
    ensures at { IfOk result (λ t. t.at ≡ placed.at) }
    ensures size { IfOk result (λ t. t.size ≡ placed.size) }
{
    window.stands();
    let len = pages.len();
    let hints = hints_of(alloc, window)?;
    hints.snapshot.stands();
    let shared = Arc::try_clone(pages)?;
    Ok(Ticket::of(
        caller,
        window.snapshot().blob(),
        window.assigned() + 1,
        placed.at,
        len,
        placed.size,
        hints,
        shared,
    ))
}

// What is known of the numbered updates: the published snapshot, and what waits.
fn hints_of(alloc: Global, window: &BlobWindow) -> Result<Hints, NoMemory>
    ensures snapshot { IfOk result (λ h. h.snapshot ≡ version_of window.now.numbered) }
    ensures waiting { IfOk result (λ h. h.waiting ≡ waiting_of window.now.numbered) }
{
    Ok(Hints {
        snapshot: published_in(window)?,
        waiting: window.waiting().copied(alloc)?,
    })
}

/// The ticket of a waiting version, as it was numbered, by what is known now of the lower ones.
pub(crate) fn ticket_again(
    alloc: Global,
    window: &BlobWindow,
    version: u64,
    update: &WaitingUpdate,
) -> Result<Ticket, NoMemory>
    requires waits { (published_of window.now.numbered < version) × (version ≤ length window.now.numbered.log) }
    requires update { (limits : Bounds) × (b : Blob) × (houses : List House) × Keeps limits window.now.numbered b × IsWaitingUpdate window.now.numbered.page_size houses b.updates version update.now }
    ensures caller { IfOk result (λ t. t.caller ≡ update.now.caller) }
    ensures blob { IfOk result (λ t. t.blob ≡ window.now.numbered.blob) }
    ensures version { IfOk result (λ t. t.version ≡ version) }
    ensures published { IfOk result (λ t. IsVersion t.snapshot) }
    ensures snapshot { IfOk result (λ t. t.snapshot ≡ version_of window.now.numbered) }
    ensures waiting { IfOk result (λ t. t.waiting ≡ take (version - published_of window.now.numbered - 1) (waiting_of window.now.numbered)) }
    ensures pages { IfOk result (λ t. t.pages ≡ arc_value update.now.pages) }
    ensures stands { (limits : Bounds) (b : Blob) (houses : List House) → Keeps limits window.now.numbered b → IsWaitingUpdate window.now.numbered.page_size houses b.updates version update.now
        → IfOk result (λ t. IsTicketAmong t (extents (take version b.updates))) }
{
    window.stands();
    let below = window.place(version);
    let waiting = window.waiting();
    let size = waiting.at(below).touch.size;
    let hints = Hints {
        snapshot: published_in(window)?,
        waiting: waiting.first_copied(alloc, below)?,
    };
    hints.snapshot.stands();
    let pages = Arc::try_clone(&update.pages)?;
    Ok(Ticket::of(
        update.caller,
        window.snapshot().blob(),
        version,
        update.at,
        pages.len(),
        size,
        hints,
        pages,
    ))
}

// The published snapshot.
fn published_in(window: &BlobWindow) -> Result<Snapshot, NoMemory>
    ensures { IfOk result (λ s. s ≡ version_of window.now.numbered) }
{
    let snapshot = window.snapshot();
    snapshot.at(snapshot.version())
}

/// The window of a new blob.
pub(crate) fn first_in(alloc: Global, id: u64, p: PageSize) -> Result<BlobWindow, NoMemory>
    ensures new { IfOk result (λ w. w.numbered ≡ window_on record { blob = id; page_size = p; rows = [] }) }
    ensures none { IfOk result (λ w. w.updates ≡ []) }
    ensures kept { (limits : Bounds) → IfOk result (λ w. Keeps limits w.numbered record { updates = []; finished = [] }) }
{
    Window::new(alloc, Snapshot::empty(alloc, id, p)?)
}

/// The window of a blob that shares the versions of this one up to a published one.
pub(crate) fn branch_in(
    alloc: Global,
    window: &BlobWindow,
    new_id: u64,
    version: u64,
) -> Result<BlobWindow, NoMemory>
    requires { version ≤ published_of window.now.numbered }
    ensures new { IfOk result (λ w. w.numbered ≡ window_on (under_blob (older_version (version_of window.now.numbered) version) new_id)) }
    ensures none { IfOk result (λ w. w.updates ≡ []) }
    ensures kept { (limits : Bounds) (b : Blob) → Keeps limits window.now.numbered b → IfOk result (λ w. Keeps limits w.numbered (branch_of b version)) }
{
    window.stands();
    let shared = window.snapshot_at(version)?;
    Window::new(alloc, shared.under(new_id)?)
}
