// The updates of a blob, and numbering one more.
ghost use Rattle.std.specs.Prelude.{◌≡◌, ℕ, ◌-◌, ◌≤◌, ◌^◌, length, Some, IfOk, OnErr, IsErrOf};
ghost use Rattle.blob_model.specs.Content.{size_of, offset_of};
ghost use Rattle.blob_model.specs.Store.{blob_at, and_update, size_now, assigned, published};
ghost use Rattle.blob_model.specs.Answer.{answer};
ghost use Rattle.blob_model.specs.History.{is_refused};
ghost use Rattle.blob_model.specs.declared.call.Call.TheVariants as Calls;
ghost use Rattle.range_log.specs.Log.{size_at as size_in};
ghost use Rattle.range_log.specs.Updates.{Replayable};
ghost use Rattle.blob_core.specs.World.{log_of, waiting_after};
ghost use Rattle.blob_core.specs.Steps.{IsAllowed};
ghost use Rattle.blob_core.specs.Standing.{IsReached, IsSound};
ghost use Rattle.blob_core.specs.Acts.{IsDone};
ghost use Rattle.blob_core.specs.declared.step.Step.TheVariants.{Assign};
ghost use Rattle.blob_core.specs.declared.state.ActFault.TheVariants.{NotAllowed};

use crate::finds::marked;
use crate::laws::steps_hold;
use crate::pages::joined_bytes;
use crate::state::{ActFault, KeptUpdate, State, StoredBlob, StoredUpdate};
use crate::step::PageList;
use crate::world::UpdateKey;
use blob_model::Place;
use range_log::{NoMemory, OpenTouch, laws};
use std::alloc::{AllocError, Global};
use tree_geom::{PageSize, Touch, touched};

/// Where an update falls in a blob of that size.
pub(crate) fn offset_in(place: Place, size: u64) -> u64
    ensures { result ≡ offset_of place size }
{
    match place {
        Place::WriteAt(offset) => offset,
        Place::Append => size,
    }
}

/// What each of a blob's updates touches. No version is larger than 2^40 bytes.
pub(crate) fn touches_of(
    alloc: Global,
    p: PageSize,
    blob: &StoredBlob,
) -> Result<Vec<Touch>, NoMemory>
    requires replay { Replayable blob.now.updates }
    requires fits { (v : ℕ) → v ≤ assigned blob.now → size_of blob.now.updates v ≤ 2 ^ 40 }
    ensures log { IfOk result (λ log. log.items ≡ log_of p blob.now.updates) }
    ensures count { IfOk result (λ log. length log.items ≡ assigned blob.now) }
    ensures sizes { IfOk result (λ log. (v : ℕ) → v ≤ assigned blob.now → size_in log.items v ≡ size_of blob.now.updates v) }
{
    laws::page_bytes_stay();
    let mut log = Vec::new(alloc);
    let mut size = 0;
    for update in blob.updates.as_slice() {
        let at = offset_in(update.place, size);
        let len = update.bytes.len() as u64;
        size = size.max(at + len);
        log.push(touched(p, at, len, size))?;
    }
    Ok(log)
}

/// The blob's size at a version, by what its updates touch.
pub(crate) fn size_at(log: &[Touch], version: usize) -> u64
    requires { version ≤ length log.now }
    ensures { result ≡ size_in log.now version }
{
    if version == 0 {
        0
    } else {
        log[version - 1].size
    }
}

/// What the updates above a published version touch, the newest first.
fn waiting_above(
    alloc: Global,
    log: &[Touch],
    published: usize,
) -> Result<Vec<OpenTouch>, AllocError>
    requires { published ≤ length log.now }
    ensures { IfOk result (λ waiting. waiting.items ≡ waiting_after log.now published (length log.now - published)) }
{
    let mut waiting = Vec::new(alloc);
    for below in (published..log.len()).rev() {
        waiting.push(OpenTouch {
            version: below as u64 + 1,
            touch: log[below],
        })?;
    }
    Ok(waiting)
}

/// What is kept beside the next update of a blob: the numbers of its pages, and its hints.
fn kept_beside(
    alloc: Global,
    log: &[Touch],
    blob: &StoredBlob,
    pages: &PageList,
) -> Result<KeptUpdate, AllocError>
    requires front { published blob.now ≤ length log.now }
    requires log { length log.now ≡ assigned blob.now }
    ensures pages { IfOk result (λ kept. kept.pages ≡ pages.now) }
    ensures published { IfOk result (λ kept. kept.published ≡ published blob.now) }
    ensures waiting { IfOk result (λ kept. kept.waiting ≡ waiting_after log.now (published blob.now) (assigned blob.now - published blob.now)) }
{
    let published = marked(blob.finished.as_slice());
    let mut numbers = Vec::new(alloc);
    numbers.extend_from_slice(pages.as_slice())?;
    Ok(KeptUpdate {
        pages: numbers,
        published,
        waiting: waiting_above(alloc, log, published as usize)?,
    })
}

/// Adds an update, unfinished. Without memory the blob is as before.
fn add_update(blob: &mut StoredBlob, update: StoredUpdate) -> Result<(), AllocError>
    ensures done { IfOk result (λ _. blob.new ≡ and_update blob.old update) }
    ensures same { OnErr result (blob.new ≡ blob.old) }
{
    blob.updates.try_reserve(1)?;
    blob.finished.push(false)?;
    blob.updates.push_reserved(update);
    Ok(())
}

impl State {
    /// Whether the store refuses an update in the blob of that number, whose size it is.
    fn refuses_update(&self, id: u64, blob: &StoredBlob, size: u64, update: &StoredUpdate) -> bool
        requires there { blob_at self.now.store id ≡ Some blob.now }
        requires size { size ≡ size_now blob.now }
        requires fits { size ≤ 2 ^ 40 }
        ensures { result ≡ is_refused (answer self.now.store update.now.caller (Calls.Assign id update.now.place update.now.bytes)).1 }
    {
        let at = offset_in(update.place, size);
        let end = at.saturating_add(update.bytes.len() as u64);
        let assigned = blob.updates.len() as u64;
        size < at
            || self.limits.max_size < size.max(end)
            || assigned == self.limits.max_versions
            || assigned.saturating_sub(marked(blob.finished.as_slice())) == self.limits.max_open
    }

    /// Numbers an update whose bytes are those of the pages, joined.
    pub(crate) fn number(
        &mut self,
        alloc: Global,
        p: PageSize,
        caller: u32,
        blob: u64,
        place: Place,
        pages: &PageList,
    ) -> Result<(), ActFault>
        requires { IsReached p self.old }
        ensures done { IfOk result (λ _. IsDone p self.old (Assign caller blob place pages.now) self.new) }
        ensures refused { IsErrOf result NotAllowed → ¬ IsAllowed p self.old (Assign caller blob place pages.now) }
        ensures same { OnErr result (self.new ≡ self.old) }
    {
        steps_hold();
        let Some(bytes) = joined_bytes(alloc, p, self.pages.as_slice(), pages.as_slice())? else {
            return Err(ActFault::NotAllowed);
        };
        let Some(stored) = self.blob(blob) else {
            return Err(ActFault::NotAllowed);
        };
        let log = touches_of(alloc, p, stored)?;
        let size = size_at(log.as_slice(), log.len());
        let update = StoredUpdate {
            caller,
            place,
            bytes,
        };
        if self.refuses_update(blob, stored, size, &update) {
            return Err(ActFault::NotAllowed);
        }
        let kept = kept_beside(alloc, log.as_slice(), stored, pages)?;
        let key = UpdateKey {
            blob,
            version: log.len() as u64 + 1,
        };
        self.updates.try_reserve(1)?;
        add_update(&mut self.blobs[(blob - 1) as usize], update)?;
        // there is room, so this takes no memory
        let _ = self.updates.insert(0, (key, kept));
        Ok(())
    }
}
