// New blobs: empty ones, and branches.
ghost use Rattle.std.specs.Prelude.{◌≡◌, ◌≤◌, length, IfOk, OnErr, IsErrOf};
ghost use Rattle.blob_model.specs.Store.{branch_of};
ghost use Rattle.blob_core.specs.Steps.{IsAllowed};
ghost use Rattle.blob_core.specs.Standing.{IsReached};
ghost use Rattle.blob_core.specs.Acts.{IsDone};
ghost use Rattle.blob_core.specs.declared.step.Step.TheVariants.{Create, Branch};
ghost use Rattle.blob_core.specs.declared.state.ActFault.TheVariants.{NotAllowed};

use crate::finds::marked;
use crate::laws::steps_hold;
use crate::pages::copy_of;
use crate::state::{ActFault, State, StoredBlob, StoredUpdate};
use branching::Parent;
use std::alloc::{AllocError, Global};
use tree_geom::PageSize;

/// The same updates again.
fn copies_of(alloc: Global, updates: &[StoredUpdate]) -> Result<Vec<StoredUpdate>, AllocError>
    ensures { IfOk result (λ copies. copies.items ≡ updates.now) }
{
    let mut copies = Vec::new(alloc);
    for update in updates {
        copies.push(StoredUpdate {
            caller: update.caller,
            place: update.place,
            bytes: copy_of(alloc, &update.bytes)?,
        })?;
    }
    Ok(copies)
}

/// A blob of its own with the versions up to that one, all finished.
fn branched(alloc: Global, blob: &StoredBlob, version: usize) -> Result<StoredBlob, AllocError>
    requires { version ≤ length blob.now.updates }
    ensures { IfOk result (λ branch. branch ≡ branch_of blob.now version) }
{
    Ok(StoredBlob {
        updates: copies_of(alloc, &blob.updates[..version])?,
        finished: vec![in alloc; true; version]?,
    })
}

impl State {
    /// Makes an empty blob.
    pub(crate) fn create(&mut self, alloc: Global, p: PageSize, caller: u32) -> Result<(), ActFault>
        ensures done { IfOk result (λ _. IsDone p self.old (Create caller) self.new) }
        ensures refused { IsErrOf result NotAllowed → ¬ IsAllowed p self.old (Create caller) }
        ensures same { OnErr result (self.new ≡ self.old) }
    {
        if self.blobs.len() as u64 == self.limits.max_blobs {
            return Err(ActFault::NotAllowed);
        }
        self.lineage.try_reserve(1)?;
        self.blobs.push(StoredBlob {
            updates: Vec::new(alloc),
            finished: Vec::new(alloc),
        })?;
        // there is room, so this takes no memory
        let _ = self.lineage.insert(0, None);
        Ok(())
    }

    /// Makes a blob with the versions of a blob up to a published one.
    pub(crate) fn branch(
        &mut self,
        alloc: Global,
        p: PageSize,
        caller: u32,
        blob: u64,
        version: u64,
    ) -> Result<(), ActFault>
        requires { IsReached p self.old }
        ensures done { IfOk result (λ _. IsDone p self.old (Branch caller blob version) self.new) }
        ensures refused { IsErrOf result NotAllowed → ¬ IsAllowed p self.old (Branch caller blob version) }
        ensures same { OnErr result (self.new ≡ self.old) }
    {
        steps_hold();
        let Some(parent) = self.blob(blob) else {
            return Err(ActFault::NotAllowed);
        };
        let published = marked(parent.finished.as_slice());
        if published < version || self.blobs.len() as u64 == self.limits.max_blobs {
            return Err(ActFault::NotAllowed);
        }
        let child = branched(alloc, parent, version as usize)?;
        self.lineage.try_reserve(1)?;
        self.blobs.push(child)?;
        // there is room, so this takes no memory
        let _ = self.lineage.insert(0, Some(Parent { blob, version }));
        Ok(())
    }
}
