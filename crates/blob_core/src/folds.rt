// Pages that updates store anew.
ghost use Rattle.std.specs.Prelude.{◌≡◌, ◌-◌, ◌≤◌, ◌^◌, length, IfOk, OnErr, IsErrOf};
ghost use Rattle.tree_geom.specs.Geometry.{height_of, page_range};
ghost use Rattle.range_log.specs.Log.{HasNode, size_at as size_in};
ghost use Rattle.range_log.specs.Extents.{extent_at};
ghost use Rattle.range_log.specs.Updates.{extents, update_at};
ghost use Rattle.blob_core.specs.World.{log_of};
ghost use Rattle.blob_core.specs.Steps.{IsAllowed, over_page};
ghost use Rattle.blob_core.specs.Standing.{IsReached};
ghost use Rattle.blob_core.specs.Acts.{IsDone, IsLogOf};
ghost use Rattle.blob_core.specs.Walk.{page_walk, tree_walk_from};
ghost use Rattle.blob_core.specs.declared.step.Step.TheVariants.{FoldPut};
ghost use Rattle.blob_core.specs.declared.state.ActFault.TheVariants.{NotAllowed};

use crate::finds::{has_fold, marked};
use crate::laws::steps_hold;
use crate::leaves::{folds_page, own_part};
use crate::state::{ActFault, State, StoredBlob};
use crate::updates::size_at;
use crate::walk::{Subtree, part, put_over};
use crate::world::FoldKey;
use blob_model::Bytes;
use range_log::laws;
use std::alloc::{AllocError, Global};
use tree_geom::{PageSize, Touch, height};

/// The bytes of a version's update that lie in a page of its row, over older bytes of the page.
fn put_own(
    alloc: Global,
    p: PageSize,
    blob: &StoredBlob,
    log: &[Touch],
    version: usize,
    page: u64,
    older: &[u8],
) -> Result<Vec<u8>, AllocError>
    requires log { IsLogOf p blob.now log.now }
    requires has { HasNode p (log_of p blob.now.updates) version (page_range p page) }
    ensures { let us = blob.now.updates in
        IfOk result (λ bytes. bytes.items ≡ over_page p (extent_at (extents us) version) page (update_at us version).bytes older.now) }
{
    let own = own_part(p, blob, log, version, page);
    let update = &blob.updates[version - 1];
    let bytes = part(update.bytes.as_slice(), own.from as usize, own.len as usize);
    put_over(alloc, older, own.start as usize, bytes)
}

impl State {
    /// What a walk from the root of a version brings of a page.
    fn walk_page(
        &self,
        alloc: Global,
        p: PageSize,
        log: &[Touch],
        blob: u64,
        version: usize,
        page: u64,
    ) -> Result<Vec<u8>, AllocError>
        requires version { version ≤ length log.now }
        requires some { 1 ≤ size_in log.now version }
        requires fits { size_in log.now version ≤ 2 ^ 40 }
        ensures { IfOk result (λ bytes. bytes.items ≡ (tree_walk_from (height_of p (size_in log.now version)) p self.now blob version 0 page page).bytes) }
    {
        let levels = height(p, size_at(log, version));
        let mut bytes = Vec::new(alloc);
        let root = Subtree {
            blob,
            version: version as u64,
            height: levels,
            number: 0,
        };
        self.add_tree(alloc, p, root, page, page, &mut bytes)?;
        Ok(bytes)
    }

    /// Stores a page that an update stores anew: its own bytes over those of the version before. A key that is there keeps its
    /// bytes.
    pub(crate) fn put_fold(
        &mut self,
        alloc: Global,
        p: PageSize,
        blob: u64,
        version: u64,
        page: u64,
    ) -> Result<(), ActFault>
        requires { IsReached p self.old }
        ensures done { IfOk result (λ _. IsDone p self.old (FoldPut blob version page) self.new) }
        ensures refused { IsErrOf result NotAllowed → ¬ IsAllowed p self.old (FoldPut blob version page) }
        ensures same { OnErr result (self.new ≡ self.old) }
    {
        steps_hold();
        laws::page_bytes_stay();
        let Some(row) = self.row(alloc, p, blob, version)? else {
            return Err(ActFault::NotAllowed);
        };
        let Some(stored) = self.blob(blob) else {
            return Err(ActFault::NotAllowed);
        };
        let log = row.log.as_slice();
        let number = version as usize;
        let front = marked(stored.finished.as_slice());
        if !folds_page(p, stored, log, number, page) || front < version - 1 {
            return Err(ActFault::NotAllowed);
        }
        let key = FoldKey {
            blob,
            version,
            page,
        };
        if has_fold(self.folded.as_slice(), &key) {
            return Ok(());
        }
        let older = self.walk_page(alloc, p, log, blob, number - 1, page)?;
        let bytes = put_own(alloc, p, stored, log, number, page, older.as_slice())?;
        self.folded.insert(0, (key, Bytes::of(bytes)))?;
        Ok(())
    }
}
