// One step after another.
ghost use Rattle.std.specs.Prelude.{◌≡◌, IfOk, OnErr, IsErrOf};
ghost use Rattle.blob_model.specs.Answer.{answer};
ghost use Rattle.blob_model.specs.History.{is_refused};
ghost use Rattle.blob_model.specs.declared.call.Call.TheVariants as Calls;
ghost use Rattle.blob_core.specs.Steps.{IsAllowed};
ghost use Rattle.blob_core.specs.Standing.{IsReached};
ghost use Rattle.blob_core.specs.Acts.{IsDone};
ghost use Rattle.blob_core.specs.declared.state.ActFault.TheVariants.{NotAllowed};

use crate::finds::marked;
use crate::laws::steps_hold;
use crate::state::{ActFault, State};
use crate::step::Step;
use crate::updates::{size_at, touches_of};
use range_log::NoMemory;
use std::alloc::Global;
use tree_geom::PageSize;

impl State {
    /// Whether the store refuses a read of `length` bytes from `offset` of a version.
    pub(crate) fn refuses_read(
        &self,
        alloc: Global,
        p: PageSize,
        blob: u64,
        version: u64,
        offset: u64,
        length: u64,
    ) -> Result<bool, NoMemory>
        requires { IsReached p self.now }
        ensures { IfOk result (λ refused. refused ≡ is_refused (answer self.now.store 0 (Calls.Read blob version offset length)).1) }
    {
        steps_hold();
        let Some(stored) = self.blob(blob) else {
            return Ok(true);
        };
        if marked(stored.finished.as_slice()) < version {
            return Ok(true);
        }
        let log = touches_of(alloc, p, stored)?;
        let size = size_at(log.as_slice(), version as usize);
        Ok(size < offset.saturating_add(length))
    }

    /// Does the step. Where the world doesn't allow it, or memory is refused, all is as before.
    pub(crate) fn act(&mut self, alloc: Global, p: PageSize, step: &Step) -> Result<(), ActFault>
        requires { IsReached p self.old }
        ensures done { IfOk result (λ _. IsDone p self.old step.now self.new) }
        ensures refused { IsErrOf result NotAllowed → ¬ IsAllowed p self.old step.now }
        ensures same { OnErr result (self.new ≡ self.old) }
    {
        match step {
            Step::PagePut { page, bytes } => self.put_page(alloc, p, *page, bytes),
            Step::Create { caller } => self.create(alloc, p, *caller),
            Step::Assign {
                caller,
                blob,
                place,
                pages,
            } => self.number(alloc, p, *caller, *blob, *place, pages),
            Step::FoldPut {
                blob,
                version,
                page,
            } => self.put_fold(alloc, p, *blob, *version, *page),
            Step::NodePut { key } => self.put_node(alloc, p, *key),
            Step::Finish {
                caller,
                blob,
                version,
            } => self.finish(alloc, p, *caller, *blob, *version),
            Step::Branch {
                caller,
                blob,
                version,
            } => self.branch(alloc, p, *caller, *blob, *version),
            Step::Read {
                blob,
                version,
                offset,
                length,
            } => {
                if self.refuses_read(alloc, p, *blob, *version, *offset, *length)? {
                    Err(ActFault::NotAllowed)
                } else {
                    Ok(())
                }
            }
        }
    }
}
