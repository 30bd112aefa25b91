// Pages.
ghost use Rattle.std.specs.Prelude.{◌≡◌, IfOk, OnErr, IsErrOf};
ghost use Rattle.blob_core.specs.Steps.{IsAllowed};
ghost use Rattle.blob_core.specs.Acts.{IsDone, AreJoined};
ghost use Rattle.blob_core.specs.declared.step.Step.TheVariants.{PagePut};
ghost use Rattle.blob_core.specs.declared.state.ActFault.TheVariants.{NotAllowed};

use crate::finds::find_page;
use crate::state::{ActFault, State};
use blob_model::Bytes;
use std::alloc::{AllocError, Global};
use tree_geom::PageSize;

/// The same bytes again.
pub(crate) fn copy_of(alloc: Global, bytes: &Bytes) -> Result<Bytes, AllocError>
    ensures { IfOk result (λ copy. copy ≡ bytes.now) }
{
    let mut copy = Vec::new(alloc);
    copy.extend_from_slice(bytes.as_slice())?;
    Ok(Bytes::of(copy))
}

/// The bytes of the pages of these numbers, joined. None exactly where there is no number, a page isn't there, or one before
/// the last doesn't have a page's size.
pub(crate) fn joined_bytes(
    alloc: Global,
    p: PageSize,
    pages: &[(u64, Bytes)],
    numbers: &[u64],
) -> Result<Option<Bytes>, AllocError>
    ensures { IfOk result (λ bytes. AreJoined p pages.now numbers.now bytes) }
{
    if numbers.is_empty() {
        return Ok(None);
    }
    let mut bytes = Vec::new(alloc);
    for (i, number) in numbers.iter().enumerate() {
        let Some(page) = find_page(pages, *number) else {
            return Ok(None);
        };
        if i + 1 < numbers.len() && page.len() as u64 != p.bytes() {
            return Ok(None);
        }
        bytes.extend_from_slice(page.as_slice())?;
    }
    Ok(Some(Bytes::of(bytes)))
}

impl State {
    /// Stores a new page of 1 byte up to a page's size.
    pub(crate) fn put_page(
        &mut self,
        alloc: Global,
        p: PageSize,
        page: u64,
        bytes: &Bytes,
    ) -> Result<(), ActFault>
        ensures done { IfOk result (λ _. IsDone p self.old (PagePut page bytes.now) self.new) }
        ensures refused { IsErrOf result NotAllowed → ¬ IsAllowed p self.old (PagePut page bytes.now) }
        ensures same { OnErr result (self.new ≡ self.old) }
    {
        let size = bytes.len() as u64;
        if size == 0 || p.bytes() < size || find_page(self.pages.as_slice(), page).is_some() {
            return Err(ActFault::NotAllowed);
        }
        let copy = copy_of(alloc, bytes)?;
        self.pages.insert(0, (page, copy))?;
        Ok(())
    }
}
