// A published version and its rows.
ghost use Rattle.std.specs.Prelude.{◌≡◌, ◌+◌, ◌^◌, ◌<◌, ◌≤◌, ◌↔◌, length, take, IfOk, IfErr, IfNone, IfSome, IsNone, Some, slice_get, []};
ghost use Rattle.std.specs.Arc.{arc_value};
ghost use Rattle.blob_model.specs.Content.{size_of};
ghost use Rattle.range_log.specs.Updates.{Replayable};
ghost use Rattle.node_store.specs.UpdateRows.{bytes_of_page, stored_of};
ghost use Rattle.snapshot.specs.Versions.{row_at, bytes_of, updates_of, next_version, older_version};
ghost use Rattle.snapshot.specs.Versions.{under_blob, size_now, HasNodeFor, IsFound, root_key, IsRowOf};
ghost use Rattle.snapshot.specs.Versions.{IsVersion};

use crate::views::View;
use node_store::{NoMemory, NodeRef, Row};
use page_store::StoredPage;
use radix_list::RadixList;
use range_log::laws;
use std::alloc::Global;
use std::marker::{Brand, Model};
use std::sync::Arc;
use std::sync::ledger::{Blank, Ledger};
use tree_geom::{NodeKey, PageSize, Range, Steps};

/// A published version of a blob, and what is needed to read it: the rows of updates 1 to the version.
///
/// The rows never change, and other versions share them, and most nodes of the list that holds them.
#[derive(Drop)]
pub struct Snapshot {
    blob: u64,
    page_size: PageSize,
    rows: RadixList<Row>,
}

impl Model for Snapshot {
    ghost use Rattle.snapshot.specs.Versions.{Version, IsVersion};

    ghost Value = { Version };

    ghost view = { λ s. record { blob = s.blob; page_size = s.page_size; rows = s.rows } };

    ghost invariant = { λ s. IsVersion (record { blob = s.blob; page_size = s.page_size; rows = s.rows }) };
}

impl Snapshot {
    /// Version 0 of the blob, which is empty. The versions that are made from it take their memory from this allocator.
    pub fn empty(alloc: Global, blob: u64, p: PageSize) -> Result<Snapshot, NoMemory>
        ensures { IfOk result (λ s. s ≡ record { blob = blob; page_size = p; rows = [] }) }
    {
        Ok(Snapshot {
            blob,
            page_size: p,
            rows: RadixList::empty(alloc),
        })
    }

    /// The version after this one, with the row of its update. Where memory is refused, the row comes back.
    pub fn with_row(&self, row: Arc<Row>) -> Result<Snapshot, Arc<Row>>
        requires room { length self.now.rows < 1048576 }
        requires row { let next = next_version self.now (arc_value row) in
            IsRowOf next.page_size (updates_of next) (length self.now.rows + 1) (arc_value row) }
        requires in_bounds { Replayable (updates_of (next_version self.now (arc_value row))) }
        requires fits { size_of (updates_of (next_version self.now (arc_value row))) (length self.now.rows + 1) ≤ 2 ^ 40 }
        ensures ok { IfOk result (λ s. s ≡ next_version self.now (arc_value row)) }
        ensures err { IfErr result (λ r. r ≡ row) }
    {
        laws::older_versions_stay();
        row.pages().stands();
        let rows = self.rows.push(row)?;
        Ok(Snapshot {
            blob: self.blob,
            page_size: self.page_size,
            rows,
        })
    }

    /// The snapshot of an older version, or of this one.
    pub fn at(&self, version: u64) -> Result<Snapshot, NoMemory>
        requires { version ≤ length self.now.rows }
        ensures { IfOk result (λ s. s ≡ older_version self.now version) }
    {
        laws::older_versions_stay();
        let rows = self.rows.prefix(version)?;
        Ok(Snapshot {
            blob: self.blob,
            page_size: self.page_size,
            rows,
        })
    }

    /// The snapshot's version, to be read.
    #[inline(always)]
    pub fn view(&self) -> View<'_>
        ensures { result ≡ self.now }
    {
        View::of(self, self.version())
    }

    /// An older version, or the snapshot's own, to be read as long as the snapshot is lent. It takes no memory and shares nothing.
    #[inline(always)]
    pub fn view_at(&self, version: u64) -> View<'_>
        requires { version ≤ length self.now.rows }
        ensures { result ≡ older_version self.now version }
    {
        View::of(self, version)
    }

    /// The same version with the same rows under another blob's id. The rows keep the blob under which they were made.
    pub fn under(&self, blob: u64) -> Result<Snapshot, NoMemory>
        ensures { IfOk result (λ s. s ≡ under_blob self.now blob) }
    {
        let rows = self.rows.share()?;
        Ok(Snapshot {
            blob,
            page_size: self.page_size,
            rows,
        })
    }

    /// The blob's id.
    pub fn blob(&self) -> u64
        ensures { result ≡ self.now.blob }
    {
        self.blob
    }

    /// The version, which is the number of its updates.
    pub fn version(&self) -> u64
        ensures count { result ≡ length self.now.rows }
        ensures stands { IsVersion self.now }
    {
        self.rows.len()
    }

    /// The rows are those of some updates within bounds, as a version keeps them. For proofs: it does nothing.
    pub fn stands(&self)
        ensures { IsVersion self.now }
    {
        let _version = self.version();
    }

    /// The size of the version, in bytes.
    pub fn size(&self) -> u64
        ensures size { result ≡ size_now self.now }
        ensures fits { result ≤ 2 ^ 40 }
    {
        self.view().size()
    }

    /// The page size of the blob.
    pub fn page_size(&self) -> PageSize
        ensures { result ≡ self.now.page_size }
    {
        self.page_size
    }

    /// The size of version `j`, in bytes.
    pub fn size_at(&self, j: u64) -> u64
        requires { j ≤ length self.now.rows }
        ensures size { result ≡ size_of (updates_of self.now) j }
        ensures fits { result ≤ 2 ^ 40 }
    {
        self.view().size_at(j)
    }

    /// The key of the version's root, under the blob that it was put under. None exactly where the size is 0.
    pub fn root(&self) -> Option<NodeKey>
        ensures none { IsNone result ↔ (size_now self.now ≡ 0) }
        ensures key { IfSome result (λ key. key ≡ root_key self.now) }
        ensures holds { IfSome result (λ key. size_now self.now ≤ key.range.size) }
        ensures fits { IfSome result (λ key. key.range.size ≤ 2 ^ 40) }
    {
        self.view().root()
    }

    /// The node that the row of update `j` has for the range, or None where it has none. In both cases it takes one node step, the
    /// row's own, and looks in no other row; and beside the rows of its views there is no other way from a lent snapshot to a node.
    #[inline(always)]
    pub fn find<'s, L: Ledger>(
        &'s self,
        j: u64,
        range: Range,
        steps: &mut Steps<L>,
    ) -> Option<NodeRef<'s>>
        requires { (1 ≤ j) × (j ≤ length self.now.rows) }
        ensures none { IfNone result (¬ HasNodeFor self.now j range) }
        ensures found { IfSome result (λ node. IsFound self.now j range node) }
        ensures step { steps.new ≡ steps.old + 1 }
    {
        self.view().find(j, range, steps)
    }

    /// The stored page of update `j` that the number `q` of a piece means. First come the update's pages, whose bytes are those
    /// of the update from `q` times the page size on, and then those of the blob that it stores anew.
    pub fn page(&self, j: u64, q: u32) -> &StoredPage
        requires version { (1 ≤ j) × (j ≤ length self.now.rows) }
        requires number { q < length (stored_of (row_at self.now.rows j)) }
        ensures this { slice_get (stored_of (row_at self.now.rows j)) q ≡ Some result.now }
        ensures bytes { q < length (row_at self.now.rows j).pages.pages
            → result.now.bytes ≡ bytes_of_page self.now.page_size (bytes_of (row_at self.now.rows j)) q }
    {
        self.view().page(j, q)
    }

    /// The rows of updates 1 to the version, in the list that the snapshot keeps: item `j - 1` is the row of update `j`. It copies
    /// nothing and takes no memory. A reader that is lent a snapshot can't come to its rows by this.
    pub fn into_rows(self) -> RadixList<Row>
        ensures { result ≡ self.rows }
    {
        self.rows
    }

    // The row of update `j`.
    pub(crate) fn row(&self, j: u64) -> &Row
        requires { (1 ≤ j) × (j ≤ length self.now.rows) }
        ensures this { result.now ≡ row_at self.now.rows j }
        ensures stands { IsVersion self.now }
    {
        self.row_by::<Brand>(j, Blank::new(1))
    }

    // The same. What it takes to come to a row in the list of rows is no node step, and nobody counts it.
    fn row_by<L: Ledger>(&self, j: u64, blank: Blank) -> &Row
        requires version { (1 ≤ j) × (j ≤ length self.now.rows) }
        requires name { blank.name ≡ L.name }
        requires parts { blank.parts ≡ L.parts }
        requires some { 0 < blank.parts }
        ensures this { result.now ≡ row_at self.now.rows j }
        ensures stands { IsVersion self.now }
    {
        let mut steps = Steps::<L>::open(blank);
        self.rows.get(j - 1, &mut steps).unwrap()
    }
}
