// A version as it is read.
ghost use Rattle.std.specs.Prelude.{◌≡◌, ◌+◌, ◌*◌, ◌^◌, ◌<◌, ◌≤◌, ◌↔◌, length, IfNone, IfSome, IsNone, Some, slice_get};
ghost use Rattle.blob_model.specs.Content.{size_of};
ghost use Rattle.tree_geom.specs.Geometry.{tree_range, left_half, right_half};
ghost use Rattle.range_log.specs.Log.{newest_of};
ghost use Rattle.range_log.specs.Rows.{node_of};
ghost use Rattle.node_store.specs.Parts.{IsPartsOf};
ghost use Rattle.node_store.specs.UpdateRows.{bytes_of_page, stored_of};
ghost use Rattle.snapshot.specs.Versions.{row_at, bytes_of, updates_of, older_version};
ghost use Rattle.snapshot.specs.Versions.{size_now, falls, log_of, HasNodeFor, NodesLieIn, IsFound, root_key, IsVersion};

use crate::version::Snapshot;
use node_store::{LeafParts, NodeHouse, NodeRef, Row};
use page_store::StoredPage;
use range_log::laws;
use std::marker::Model;
use std::sync::ledger::Ledger;
use tree_geom::{NodeKey, PageSize, Range, Steps, span};

/// A version of a blob as it is read: that of a snapshot, or an older one. It borrows the rows of the snapshot. So it takes no memory, and
/// whoever makes or drops one writes nothing that other threads read.
#[derive(Drop)]
pub struct View<'a> {
    snapshot: &'a Snapshot,
    version: u64,
}

impl<'a> Model for View<'a> {
    ghost use Rattle.std.specs.Prelude.{◌≤◌, length};
    ghost use Rattle.snapshot.specs.Versions.{Version, older_version};

    ghost Value = { Version };

    ghost view = { λ v. older_version v.snapshot.now v.version };

    ghost invariant = { λ v. v.version ≤ length v.snapshot.now.rows };
}

impl<'a> View<'a> {
    // That version of the snapshot.
    #[inline(always)]
    pub(crate) fn of(snapshot: &'a Snapshot, version: u64) -> View<'a>
        requires { version ≤ length snapshot.now.rows }
        ensures { result ≡ older_version snapshot.now version }
    {
        View { snapshot, version }
    }

    /// The version, which is the number of its updates.
    pub fn version(&self) -> u64
        ensures count { result ≡ length self.now.rows }
        ensures stands { IsVersion self.now }
    {
        laws::older_versions_stay();
        self.snapshot.stands();
        self.version
    }

    /// The rows are those of some updates within bounds, as a version keeps them. For proofs: it does nothing.
    pub fn stands(&self)
        ensures { IsVersion self.now }
    {
        let _version = self.version();
    }

    /// The size of the version, in bytes.
    pub fn size(&self) -> u64
        ensures size { result ≡ size_now self.now }
        ensures fits { result ≤ 2 ^ 40 }
    {
        self.size_at(self.version())
    }

    /// The page size of the blob.
    pub fn page_size(&self) -> PageSize
        ensures { result ≡ self.now.page_size }
    {
        self.snapshot.page_size()
    }

    /// The size of version `j`, in bytes.
    #[inline(always)]
    pub fn size_at(&self, j: u64) -> u64
        requires { j ≤ length self.now.rows }
        ensures size { result ≡ size_of (updates_of self.now) j }
        ensures fits { result ≤ 2 ^ 40 }
    {
        if j == 0 {
            return 0;
        }
        self.size_by(j, self.row(j))
    }

    // The same of a version whose row is at hand.
    #[inline(always)]
    fn size_by(&self, j: u64, row: &Row) -> u64
        requires version { (1 ≤ j) × (j ≤ length self.now.rows) }
        requires this { row.now ≡ row_at self.now.rows j }
        ensures size { result ≡ size_of (updates_of self.now) j }
        ensures fits { result ≤ 2 ^ 40 }
    {
        laws::page_bytes_stay();
        self.stands();
        row.touch().size
    }

    /// The key of the version's root, under the blob that it was put under. None exactly where the size is 0.
    pub fn root(&self) -> Option<NodeKey>
        ensures none { IsNone result ↔ (size_now self.now ≡ 0) }
        ensures key { IfSome result (λ key. key ≡ root_key self.now) }
        ensures holds { IfSome result (λ key. size_now self.now ≤ key.range.size) }
        ensures fits { IfSome result (λ key. key.range.size ≤ 2 ^ 40) }
    {
        laws::page_bytes_stay();
        let version = self.version();
        if version == 0 {
            return None;
        }
        let row = self.row(version);
        Some(NodeKey {
            blob: row.blob(),
            version,
            range: Range {
                offset: 0,
                size: span(self.page_size(), self.size_by(version, row)),
            },
        })
    }

    /// The node that the row of update `j` has for the range, or None where it has none. In both cases it takes one node step, the
    /// row's own, and looks in no other row; and beside `row_of` there is no other way from a view to a node.
    #[inline(always)]
    pub fn find<L: Ledger>(&self, j: u64, range: Range, steps: &mut Steps<L>) -> Option<NodeRef<'a>>
        requires { (1 ≤ j) × (j ≤ length self.now.rows) }
        ensures none { IfNone result (¬ HasNodeFor self.now j range) }
        ensures found { IfSome result (λ node. IsFound self.now j range node) }
        ensures step { steps.new ≡ steps.old + 1 }
    {
        laws::row_keys_exact();
        laws::page_bytes_stay();
        self.row(j).at(range, steps)
    }

    /// The versions whose rows have the nodes of the range's halves, the lower one's first: the links of the node that the row of update
    /// `j` has for the range. It takes one node step.
    #[inline(always)]
    pub fn links<L: Ledger>(
        &self,
        nodes: &NodeHouse,
        j: u64,
        range: Range,
        steps: &mut Steps<L>,
    ) -> (u64, u64)
        requires here { NodesLieIn nodes.now self.now }
        requires has { HasNodeFor self.now j range }
        requires inner { self.now.page_size < range.size }
        ensures left { result.0 ≡ newest_of self.now.page_size (log_of self.now) j (left_half range) }
        ensures right { result.1 ≡ newest_of self.now.page_size (log_of self.now) j (right_half range) }
        ensures step { steps.new ≡ steps.old + 1 }
    {
        let Some(node) = self.find(j, range, steps) else {
            unreachable!()
        };
        let Some(links) = nodes.links(&node) else {
            unreachable!()
        };
        links
    }

    /// The row of update `j`, from which its nodes are asked for by height and number; update 0 has none. It takes no step: each look
    /// at a node does.
    #[inline(always)]
    pub fn row_of(&self, j: u64) -> RowView<'a>
        requires { j ≤ length self.now.rows }
        ensures { result ≡ record { version = self.now; update = j } }
    {
        self.stands();
        let row = if j == 0 { None } else { Some(self.row(j)) };
        RowView {
            version: View::of(self.snapshot, self.version),
            update: j,
            row,
        }
    }

    /// The stored page of update `j` that the number `q` of a piece means. First come the update's pages, whose bytes are those
    /// of the update from `q` times the page size on, and then those of the blob that it stores anew.
    #[inline(always)]
    pub fn page(&self, j: u64, q: u32) -> &'a StoredPage
        requires version { (1 ≤ j) × (j ≤ length self.now.rows) }
        requires number { q < length (stored_of (row_at self.now.rows j)) }
        ensures this { slice_get (stored_of (row_at self.now.rows j)) q ≡ Some result.now }
        ensures bytes { q < length (row_at self.now.rows j).pages.pages
            → result.now.bytes ≡ bytes_of_page self.now.page_size (bytes_of (row_at self.now.rows j)) q }
    {
        self.row(j).page(q)
    }

    // The row of update `j`.
    #[inline(always)]
    fn row(&self, j: u64) -> &'a Row
        requires { (1 ≤ j) × (j ≤ length self.now.rows) }
        ensures this { result.now ≡ row_at self.now.rows j }
        ensures stands { IsVersion self.now }
    {
        self.stands();
        self.snapshot.row(j)
    }
}

/// The row of one update of a version, from which its nodes are asked for by height and number. Whoever asks for several nodes of one
/// row comes to the row once. It takes no memory.
#[derive(Drop)]
pub struct RowView<'a> {
    version: View<'a>,
    update: u64,
    // None for update 0
    row: Option<&'a Row>,
}

impl<'a> Model for RowView<'a> {
    ghost use Rattle.std.specs.Prelude.{◌≡◌, ◌≤◌, length, MatchOption};
    ghost use Rattle.snapshot.specs.Versions.{RowIn, IsVersion, row_at};

    ghost Value = { RowIn };

    ghost view = { λ r. record { version = r.version; update = r.update } };

    ghost invariant = { λ r. IsVersion r.version × (r.update ≤ length r.version.rows)
        × MatchOption r.row (r.update ≡ 0) (λ row. row.now ≡ row_at r.version.rows r.update) };
}

impl<'a> RowView<'a> {
    /// The node that the row has for range number `number`, counted from 0, among those of 2 to the power `height` pages, or None
    /// where it has none. In both cases it takes one node step, the row's own, and looks in no other row; and there is no other way
    /// from a row's view to a node.
    #[inline(always)]
    pub fn find<L: Ledger>(
        &self,
        height: u32,
        number: u64,
        steps: &mut Steps<L>,
    ) -> Option<NodeRef<'a>>
        requires { 1 ≤ self.now.update }
        ensures none { IfNone result (¬ HasNodeFor self.now.version self.now.update (tree_range self.now.version.page_size height number)) }
        ensures found { IfSome result (λ node. IsFound self.now.version self.now.update (tree_range self.now.version.page_size height number) node) }
        ensures step { steps.new ≡ steps.old + 1 }
    {
        laws::row_keys_exact();
        laws::page_bytes_stay();
        let Some(row) = self.row else { unreachable!() };
        row.at_height(height, number, steps)
    }

    /// The versions whose rows have the nodes of the halves of range number `number` of that height, the lower half's first: the links
    /// of the row's node of the range. It takes one node step.
    #[inline(always)]
    pub fn links<L: Ledger>(
        &self,
        nodes: &NodeHouse,
        height: u32,
        number: u64,
        steps: &mut Steps<L>,
    ) -> (u64, u64)
        requires here { NodesLieIn nodes.now self.now.version }
        requires has { HasNodeFor self.now.version self.now.update (tree_range self.now.version.page_size height number) }
        requires inner { self.now.version.page_size < self.now.version.page_size * 2 ^ height }
        ensures left { let s = self.now.version in
            result.0 ≡ newest_of s.page_size (log_of s) self.now.update (left_half (tree_range s.page_size height number)) }
        ensures right { let s = self.now.version in
            result.1 ≡ newest_of s.page_size (log_of s) self.now.update (right_half (tree_range s.page_size height number)) }
        ensures step { steps.new ≡ steps.old + 1 }
    {
        let Some(node) = self.find(height, number, steps) else {
            unreachable!()
        };
        let Some(links) = nodes.links(&node) else {
            unreachable!()
        };
        links
    }

    /// The parts of the leaf that the row has for the page. It takes one node step.
    #[inline(always)]
    pub fn leaf<L: Ledger>(&self, nodes: &NodeHouse, page: u64, steps: &mut Steps<L>) -> LeafParts
        requires here { NodesLieIn nodes.now self.now.version }
        requires has { HasNodeFor self.now.version self.now.update (tree_range self.now.version.page_size 0 page) }
        ensures parts { let s = self.now.version in IsPartsOf (node_of s.page_size (falls s) self.now.update (tree_range s.page_size 0 page)) result }
        ensures step { steps.new ≡ steps.old + 1 }
    {
        let Some(node) = self.find(0, page, steps) else {
            unreachable!()
        };
        let Some(parts) = nodes.parts(&node) else {
            unreachable!()
        };
        parts
    }

    /// The version's rows are those of some updates within bounds, as a version keeps them, and the update is one of them, or 0. For
    /// proofs: it does nothing.
    pub fn stands(&self)
        ensures version { IsVersion self.now.version }
        ensures update { self.now.update ≤ length self.now.version.rows }
    {
        let _update = self.update;
    }
}
