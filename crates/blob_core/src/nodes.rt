// The nodes of a row, storing one of them, and finishing an update.
ghost use Rattle.std.specs.Prelude.{◌≡◌, ◌≤◌, ◌↔◌, IsTrue, true, false, length, IfOk, OnErr, IsErrOf, MatchOption};
ghost use Rattle.std.specs.List.{Contains};
ghost use Rattle.blob_model.specs.Store.{finish, is_finished};
ghost use Rattle.range_log.specs.Log.{HasNode};
ghost use Rattle.range_log.specs.Updates.{extents};
ghost use Rattle.range_log.specs.Rows.{node_of};
ghost use Rattle.blob_core.specs.World.{log_of};
ghost use Rattle.blob_core.specs.Steps.{IsAllowed};
ghost use Rattle.blob_core.specs.Standing.{IsReached};
ghost use Rattle.blob_core.specs.Acts.{IsDone, IsLogOf, IsRowOf, NotNumberedIn, AreThere, LacksFold, HasFold};
ghost use Rattle.blob_core.specs.declared.step.Step.TheVariants.{NodePut, Finish};
ghost use Rattle.blob_core.specs.declared.state.ActFault.TheVariants.{NotAllowed};

use crate::finds::{find_node, has_fold, origin};
use crate::laws::steps_hold;
use crate::leaves::{folds_page, row_leaf};
use crate::state::{ActFault, State, StoredBlob};
use crate::updates::{size_at, touches_of};
use crate::world::FoldKey;
use blob_model::Bytes;
use range_log::{NoMemory, laws, newest, row_keys};
use std::alloc::Global;
use tree_geom::{Node, NodeKey, PageSize, Range, Touch, halves, span_stands};

/// The node of a version's row for a range.
fn row_node(
    p: PageSize,
    blob: &StoredBlob,
    log: &[Touch],
    version: usize,
    range: Range,
) -> Result<Node, NoMemory>
    requires log { IsLogOf p blob.now log.now }
    requires has { HasNode p (log_of p blob.now.updates) version range }
    ensures { IfOk result (λ node. node ≡ node_of p (extents blob.now.updates) version range) }
{
    laws::page_bytes_stay();
    if range.size == p.bytes() {
        return row_leaf(p, blob, log, version, range.offset / p.bytes());
    }
    span_stands(p, size_at(log, version));
    let (left, right) = halves(range);
    Ok(Node::Inner {
        left: newest(p, log, version, left),
        right: newest(p, log, version, right),
    })
}

/// Whether the range is that of a page that the version's update stores anew, and the page isn't there.
fn lacks_fold(
    p: PageSize,
    folded: &[(FoldKey, Bytes)],
    blob: &StoredBlob,
    log: &[Touch],
    key: &NodeKey,
) -> bool
    requires log { IsLogOf p blob.now log.now }
    requires has { HasNode p (log_of p blob.now.updates) key.now.version key.now.range }
    ensures lacks { result ≡ true → LacksFold p folded.now key.now blob.now }
    ensures has { result ≡ false → HasFold p folded.now key.now blob.now }
{
    if key.range.size != p.bytes() {
        return false;
    }
    let page = key.range.offset / p.bytes();
    let fold = FoldKey {
        blob: key.blob,
        version: key.version,
        page,
    };
    folds_page(p, blob, log, key.version as usize, page) && !has_fold(folded, &fold)
}

/// Whether the range is one of these.
fn is_among(keys: &[Range], range: &Range) -> bool
    ensures { IsTrue result ↔ Contains keys.now range.now }
{
    keys.contains(range)
}

/// Whether there is a node of the version for each range.
fn are_there(nodes: &[(NodeKey, Node)], blob: u64, version: u64, keys: &[Range]) -> bool
    ensures all { result ≡ true → AreThere nodes.now blob version keys.now }
    ensures missing { result ≡ false → ¬ AreThere nodes.now blob version keys.now }
{
    for range in keys {
        let key = NodeKey {
            blob,
            version,
            range: *range,
        };
        if find_node(nodes, &key).is_none() {
            return false;
        }
    }
    true
}

/// Marks a numbered version as finished.
fn mark(blob: &mut StoredBlob, version: usize)
    requires { (1 ≤ version) × (version ≤ length blob.old.finished) }
    ensures { blob.new ≡ finish blob.old version }
{
    blob.finished[version - 1] = true;
}

/// Whether a version is finished.
fn is_marked(blob: &StoredBlob, version: usize) -> bool
    requires { (1 ≤ version) × (version ≤ length blob.now.finished) }
    ensures { result ≡ is_finished blob.now version }
{
    blob.finished[version - 1]
}

/// What a blob's updates touch, and the ranges of the row of one of its versions.
#[derive(Drop)]
pub(crate) struct Row {
    pub(crate) log: Vec<Touch>,
    pub(crate) keys: Vec<Range>,
}

impl State {
    /// The row of a version. None exactly where the version wasn't numbered in that blob.
    pub(crate) fn row(
        &self,
        alloc: Global,
        p: PageSize,
        blob: u64,
        version: u64,
    ) -> Result<Option<Row>, NoMemory>
        requires { IsReached p self.now }
        ensures { IfOk result (λ found. MatchOption found (NotNumberedIn self.now blob version) (λ row. IsRowOf p self.now blob version row.log.items row.keys.items)) }
    {
        steps_hold();
        laws::page_bytes_stay();
        let Some(stored) = self.blob(blob) else {
            return Ok(None);
        };
        let assigned = stored.updates.len() as u64;
        let own = origin(self.lineage.as_slice(), blob, version);
        if version == 0 || assigned < version || own != blob {
            return Ok(None);
        }
        let log = touches_of(alloc, p, stored)?;
        let keys = row_keys(alloc, p, log.as_slice(), version as usize)?;
        Ok(Some(Row { log, keys }))
    }

    /// Stores the node that the update's writer weaves for a range of its row. A key that is there keeps its node.
    pub(crate) fn put_node(
        &mut self,
        alloc: Global,
        p: PageSize,
        key: NodeKey,
    ) -> Result<(), ActFault>
        requires { IsReached p self.old }
        ensures done { IfOk result (λ _. IsDone p self.old (NodePut key) self.new) }
        ensures refused { IsErrOf result NotAllowed → ¬ IsAllowed p self.old (NodePut key) }
        ensures same { OnErr result (self.new ≡ self.old) }
    {
        steps_hold();
        laws::page_bytes_stay();
        laws::row_keys_exact();
        let Some(row) = self.row(alloc, p, key.blob, key.version)? else {
            return Err(ActFault::NotAllowed);
        };
        let Some(stored) = self.blob(key.blob) else {
            return Err(ActFault::NotAllowed);
        };
        if !is_among(row.keys.as_slice(), &key.range) {
            return Err(ActFault::NotAllowed);
        }
        let log = row.log.as_slice();
        if lacks_fold(p, self.folded.as_slice(), stored, log, &key) {
            return Err(ActFault::NotAllowed);
        }
        if find_node(self.nodes.as_slice(), &key).is_some() {
            return Ok(());
        }
        let version = key.version as usize;
        let node = row_node(p, stored, log, version, key.range)?;
        self.nodes.insert(0, (key, node))?;
        Ok(())
    }

    /// Marks an update as finished, each node of whose row is there.
    pub(crate) fn finish(
        &mut self,
        alloc: Global,
        p: PageSize,
        caller: u32,
        blob: u64,
        version: u64,
    ) -> Result<(), ActFault>
        requires { IsReached p self.old }
        ensures done { IfOk result (λ _. IsDone p self.old (Finish caller blob version) self.new) }
        ensures refused { IsErrOf result NotAllowed → ¬ IsAllowed p self.old (Finish caller blob version) }
        ensures same { OnErr result (self.new ≡ self.old) }
    {
        steps_hold();
        let Some(row) = self.row(alloc, p, blob, version)? else {
            return Err(ActFault::NotAllowed);
        };
        let Some(stored) = self.blob(blob) else {
            return Err(ActFault::NotAllowed);
        };
        if is_marked(stored, version as usize)
            || !are_there(self.nodes.as_slice(), blob, version, row.keys.as_slice())
        {
            return Err(ActFault::NotAllowed);
        }
        mark(&mut self.blobs[(blob - 1) as usize], version as usize);
        Ok(())
    }
}
