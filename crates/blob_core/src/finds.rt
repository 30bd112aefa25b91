// Where things are in a world.
ghost use Rattle.std.specs.Prelude.{◌≡◌, None, Some, true, false, MatchOption};
ghost use Rattle.blob_model.specs.Store.{blob_at, true_prefix};
ghost use Rattle.blob_core.specs.World.{IsKnown, same_key, fold_at, kept_at, node_at, page_at};
ghost use Rattle.branching.specs.Parents.{origin_of};

use crate::state::{KeptUpdate, State, StoredBlob};
use crate::world::{FoldKey, UpdateKey};
use blob_model::Bytes;
use branching::Parent;
use tree_geom::{Node, NodeKey};

/// Whether the keys are the same.
fn is_same_key(a: &NodeKey, b: &NodeKey) -> bool
    ensures { result ≡ same_key a.now b.now }
{
    a.blob == b.blob
        && a.version == b.version
        && a.range.offset == b.range.offset
        && a.range.size == b.range.size
}

/// The node of the first entry with that key.
pub(crate) fn find_node(nodes: &[(NodeKey, Node)], key: &NodeKey) -> Option<Node>
    ensures { result ≡ node_at nodes.now key.now }
{
    for entry in nodes {
        if is_same_key(&entry.0, key) {
            return Some(entry.1);
        }
    }
    None
}

/// The bytes of the page of that number.
pub(crate) fn find_page(pages: &[(u64, Bytes)], page: u64) -> Option<&Bytes>
    ensures { MatchOption result (page_at pages.now page ≡ None) (λ bytes. page_at pages.now page ≡ Some bytes.now) }
{
    for entry in pages {
        if entry.0 == page {
            return Some(&entry.1);
        }
    }
    None
}

/// The bytes of a page that an update stored anew.
pub(crate) fn find_fold<'a>(folded: &'a [(FoldKey, Bytes)], key: &FoldKey) -> Option<&'a Bytes>
    ensures { MatchOption result (fold_at folded.now key.now.blob key.now.version key.now.page ≡ None)
        (λ bytes. fold_at folded.now key.now.blob key.now.version key.now.page ≡ Some bytes.now) }
{
    for entry in folded {
        if entry.0.blob == key.blob && entry.0.version == key.version && entry.0.page == key.page {
            return Some(&entry.1);
        }
    }
    None
}

/// Whether a page that an update stored anew is there.
pub(crate) fn has_fold(folded: &[(FoldKey, Bytes)], key: &FoldKey) -> bool
    ensures there { result ≡ true → IsKnown (fold_at folded.now key.now.blob key.now.version key.now.page) }
    ensures missing { result ≡ false → fold_at folded.now key.now.blob key.now.version key.now.page ≡ None }
{
    find_fold(folded, key).is_some()
}

/// What is kept beside the update of that version that was numbered in that blob.
pub(crate) fn find_kept(
    updates: &[(UpdateKey, KeptUpdate)],
    blob: u64,
    version: u64,
) -> Option<&KeptUpdate>
    ensures { MatchOption result (kept_at updates.now blob version ≡ None) (λ kept. kept_at updates.now blob version ≡ Some kept.now) }
{
    for entry in updates {
        if entry.0.blob == blob && entry.0.version == version {
            return Some(&entry.1);
        }
    }
    None
}

/// The blob that a blob's version was numbered in.
pub(crate) fn origin(lineage: &[Option<Parent>], blob: u64, version: u64) -> u64
    ensures { result ≡ origin_of lineage.now blob version }
{
    let mut own = blob;
    let mut older = lineage.len() as u64;
    for parent in lineage {
        if let Some(parent) = parent {
            if own == older && version <= parent.version {
                own = parent.blob;
            }
        }
        older -= 1;
    }
    own
}

/// How many marks there are before the first that is false.
pub(crate) fn marked(marks: &[bool]) -> u64
    ensures is { result ≡ true_prefix marks.now }
{
    let mut count = 0;
    for mark in marks {
        if !*mark {
            return count;
        }
        count += 1;
    }
    count
}

impl State {
    /// The blob of that number.
    pub(crate) fn blob(&self, blob: u64) -> Option<&StoredBlob>
        ensures { MatchOption result (blob_at self.now.store blob ≡ None) (λ b. blob_at self.now.store blob ≡ Some b.now) }
    {
        self.blobs.get(blob.checked_sub(1)? as usize)
    }
}
