// Reading a version by the nodes and pages of a world.
ghost use Rattle.std.specs.Prelude.{◌≡◌, ℕ, ◌+◌, ◌*◌, ◌<◌, ◌≤◌, ◌^◌, ◌++◌, None, Some, [], false, drop, take, IfOk, MatchOption};
ghost use Rattle.blob_model.specs.Content.{put};
ghost use Rattle.blob_model.specs.Answer.{answer};
ghost use Rattle.blob_model.specs.History.{is_refused};
ghost use Rattle.blob_model.specs.declared.call.Call.TheVariants as Calls;
ghost use Rattle.tree_geom.specs.Nodes.{left_link, right_link};
ghost use Rattle.blob_core.specs.World.{node_in};
ghost use Rattle.blob_core.specs.Walk.{stored_in, bytes_of_piece, leaf_walk, tree_walk_from, walked_in};
ghost use Rattle.blob_core.specs.Standing.{IsReached};

use crate::finds::{find_fold, find_kept, find_node, find_page, origin};
use crate::laws::steps_hold;
use crate::state::State;
use crate::updates::{size_at, touches_of};
use crate::world::FoldKey;
use blob_model::Bytes;
use range_log::{NoMemory, laws};
use std::alloc::{AllocError, Global};
use tree_geom::{Node, NodeKey, PageSize, Piece, Range, height};

/// At most `len` bytes from byte `from` on.
pub(crate) fn part(bytes: &[u8], from: usize, len: usize) -> &[u8]
    ensures { result.now ≡ take len (drop from bytes.now) }
{
    let begin = from.min(bytes.len());
    let end = begin.saturating_add(len).min(bytes.len());
    &bytes[begin..end]
}

/// The older bytes with the update's own in place of them from byte `start` on.
pub(crate) fn put_over(
    alloc: Global,
    older: &[u8],
    start: usize,
    own: &[u8],
) -> Result<Vec<u8>, AllocError>
    ensures { IfOk result (λ bytes. bytes.items ≡ put older.now start own.now) }
{
    let mut bytes = Vec::new(alloc);
    bytes.extend_from_slice(part(older, 0, start))?;
    bytes.extend_from_slice(own)?;
    let behind = start.saturating_add(own.len()).min(older.len());
    bytes.extend_from_slice(&older[behind..])?;
    Ok(bytes)
}

/// The versions that a node links to for the halves of its range.
fn links(node: &Node) -> (u64, u64)
    ensures left { result.0 ≡ left_link node.now }
    ensures right { result.1 ≡ right_link node.now }
{
    match node {
        Node::Inner { left, right } => (*left, *right),
        Node::Leaf { .. } => (0, 0),
    }
}

/// The part of a tree that a walk goes through: that under the node of a blob's version for range number `number` of a height.
#[derive(Clone, Copy)]
pub(crate) struct Subtree {
    pub(crate) blob: u64,
    pub(crate) version: u64,
    pub(crate) height: u32,
    pub(crate) number: u64,
}

impl State {
    /// The node of a blob's version for a range: that of the blob that the version was numbered in.
    fn node_of(&self, blob: u64, version: u64, range: Range) -> Option<Node>
        ensures { result ≡ node_in self.now blob version range }
    {
        let key = NodeKey {
            blob: origin(self.lineage.as_slice(), blob, version),
            version,
            range,
        };
        find_node(self.nodes.as_slice(), &key)
    }

    /// The bytes of stored page number `stored` of a version, as its leaf of a page means it: one of those of the update's buffer,
    /// and past them the page that the update stored anew.
    fn stored_page(
        &self,
        blob: u64,
        version: u64,
        page: u64,
        pages: &[u64],
        stored: usize,
    ) -> Option<&Bytes>
        ensures { MatchOption result (stored_in self.now blob version page pages.now stored ≡ [])
            (λ bytes. stored_in self.now blob version page pages.now stored ≡ bytes.now) }
    {
        if let Some(number) = pages.get(stored) {
            return find_page(self.pages.as_slice(), *number);
        }
        let numbered_in = origin(self.lineage.as_slice(), blob, version);
        let key = FoldKey {
            blob: numbered_in,
            version,
            page,
        };
        find_fold(self.folded.as_slice(), &key)
    }

    /// Adds the bytes of a piece of a version's leaf of a page.
    fn add_piece(
        &self,
        blob: u64,
        version: u64,
        page: u64,
        pages: &[u64],
        piece: &Piece,
        bytes: &mut Vec<u8>,
    ) -> Result<(), AllocError>
        ensures { IfOk result (λ _. bytes.new.items ≡ bytes.old.items ++ bytes_of_piece self.now blob version page pages.now piece.now) }
    {
        let Some(stored) = self.stored_page(blob, version, page, pages, piece.page as usize) else {
            return Ok(());
        };
        bytes.extend_from_slice(part(stored.as_slice(), piece.from as usize, piece.len as usize))?;
        Ok(())
    }

    /// The bytes of a version's leaf of a page: its own over those of the leaf that it leads back to, by at most `most` backs.
    fn leaf_bytes(
        &self,
        alloc: Global,
        p: PageSize,
        most: u64,
        blob: u64,
        version: u64,
        page: u64,
    ) -> Result<Vec<u8>, AllocError>
        requires { page < 2 ^ 38 }
        ensures { IfOk result (λ bytes. bytes.items ≡ (leaf_walk most p self.now blob version page).bytes) }
    {
        let mut own = Vec::new(alloc);
        if most == 0 {
            return Ok(own);
        }
        let range = Range {
            offset: page * p.bytes(),
            size: p.bytes(),
        };
        let Some(node) = self.node_of(blob, version, range) else {
            return Ok(own);
        };
        let numbered_in = origin(self.lineage.as_slice(), blob, version);
        let Some(kept) = find_kept(self.updates.as_slice(), numbered_in, version) else {
            return Ok(own);
        };
        let Node::Leaf {
            start,
            count: _,
            first,
            second,
            back,
            depth: _,
        } = node
        else {
            return Ok(own);
        };
        let pages = kept.pages.as_slice();
        self.add_piece(blob, version, page, pages, &first, &mut own)?;
        self.add_piece(blob, version, page, pages, &second, &mut own)?;
        let older = if back == 0 {
            Vec::new(alloc)
        } else {
            self.leaf_bytes(alloc, p, most - 1, blob, back, page)?
        };
        put_over(alloc, older.as_slice(), start as usize, own.as_slice())
    }

    /// Adds the bytes of the leaves of the pages `first` to `last` in a part of a tree.
    pub(crate) fn add_tree(
        &self,
        alloc: Global,
        p: PageSize,
        tree: Subtree,
        first: u64,
        last: u64,
        bytes: &mut Vec<u8>,
    ) -> Result<(), AllocError>
        requires height { tree.height ≤ 38 }
        requires fits { (tree.number + 1) * 2 ^ tree.height ≤ 2 ^ 38 }
        ensures { IfOk result (λ _. bytes.new.items ≡ bytes.old.items ++ (tree_walk_from tree.height p self.now tree.blob tree.version tree.number first last).bytes) }
    {
        let number = tree.number;
        let pages = 2u64.pow(tree.height);
        if last < number * pages || (number + 1) * pages <= first {
            return Ok(());
        }
        if tree.height == 0 {
            let leaf = self.leaf_bytes(alloc, p, tree.version, tree.blob, tree.version, number)?;
            bytes.extend_from_slice(leaf.as_slice())?;
            return Ok(());
        }
        let size = p.bytes() * pages;
        let range = Range {
            offset: number * size,
            size,
        };
        let Some(node) = self.node_of(tree.blob, tree.version, range) else {
            return Ok(());
        };
        let (left, right) = links(&node);
        let low = Subtree {
            version: left,
            height: tree.height - 1,
            number: 2 * number,
            ..tree
        };
        self.add_tree(alloc, p, low, first, last, bytes)?;
        let high = Subtree {
            version: right,
            number: 2 * number + 1,
            ..low
        };
        self.add_tree(alloc, p, high, first, last, bytes)
    }

    /// What a walk from the root of a version brings of `length` bytes from `offset`. None exactly where the store refuses the
    /// read.
    pub(crate) fn read(
        &self,
        alloc: Global,
        p: PageSize,
        blob: u64,
        version: u64,
        offset: u64,
        length: u64,
    ) -> Result<Option<Bytes>, NoMemory>
        requires { IsReached p self.now }
        ensures { IfOk result (λ bytes. bytes ≡ walked_in p self.now blob version offset length) }
    {
        steps_hold();
        laws::page_bytes_stay();
        if self.refuses_read(alloc, p, blob, version, offset, length)? {
            return Ok(None);
        }
        let Some(stored) = self.blob(blob) else {
            return Ok(None);
        };
        if length == 0 {
            return Ok(Some(Bytes::of(Vec::new(alloc))));
        }
        let log = touches_of(alloc, p, stored)?;
        let levels = height(p, size_at(log.as_slice(), version as usize));
        let first = offset / p.bytes();
        let last = (offset + length - 1) / p.bytes();
        let mut pages = Vec::new(alloc);
        let root = Subtree {
            blob,
            version,
            height: levels,
            number: 0,
        };
        self.add_tree(alloc, p, root, first, last, &mut pages)?;
        let mut bytes = Vec::new(alloc);
        let skipped = (offset - first * p.bytes()) as usize;
        bytes.extend_from_slice(part(pages.as_slice(), skipped, length as usize))?;
        Ok(Some(Bytes::of(bytes)))
    }
}
