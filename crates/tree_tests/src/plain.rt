//! The row of an update, made plainly from what all updates up to it touch and write.
ghost use Rattle.std.specs.Prelude.{◌+◌, ◌^◌, ◌≤◌, length};
ghost use Rattle.range_log.specs.Extents.{IsLog};

use crate::blob::{Begun, MAX_SIZE};
use range_log::{newest, row_keys};
use std::process::Abort;
use tree_geom::{Node, PageSize, Piece, Range, Touch, height, meets};

/// The second piece of a leaf that has one.
pub const NO_PIECE: Piece = Piece {
    page: 0,
    from: 0,
    len: 0,
};

/// The bytes that an update writes, from `at` to the one before `end`.
#[derive(Clone, Copy)]
pub struct Bytes {
    pub at: u64,
    pub end: u64,
}

impl Bytes {
    // Whether they are all bytes of the page that there are in a blob of this size.
    fn cover(self, page: Range, size: u64) -> bool {
        let after = page.offset.saturating_add(page.size);
        self.at <= page.offset && self.end.min(after) == size.min(after)
    }
}

// The one or two pieces of `len` bytes from byte `from` of the update's buffer on.
fn plain_pieces(size: u64, from: u64, len: u64) -> Option<(u32, Piece, Piece)>
    requires { 1 ≤ size }
{
    let page = u32::try_from(from / size).ok()?;
    let begin = from % size;
    let here = len.min(size - begin);
    let first = Piece {
        page,
        from: u32::try_from(begin).ok()?,
        len: u32::try_from(here).ok()?,
    };
    if here == len {
        return Some((1, first, NO_PIECE));
    }
    let second = Piece {
        page: page.saturating_add(1),
        from: 0,
        len: u32::try_from(len - here).ok()?,
    };
    Some((2, first, second))
}

// How deep the newest leaf of the page up to update `k` lies: 0 where its update writes all bytes of the page that there are
// after it, and one deeper than the next older leaf where it doesn't.
fn plain_depth(p: PageSize, log: &[Touch], begun: &[Begun], k: usize, page: Range) -> u32
    requires within { k ≤ length log.now }
    requires begun { k ≤ length begun.now }
    requires fits { page.offset + page.size ≤ 2 ^ 40 }
{
    let mut depth = 0u32;
    for below in (0..k).rev() {
        if meets(p, &log[below], page) {
            if begun[below].bytes().cover(page, log[below].size) {
                break;
            }
            depth = depth.saturating_add(1);
        }
    }
    depth
}

// The leaf of update `k` for the page.
fn plain_leaf(p: PageSize, log: &[Touch], begun: &[Begun], k: usize, page: Range) -> Option<Node>
    requires some { 1 ≤ k }
    requires within { k ≤ length log.now }
    requires begun { k ≤ length begun.now }
    requires fits { page.offset + page.size ≤ 2 ^ 40 }
{
    let bytes = begun[k - 1].bytes();
    let low = bytes.at.max(page.offset);
    let high = bytes.end.min(page.offset + page.size);
    let from = low.saturating_sub(bytes.at);
    let len = high.saturating_sub(low);
    let (count, first, second) = plain_pieces(p.bytes(), from, len)?;
    let back = if bytes.cover(page, log[k - 1].size) {
        0
    } else {
        newest(p, log, k - 1, page)
    };
    Some(Node::Leaf {
        start: u32::try_from(low.saturating_sub(page.offset)).ok()?,
        count,
        first,
        second,
        back,
        depth: plain_depth(p, log, begun, k, page),
    })
}

// The node of update `k` for the range, or none where the range passes the greatest size.
fn plain_node(p: PageSize, log: &[Touch], begun: &[Begun], k: usize, range: Range) -> Option<Node>
    requires some { 1 ≤ k }
    requires within { k ≤ length log.now }
    requires begun { k ≤ length begun.now }
{
    if range.offset > MAX_SIZE || range.size > MAX_SIZE - range.offset {
        return None;
    }
    if range.size == p.bytes() {
        return plain_leaf(p, log, begun, k, range);
    }
    let size = range.size / 2;
    let low = Range {
        offset: range.offset,
        size,
    };
    let high = Range {
        offset: range.offset + size,
        size,
    };
    Some(Node::Inner {
        left: newest(p, log, k, low),
        right: newest(p, log, k, high),
    })
}

/// The most nodes that a read of `count` bytes from byte `offset` on visits after the first `k` updates: two for each page
/// that it meets and for each level of the tree, and how deep the newest leaf of each of the pages lies. It is none for a read
/// past the size.
pub fn plain_bound(
    p: PageSize,
    log: &[Touch],
    begun: &[Begun],
    k: usize,
    offset: u64,
    count: u64,
) -> Option<u64>
    requires some { 1 ≤ k }
    requires within { k ≤ length log.now }
    requires begun { k ≤ length begun.now }
{
    if count == 0 {
        return Some(0);
    }
    let size = log[k - 1].size;
    if size > MAX_SIZE || offset >= size || count > size - offset {
        return None;
    }
    let mut bound = u64::from(height(p, size)).saturating_mul(2);
    for page in offset / p.bytes()..(offset + count - 1) / p.bytes() + 1 {
        let range = Range {
            offset: page.saturating_mul(p.bytes()),
            size: p.bytes(),
        };
        if range.offset > MAX_SIZE - range.size {
            return None;
        }
        let depth = plain_depth(p, log, begun, k, range);
        bound = bound.saturating_add(2).saturating_add(u64::from(depth));
    }
    Some(bound)
}

/// The row of update `k`, by what the updates touch and where they begin.
pub fn plain_row<R: Abort + AllocGlobal>(
    rt: &R,
    p: PageSize,
    log: &[Touch],
    begun: &[Begun],
    k: usize,
) -> Vec<(Range, Node)>
    requires some { 1 ≤ k }
    requires within { k ≤ length log.now }
    requires begun { k ≤ length begun.now }
    requires of_updates { IsLog p log.now }
{
    assert!(rt; log[k - 1].size <= MAX_SIZE, "past the greatest size");
    let keys = row_keys(rt.alloc(), p, log, k).expect(rt, "memory");
    let mut row = Vec::with_capacity(rt.alloc(), keys.len()).expect(rt, "memory");
    for i in 0..keys.len() {
        let range = keys[i];
        let node = plain_node(p, log, begun, k, range).expect(rt, "a node");
        row.push((range, node)).expect(rt, "memory");
    }
    row
}
