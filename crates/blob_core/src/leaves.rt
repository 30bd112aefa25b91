// The leaves of a row, and which of them store their page anew.
ghost use Rattle.std.specs.Prelude.{◌≡◌, ℕ, ◌+◌, ◌-◌, ◌*◌, ◌≤◌, ◌^◌, ◌==◌, ◌↔◌, IsTrue, true, false, length, IfOk};
ghost use Rattle.std.specs.List.{position_or_len};
ghost use Rattle.blob_model.specs.Content.{size_of};
ghost use Rattle.blob_model.specs.Store.{assigned};
ghost use Rattle.tree_geom.specs.Geometry.{Meets, page_range};
ghost use Rattle.range_log.specs.Depths.{fold_number, depth_after, depth_of};
ghost use Rattle.range_log.specs.Log.{HasNode, touch_at, size_at as size_in};
ghost use Rattle.range_log.specs.Extents.{extent_at};
ghost use Rattle.range_log.specs.Updates.{extents};
ghost use Rattle.range_log.specs.Rows.{covered, folded_of, folds_of, leaf_of, leaf_start, leaf_from, leaf_len};
ghost use Rattle.range_log.specs.Rows.{first_piece, second_piece, piece_count};
ghost use Rattle.blob_core.specs.World.{log_of};
ghost use Rattle.blob_core.specs.Acts.{IsLogOf};

use crate::state::StoredBlob;
use crate::updates::{offset_in, size_at};
use range_log::{NoMemory, deeper, laws, newest};
use tree_geom::{Node, PageSize, Piece, Touch, covers_page, meets, range_of_page, span_stands};

/// What stands in place of a piece that there is none of.
fn no_piece() -> Piece
    ensures { result ≡ record { page = 0; from = 0; len = 0 } }
{
    Piece {
        page: 0,
        from: 0,
        len: 0,
    }
}

/// The pieces of `len` bytes of an update's buffer from byte `from` on, and how many they are.
///
/// A piece counts pages by 32 bits: an update of more pages wants too much memory.
fn pieces(p: PageSize, from: u64, len: u64) -> Result<(u32, Piece, Piece), NoMemory>
    requires some { 1 ≤ len }
    requires small { len ≤ p }
    ensures count { IfOk result (λ r. r.0 ≡ piece_count p from len) }
    ensures first { IfOk result (λ r. r.1 ≡ first_piece p from len) }
    ensures second { IfOk result (λ r. r.2 ≡ second_piece p from len) }
{
    let size = p.bytes();
    let Ok(page) = u32::try_from(from / size) else {
        return Err(NoMemory);
    };
    let begin = from % size;
    let room = size - begin;
    let first = Piece {
        page,
        from: begin as u32,
        len: room.min(len) as u32,
    };
    if len <= room {
        return Ok((1, first, no_piece()));
    }
    let Some(next) = page.checked_add(1) else {
        return Err(NoMemory);
    };
    let second = Piece {
        page: next,
        from: 0,
        len: (len - room) as u32,
    };
    Ok((2, first, second))
}

/// Where a version's update falls, and how many bytes it has.
fn extent(blob: &StoredBlob, log: &[Touch], version: usize) -> (u64, u64)
    requires version { (1 ≤ version) × (version ≤ assigned blob.now) }
    requires count { length log.now ≡ assigned blob.now }
    requires sizes { (v : ℕ) → v ≤ assigned blob.now → size_in log.now v ≡ size_of blob.now.updates v }
    ensures at { result.0 ≡ (extent_at (extents blob.now.updates) version).at }
    ensures len { result.1 ≡ (extent_at (extents blob.now.updates) version).len }
{
    let update = &blob.updates[version - 1];
    let before = size_at(log, version - 1);
    (offset_in(update.place, before), update.bytes.len() as u64)
}

/// The bytes of an update that lie in one page: at which byte of the page and of the update's buffer they begin, and how many
/// they are.
#[derive(Clone, Copy)]
pub(crate) struct OwnPart {
    pub(crate) start: u64,
    pub(crate) from: u64,
    pub(crate) len: u64,
}

/// The bytes of a version's update that lie in a page of its row.
pub(crate) fn own_part(
    p: PageSize,
    blob: &StoredBlob,
    log: &[Touch],
    version: usize,
    page: u64,
) -> OwnPart
    requires log { IsLogOf p blob.now log.now }
    requires has { HasNode p (log_of p blob.now.updates) version (page_range p page) }
    ensures start { result.start ≡ leaf_start p (extent_at (extents blob.now.updates) version) page }
    ensures from { result.from ≡ leaf_from p (extent_at (extents blob.now.updates) version) page }
    ensures len { result.len ≡ leaf_len p (extent_at (extents blob.now.updates) version) page }
    ensures some { 1 ≤ result.len }
    ensures small { result.start + result.len ≤ p }
{
    laws::page_bytes_stay();
    laws::leaves_fill();
    let whole = size_at(log, version);
    span_stands(p, whole);
    let (at, len) = extent(blob, log, version);
    let begin = page * p.bytes();
    let end = begin + p.bytes();
    let low = at.max(begin);
    let high = (at + len).min(end);
    OwnPart {
        start: low - begin,
        from: low - at,
        len: high - low,
    }
}

/// Whether a version's update covers all valid bytes of a page.
fn is_covered(p: PageSize, blob: &StoredBlob, log: &[Touch], version: usize, page: u64) -> bool
    requires log { IsLogOf p blob.now log.now }
    requires version { (1 ≤ version) × (version ≤ assigned blob.now) }
    requires fits { page * p ≤ 2 ^ 40 }
    ensures { result ≡ covered p (extents blob.now.updates) version page }
{
    laws::page_bytes_stay();
    let (at, len) = extent(blob, log, version);
    covers_page(p, at, len, size_at(log, version), page)
}

/// How deep the newest leaf of a page lies after an update, where it lay `depth` deep before.
fn depth_with(p: PageSize, touch: &Touch, page: u64, depth: u32) -> u32
    requires fits { page * p + p ≤ 2 ^ 40 }
    requires few { depth ≤ 2 ^ 20 }
    ensures { result ≡ depth_after fold_number p touch.now page depth }
{
    if !meets(p, touch, range_of_page(p, page)) {
        return depth;
    }
    if touch.leaves_open(page) {
        deeper(depth)
    } else {
        0
    }
}

/// How deep the newest leaf of a page lies at a version.
fn depth_at(p: PageSize, log: &[Touch], version: usize, page: u64) -> u32
    requires version { version ≤ length log.now }
    requires few { version ≤ 2 ^ 20 }
    requires fits { page * p + p ≤ 2 ^ 40 }
    ensures { result ≡ depth_of p log.now version page }
{
    laws::depth_counts_backs();
    let mut depth = 0;
    for k in 0..version {
        depth = depth_with(p, &log[k], page, depth);
    }
    depth
}

/// Whether a version's update, where it touches a page, stores it anew.
fn is_folded(p: PageSize, blob: &StoredBlob, log: &[Touch], version: usize, page: u64) -> bool
    requires log { IsLogOf p blob.now log.now }
    requires version { (1 ≤ version) × (version ≤ assigned blob.now) }
    requires fits { page * p + p ≤ 2 ^ 40 }
    ensures { result ≡ folded_of p (extents blob.now.updates) version page }
{
    laws::page_bytes_stay();
    !is_covered(p, blob, log, version, page) && depth_at(p, log, version, page) == 0
}

/// Whether a version's update touches a page and stores it anew.
pub(crate) fn folds_page(
    p: PageSize,
    blob: &StoredBlob,
    log: &[Touch],
    version: usize,
    page: u64,
) -> bool
    requires log { IsLogOf p blob.now log.now }
    requires version { (1 ≤ version) × (version ≤ assigned blob.now) }
    ensures { IsTrue result ↔ (Meets p (touch_at (log_of p blob.now.updates) version) (page_range p page)
        × (folded_of p (extents blob.now.updates) version page ≡ true)) }
{
    laws::page_bytes_stay();
    p.stands();
    span_stands(p, size_at(log, version));
    let touch = log[version - 1];
    if page < touch.first || touch.last < page {
        return false;
    }
    is_folded(p, blob, log, version, page)
}

/// The place of a page among those that a version's update stores anew, of which it is one.
fn fold_place(p: PageSize, blob: &StoredBlob, log: &[Touch], version: usize, page: u64) -> u32
    requires log { IsLogOf p blob.now log.now }
    requires has { HasNode p (log_of p blob.now.updates) version (page_range p page) }
    requires anew { folded_of p (extents blob.now.updates) version page ≡ true }
    ensures place { result ≡ position_or_len (λ j. j == page) (folds_of p (extents blob.now.updates) version) }
    ensures few { result ≤ 1 }
{
    laws::page_bytes_stay();
    laws::folds_are();
    span_stands(p, size_at(log, version));
    let first = log[version - 1].first;
    if page != first && is_folded(p, blob, log, version, first) {
        1
    } else {
        0
    }
}

/// The leaf of a page that a version's update stores anew.
fn whole_leaf(
    p: PageSize,
    blob: &StoredBlob,
    log: &[Touch],
    version: usize,
    page: u64,
) -> Result<Node, NoMemory>
    requires log { IsLogOf p blob.now log.now }
    requires has { HasNode p (log_of p blob.now.updates) version (page_range p page) }
    requires anew { folded_of p (extents blob.now.updates) version page ≡ true }
    ensures { IfOk result (λ node. node ≡ leaf_of p (extents blob.now.updates) version page) }
{
    laws::page_bytes_stay();
    let whole = size_at(log, version);
    span_stands(p, whole);
    let (_, len) = extent(blob, log, version);
    let place = fold_place(p, blob, log, version, page);
    let size = p.bytes();
    let Ok(number) = u32::try_from((len + size - 1) / size + place as u64) else {
        return Err(NoMemory);
    };
    let begin = page * size;
    let valid = whole.min(begin + size).saturating_sub(begin);
    let first = Piece {
        page: number,
        from: 0,
        len: valid as u32,
    };
    Ok(Node::Leaf {
        start: 0,
        count: 1,
        first,
        second: no_piece(),
        back: 0,
        depth: 0,
    })
}

/// The leaf of a page that a version's update doesn't store anew.
fn own_leaf(
    p: PageSize,
    blob: &StoredBlob,
    log: &[Touch],
    version: usize,
    page: u64,
) -> Result<Node, NoMemory>
    requires log { IsLogOf p blob.now log.now }
    requires has { HasNode p (log_of p blob.now.updates) version (page_range p page) }
    requires kept { folded_of p (extents blob.now.updates) version page ≡ false }
    ensures { IfOk result (λ node. node ≡ leaf_of p (extents blob.now.updates) version page) }
{
    laws::page_bytes_stay();
    let part = own_part(p, blob, log, version, page);
    span_stands(p, size_at(log, version));
    let (count, first, second) = pieces(p, part.from, part.len)?;
    let back = if is_covered(p, blob, log, version, page) {
        0
    } else {
        newest(p, log, version - 1, range_of_page(p, page))
    };
    let depth = depth_at(p, log, version, page);
    Ok(Node::Leaf {
        start: part.start as u32,
        count,
        first,
        second,
        back,
        depth,
    })
}

/// The leaf of a page of a version's row.
pub(crate) fn row_leaf(
    p: PageSize,
    blob: &StoredBlob,
    log: &[Touch],
    version: usize,
    page: u64,
) -> Result<Node, NoMemory>
    requires log { IsLogOf p blob.now log.now }
    requires has { HasNode p (log_of p blob.now.updates) version (page_range p page) }
    ensures { IfOk result (λ node. node ≡ leaf_of p (extents blob.now.updates) version page) }
{
    laws::page_bytes_stay();
    span_stands(p, size_at(log, version));
    if is_folded(p, blob, log, version, page) {
        whole_leaf(p, blob, log, version, page)
    } else {
        own_leaf(p, blob, log, version, page)
    }
}
