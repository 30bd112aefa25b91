// The pages that an update writes in.
ghost use Rattle.std.specs.Prelude.{◌≡◌, ℕ, ◌+◌, ◌-◌, ◌*◌, ◌/◌, ◌^◌, ◌<◌, ◌≤◌, ◌↔◌, not, IsTrue};
ghost use Rattle.tree_geom.specs.Geometry.{covers, touched_by, leaves_open, Meets, meets_of, SharesByte};

use crate::page::PageSize;
use crate::range::Range;

/// The pages `first` to `last` that an update writes in, and the blob's size in bytes after it.
#[derive(Clone, Copy, PartialEq, Eq, Debug)]
pub struct Touch {
    pub first: u64,
    pub last: u64,
    pub size: u64,
    /// Whether the update leaves valid bytes of its first page to older leaves.
    pub open_first: bool,
    /// Whether it leaves valid bytes of its last page to older leaves.
    pub open_last: bool,
}

/// Whether the `len` bytes at byte `at` are all valid bytes of a page, in a blob of `size` bytes.
///
/// The bytes end at 2^40 at the latest, and the page begins there at the latest.
pub fn covers_page(p: PageSize, at: u64, len: u64, size: u64, page: u64) -> bool
    requires end { at + len ≤ 2 ^ 40 }
    requires page { page * p ≤ 2 ^ 40 }
    ensures { result ≡ covers p at len size page }
{
    let begin = page * p.bytes();
    let end = begin + p.bytes();
    at.max(begin) == begin && (at + len).min(end) == size.min(end)
}

/// What an update of `len` bytes at byte `at` touches, in a blob that has `size` bytes after it.
///
/// There is at least one byte, the bytes end at the size at the latest, and the size is at most 2^40.
pub fn touched(p: PageSize, at: u64, len: u64, size: u64) -> Touch
    requires some { 1 ≤ len }
    requires inside { at + len ≤ size }
    requires fits { size ≤ 2 ^ 40 }
    ensures first { result.first ≡ at / p }
    ensures last { result.last ≡ (at + len - 1) / p }
    ensures size { result.size ≡ size }
    ensures open_first { result.open_first ≡ not (covers p at len size (at / p)) }
    ensures open_last { result.open_last ≡ not (covers p at len size ((at + len - 1) / p)) }
    ensures is { result ≡ touched_by p at len size }
{
    let first = at / p.bytes();
    let last = (at + len - 1) / p.bytes();
    Touch {
        first,
        last,
        size,
        open_first: !covers_page(p, at, len, size, first),
        open_last: !covers_page(p, at, len, size, last),
    }
}

impl Touch {
    /// Whether the update leaves valid bytes of a page that it touches to older leaves.
    pub fn leaves_open(&self, page: u64) -> bool
        ensures { result ≡ leaves_open self.now page }
    {
        (page == self.first && self.open_first) || (page == self.last && self.open_last)
    }
}

/// Whether the touched pages meet the range. The range ends at 2^40 at the latest.
pub fn meets(p: PageSize, touch: &Touch, range: Range) -> bool
    requires { range.offset + range.size ≤ 2 ^ 40 }
    ensures is { result ≡ meets_of p touch.now range }
    ensures means { IsTrue result ↔ Meets p touch.now range }
    ensures shares { touch.now.first ≤ touch.now.last → IsTrue result ↔ SharesByte p touch.now range }
{
    if range.size == 0 {
        return false;
    }
    let first = range.offset / p.bytes();
    let last = (range.offset + range.size - 1) / p.bytes();
    touch.first <= last && first <= touch.last
}
