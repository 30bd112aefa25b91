// Ranges of bytes of a blob.
ghost use Rattle.std.specs.Prelude.{◌≡◌, ℕ, ◌+◌, ◌-◌, ◌*◌, ◌/◌, ◌%◌, ◌^◌, ◌<◌, ◌≤◌};
ghost use Rattle.tree_geom.specs.Geometry.{left_half, right_half, page_range};

use crate::page::PageSize;

/// The `size` bytes of a blob from byte `offset` on.
#[derive(Clone, Copy, PartialEq, Eq, PartialOrd, Ord, Debug)]
pub struct Range {
    pub offset: u64,
    pub size: u64,
}

/// The bytes of page `i`, which begins at 2^40 at the latest.
pub fn range_of_page(p: PageSize, i: u64) -> Range
    requires { i * p ≤ 2 ^ 40 }
    ensures { result ≡ page_range p i }
{
    let size = p.bytes();
    Range {
        offset: i * size,
        size,
    }
}

/// The two halves of a range, the lower one first. The size is even, and the range ends at 2^40 at the latest.
pub fn halves(range: Range) -> (Range, Range)
    requires even { range.size % 2 ≡ 0 }
    requires fits { range.offset + range.size ≤ 2 ^ 40 }
    ensures lower { result.0 ≡ left_half range }
    ensures upper { result.1 ≡ right_half range }
{
    let half = range.size / 2;
    (
        Range {
            offset: range.offset,
            size: half,
        },
        Range {
            offset: range.offset + half,
            size: half,
        },
    )
}
