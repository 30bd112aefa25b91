// The size of a page, and the span and height of a tree over pages.
ghost use Rattle.std.specs.Prelude.{◌≡◌, ℕ, ◌+◌, ◌*◌, ◌^◌, ◌<◌, ◌≤◌, MatchOption};
ghost use Rattle.tree_geom.specs.Geometry.{IsPageSize, IsHeight, height_of, span_of};

use std::marker::Model;

/// How many bytes a page has: 2^i for an i from 2 to 20.
#[derive(Clone, Copy)]
pub struct PageSize {
    bytes: u64,
}

impl Model for PageSize {
    ghost Value = { ℕ };

    ghost view = { λ p. p.bytes };

    ghost invariant = { λ p. IsPageSize p.bytes };

    ghost inverse = { λ n. record { bytes = n } };
}

impl PageSize {
    /// Pages of `p` bytes. It is None for each number that no page may have.
    pub fn new(p: u64) -> Option<PageSize>
        ensures { MatchOption result (¬ IsPageSize p) (λ size. (size ≡ p) × IsPageSize p) }
    {
        let mut bytes = 4;
        for log in 2..21u32 {
            if p == bytes {
                return Some(PageSize { bytes });
            }
            bytes *= 2;
        }
        None
    }

    /// How many bytes a page has.
    pub fn bytes(&self) -> u64
        ensures is { result ≡ self.now }
        ensures bounds { (4 ≤ result) × (result ≤ 1048576) }
        ensures power { IsPageSize result }
    {
        self.bytes
    }

    /// A page size is a power of two from 4 to 1,048,576. For proofs: it does nothing.
    pub fn stands(&self)
        ensures bounds { (4 ≤ self.now) × (self.now ≤ 1048576) }
        ensures power { IsPageSize self.now }
    {
        let _bytes = self.bytes();
    }
}

/// The height of the tree over `size` bytes: the least `h` for which `p * 2^h` is at least the size.
///
/// The size is from 1 to 2^40.
pub fn height(p: PageSize, size: u64) -> u32
    requires some { 1 ≤ size }
    requires fits { size ≤ 2 ^ 40 }
    ensures is { result ≡ height_of p size }
    ensures least { IsHeight p size result }
    ensures bound { result ≤ 38 }
{
    // the least power of two that holds the bytes is twice the greatest up to the number of the last one, which counts from 0
    let page = p.bytes();
    let last = size.max(page) - 1;
    last.ilog2() + 1 - page.ilog2()
}

/// How many bytes the root of the tree over `size` bytes covers: those of `2^h` pages, where `h` is the tree's height. An empty
/// tree has no root, and covers 0.
///
/// The size is at most 2^40, and so is the span.
pub fn span(p: PageSize, size: u64) -> u64
    requires { size ≤ 2 ^ 40 }
    ensures none { size ≡ 0 → result ≡ 0 }
    ensures least { 1 ≤ size → (h : ℕ) × IsHeight p size h × (result ≡ p * 2 ^ h) }
    ensures is { result ≡ span_of p size }
    ensures holds { size ≤ result }
    ensures fits { result ≤ 2 ^ 40 }
{
    if size == 0 {
        return 0;
    }
    p.bytes() << height(p, size)
}

/// What the span of a size is. For proofs: it leaves nothing behind.
pub fn span_stands(p: PageSize, size: u64)
    requires { size ≤ 2 ^ 40 }
    ensures none { size ≡ 0 → span_of p size ≡ 0 }
    ensures least { 1 ≤ size → (h : ℕ) × IsHeight p size h × (span_of p size ≡ p * 2 ^ h) }
    ensures holds { size ≤ span_of p size }
    ensures fits { span_of p size ≤ 2 ^ 40 }
{
    let _span = span(p, size);
}
