// Where a range stands in a row.
ghost use Rattle.std.specs.Prelude.{◌≡◌, ◌≢◌, ℕ, ◌+◌, ◌*◌, ◌/◌, ◌^◌, ◌<◌, ◌≤◌, length, IfSome, MatchOption, Some, slice_get};
ghost use Rattle.std.specs.List.{Contains};
ghost use Rattle.tree_geom.specs.Geometry.{IsPageSize};
ghost use Rattle.range_log.specs.Rows.{levels_of};
ghost use Rattle.range_log.specs.Positions.{IsLevelOf, NoLevelHas};

use tree_geom::{Range, Touch};

// The ranges of one height in a row: the numbers of the first and the last, and how many ranges of the row are of that height or
// a lower one.
#[derive(Clone, Copy)]
pub(crate) struct Level {
    pub first: u64,
    pub last: u64,
    pub count: u64,
}

// How many times a width doubles until it is that size. None where it never is.
#[inline(always)]
fn doublings(width: u64, size: u64) -> Option<u32>
    requires { 1 ≤ width }
    ensures times { MatchOption result ((n : ℕ) → size ≢ width * 2 ^ n) (λ n. size ≡ width * 2 ^ n) }
    ensures few { IfSome result (λ n. n < 64) }
{
    if size < width {
        return None;
    }
    let times = size.ilog2() - width.ilog2();
    if width << times == size {
        Some(times)
    } else {
        None
    }
}

// The ranges of so many bytes in the row of an update with that touch, in a tree of that height. Once the touched pages lie in one
// range, each level above has one range more, so these levels are counted and not walked.
#[inline(always)]
fn level_above(p: u64, height: u32, touch: &Touch, size: u64) -> Option<Level>
    requires least { 1 ≤ p }
    requires greatest { p ≤ 1048576 }
    requires height { height ≤ 38 }
    requires ordered { touch.now.first ≤ touch.now.last }
    requires fits { touch.now.last * p ≤ 2 ^ 40 }
    ensures { MatchOption result (NoLevelHas p height size) (λ level. (h : ℕ) × IsLevelOf p touch.now height h size level.first level.last level.count) }
{
    let mut width = p;
    let mut first = touch.first;
    let mut last = touch.last;
    let mut count = last - first + 1;
    let mut level = 0;
    while first != last && width < size && level < height {
        width *= 2;
        first /= 2;
        last /= 2;
        count += last - first + 1;
        level += 1;
    }
    let Some(rest) = doublings(width, size) else {
        return None;
    };
    if height - level < rest {
        return None;
    }
    Some(Level {
        first: first >> rest,
        last: last >> rest,
        count: count + rest as u64,
    })
}

// The same. For a page, as in most looks, no other level is asked for.
#[inline(always)]
fn level_of_size(p: u64, height: u32, touch: &Touch, size: u64) -> Option<Level>
    requires least { 1 ≤ p }
    requires greatest { p ≤ 1048576 }
    requires height { height ≤ 38 }
    requires ordered { touch.now.first ≤ touch.now.last }
    requires fits { touch.now.last * p ≤ 2 ^ 40 }
    ensures { MatchOption result (NoLevelHas p height size) (λ level. (h : ℕ) × IsLevelOf p touch.now height h size level.first level.last level.count) }
{
    if size != p {
        return level_above(p, height, touch, size);
    }
    Some(Level {
        first: touch.first,
        last: touch.last,
        count: touch.last - touch.first + 1,
    })
}

// Which range of `size` bytes begins at `offset`, or before it. The size is a power of two, so nothing is divided.
#[inline(always)]
fn number_of(size: u64, offset: u64) -> u64
    requires { (i : ℕ) × (size ≡ 2 ^ i) }
    ensures { result ≡ offset / size }
{
    offset >> size.ilog2()
}

/// Where the range stands among the ranges of a row, counted from 0. None exactly where it is none of them.
///
/// The row is that of an update with that touch, in a tree of that height over pages of `p` bytes, and has `count` ranges. The time is
/// that of the levels up to the one at which a single range holds all touched pages: constant for an update of one page, and for a
/// range that is a page.
#[inline(always)]
pub fn index_in_row(p: u64, height: u32, touch: &Touch, count: u64, range: Range) -> Option<u64>
    requires page_size { IsPageSize p }
    requires height { height ≤ 38 }
    requires ordered { touch.now.first ≤ touch.now.last }
    requires fits { touch.now.last * p ≤ 2 ^ 40 }
    requires count { count ≡ length (levels_of p touch.now (height + 1)) }
    ensures { let ranges = levels_of p touch.now (height + 1) in
        MatchOption result (¬ Contains ranges range) (λ i. slice_get ranges i ≡ Some range) }
{
    let Some(level) = level_of_size(p, height, touch, range.size) else {
        return None;
    };
    // mostly it is the first of its level
    if level.first * range.size == range.offset {
        return Some(count - level.count);
    }
    let number = number_of(range.size, range.offset);
    if number * range.size != range.offset || number < level.first || level.last < number {
        return None;
    }
    Some(count - level.count + (number - level.first))
}
