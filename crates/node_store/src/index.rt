// Where a node stands in a row, by the height and the number of its range.
ghost use Rattle.std.specs.Prelude.{◌≡◌, ℕ, ◌+◌, ◌*◌, ◌^◌, ◌<◌, ◌≤◌, length, IfSome, MatchOption, Some, slice_get};
ghost use Rattle.std.specs.List.{Contains};
ghost use Rattle.tree_geom.specs.Geometry.{tree_range};
ghost use Rattle.range_log.specs.Rows.{levels_of};
ghost use Rattle.range_log.specs.Positions.{IsLevelOf};

use tree_geom::Touch;

// The ranges of one height in a row: the numbers of the first and the last, and how many ranges of the row are of that height or
// a lower one.
#[derive(Clone, Copy)]
struct Level {
    first: u64,
    last: u64,
    count: u64,
}

// The ranges of that height in the row of an update with that touch, whatever the size of a page. Once the touched pages lie in one
// range, each level above has one range more, so these levels are counted and not walked.
#[inline(always)]
fn level_at(touch: &Touch, height: u32) -> Level
    requires height { height ≤ 38 }
    requires ordered { touch.now.first ≤ touch.now.last }
    requires fits { touch.now.last ≤ 2 ^ 40 }
    ensures { (p : ℕ) → IsLevelOf p touch.now height height (p * 2 ^ height) result.first result.last result.count }
{
    let mut first = touch.first;
    let mut last = touch.last;
    let mut count = last - first + 1;
    let mut level = 0;
    while first != last && level < height {
        first >>= 1;
        last >>= 1;
        count += last - first + 1;
        level += 1;
    }
    let rest = height - level;
    Level {
        first: first >> rest,
        last: last >> rest,
        count: count + rest as u64,
    }
}

/// Where range number `number` of that height stands among the ranges of a row, counted from 0. None exactly where it is none of
/// them.
///
/// The row is that of an update with that touch, in a tree of height `top`, and has `count` ranges. The time is that of the levels up
/// to the one at which a single range holds all touched pages: constant for an update of one page, and for a page.
#[inline(always)]
pub(crate) fn index_at_height(
    top: u32,
    touch: &Touch,
    count: u64,
    height: u32,
    number: u64,
) -> Option<u64>
    requires top { top ≤ 38 }
    requires ordered { touch.now.first ≤ touch.now.last }
    requires fits { touch.now.last ≤ 2 ^ 40 }
    requires count { (p : ℕ) → count ≡ length (levels_of p touch.now (top + 1)) }
    ensures within { IfSome result (λ i. i < count) }
    ensures place { (p : ℕ) → 1 ≤ p → let ranges = levels_of p touch.now (top + 1) in
        MatchOption result (¬ Contains ranges (tree_range p height number)) (λ i. slice_get ranges i ≡ Some (tree_range p height number)) }
{
    if top < height {
        return None;
    }
    let level = level_at(touch, height);
    if number < level.first || level.last < number {
        return None;
    }
    Some(count - level.count + (number - level.first))
}
