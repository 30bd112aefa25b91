// The ranges of a row.
ghost use Rattle.std.specs.Prelude.{◌≡◌, ℕ, ◌+◌, ◌-◌, ◌*◌, ◌^◌, ◌<◌, ◌≤◌, ◌++◌, length, IfOk};
ghost use Rattle.range_log.specs.Log.{size_at};
ghost use Rattle.range_log.specs.Extents.{IsLog};
ghost use Rattle.range_log.specs.Rows.{level_of, row_keys_of};

use faults::NoMemory;
use std::alloc::Global;
use tree_geom::{PageSize, Range, Touch, height};

/// Adds the ranges of `p * 2^height` bytes that the touched pages meet, by offset.
#[tactic(auto, using(crate::proofs::Levels::power_fits, crate::proofs::Levels::size_fits, crate::proofs::Levels::begin_fits))]
fn add_level(p: PageSize, touch: &Touch, height: u32, keys: &mut Vec<Range>) -> Result<(), NoMemory>
    requires height { height ≤ 38 }
    requires ordered { touch.now.first ≤ touch.now.last }
    requires fits { touch.now.last * p ≤ 2 ^ 40 }
    ensures { IfOk result (λ _. keys.new.items ≡ keys.old.items ++ level_of p touch.now height) }
{
    let pages = 2u64.pow(height);
    let size = p.bytes() * pages;
    for q in touch.first / pages..touch.last / pages + 1 {
        keys.push(Range {
            offset: q * size,
            size,
        })?;
    }
    Ok(())
}

/// The ranges of the nodes of version `k`'s row: by size, the largest first, and then by offset.
///
/// These are the aligned ranges within the version's span that its update touches. Version `j` is item `j - 1` of the log,
/// `k` is from 1 to the log's length, and the version's size is at most 2^40. Fails for want of memory alone. The time is
/// linear in the answer and the height.
pub fn row_keys(alloc: Global, p: PageSize, log: &[Touch], k: usize) -> Result<Vec<Range>, NoMemory>
    requires version { (1 ≤ k) × (k ≤ length log.now) }
    requires of_updates { IsLog p log.now }
    requires fits { size_at log.now k ≤ 2 ^ 40 }
    ensures { IfOk result (λ keys. keys.items ≡ row_keys_of p log.now k) }
{
    let touch = &log[k - 1];
    let mut keys = Vec::new(alloc);
    for level in (0..height(p, touch.size) + 1).rev() {
        add_level(p, touch, level, &mut keys)?;
    }
    Ok(keys)
}
