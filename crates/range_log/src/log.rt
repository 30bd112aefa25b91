// The newest version that touches a range.
ghost use Rattle.std.specs.Prelude.{◌≡◌, ℕ, ◌+◌, ◌^◌, ◌≤◌, length};
ghost use Rattle.range_log.specs.Log.{newest_of, IsNewest};

use tree_geom::{PageSize, Range, Touch, meets};

/// The greatest version up to `k` whose touched pages meet the range, or 0 where there is none.
///
/// Version `j` is item `j - 1` of the log. `k` is at most the log's length, and the range ends at 2^40 at the latest. The
/// time is linear in `k`.
#[tactic(auto, unfolding(crate::specs::Log::newest_of), using(crate::proofs::Greatest::newest_is))]
pub fn newest(p: PageSize, log: &[Touch], k: usize, range: Range) -> u64
    requires within { k ≤ length log.now }
    requires fits { range.offset + range.size ≤ 2 ^ 40 }
    ensures is { result ≡ newest_of p log.now k range }
    ensures greatest { IsNewest p log.now k range result }
{
    for below in (0..k).rev() {
        if meets(p, &log[below], range) {
            return below as u64 + 1;
        }
    }
    0
}
