// Many ranges of one version.
ghost use Rattle.std.specs.Prelude.{◌≡◌, ◌≤◌, ◌<◌, ◌^◌, ℕ, length, slice_index};

use std::marker::Model;

/// From 1 to 64 ranges of a version: for each the byte at which it begins, and how many bytes it has. A contract sees the list of
/// these pairs.
#[derive(Drop)]
pub struct RangeList {
    pairs: Vec<(u64, u64)>,
}

impl Model for RangeList {
    ghost use Rattle.std.specs.Prelude.{◌≤◌, ℕ, List, length};

    ghost Value = { List (ℕ × ℕ) };

    ghost view = { λ r. r.pairs.items };

    ghost invariant = { λ r. (1 ≤ length r.pairs.items) × (length r.pairs.items ≤ 64) };
}

impl RangeList {
    /// The most ranges of a list.
    pub const MOST: usize = 64;

    /// These ranges, in this order. Takes no memory.
    pub fn of(pairs: Vec<(u64, u64)>) -> RangeList
        requires some { 1 ≤ length pairs.items }
        requires few { length pairs.items ≤ 64 }
        ensures { result ≡ pairs.items }
    {
        RangeList { pairs }
    }

    /// The ranges.
    pub fn as_slice(&self) -> &[(u64, u64)]
        ensures is { result.now ≡ self.now }
        ensures some { 1 ≤ length self.now }
        ensures few { length self.now ≤ 64 }
    {
        self.pairs.as_slice()
    }
}
