ghost use Rattle.std.specs.Prelude.{◌≡◌};
ghost use Rattle.faults.specs.Counts.{count_after};

/// One more, up to the greatest count, at which it stands still.
pub fn count_up(count: u64) -> u64
    ensures { result ≡ count_after 1 count }
{
    count.saturating_add(1)
}
