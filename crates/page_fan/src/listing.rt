// The puts of an update, in the order of its pages and of their placements.
ghost use Rattle.std.specs.Prelude.{◌≡◌, ℕ, ◌*◌, ◌<◌, ◌≤◌, List, All, IfOk, OnOk, length, take, ◌++◌};
ghost use Rattle.page_store.specs.House.{IsProvider};
ghost use Rattle.replica_place.specs.Chosen.{chosen};
ghost use Rattle.page_fan.specs.Groups.{CanBePut};
ghost use Rattle.page_fan.specs.Listed.{HasPages, puts_at, puts_from};

use crate::stand::Put;
use page_store::NoMemory;
use provider_manager::Placements;
use replica_place::Placement;
use std::alloc::Global;
use tree_geom::PageSize;

// A put of each page at each provider of its placement.
pub(crate) fn list_puts(
    alloc: Global,
    p: PageSize,
    buffer: &[u8],
    placements: &Placements,
) -> Result<Vec<Put>, NoMemory>
    requires enough { length buffer.now ≤ length placements.now * p }
    ensures listed { (pages : ℕ) → HasPages p (length buffer.now) pages
        → IfOk result (λ puts. puts.items ≡ puts_from p 0 (take pages placements.now)) }
    ensures can_be_put { (providers : ℕ) → All (All (IsProvider providers)) placements.now
        → IfOk result (λ puts. All (CanBePut providers buffer.now) puts.items) }
{
    let page_size = p.bytes() as usize;
    let mut puts = Vec::with_capacity(alloc, placements.count() as usize)?;
    let mut at = 0;
    let mut i = 0;
    while at < buffer.len() {
        list_page(&mut puts, placements.of(i), at)?;
        at += page_size;
        i += 1;
    }
    Ok(puts)
}

// Adds the puts of the page that begins at byte `at`.
fn list_page(puts: &mut Vec<Put>, placement: &Placement, at: usize) -> Result<(), NoMemory>
    ensures listed { OnOk result (puts.new.items ≡ puts.old.items ++ puts_at at (chosen placement.now)) }
    ensures can_be_put { (providers : ℕ) (buffer : List ℕ) → at < length buffer → All (IsProvider providers) (chosen placement.now)
        → All (CanBePut providers buffer) puts.old.items → All (CanBePut providers buffer) puts.new.items }
{
    for provider in placement.chosen() {
        let put = Put {
            provider: *provider,
            at,
        };
        if puts.push(put).is_err() {
            return Err(NoMemory);
        }
    }
    Ok(())
}
