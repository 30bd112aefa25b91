// Pages that the calling thread puts itself, one after another.
ghost use Rattle.std.specs.Prelude.{◌≡◌, ℕ, ◌<◌, ◌≤◌, [], ◌∷◌, length, take, drop, IfOk, OnOk, All};
ghost use Rattle.page_store.specs.House.{IsProvider};
ghost use Rattle.replica_place.specs.Chosen.{chosen};
ghost use Rattle.page_fan.specs.Answer.{IsPageAnswer};
ghost use Rattle.page_fan.specs.Counts.{NoneFell, count_at};
ghost use Rattle.page_fan.specs.Groups.{IsAnswer};
ghost use Rattle.page_fan.specs.Listed.{puts_at};
ghost use Rattle.page_fan.specs.Stands.{counts_of, EachPut};

use crate::cutting::page_bytes;
use crate::joining::add_replica;
use crate::stand::Stand;
use page_store::{Door, Houses, MAX_PAGE, NoMemory, PutAnswer, StoredPage};
use replica_place::Placement;
use std::alloc::Global;
use std::sync::Wait;
use tree_geom::PageSize;

// Puts the page that begins at byte `at` at each provider of its placement, in order. `None` comes where no door took it. Where
// memory is refused, the providers behind are left out.
pub(crate) fn put_page<D: Door, R: Wait>(
    rt: &R,
    alloc: Global,
    stands: &mut [Stand<D>],
    houses: &Houses,
    p: PageSize,
    buffer: &[u8],
    placement: &Placement,
    at: usize,
) -> Result<Option<StoredPage>, NoMemory>
    requires within { at < length buffer.now }
    requires housed { length stands.old ≤ length houses.now }
    requires served { All (IsProvider (length stands.old)) (chosen placement.now) }
    ensures answered { let page = take p (drop at buffer.now) in IfOk result
        (IsPageAnswer houses.now page (chosen placement.now) (counts_of D.faults stands.old) (counts_of D.faults stands.new)) }
    ensures put_once { OnOk result (EachPut D.called (puts_at at (chosen placement.now)) stands.old stands.new) }
    ensures none_fell { NoneFell (counts_of D.faults stands.old) (counts_of D.faults stands.new) }
    ensures truth_stays { All (λ s. D.is_true s.door) stands.old → All (λ s. D.is_true s.door) stands.new }
{
    let bytes = page_bytes(buffer, at, p.bytes() as usize);
    let mut stored: Option<StoredPage> = None;
    let providers = &placement.providers[..placement.count as usize];
    for (i, provider) in providers.iter().enumerate() {
        let behind = placement.count - i as u32 - 1;
        match put_at(rt, stands, houses, *provider, bytes) {
            PutAnswer::Stored(page) => add_replica(alloc, &mut stored, page, behind)?,
            PutAnswer::Failed => {}
            PutAnswer::NoMemory => return Err(NoMemory),
        }
    }
    Ok(stored)
}

// Puts a page's bytes at the provider, by its own door.
fn put_at<D: Door, R: Wait>(
    rt: &R,
    stands: &mut [Stand<D>],
    houses: &Houses,
    provider: u32,
    bytes: &[u8],
) -> PutAnswer
    requires some { 1 ≤ length bytes.now }
    requires small { length bytes.now ≤ MAX_PAGE }
    requires housed { length stands.old ≤ length houses.now }
    requires served { IsProvider (length stands.old) provider }
    ensures answer { let before = count_at (counts_of D.faults stands.old) provider in
        IsAnswer houses.now provider bytes.now before (count_at (counts_of D.faults stands.new) provider) result }
    ensures put_once { (at : ℕ) → EachPut D.called (puts_at at (provider ∷ [])) stands.old stands.new }
    ensures none_fell { NoneFell (counts_of D.faults stands.old) (counts_of D.faults stands.new) }
    ensures truth_stays { All (λ s. D.is_true s.door) stands.old → All (λ s. D.is_true s.door) stands.new }
{
    let stand = &mut stands[provider as usize - 1];
    stand.put(rt, houses, provider, bytes)
}
