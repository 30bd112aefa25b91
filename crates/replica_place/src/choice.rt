//! The choice of the least loaded providers.

ghost use Rattle.std.specs.Prelude.{ℕ, ◌≡◌, ◌≢◌, ◌+◌, ◌<◌, ◌≤◌, All, AllPairs, length, take, min, insert};
ghost use Rattle.std.specs.List.{position_or_len};
ghost use Rattle.replica_place.specs.Order.{comes_before, ordered, least, IsProvider, IsLeast};
ghost use Rattle.replica_place.specs.Chosen.{chosen};

use crate::placement::{MOST_REPLICAS, Placement};

/// The `r` least loaded providers, the least first; of two with one load, the lower number comes first.
///
/// It goes over the loads once.
pub fn choose(loads: &[u64], r: u32) -> Placement
    requires some { 1 ≤ r }
    requires room { r ≤ 8 }
    requires enough { r ≤ length loads.now }
    requires limit { length loads.now ≤ 64 }
    ensures count { result.count ≡ r }
    ensures least { IsLeast loads.now r (chosen result) }
    ensures exact { chosen result ≡ least loads.now r }
    ensures distinct { AllPairs ◌≢◌ (chosen result) }
    ensures within { All (IsProvider loads.now) (chosen result) }
{
    let room = r as usize;
    let mut providers = [0; MOST_REPLICAS];
    for before in 0..loads.len() {
        admit(loads, before, &mut providers[..room]);
    }
    Placement {
        count: r,
        providers,
    }
}

// Where `kept` begins with the least of the first `before` providers, as many as it has room for,
// it is made to begin with the least of one provider more.
fn admit(loads: &[u64], before: usize, kept: &mut [u32])
    requires one_more { before < length loads.now }
    requires limit { length loads.now ≤ 64 }
    requires room { 1 ≤ length kept.old }
    requires least { take (min before (length kept.old)) kept.old ≡ take (length kept.old) (ordered loads.now before) }
    ensures least { take (min (before + 1) (length kept.old)) kept.new ≡ take (length kept.old) (ordered loads.now (before + 1)) }
{
    let provider = before as u32 + 1;
    let room = kept.len();
    let position = position_of(loads, provider, &kept[..before.min(room)]);
    if position < room {
        put(kept, position, provider);
    }
}

// The position of the first provider that this one comes before.
fn position_of(loads: &[u64], provider: u32, kept: &[u32]) -> usize
    requires provider { IsProvider loads.now provider }
    requires providers { All (IsProvider loads.now) kept.now }
    ensures { result ≡ position_or_len (comes_before loads.now provider) kept.now }
{
    for (position, other) in kept.iter().enumerate() {
        if comes_before(loads, provider, *other) {
            return position;
        }
    }
    kept.len()
}

fn comes_before(loads: &[u64], provider: u32, other: u32) -> bool
    requires provider { IsProvider loads.now provider }
    requires other { IsProvider loads.now other }
    ensures { result ≡ comes_before loads.now provider other }
{
    let load = loads[provider as usize - 1];
    let other_load = loads[other as usize - 1];
    if load == other_load {
        provider < other
    } else {
        load < other_load
    }
}

// Puts a provider at a position. Those from there on move up by one, and the last one falls out.
fn put(kept: &mut [u32], position: usize, provider: u32)
    requires { position < length kept.old }
    ensures { kept.new ≡ take (length kept.old) (insert kept.old position provider) }
{
    kept[position..].rotate_right(1);
    kept[position] = provider;
}
