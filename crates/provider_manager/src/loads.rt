//! Changes of a list of loads.

ghost use Rattle.std.specs.Prelude.{ℕ, ◌≡◌, ◌+◌, ◌-◌, ◌*◌, ◌<◌, ◌≤◌, ◌^◌, All, Contains, length, map, sum};
ghost use Rattle.replica_place.specs.Order.{IsProvider};
ghost use Rattle.provider_manager.specs.Loads.{with_replicas};

// One replica more at each of these providers.
pub(crate) fn add_replicas(loads: &mut [u64], providers: &[u32])
    requires within { All (IsProvider loads.old) providers.now }
    requires fits { sum loads.old + length providers.now < 2 ^ 64 }
    ensures loads { loads.new ≡ with_replicas loads.old providers.now }
    ensures sum { sum loads.new ≡ sum loads.old + length providers.now }
{
    for provider in providers {
        loads[*provider as usize - 1] += 1;
    }
}

// The least of the loads.
pub(crate) fn least_load(loads: &[u64]) -> u64
    requires { 0 < length loads.now }
    ensures one { Contains loads.now result }
    ensures least { All (λ load. result ≤ load) loads.now }
{
    loads.iter().copied().min().unwrap()
}

// Takes an amount from each load.
pub(crate) fn lower_by(loads: &mut [u64], amount: u64)
    requires { All (λ load. amount ≤ load) loads.old }
    ensures loads { loads.new ≡ map (λ load. load - amount) loads.old }
    ensures sum { sum loads.new + length loads.old * amount ≡ sum loads.old }
{
    for load in loads.iter_mut() {
        *load -= amount;
    }
}
