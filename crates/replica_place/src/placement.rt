//! The providers of one stored page.

ghost use Rattle.std.specs.Prelude.{ℕ, ◌≤◌};

/// The greatest number of replicas that a page may have.
pub const MOST_REPLICAS: usize = 8;

/// The providers of one stored page, one for each replica: the first `count` of `providers`, in order.
///
/// What stands in `providers` past `count` has no meaning.
#[derive(Clone, Copy, Debug)]
pub struct Placement {
    pub count: u32,
    pub providers: [u32; MOST_REPLICAS],
    pub ghost placed: { 1 ≤ count },
    pub ghost room: { count ≤ 8 },
}

impl Placement {
    ghost use Rattle.std.specs.Prelude.{◌≡◌};
    ghost use Rattle.replica_place.specs.Chosen.{chosen};

    /// The providers, in order.
    pub fn chosen(&self) -> &[u32]
        ensures { result.now ≡ chosen self.now }
    {
        &self.providers[..self.count as usize]
    }
}
