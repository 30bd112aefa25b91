ghost use Rattle.std.specs.Prelude.{◌≡◌, drop};
ghost use Rattle.memory_ports.specs.Streams.{fails_next};

use std::marker::Model;

/// Which calls of an object in memory are to fail. Contracts see what is left of the list.
#[derive(Drop)]
pub struct Plan {
    failing: Vec<bool>,
    calls: usize,
}

impl Model for Plan {
    ghost use Rattle.std.specs.Prelude.{Bool, List, drop};

    ghost Value = { List Bool };

    ghost view = { λ p. drop p.calls p.failing.items };
}

impl Plan {
    /// Call number `i`, from 0, fails where `failing[i]` says so; one past the end of the list doesn't.
    pub fn new(failing: Vec<bool>) -> Plan
        ensures { result ≡ failing.items }
    {
        Plan { failing, calls: 0 }
    }

    /// Counts this call, and says whether it fails.
    pub fn fails_now(&mut self) -> bool
        ensures fails { result ≡ fails_next self.old }
        ensures rest { self.new ≡ drop 1 self.old }
    {
        match self.failing.get(self.calls) {
            None => false,
            Some(fails) => {
                let fails = *fails;
                self.calls += 1;
                fails
            }
        }
    }
}
