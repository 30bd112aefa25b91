// What the workers know of the queue together. Nothing of it is there at run time.
use crossbeam_queue::Pass;
use crossbeam_queue::protocol::{Join, Lesson, Outcome, Protocol, Split};
use std::collections::LinkedList;

/// What a pass of the queue knows. No value of it is made.
pub(crate) struct Tally<P> {
    /// Its parts of the right to know the whole.
    pub parts: u64,
    /// How many peers it put.
    pub put: u64,
    /// Which peers it took.
    pub taken: LinkedList<P>,
}

/// A pass of the queue. It has no bytes.
pub(crate) type PeerPass<P> = Pass<P, Tally<P>>;

/// As many peers were put as were taken and wait still.
pub(crate) struct Balance;

impl<P> Protocol<P, Tally<P>> for Balance {
    ghost use Rattle.std.specs.Prelude.{[]};
    ghost use Rattle.blob_server.specs.Tallies.{Balanced, tally, all_parts};

    ghost holds = { Balanced };

    ghost first = { tally all_parts 0 [] };
}

/// One part is cut off, and has neither put nor taken a peer.
pub(crate) struct Cut;

impl<P> Split<Tally<P>> for Cut {
    ghost use Rattle.std.specs.Prelude.{[], ◌-◌};
    ghost use Rattle.blob_server.specs.Tallies.{tally};

    ghost left = { λ v. tally (v.parts - 1) v.put v.taken };

    ghost right = { λ v. tally 1 0 [] };
}

/// What two passes know.
pub(crate) struct Both;

impl<P> Join<Tally<P>> for Both {
    ghost use Rattle.std.specs.Prelude.{[]};
    ghost use Rattle.blob_server.specs.Tallies.{tally, both};

    ghost both = { both };

    ghost spent = { tally 0 0 [] };
}

/// One more peer was put.
pub(crate) struct Puts;

impl<P> Outcome<P, Tally<P>> for Puts {
    ghost use Rattle.std.specs.Prelude.{◌≡◌};
    ghost use Rattle.blob_server.specs.Tallies.{after_put};

    ghost then = { λ v x w. w ≡ after_put v };
}

impl<P> Lesson<P, Tally<P>> for Puts {
    ghost use Rattle.std.specs.Prelude.{⊤};

    ghost fact = { λ v items. ⊤ };
}

/// One more peer was taken. Where none waits, the pass with all parts has taken as many as were put.
pub(crate) struct Takes;

impl<P> Outcome<P, Tally<P>> for Takes {
    ghost use Rattle.std.specs.Prelude.{◌≡◌};
    ghost use Rattle.blob_server.specs.Tallies.{after_take};

    ghost then = { λ v x w. w ≡ after_take v x };
}

impl<P> Lesson<P, Tally<P>> for Takes {
    ghost use Rattle.blob_server.specs.Tallies.{HasTaken};

    ghost fact = { HasTaken };
}
