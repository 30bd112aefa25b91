// The objects of the outside that a command works with.
ghost use Rattle.std.specs.Prelude.{◌≡◌};

use page_store::DoorMaker;
use ports::listener::Listener;
use ports::stream::{Sink, Source};

/// The objects of the outside that a command works with.
#[derive(Drop)]
pub(crate) struct Objects<'a, S, K, L, M> {
    /// What comes in.
    pub(crate) script: &'a mut S,
    /// What goes out.
    pub(crate) out: &'a mut K,
    /// Where connections come from.
    pub(crate) net: &'a mut L,
    /// What makes the doors to the providers.
    pub(crate) doors: &'a mut M,
}

impl<'a, S, K, L, M> Objects<'a, S, K, L, M> {
    /// These objects, lent to a command.
    pub(crate) fn new(
        script: &'a mut S,
        out: &'a mut K,
        net: &'a mut L,
        doors: &'a mut M,
    ) -> Objects<'a, S, K, L, M>
        ensures { result ≡ record { script = script.entry; out = out.entry; net = net.entry; doors = doors.entry } }
    {
        Objects {
            script,
            out,
            net,
            doors,
        }
    }
}

/// Where objects stand, as every command's contract names it. It has no calls.
pub(crate) trait Standing {
    ghost use Rattle.std.specs.Prelude.{List};
    ghost use base.Fml.{GName};
    ghost use Rattle.blobseer_run.specs.Outside.{Outside};

    /// What can be seen of them.
    ghost stands: { Self → Outside };

    /// The references that they are. As no command changes them, who lent them learns what became of them.
    ghost names: { Self → List GName };
}

impl<'a, S: Source, K: Sink, L: Listener, M: DoorMaker> Standing for Objects<'a, S, K, L, M> {
    ghost use Rattle.std.specs.Prelude.{[], ◌∷◌};

    ghost stands = { λ o. record {
      given = S.given o.script.now;
      left = S.left o.script.now;
      reads = S.read_faults o.script.now;
      ends = S.ends o.script.now;
      written = K.written o.out.now;
      writes = K.write_faults o.out.now;
      net = record {
        listens = L.listens o.net.now;
        address = L.listens_at o.net.now;
        handing = record { handed = L.handed o.net.now; is_done = L.is_done o.net.now; faults = L.faults o.net.now };
      };
      doors = M.faults o.doors.now;
    } };

    ghost names = { λ o. o.script.ghost_name ∷ o.out.ghost_name ∷ o.net.ghost_name ∷ o.doors.ghost_name ∷ [] };
}
