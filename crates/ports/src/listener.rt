use crate::stream::{Sink, Source};
use std::sync::Wait;

/// The answer of an accept.
#[derive(Drop)]
pub enum Accepted<P> {
    /// The next peer.
    Peer(P),
    /// The listener gives no more peers.
    Done,
    /// The outside failed. No peer was handed out.
    Failed,
}

/// Where peers come from. Each is a stream that is read and written.
///
/// Its count of faults never falls, and stands still at the greatest u64, where every clause reads it as
/// having risen.
pub trait Listener {
    ghost use Rattle.std.specs.Prelude.{◌≡◌, ℕ, Bool, List, Option, true};
    ghost use Rattle.faults.specs.Counts.{RoseBy, count_after};
    ghost use Rattle.ports.specs.Listener.{refusals, accept_faults, peers_in, done_after, OnListening, OnAddress, OnPeer, IsFresh};

    /// What it hands out.
    type Peer: Source + Sink;

    /// The count of faults.
    ghost faults: { Self → ℕ };

    /// Whether it listens.
    ghost listens: { Self → Bool };

    /// The address that it listens at, where that is known.
    ghost listens_at: { Self → Option (List ℕ) };

    /// How many peers it has handed out, up to the greatest u64.
    ghost handed: { Self → ℕ };

    /// Whether it has answered that it gives no more peers.
    ghost is_done: { Self → Bool };

    /// Listens at this address from now on. False where the outside fails; it then listens as it did before.
    fn listen(&mut self, address: &str) -> bool
        ensures faults { RoseBy (refusals result) (Self.faults self.old) (Self.faults self.new) }
        ensures listens { OnListening result (Self.listens self.old) (Self.listens self.new) }
        ensures here { OnAddress result address.now (Self.listens_at self.old) (Self.listens_at self.new) }
        ensures handed { Self.handed self.new ≡ Self.handed self.old }
        ensures done { Self.is_done self.new ≡ Self.is_done self.old };

    /// Waits for the next peer, of which nothing was read yet and to which nothing was written. It listens, and goes on listening.
    fn accept<R: Wait>(&mut self, rt: &R) -> Accepted<Self::Peer>
        requires { Self.listens self.old ≡ true }
        ensures faults { RoseBy (accept_faults result) (Self.faults self.old) (Self.faults self.new) }
        ensures listens { Self.listens self.new ≡ true }
        ensures here { Self.listens_at self.new ≡ Self.listens_at self.old }
        ensures handed { Self.handed self.new ≡ count_after (peers_in result) (Self.handed self.old) }
        ensures done { Self.is_done self.new ≡ done_after result (Self.is_done self.old) }
        ensures fresh { OnPeer result (λ p. IsFresh (Self.Peer.given p) (Self.Peer.written p)) };
}
