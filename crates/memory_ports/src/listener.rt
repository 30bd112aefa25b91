ghost use Rattle.std.specs.Prelude.{◌≡◌, ℕ, ◌↔◌, true, false, IsTrue, OnOk, OnErr, [], ◌∷◌, ◌++◌, drop, string_bytes};
ghost use Rattle.faults.specs.Counts.{RoseBy, count_after};
ghost use Rattle.ports.specs.Listener.{IsFresh};

use crate::plan::Plan;
use faults::{NoMemory, count_up};
use ports::listener::{Accepted, Listener};
use ports::stream::{Sink, Source};
use std::alloc::Global;
use std::collections::VecDeque;
use std::marker::Model;
use std::sync::Wait;

/// A list of peers as a listener that tells all of itself. It hands them out in order, and fails where it
/// is told to. Who makes the peers of streams that they only borrow, as `Pair` does, has these again with
/// what each peer read and wrote, once the peers are gone.
#[derive(Drop)]
pub struct MemListener<P: Source + Sink> {
    address: String,
    peers: VecDeque<P>,
    plan: Plan,
    listens: bool,
    handed: u64,
    done: bool,
    faults: u64,
}

impl<P: Source + Sink> Model for MemListener<P> {
    ghost use Rattle.std.specs.Prelude.{string_bytes, All};
    ghost use Rattle.ports.specs.Listener.{IsFresh};
    ghost use Rattle.memory_ports.specs.Listening.{Waiting};

    ghost Value = { Waiting P };

    ghost view = { λ l. record {
      address = string_bytes l.address;
      listens = l.listens;
      peers = l.peers.items;
      plan = l.plan;
      handed = l.handed;
      done = l.done;
      faults = l.faults;
    } };

    ghost invariant = { λ l. All (λ p. IsFresh (P.given p) (P.written p)) l.peers.items };
}

impl<P: Source + Sink> MemListener<P> {
    /// A listener that can listen at this address alone, and to which nobody comes yet. Accept number `i`,
    /// from 0, fails where `failing[i]` says so; one past the end of that list doesn't.
    pub fn new(alloc: Global, address: String, failing: Vec<bool>) -> MemListener<P>
        ensures { result ≡ record { address = string_bytes address; listens = false; peers = []; plan = failing.items; handed = 0; done = false; faults = 0 } }
    {
        MemListener {
            address,
            peers: VecDeque::new(alloc),
            plan: Plan::new(failing),
            listens: false,
            handed: 0,
            done: false,
            faults: 0,
        }
    }

    /// One more peer comes, after the others. As far as it tells, nothing was read of it yet and nothing was written to it. Where
    /// there is no memory all stays as it was, and the peer is gone.
    pub fn add(&mut self, peer: P) -> Result<(), NoMemory>
    where
        P: Drop,
        requires { IsFresh (P.given peer) (P.written peer) }
        ensures ok { OnOk result (self.new ≡ record self.old { peers = self.old.peers ++ peer ∷ [] }) }
        ensures err { OnErr result (self.new ≡ self.old) }
    {
        match self.peers.push_back(peer) {
            Ok(()) => Ok(()),
            Err(_) => Err(NoMemory),
        }
    }
}

impl<P: Source + Sink> Listener for MemListener<P> {
    ghost use Rattle.memory_ports.specs.Streams.{fails_next};
    ghost use Rattle.ports.specs.Listener.{refusals, accept_faults, peers_in, done_after, OnListening, OnAddress, OnPeer};
    ghost use Rattle.memory_ports.specs.Listening.{listened_at, accept_answer};

    type Peer = P;

    ghost faults = { λ l. l.faults };

    ghost listens = { λ l. l.listens };

    ghost listens_at = { λ l. listened_at l.listens l.address };

    ghost handed = { λ l. l.handed };

    ghost is_done = { λ l. l.done };

    /// Listens, if the address is its own. Each other address is a fault.
    fn listen(&mut self, address: &str) -> bool
        // What each listener ensures.
        ensures faults { RoseBy (refusals result) self.old.faults self.new.faults }
        ensures listens { OnListening result self.old.listens self.new.listens }
        ensures here { OnAddress result address.now (listened_at self.old.listens self.old.address) (listened_at self.new.listens self.new.address) }
        ensures handed { self.new.handed ≡ self.old.handed }
        ensures done { self.new.done ≡ self.old.done }

        // Which answer it is, that only a refusal counts a fault, and what it leaves.
        ensures answer { IsTrue result ↔ (address.now ≡ self.old.address) }
        ensures count { self.new.faults ≡ count_after (refusals result) self.old.faults }
        ensures peers { self.new.peers ≡ self.old.peers }
        ensures plan { self.new.plan ≡ self.old.plan }
        ensures address { self.new.address ≡ self.old.address }
    {
        if self.address.as_str() != address {
            self.faults = count_up(self.faults);
            return false;
        }
        self.listens = true;
        true
    }

    /// Hands out the next peer, unless this call is one that fails or there is none.
    fn accept<R: Wait>(&mut self, _rt: &R) -> Accepted<P>
        requires { self.old.listens ≡ true }

        // What each listener ensures.
        ensures faults { RoseBy (accept_faults result) self.old.faults self.new.faults }
        ensures listens { self.new.listens ≡ true }
        ensures here { listened_at self.new.listens self.new.address ≡ listened_at self.old.listens self.old.address }
        ensures handed { self.new.handed ≡ count_after (peers_in result) self.old.handed }
        ensures done { self.new.done ≡ done_after result self.old.done }
        ensures fresh { OnPeer result (λ p. IsFresh (P.given p) (P.written p)) }

        // Which answer it is, that only a failing call counts a fault, and what it leaves.
        ensures answer { result ≡ accept_answer (fails_next self.old.plan) self.old.peers }
        ensures count { self.new.faults ≡ count_after (accept_faults result) self.old.faults }
        ensures peers { self.new.peers ≡ drop (peers_in result) self.old.peers }
        ensures plan { self.new.plan ≡ drop 1 self.old.plan }
        ensures address { self.new.address ≡ self.old.address }
    {
        if self.plan.fails_now() {
            self.faults = count_up(self.faults);
            return Accepted::Failed;
        }
        match self.peers.pop_front() {
            None => {
                self.done = true;
                Accepted::Done
            }
            Some(peer) => {
                self.handed = count_up(self.handed);
                Accepted::Peer(peer)
            }
        }
    }
}
