// Where peers wait for a worker.
ghost use Rattle.std.specs.Prelude.{◌≡◌, ◌<◌, ◌-◌, [], length, IfOk, MatchOption};
ghost use Rattle.crossbeam_queue.specs.Passes.{view, IsSamePass, IsPassOf};
ghost use Rattle.blob_server.specs.Tallies.{tally, all_parts, after_put, both};
ghost use Rattle.blob_server.specs.Serving.{IsBeginningOf, WasServed, Accounts};

use crate::bell::Bell;
use crate::service::{PeerServer, serve_one};
use crate::tally::{Balance, Both, Cut, PeerPass, Puts, Takes, Tally};
use crossbeam_queue::RuledArrayQueue;
use request_form::NoMemory;
use std::alloc::Global;
use std::sync::Wait;
use std::sync::atomic::{AtomicU32, Ordering};
use std::thread;
use std::thread::Threads;

// The most peers that wait for a worker.
const PLACES: usize = 64;

// How often a peer for which there is no place is offered again while another worker may still take one that waits. Where no
// thread could be made for a worker, it never does.
const OFFERS: u32 = 100_000;

/// The peers that wait, and the bell that tells of them. It is shared by the workers.
#[derive(Drop)]
pub(crate) struct PeerQueue<P> {
    line: RuledArrayQueue<P, Tally<P>, Balance>,
    bell: Bell,
    // How many workers are to take peers from here, and how many of them serve one now.
    takers: u32,
    serving: AtomicU32,
    alloc: Global,
}

impl<P: Drop> PeerQueue<P> {
    /// No peer waits. So many workers are to take peers from here.
    pub(crate) fn new(alloc: Global, takers: u32) -> Result<(PeerQueue<P>, PeerPass<P>), NoMemory>
        ensures pass { IfOk result (λ r. IsPassOf r.0.line r.1 × (view r.1 ≡ tally all_parts 0 [])) }
    {
        let Ok((line, pass)) = RuledArrayQueue::ruled(alloc, PLACES) else {
            return Err(NoMemory);
        };
        let queue = PeerQueue {
            line,
            bell: Bell::new(),
            takers,
            serving: AtomicU32::new(0),
            alloc,
        };
        Ok((queue, pass))
    }

    /// Where the workers take their memory.
    pub(crate) fn alloc(&self) -> Global {
        self.alloc
    }

    /// A pass with one part of this one's.
    pub(crate) fn cut(&self, pass: &mut PeerPass<P>) -> PeerPass<P>
        requires pass { IsPassOf self.now.line pass.old }
        requires parts { 1 < (view pass.old).parts }
        ensures pass { IsSamePass pass.old pass.new × IsPassOf self.now.line result }
        ensures left { view pass.new ≡ tally ((view pass.old).parts - 1) (view pass.old).put (view pass.old).taken }
        ensures right { view result ≡ tally 1 0 [] }
    {
        self.line.another::<Cut>(pass)
    }

    /// What another pass knows goes to this one.
    pub(crate) fn absorb(&self, pass: &mut PeerPass<P>, other: PeerPass<P>)
        requires pass { IsPassOf self.now.line pass.old × IsPassOf self.now.line other }
        requires parts { 0 < (view pass.old).parts }
        ensures pass { IsSamePass pass.old pass.new }
        ensures both { view pass.new ≡ both (view pass.old) (view other) }
    {
        self.line.absorb::<Both>(pass, other);
    }

    // Puts a peer where it waits, or gives it back where all places are taken. As long as a worker has none to serve, it is
    // given the time to take one that waits, and so to make room.
    fn put<R: Wait>(&self, rt: &R, pass: &mut PeerPass<P>, peer: P) -> Option<P>
        requires pass { IsPassOf self.now.line pass.old }
        requires parts { 0 < (view pass.old).parts }
        ensures pass { IsSamePass pass.old pass.new }
        ensures rule { MatchOption result (view pass.new ≡ after_put (view pass.old)) (λ back. (back ≡ peer) × (view pass.new ≡ view pass.old)) }
    {
        let mut peer = peer;
        for _ in 0..OFFERS {
            let all_serve = self.serving.load(Ordering::SeqCst) >= self.takers;
            match self.line.push_as::<Puts, R>(rt, pass, peer) {
                Ok(()) => return None,
                Err(back) if all_serve => return Some(back),
                Err(back) => peer = back,
            }
            thread::yield_now();
        }
        Some(peer)
    }

    /// Leaves a peer to the others, or serves it where there is no place for it to wait.
    pub(crate) fn hand_over<R: Threads + Wait + Sync, S: PeerServer<P>>(
        &self,
        rt: &R,
        alloc: Global,
        service: &mut S,
        pass: &mut PeerPass<P>,
        peer: P,
    )
        requires ready { S.is_ready service.old }
        requires pass { IsPassOf self.now.line pass.old }
        requires parts { 0 < (view pass.old).parts }
        ensures ready { S.is_ready service.new }
        ensures home { S.home service.new ≡ S.home service.old }
        ensures saw { IsBeginningOf (S.saw service.old) (S.saw service.new) }
        ensures pass { IsSamePass pass.old pass.new }
        ensures served { Accounts (WasServed S.home S.saw S.gives (S.home service.old)) (IsBeginningOf (S.saw service.new)) 1 (view pass.old) (view pass.new) }
    {
        match self.put(rt, pass, peer) {
            None => self.bell.ring(rt),
            Some(peer) => serve_one(rt, alloc, service, peer),
        }
    }

    /// No more peers come.
    pub(crate) fn close<R: Wait>(&self, rt: &R) {
        self.bell.close(rt);
    }

    /// Serves peers that wait, until no more come and none waits. While none waits it sleeps.
    pub(crate) fn work<R: Threads + Wait + Sync, S: PeerServer<P>>(
        &self,
        rt: &R,
        alloc: Global,
        service: &mut S,
        pass: &mut PeerPass<P>,
    )
        requires ready { S.is_ready service.old }
        requires pass { IsPassOf self.now.line pass.old }
        requires parts { 0 < (view pass.old).parts }
        ensures ready { S.is_ready service.new }
        ensures home { S.home service.new ≡ S.home service.old }
        ensures saw { IsBeginningOf (S.saw service.old) (S.saw service.new) }
        ensures pass { IsSamePass pass.old pass.new }
        ensures served { Accounts (WasServed S.home S.saw S.gives (S.home service.old)) (IsBeginningOf (S.saw service.new)) 0 (view pass.old) (view pass.new) }
    {
        for _ in rt.forever() {
            // What was told before the queue is looked at: a peer that comes after the look is told of after it.
            let told = self.bell.told(rt);
            match self.line.pop_as::<Takes, R>(rt, pass) {
                Some(peer) => {
                    self.serving.fetch_add(1, Ordering::SeqCst);
                    serve_one(rt, alloc, service, peer);
                    self.serving.fetch_sub(1, Ordering::SeqCst);
                }
                None if told.closed => return,
                None => self.bell.wait_past(rt, told.times),
            }
        }
    }

    /// Serves what still waits once all other workers have ended, by the pass with all parts.
    pub(crate) fn finish<R: Threads + Wait + Sync, S: PeerServer<P>>(
        &self,
        rt: &R,
        alloc: Global,
        service: &mut S,
        pass: &mut PeerPass<P>,
    )
        requires ready { S.is_ready service.old }
        requires pass { IsPassOf self.now.line pass.old }
        requires parts { (view pass.old).parts ≡ all_parts }
        ensures ready { S.is_ready service.new }
        ensures home { S.home service.new ≡ S.home service.old }
        ensures saw { IsBeginningOf (S.saw service.old) (S.saw service.new) }
        ensures served { Accounts (WasServed S.home S.saw S.gives (S.home service.old)) (IsBeginningOf (S.saw service.new)) 0 (view pass.old) (view pass.new) }
        ensures all { (view pass.new).put ≡ length (view pass.new).taken }
    {
        for _ in rt.forever() {
            match self.line.pop_as::<Takes, R>(rt, pass) {
                Some(peer) => serve_one(rt, alloc, service, peer),
                None => return,
            }
        }
    }
}
