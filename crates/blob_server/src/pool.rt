// The workers: one takes the peers of the listener, and all serve them.
ghost use Rattle.std.specs.Prelude.{◌≡◌, ◌<◌, ◌≤◌, List, [], All, true, vec_len, vec_capacity};
ghost use Rattle.crossbeam_queue.specs.Passes.{view, IsSamePass, IsPassOf};
ghost use Rattle.blob_model.specs.declared.call.Event.{Event};
ghost use Rattle.blob_server.specs.Tallies.{tally, all_parts};
ghost use Rattle.blob_server.specs.Serving.{TakesAs, IsBeginningOf, AllBegin, WasServed, Accounts, ServedMany};
ghost use denote.Param.Send.{IsSync};

use crate::new_peer::NewPeer;
use crate::queue::PeerQueue;
use crate::service::{PeerServer, serve_one};
use crate::tally::PeerPass;
use crate::task::{Task, run_beside, take_back};
use client_session::Shared;
use ports::listener::{Accepted, Listener};
use std::alloc::Global;
use std::sync::Wait;
use std::thread;
use std::thread::Threads;

/// How many peers were taken of the listener, and whether it failed then.
#[derive(Clone, Copy, Drop)]
pub(crate) struct TakenPeers {
    pub(crate) peers: u32,
    pub(crate) failed: bool,
}

// Serves a peer, or leaves it to the other workers where there are some.
fn place_peer<R: Threads + Wait + Sync, P: Drop, S: PeerServer<P>>(
    rt: &R,
    alloc: Global,
    queue: &PeerQueue<P>,
    service: &mut S,
    pass: &mut PeerPass<P>,
    peer: P,
    alone: bool,
)
    requires ready { S.is_ready service.old }
    requires pass { IsPassOf queue.now.line pass.old }
    requires parts { 0 < (view pass.old).parts }
    ensures ready { S.is_ready service.new }
    ensures home { S.home service.new ≡ S.home service.old }
    ensures saw { IsBeginningOf (S.saw service.old) (S.saw service.new) }
    ensures pass { IsSamePass pass.old pass.new }
    ensures served { Accounts (WasServed S.home S.saw S.gives (S.home service.old)) (IsBeginningOf (S.saw service.new)) 1 (view pass.old) (view pass.new) }
{
    if alone {
        serve_one(rt, alloc, service, peer);
        return;
    }
    queue.hand_over(rt, alloc, service, pass, peer);
}

// Takes so many peers of the listener, or fewer where it gives no more or fails, and answers how many they were.
fn take_peers<R: Threads + Wait + Sync, Li: Listener, S: PeerServer<NewPeer<Li::Peer>>>(
    rt: &R,
    alloc: Global,
    queue: &PeerQueue<NewPeer<Li::Peer>>,
    service: &mut S,
    pass: &mut PeerPass<NewPeer<Li::Peer>>,
    net: &mut Li,
    connections: u32,
    alone: bool,
) -> TakenPeers
where
    Li::Peer: Drop,
    requires listens { Li.listens net.old ≡ true }
    requires ready { S.is_ready service.old }
    requires pass { IsPassOf queue.now.line pass.old }
    requires parts { 0 < (view pass.old).parts }
    ensures ready { S.is_ready service.new }
    ensures home { S.home service.new ≡ S.home service.old }
    ensures pass { IsSamePass pass.old pass.new }
    ensures took { TakesAs connections result.peers result.failed
        (record { handed = Li.handed net.old; is_done = Li.is_done net.old; faults = Li.faults net.old })
        (record { handed = Li.handed net.new; is_done = Li.is_done net.new; faults = Li.faults net.new }) }
    ensures listens { Li.listens net.new ≡ true }
    ensures here { Li.listens_at net.new ≡ Li.listens_at net.old }
    ensures served { Accounts (WasServed S.home S.saw S.gives (S.home service.old)) (IsBeginningOf (S.saw service.new)) result.peers (view pass.old) (view pass.new) }
{
    for taken in 0..connections {
        match net.accept(rt) {
            Accepted::Peer(peer) => {
                place_peer(rt, alloc, queue, service, pass, NewPeer::new(peer), alone)
            }
            Accepted::Done => {
                return TakenPeers {
                    peers: taken,
                    failed: false,
                };
            }
            Accepted::Failed => {
                return TakenPeers {
                    peers: taken,
                    failed: true,
                };
            }
        }
    }
    TakenPeers {
        peers: connections,
        failed: false,
    }
}

// The first worker: takes the peers, and then serves those that wait still.
fn lead<R: Threads + Wait + Sync, Li: Listener, S: PeerServer<NewPeer<Li::Peer>>>(
    rt: &R,
    alloc: Global,
    queue: &PeerQueue<NewPeer<Li::Peer>>,
    service: &mut S,
    pass: &mut PeerPass<NewPeer<Li::Peer>>,
    net: &mut Li,
    connections: u32,
    alone: bool,
) -> TakenPeers
where
    Li::Peer: Drop,
    requires listens { Li.listens net.old ≡ true }
    requires ready { S.is_ready service.old }
    requires pass { IsPassOf queue.now.line pass.old }
    requires parts { 0 < (view pass.old).parts }
    ensures ready { S.is_ready service.new }
    ensures home { S.home service.new ≡ S.home service.old }
    ensures pass { IsSamePass pass.old pass.new }
    ensures took { TakesAs connections result.peers result.failed
        (record { handed = Li.handed net.old; is_done = Li.is_done net.old; faults = Li.faults net.old })
        (record { handed = Li.handed net.new; is_done = Li.is_done net.new; faults = Li.faults net.new }) }
    ensures listens { Li.listens net.new ≡ true }
    ensures here { Li.listens_at net.new ≡ Li.listens_at net.old }
    ensures served { Accounts (WasServed S.home S.saw S.gives (S.home service.old)) (IsBeginningOf (S.saw service.new)) result.peers (view pass.old) (view pass.new) }
{
    let taken = take_peers(rt, alloc, queue, service, pass, net, connections, alone);
    queue.close(rt);
    queue.work(rt, alloc, service, pass);
    taken
}

// One of the other workers, which is handed over and comes back.
fn work_by<R: Threads + Wait + Sync, P: Drop, S: PeerServer<P>>(
    rt: &R,
    alloc: Global,
    queue: &PeerQueue<P>,
    mut service: S,
    mut pass: PeerPass<P>,
) -> (S, PeerPass<P>)
    requires ready { S.is_ready service }
    requires pass { IsPassOf queue.now.line pass }
    requires parts { 0 < (view pass).parts }
    ensures ready { S.is_ready result.0 }
    ensures home { S.home result.0 ≡ S.home service }
    ensures pass { IsPassOf queue.now.line result.1 }
    ensures served { Accounts (WasServed S.home S.saw S.gives (S.home service)) (IsBeginningOf (S.saw result.0)) 0 (view pass) (view result.1) }
{
    queue.work(rt, alloc, &mut service, &mut pass);
    (service, pass)
}

// The other workers, each in a thread of its own where one can be made.
fn work_beside<R: Threads + Wait + Sync, P: Drop + Send, S: PeerServer<P> + Drop + Send>(
    rt: &R,
    alloc: Global,
    queue: &PeerQueue<P>,
    mut services: Vec<S>,
    mut pass: PeerPass<P>,
    shared: &Shared,
) -> (Vec<S>, PeerPass<P>)
    requires ready { All (λ s. S.is_ready s × (S.home s ≡ shared.now)) services.items }
    requires pass { IsPassOf queue.now.line pass }
    requires parts { (0 < (view pass).parts) × (vec_len services ≤ (view pass).parts) }
    ensures ready { All (λ s. S.is_ready s × (S.home s ≡ shared.now)) result.0.items }
    ensures room { (vec_len result.0 ≡ vec_len services) × (vec_capacity result.0 ≡ vec_capacity services) }
    ensures pass { IsPassOf queue.now.line result.1 }
    ensures served { Accounts (WasServed S.home S.saw S.gives shared.now) (AllBegin S.saw result.0.items) 0 (view pass) (view result.1) }
{
    let Some(service) = services.pop() else {
        return (services, pass);
    };
    if services.is_empty() {
        let (service, pass) = work_by(rt, alloc, queue, service, pass);
        services.push_reserved(service);
        return (services, pass);
    }
    let own = queue.cut(&mut pass);
    let ((mut services, mut pass), (service, own)) = thread::join(
        rt,
        move || -> (Vec<S>, PeerPass<P>)
            requires { IsSync R.row × All (λ s. S.is_ready s × (S.home s ≡ shared.now)) services.items × IsPassOf queue.now.line pass
                × (0 < (view pass).parts) × (vec_len services ≤ (view pass).parts) }
            ensures ready { All (λ s. S.is_ready s × (S.home s ≡ shared.entry.now)) result.0.items }
            ensures room { (vec_len result.0 ≡ vec_len services) × (vec_capacity result.0 ≡ vec_capacity services) }
            ensures pass { IsPassOf queue.entry.now.line result.1 }
            ensures served { Accounts (WasServed S.home S.saw S.gives shared.entry.now) (AllBegin S.saw result.0.items) 0 (view pass) (view result.1) }
        { work_beside(rt, alloc, queue, services, pass, shared) },
        move || -> (S, PeerPass<P>)
            requires { S.is_ready service × IsPassOf queue.now.line own × (0 < (view own).parts) }
            ensures ready { S.is_ready result.0 × (S.home result.0 ≡ S.home service) }
            ensures pass { IsPassOf queue.entry.now.line result.1 }
            ensures served { Accounts (WasServed S.home S.saw S.gives (S.home service)) (IsBeginningOf (S.saw result.0)) 0 (view own) (view result.1) }
        { work_by(rt, alloc, queue, service, own) },
    );
    queue.absorb(&mut pass, own);
    services.push_reserved(service);
    (services, pass)
}

// The first worker, with all that it works with.
#[derive(Drop)]
struct Leader<'d, 'n, Li: Listener, S> {
    alloc: Global,
    queue: &'d PeerQueue<NewPeer<Li::Peer>>,
    service: S,
    pass: PeerPass<NewPeer<Li::Peer>>,
    net: &'n mut Li,
    connections: u32,
    alone: bool,
}

impl<'d, 'n, Li: Listener, S: PeerServer<NewPeer<Li::Peer>> + Drop> Task for Leader<'d, 'n, Li, S>
where
    Li::Peer: Drop,
{
    ghost use Rattle.std.specs.Prelude.{◌≡◌, ◌<◌, true};
    ghost use Rattle.crossbeam_queue.specs.Passes.{view, IsPassOf};
    ghost use Rattle.blob_server.specs.Serving.{TakesAs, IsBeginningOf, WasServed, Accounts};

    type Given = (TakenPeers, S, PeerPass<NewPeer<Li::Peer>>, &'n mut Li);

    ghost can_run = { λ t. (Li.listens t.net.now ≡ true) × S.is_ready t.service × IsPassOf t.queue.now.line t.pass × (0 < (view t.pass).parts) };

    ghost gives = { λ t r. (r.3.ghost_name ≡ t.net.ghost_name) × (Li.listens r.3.now ≡ true) × (Li.listens_at r.3.now ≡ Li.listens_at t.net.now)
        × TakesAs t.connections r.0.peers r.0.failed (record { handed = Li.handed t.net.now; is_done = Li.is_done t.net.now; faults = Li.faults t.net.now })
        (record { handed = Li.handed r.3.now; is_done = Li.is_done r.3.now; faults = Li.faults r.3.now })
        × S.is_ready r.1 × (S.home r.1 ≡ S.home t.service) × IsPassOf t.queue.now.line r.2
        × Accounts (WasServed S.home S.saw S.gives (S.home t.service)) (IsBeginningOf (S.saw r.1)) r.0.peers (view t.pass) (view r.2) };

    fn run<R: Threads + Wait + Sync>(
        self,
        rt: &R,
    ) -> (TakenPeers, S, PeerPass<NewPeer<Li::Peer>>, &'n mut Li) {
        let Leader {
            alloc,
            queue,
            mut service,
            mut pass,
            net,
            connections,
            alone,
        } = self;
        let taken = lead(
            rt,
            alloc,
            queue,
            &mut service,
            &mut pass,
            net,
            connections,
            alone,
        );
        (taken, service, pass, net)
    }
}

/// All workers, the first by its session and each of the others by one of theirs, which come back. As many peers as it answers were
/// taken of the listener, and each was served. The pass has all parts.
pub(crate) fn work_all<
    R: Threads + Wait + Sync,
    Li: Listener,
    S: PeerServer<NewPeer<Li::Peer>> + Drop + Send,
>(
    rt: &R,
    shared: &Shared,
    queue: &PeerQueue<NewPeer<Li::Peer>>,
    pass: PeerPass<NewPeer<Li::Peer>>,
    first: S,
    others: Vec<S>,
    net: &mut Li,
    connections: u32,
) -> (TakenPeers, S, Vec<S>)
where
    Li::Peer: Drop + Send,
    requires listens { Li.listens net.old ≡ true }
    requires first { S.is_ready first × (S.home first ≡ shared.now) }
    requires others { All (λ s. S.is_ready s × (S.home s ≡ shared.now)) others.items }
    requires few { vec_len others < all_parts }
    requires pass { IsPassOf queue.now.line pass × (view pass ≡ tally all_parts 0 []) }
    ensures took { TakesAs connections result.0.peers result.0.failed
        (record { handed = Li.handed net.old; is_done = Li.is_done net.old; faults = Li.faults net.old })
        (record { handed = Li.handed net.new; is_done = Li.is_done net.new; faults = Li.faults net.new }) }
    ensures listens { Li.listens net.new ≡ true }
    ensures here { Li.listens_at net.new ≡ Li.listens_at net.old }
    ensures first { S.is_ready result.1 × (S.home result.1 ≡ shared.now) }
    ensures others { All (λ s. S.is_ready s × (S.home s ≡ shared.now)) result.2.items }
    ensures count { vec_len result.2 ≡ vec_len others }
    ensures served { (history : List Event) → IsBeginningOf (S.saw result.1) history → AllBegin S.saw result.2.items history
        → ServedMany (WasServed S.home S.saw S.gives shared.now history) result.0.peers }
{
    let alloc = queue.alloc();
    let alone = others.is_empty();
    let mut pass = pass;
    let own = queue.cut(&mut pass);
    let leader = Leader {
        alloc,
        queue,
        service: first,
        pass: own,
        net,
        connections,
        alone,
    };
    let ((others, mut pass), (taken, mut first, own, net)) = run_beside(
        rt,
        move || -> (Vec<S>, PeerPass<NewPeer<Li::Peer>>)
            requires { All (λ s. S.is_ready s × (S.home s ≡ shared.now)) others.items × IsPassOf queue.now.line pass × (0 < (view pass).parts) × (vec_len others ≤ (view pass).parts) }
            ensures ready { All (λ s. S.is_ready s × (S.home s ≡ shared.entry.now)) result.0.items }
            ensures count { vec_len result.0 ≡ vec_len others }
            ensures pass { IsPassOf queue.entry.now.line result.1 }
            ensures served { Accounts (WasServed S.home S.saw S.gives shared.entry.now) (AllBegin S.saw result.0.items) 0 (view pass) (view result.1) }
        { work_beside(rt, alloc, queue, others, pass, shared) },
        leader,
    );
    take_back(net);
    queue.absorb(&mut pass, own);
    queue.finish(rt, alloc, &mut first, &mut pass);
    (taken, first, others)
}
