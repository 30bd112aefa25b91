// Connections are served over a new store.
ghost use Rattle.std.specs.Prelude.{◌≡◌, ◌↔◌, ◌*◌};
ghost use Rattle.faults.specs.Counts.{RoseBy};
ghost use Rattle.blobseer_run.specs.Outside.{NoneFell};
ghost use Rattle.blobseer_run.specs.Store.{IsNewStore};
ghost use Rattle.blobseer_run.specs.Lending.{CameBack, Lends};
ghost use Rattle.blob_server.specs.Peers.{Converses};
ghost use Rattle.blobseer_run.specs.Script.{fixed_of};
ghost use Rattle.blobseer_run.specs.Hosting.{served_line, status_of, ServedByStore, DidServe};
ghost use Rattle.blobseer_run.specs.Writing.{ToldLine};
ghost use Rattle.blobseer_run.specs.Status.{code_of};

use crate::objects::{Objects, Standing};
use crate::status::Status;
use crate::store::new_store;
use crate::writing::tell;
use blob_server::{ServeFault, serve};
use client_session::{Owner, Shared};
use page_fan::BesideDoor;
use page_store::DoorMaker;
use ports::gate::Gate;
use ports::listener::Listener;
use ports::stream::{Sink, Source};
use settings::Settings;
use std::alloc::Global;
use std::mem;
use std::sync::Wait;
use std::thread::Threads;

// Writes how many connections were served.
fn tell_served<K: Sink>(alloc: Global, peers: u64, out: &mut K) -> Status
    ensures told { ToldLine (served_line peers) (K.written out.old) (K.written out.new) (K.write_faults out.old) (K.write_faults out.new) (code_of result) }
    ensures write_faults { RoseBy 0 (K.write_faults out.old) (K.write_faults out.new) }
{
    let Ok(line) = format!(in alloc; "served {peers}\n") else {
        return Status::OutOfMemory;
    };
    tell(line.as_str(), out)
}

// How a server ends that was ended early.
fn status_of(fault: ServeFault) -> Status
    ensures { result ≡ status_of fault }
{
    match fault {
        ServeFault::Listener => Status::ListenerFault,
        ServeFault::NoMemory => Status::OutOfMemory,
    }
}

// Serves the connections of the listener over that store, and writes how many they were. The store is closed before that, and the
// doors are with their maker again.
fn serve_store<
    'a,
    R: Wait + Threads + Sync,
    S: Source,
    K: Sink,
    L: Listener,
    M: DoorMaker,
    G: Gate + Sync,
>(
    rt: &R,
    alloc: Global,
    settings: &Settings,
    shared: Shared,
    owner: Owner,
    objects: &mut Objects<'a, S, K, L, M>,
    gate: &G,
) -> Status
where
    L::Peer: Drop + Send,
    M::Door: BesideDoor + Drop + Send,
    requires store { IsNewStore settings.now settings.now.limits shared owner }
    requires true_doors { M.is_true objects.old.doors.now }
    ensures did { DidServe settings.now.listen settings.now.connections
        (ServedByStore (Converses M.Door.faults L.Peer.given L.Peer.left L.Peer.written L.Peer.ends L.Peer.read_faults L.Peer.write_faults) (fixed_of settings.now))
        (⟦<Objects<'a, S, K, L, M> as Standing>⟧.stands objects.old)
        (⟦<Objects<'a, S, K, L, M> as Standing>⟧.stands objects.new) (code_of result) }
    ensures lent { Lends (settings.now.workers * settings.now.providers) (CameBack M.hands_out M.takes_back objects.old.doors.now objects.new.doors.now) (code_of result) }
    ensures none_fell { NoneFell (⟦<Objects<'a, S, K, L, M> as Standing>⟧.stands objects.old) (⟦<Objects<'a, S, K, L, M> as Standing>⟧.stands objects.new) }
    ensures truth_stays { M.is_true objects.old.doors.now ↔ M.is_true objects.new.doors.now }
    ensures names { ⟦<Objects<'a, S, K, L, M> as Standing>⟧.names objects.new ≡ ⟦<Objects<'a, S, K, L, M> as Standing>⟧.names objects.old }
{
    let mut owner = owner;
    if !objects.net.listen(settings.listen.as_str()) {
        return Status::ListenerFault;
    }
    let served = serve(
        rt,
        alloc,
        &shared,
        &mut owner,
        objects.net,
        objects.doors,
        gate,
        settings.workers,
        settings.connections,
    );
    let Ok(desk) = shared.close(owner) else {
        // All passes came back.
        unreachable!()
    };
    // The process ends, and gives the memory of all pages and nodes back at once.
    mem::forget(desk);
    match served {
        Ok(peers) => tell_served(alloc, peers, objects.out),
        Err(fault) => status_of(fault),
    }
}

/// The command `serve`: serves the connections of the listener over a new store of these settings, and writes how many they were.
pub(crate) fn serve_peers<
    'a,
    R: Wait + Threads + Sync,
    S: Source,
    K: Sink,
    L: Listener,
    M: DoorMaker,
    G: Gate + Sync,
>(
    rt: &R,
    alloc: Global,
    settings: &Settings,
    objects: &mut Objects<'a, S, K, L, M>,
    gate: &G,
) -> Status
where
    L::Peer: Drop + Send,
    M::Door: BesideDoor + Drop + Send,
    requires true_doors { M.is_true objects.old.doors.now }
    ensures did { DidServe settings.now.listen settings.now.connections
        (ServedByStore (Converses M.Door.faults L.Peer.given L.Peer.left L.Peer.written L.Peer.ends L.Peer.read_faults L.Peer.write_faults) (fixed_of settings.now))
        (⟦<Objects<'a, S, K, L, M> as Standing>⟧.stands objects.old)
        (⟦<Objects<'a, S, K, L, M> as Standing>⟧.stands objects.new) (code_of result) }
    ensures lent { Lends (settings.now.workers * settings.now.providers) (CameBack M.hands_out M.takes_back objects.old.doors.now objects.new.doors.now) (code_of result) }
    ensures none_fell { NoneFell (⟦<Objects<'a, S, K, L, M> as Standing>⟧.stands objects.old) (⟦<Objects<'a, S, K, L, M> as Standing>⟧.stands objects.new) }
    ensures truth_stays { M.is_true objects.old.doors.now ↔ M.is_true objects.new.doors.now }
    ensures names { ⟦<Objects<'a, S, K, L, M> as Standing>⟧.names objects.new ≡ ⟦<Objects<'a, S, K, L, M> as Standing>⟧.names objects.old }
{
    let Ok((shared, owner)) = new_store(alloc, settings, settings.limits) else {
        return Status::OutOfMemory;
    };
    serve_store(rt, alloc, settings, shared, owner, objects, gate)
}
