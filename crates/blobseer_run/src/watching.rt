// A watch is run over a new store.
ghost use Rattle.std.specs.Prelude.{◌≡◌, ◌+◌, ◌*◌, ◌↔◌};
ghost use Rattle.blob_model.specs.Limits.{greatest};
ghost use Rattle.blobseer_run.specs.Outside.{NoneFell};
ghost use Rattle.blobseer_run.specs.Store.{IsNewStore};
ghost use Rattle.blobseer_run.specs.Lending.{CameBack, Lends};
ghost use Rattle.blobseer_run.specs.Watching.{plan_of, DidWatch};
ghost use Rattle.blobseer_run.specs.Status.{code_of};

use crate::measuring::status_of;
use crate::objects::{Objects, Standing};
use crate::status::Status;
use crate::store::new_store;
use crate::writing::tell_lines;
use blob_model::Limits;
use client_session::{Owner, Shared};
use page_fan::BesideDoor;
use page_store::DoorMaker;
use ports::gate::Gate;
use ports::listener::Listener;
use ports::stream::{Sink, Source};
use settings::Settings;
use std::alloc::Global;
use std::mem;
use std::sync::Wait;
use std::thread::Threads;
use workload_law::{WatchPlan, watch_lines};
use workload_run::watch_noted;

// Runs the watch of these settings over that store, and writes what it came to. The store is closed before that, and the doors are
// with their maker again.
fn watch_store<
    'a,
    R: Wait + Threads + Sync,
    S: Source,
    K: Sink,
    L: Listener,
    M: DoorMaker,
    G: Gate + Sync,
>(
    rt: &R,
    alloc: Global,
    settings: &Settings,
    shared: Shared,
    owner: Owner,
    objects: &mut Objects<'a, S, K, L, M>,
    gate: &G,
) -> Status
where
    M::Door: BesideDoor + Drop + Send,
    requires store { IsNewStore settings.now greatest shared owner }
    requires true_doors { M.is_true objects.old.doors.now }
    ensures did { DidWatch settings.now.page (plan_of settings.now) (⟦<Objects<'a, S, K, L, M> as Standing>⟧.stands objects.old)
        (⟦<Objects<'a, S, K, L, M> as Standing>⟧.stands objects.new) (code_of result) }
    ensures lent { Lends ((4 + settings.now.readers) * settings.now.providers) (CameBack M.hands_out M.takes_back objects.old.doors.now objects.new.doors.now) (code_of result) }
    ensures none_fell { NoneFell (⟦<Objects<'a, S, K, L, M> as Standing>⟧.stands objects.old) (⟦<Objects<'a, S, K, L, M> as Standing>⟧.stands objects.new) }
    ensures truth_stays { M.is_true objects.old.doors.now ↔ M.is_true objects.new.doors.now }
    ensures names { ⟦<Objects<'a, S, K, L, M> as Standing>⟧.names objects.new ≡ ⟦<Objects<'a, S, K, L, M> as Standing>⟧.names objects.old }
{
    let plan = WatchPlan {
        seed: settings.seed,
        readers: settings.readers,
        ops: settings.ops,
    };
    match watch_noted(rt, alloc, shared, owner, objects.doors, gate, plan) {
        Ok((summary, desk, _notes)) => {
            // The process ends, and gives the memory of all pages and nodes back at once.
            mem::forget(desk);
            tell_lines(watch_lines(alloc, &plan, &summary), objects.out)
        }
        Err(fault) => status_of(fault),
    }
}

/// The command `watch`: runs the watch of these settings over a new store with the greatest limits, and writes what it came to.
pub(crate) fn run_watch<
    'a,
    R: Wait + Threads + Sync,
    S: Source,
    K: Sink,
    L: Listener,
    M: DoorMaker,
    G: Gate + Sync,
>(
    rt: &R,
    alloc: Global,
    settings: &Settings,
    objects: &mut Objects<'a, S, K, L, M>,
    gate: &G,
) -> Status
where
    M::Door: BesideDoor + Drop + Send,
    requires true_doors { M.is_true objects.old.doors.now }
    ensures did { DidWatch settings.now.page (plan_of settings.now) (⟦<Objects<'a, S, K, L, M> as Standing>⟧.stands objects.old)
        (⟦<Objects<'a, S, K, L, M> as Standing>⟧.stands objects.new) (code_of result) }
    ensures lent { Lends ((4 + settings.now.readers) * settings.now.providers) (CameBack M.hands_out M.takes_back objects.old.doors.now objects.new.doors.now) (code_of result) }
    ensures none_fell { NoneFell (⟦<Objects<'a, S, K, L, M> as Standing>⟧.stands objects.old) (⟦<Objects<'a, S, K, L, M> as Standing>⟧.stands objects.new) }
    ensures truth_stays { M.is_true objects.old.doors.now ↔ M.is_true objects.new.doors.now }
    ensures names { ⟦<Objects<'a, S, K, L, M> as Standing>⟧.names objects.new ≡ ⟦<Objects<'a, S, K, L, M> as Standing>⟧.names objects.old }
{
    let Ok((shared, owner)) = new_store(alloc, settings, Limits::greatest()) else {
        return Status::OutOfMemory;
    };
    watch_store(rt, alloc, settings, shared, owner, objects, gate)
}
