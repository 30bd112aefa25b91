// The workers of a load, side by side.
ghost use Rattle.std.specs.Prelude.{◌≡◌, ◌≤◌, ◌<◌, ◌+◌, ◌-◌, ◌*◌, ◌^◌, ◌↔◌, ℕ, min, sum_by, vec_len, IfOk, OnOk, OnErr, Contains};
ghost use denote.Param.Send.{IsSync};
ghost use Rattle.blob_model.specs.Limits.{greatest};
ghost use Rattle.turn_lock.specs.History.{Begins, entries_by};
ghost use Rattle.page_store.specs.Calls.{Traffic, AllCameBack};
ghost use Rattle.client_session.specs.Sessions.{IsOwnerOf};
ghost use Rattle.store_sessions.specs.Lent.{LentDoors};
ghost use Rattle.version_manager.specs.Log.{events};
ghost use Rattle.workload_law.specs.Load.{IsSized};
ghost use Rattle.workload_run.specs.Updates.{told_faults};
ghost use Rattle.workload_run.specs.Stages.{IsOpened, WorksAs};
ghost use Rattle.workload_run.specs.Workers.{IsWorkable, AreWorkable, AreReady, HasRun, HaveRun, AreOfStore, AreBack, AreKept, first_stop, counted_by};

use crate::working::work;
use client_session::{Owner, Session, Shared};
use page_fan::BesideDoor;
use page_store::{Door, DoorMaker};
use ports::gate::Gate;
use request_form::{Fault, NoMemory};
use std::alloc::Global;
use std::marker::Model;
use std::sync::Wait;
use std::thread;
use std::thread::Threads;
use store_sessions::{end_session, open_session};
use workload_law::LoadPlan;
use workload_law::laws::loads_close;

// A worker of a load. Before it works it hasn't been told anything.
#[derive(Drop)]
struct Worker<'a, D: Door, G: Gate> {
    session: Session<'a, D, G>,
    number: u64,
    told: Result<(), Fault>,
}

impl<'a, D: Door, G: Gate> Model for Worker<'a, D, G> {
    ghost use Rattle.workload_run.specs.Workers.{WorkerState};

    ghost Value = { WorkerState D };

    ghost view = { λ w. record { session = w.session; number = w.number; told = w.told } };
}

// A worker does its work, and keeps how it ended.
fn run_worker<R: Threads + Wait + Sync, D: BesideDoor, G: Gate>(
    rt: &R,
    plan: &LoadPlan,
    worker: &mut Worker<'_, D, G>,
)
    requires sync { IsSync R.row }
    requires workable { IsWorkable plan.now worker.old }
    ensures { HasRun D.faults plan.now worker.old worker.new }
{
    worker.told = work(rt, &mut worker.session, plan, worker.number);
}

// All workers, each in a thread of its own where one can be made.
fn run_beside<R: Threads + Wait + Sync, D: BesideDoor + Send, G: Gate + Sync>(
    rt: &R,
    plan: &LoadPlan,
    workers: &mut [Worker<'_, D, G>],
)
    requires { AreWorkable plan.now workers.old }
    ensures { HaveRun D.faults plan.now workers.old workers.new }
{
    let threads = workers.len().max(1);
    thread::for_each_mut(
        rt,
        workers,
        threads,
        &|_, worker: &mut Worker<'_, D, G>|
            requires { IsWorkable plan.now worker.old }
            ensures { HasRun D.faults plan.entry.now worker.old worker.new }
        { run_worker(rt, plan, worker) },
    );
}

// The same of workers that are handed over and come back.
fn run_all<'a, R: Threads + Wait + Sync, D: BesideDoor + Send, G: Gate + Sync>(
    rt: &R,
    plan: &LoadPlan,
    mut workers: Vec<Worker<'a, D, G>>,
) -> Vec<Worker<'a, D, G>>
    requires { AreWorkable plan.now workers.items }
    ensures run { HaveRun D.faults plan.now workers.entry.items result.items }
    ensures count { vec_len result ≡ vec_len workers.entry }
{
    run_beside(rt, plan, workers.as_mut_slice());
    workers
}

// The workers 1, 2, 3 and so on, each with a new session, none of which has done anything. Where no memory is found, what was
// made has gone back.
fn workers_of<'a, M: DoorMaker, G: Gate>(
    alloc: Global,
    shared: &'a Shared,
    owner: &mut Owner,
    maker: &mut M,
    gate: &'a G,
    count: u32,
) -> Result<Vec<Worker<'a, M::Door, G>>, NoMemory>
    requires owner { IsOwnerOf shared.now owner.old }
    requires first_pass { owner.old.made ≡ 1 }
    requires few { count ≤ 16 }
    requires true_doors { M.is_true maker.old }
    ensures ready { IfOk result (λ workers. AreReady M.Door.faults shared.now owner.old.seen workers.items) }
    ensures count { IfOk result (λ workers. vec_len workers ≡ count) }
    ensures given { OnOk result (owner.new ≡ record owner.old { made = owner.old.made + count; out = owner.old.out + count }) }
    ensures none_out { OnErr result (owner.new.out ≡ owner.old.out) }
    ensures owner { IsOwnerOf shared.now owner.new }
    ensures doors { M.faults maker.new < 2 ^ 64 - 1 → M.faults maker.old ≤ M.faults maker.new }
    ensures handed_out { OnOk result (Traffic M.hands_out M.takes_back (count * shared.now.providers) 0 maker.old maker.new) }
    ensures all_back { OnErr result (AllCameBack M.hands_out M.takes_back maker.old maker.new) }
    ensures truth_stays { M.is_true maker.old ↔ M.is_true maker.new }
    ensures plan_stays { (n : ℕ) (door : _) → M.makes maker.old n door ↔ M.makes maker.new n door }
{
    let Ok(mut workers) = Vec::with_capacity(alloc, count as usize) else {
        return Err(NoMemory);
    };
    'makes: for before in 0..count {
        match open_session(alloc, shared, owner, maker, gate) {
            Ok(session) => workers.push_reserved(Worker {
                session,
                number: u64::from(before) + 1,
                told: Ok(()),
            }),
            Err(NoMemory) => {
                end_workers(shared, owner, maker, workers);
                return Err(NoMemory);
            }
        }
    }
    Ok(workers)
}

// Ends the workers' sessions, whose passes and doors go back, and answers the fault of the lowest worker that didn't come to
// its end.
fn end_workers<M: DoorMaker, G: Gate>(
    shared: &Shared,
    owner: &mut Owner,
    maker: &mut M,
    mut workers: Vec<Worker<'_, M::Door, G>>,
) -> Option<Fault>
    requires owner { IsOwnerOf shared.now owner.old }
    requires of_store { AreOfStore shared.now workers.items }
    ensures back { AreBack workers.entry.items owner.new.seen }
    ensures before { (c : ℕ) → Contains owner.old.kept c → entries_by c owner.new.seen ≡ entries_by c owner.old.seen }
    ensures kept_before { (c : ℕ) → Contains owner.old.kept c → Contains owner.new.kept c }
    ensures kept { AreKept workers.entry.items owner.new.kept }
    ensures made { owner.new.made ≡ owner.old.made }
    ensures out { owner.old.out ≡ owner.new.out + vec_len workers.entry }
    ensures seen { Begins owner.old.seen owner.new.seen }
    ensures owner { IsOwnerOf shared.now owner.new }
    ensures stop { result ≡ first_stop workers.entry.items }
    ensures doors { min (M.faults maker.old + sum_by (counted_by M.Door.faults) workers.entry.items) (2 ^ 64 - 1) ≤ M.faults maker.new }
    ensures taken_back { Traffic M.hands_out M.takes_back 0 (vec_len workers.entry * shared.now.providers) maker.old maker.new }
    ensures truth_stays { M.is_true maker.old ↔ M.is_true maker.new }
    ensures plan_stays { (n : ℕ) (door : _) → M.makes maker.old n door ↔ M.makes maker.new n door }
{
    let mut stop = None;
    while let Some(worker) = workers.pop() {
        let Worker { session, told, .. } = worker;
        end_session(shared, owner, maker, session);
        if let Err(fault) = told {
            stop = Some(fault);
        }
    }
    workers.destroy_empty();
    stop
}

/// The workers of a plan do their work side by side, each by a session of its own, once its store is opened. Where no thread can be
/// made they work one after another. It answers the fault of the lowest worker that didn't come to its end, if there is one.
/// All passes and all doors have gone back.
pub(crate) fn work_all<R: Threads + Wait + Sync, M: DoorMaker, G: Gate + Sync>(
    rt: &R,
    alloc: Global,
    shared: &Shared,
    owner: &mut Owner,
    maker: &mut M,
    gate: &G,
    plan: &LoadPlan,
) -> Result<(), Fault>
where
    M::Door: BesideDoor + Drop + Send,
    requires sized { IsSized plan.now }
    requires owner { IsOwnerOf shared.now owner.old }
    requires limits { shared.now.fixed.limits ≡ greatest }
    requires opened { IsOpened plan.now owner.old }
    requires true_doors { M.is_true maker.old }
    ensures works { WorksAs plan.now shared.now.fixed.page_size (events owner.old.seen) result owner.new }
    ensures owner { IsOwnerOf shared.now owner.new }
    ensures doors { M.faults maker.new < 2 ^ 64 - 1 → M.faults maker.old + told_faults result ≤ M.faults maker.new }
    ensures lent { LentDoors M.hands_out M.takes_back (plan.now.workers * shared.now.providers) maker.old maker.new result }
    ensures truth_stays { M.is_true maker.old ↔ M.is_true maker.new }
    ensures plan_stays { (n : ℕ) (door : _) → M.makes maker.old n door ↔ M.makes maker.new n door }
{
    loads_close();
    version_manager::laws::entries_are_events();
    let Ok(workers) = workers_of(alloc, shared, owner, maker, gate, plan.workers) else {
        return Err(Fault::NoMemory);
    };
    let workers = run_all(rt, plan, workers);
    match end_workers(shared, owner, maker, workers) {
        Some(fault) => Err(fault),
        None => Ok(()),
    }
}
