// The first session of a load, by which its store is opened.
ghost use Rattle.std.specs.Prelude.{◌≡◌, ◌≤◌, ◌<◌, ◌+◌, ◌-◌, ◌^◌, ◌↔◌, [], sum_by, ℕ};
ghost use denote.Param.Send.{IsSync};
ghost use Rattle.blob_model.specs.Limits.{greatest};
ghost use Rattle.client_session.specs.Sessions.{IsOwnerOf};
ghost use Rattle.store_sessions.specs.Lent.{LentDoors};
ghost use Rattle.workload_law.specs.Load.{IsSized};
ghost use Rattle.workload_run.specs.Updates.{told_faults};
ghost use Rattle.workload_run.specs.Stages.{OpensAs};

use crate::opening::open_blobs;
use client_session::{Owner, Shared};
use page_fan::BesideDoor;
use page_store::DoorMaker;
use ports::gate::Gate;
use request_form::Fault;
use std::alloc::Global;
use std::sync::Wait;
use std::thread::Threads;
use store_sessions::{end_session, open_session};
use workload_law::LoadPlan;
use workload_law::laws::loads_close;

/// Makes the log, the grid and the grid's zeros in a new store by a session of its own, the store's first, whose pass is back
/// before any other is made. So every later session has seen them.
pub(crate) fn open_store<R: Threads + Wait + Sync, M: DoorMaker, G: Gate>(
    rt: &R,
    alloc: Global,
    shared: &Shared,
    owner: &mut Owner,
    maker: &mut M,
    gate: &G,
    plan: &LoadPlan,
) -> Result<(), Fault>
where
    M::Door: BesideDoor,
    requires sync { IsSync R.row }
    requires sized { IsSized plan.now }
    requires owner { IsOwnerOf shared.now owner.old }
    requires limits { shared.now.fixed.limits ≡ greatest }
    requires no_pass { owner.old.made ≡ 0 }
    requires none_out { owner.old.out ≡ 0 }
    requires new { owner.old.seen ≡ [] }
    requires true_doors { M.is_true maker.old }
    ensures opens { OpensAs plan.now shared.now.fixed.page_size result owner.new }
    ensures owner { IsOwnerOf shared.now owner.new }
    ensures doors { M.faults maker.new < 2 ^ 64 - 1 → M.faults maker.old + told_faults result ≤ M.faults maker.new }
    ensures lent { LentDoors M.hands_out M.takes_back shared.now.providers maker.old maker.new result }
    ensures truth_stays { M.is_true maker.old ↔ M.is_true maker.new }
    ensures plan_stays { (n : ℕ) (door : _) → M.makes maker.old n door ↔ M.makes maker.new n door }
{
    loads_close();
    version_manager::laws::entries_are_events();
    let Ok(zeros) = vec![in alloc; 0u8; 16 * plan.all_ops() as usize] else {
        return Err(Fault::NoMemory);
    };
    let Ok(mut session) = open_session(alloc, shared, owner, maker, gate) else {
        return Err(Fault::NoMemory);
    };
    let opened = open_blobs(rt, &mut session, plan, &zeros);
    end_session(shared, owner, maker, session);
    opened
}
