// A load, from a new store to its summary.
ghost use Rattle.std.specs.Prelude.{◌≡◌, ◌≤◌, ◌<◌, ◌+◌, ◌-◌, ◌*◌, ◌^◌, ◌↔◌, [], ℕ, IfOk, IfErr};
ghost use denote.Param.Send.{IsSync};
ghost use Rattle.blob_model.specs.Limits.{greatest};
ghost use Rattle.client_session.specs.Sessions.{IsOwnerOf};
ghost use Rattle.store_sessions.specs.Lent.{LentDoors};
ghost use Rattle.version_manager.specs.Log.{IsHistory, fixed_of};
ghost use Rattle.workload_law.specs.Load.{IsSized, IsLoad, IsLoadPage};
ghost use Rattle.workload_law.specs.Summed.{summary_of};
ghost use Rattle.workload_run.specs.Updates.{told_faults};
ghost use Rattle.workload_run.specs.Stages.{ClosesAs, AreFinishedByOwn};
ghost use Rattle.workload_run.specs.Ending.{EndsEarly};

use crate::crew::work_all;
pub use crate::ending::EarlyEnd as LoadFault;
use crate::ending::early_end;
use crate::looking::look_back;
use crate::starting::open_store;
use client_session::{Owner, Shared};
use page_fan::BesideDoor;
use page_store::DoorMaker;
use ports::gate::Gate;
use request_form::Fault;
use std::alloc::Global;
use std::sync::Wait;
use std::thread::Threads;
use version_manager::Desk;
use workload_law::laws::{loads_close, loads_read_back};
use workload_law::{LoadPlan, Summary};

// Opens the store, does all workers' work, and looks back at it.
fn run_load<R: Threads + Wait + Sync, M: DoorMaker, G: Gate + Sync>(
    rt: &R,
    alloc: Global,
    shared: &Shared,
    owner: &mut Owner,
    doors: &mut M,
    gate: &G,
    plan: &LoadPlan,
) -> Result<Summary, Fault>
where
    M::Door: BesideDoor + Drop + Send,
    requires sized { IsSized plan.now }
    requires owner { IsOwnerOf shared.now owner.old }
    requires limits { shared.now.fixed.limits ≡ greatest }
    requires no_pass { owner.old.made ≡ 0 }
    requires none_out { owner.old.out ≡ 0 }
    requires new { owner.old.seen ≡ [] }
    requires true_doors { M.is_true doors.old }
    ensures closes { ClosesAs plan.now shared.now.fixed.page_size result owner.new }
    ensures none_out { owner.new.out ≡ 0 }
    ensures owner { IsOwnerOf shared.now owner.new }
    ensures doors { M.faults doors.new < 2 ^ 64 - 1 → M.faults doors.old + told_faults result ≤ M.faults doors.new }
    ensures lent { LentDoors M.hands_out M.takes_back ((plan.now.workers + 2) * shared.now.providers) doors.old doors.new result }
    ensures truth_stays { M.is_true doors.old ↔ M.is_true doors.new }
    ensures plan_stays { (n : ℕ) (door : _) → M.makes doors.old n door ↔ M.makes doors.new n door }
{
    loads_close();
    loads_read_back();
    version_manager::laws::entries_are_events();
    match open_store(rt, alloc, shared, owner, doors, gate, plan) {
        Ok(()) => {}
        Err(unopened) => return Err(unopened),
    }
    match work_all(rt, alloc, shared, owner, doors, gate, plan) {
        Ok(()) => {}
        Err(stopped) => return Err(stopped),
    }
    match look_back(rt, alloc, shared, owner, doors, gate, plan) {
        Ok(summary) => Ok(summary),
        Err(unseen) => Err(unseen),
    }
}

/// Runs a load on a new store with the greatest limits: its first session makes two blobs, the log and the grid, and fills the
/// grid with zeros. Then the plan's workers, each in a thread of its own where one can be made and by a session of its own,
/// append their records to the log and write their cells into the grid; an update that is refused as too many of its blob
/// wait is done again once the least of them is published, and one that is held back is finished once the version before it is
/// published. A worker that is refused otherwise, or that finds no memory, or whose finish of such an update lost a page, finishes
/// what it holds, hangs its session up and stops, and the others go on to their ends. One more session reads what both blobs came
/// to.
///
/// It answers that summary, which is the plan's at every schedule, and the desk of the closed store, whose history is a load's.
/// Where the opening, a worker or the last session didn't come to its end it answers why, of the lowest such worker: a page was
/// lost, and then the count of `doors` rose, or no memory was found. The page begins within the bytes to which the log and the grid
/// come; pages are numbered from 0. When it answers, all passes and all doors have gone back. The gate is called between the acts of
/// updates.
pub fn load<R: Threads + Wait + Sync, M: DoorMaker, G: Gate + Sync>(
    rt: &R,
    alloc: Global,
    shared: Shared,
    owner: Owner,
    doors: &mut M,
    gate: &G,
    plan: LoadPlan,
) -> Result<(Summary, Desk), LoadFault>
where
    M::Door: BesideDoor + Drop + Send,
    requires sized { IsSized plan }
    requires owner { IsOwnerOf shared owner }
    requires limits { shared.fixed.limits ≡ greatest }
    requires no_pass { owner.made ≡ 0 }
    requires none_out { owner.out ≡ 0 }
    requires new { owner.seen ≡ [] }
    requires true_doors { M.is_true doors.old }

    // What the load came to, and what its store holds then.
    ensures summary { IfOk result (λ r. r.0 ≡ summary_of plan) }
    ensures history { IfOk result (λ r. IsHistory shared.fixed.page_size greatest r.1.history) }
    ensures loaded { IfOk result (λ r. IsLoad plan r.1.history) }
    ensures finishes { IfOk result (λ r. AreFinishedByOwn plan r.1.history) }
    ensures fixed { IfOk result (λ r. fixed_of r.1 ≡ shared.fixed) }

    // Why it ended early: a page that was lost begins within the bytes to which the log and the grid come.
    ensures early { IfErr result (λ fault. EndsEarly (IsLoadPage plan shared.fixed.page_size) fault (M.faults doors.old) (M.faults doors.new)) }

    // The first session, each worker and the last session had a door to each provider, and all doors came back. What they counted
    // went to the maker, which makes the doors that it made before.
    ensures lent { LentDoors M.hands_out M.takes_back ((plan.workers + 2) * shared.providers) doors.old doors.new result }
    ensures doors { M.faults doors.new < 2 ^ 64 - 1 → M.faults doors.old ≤ M.faults doors.new }
    ensures truth_stays { M.is_true doors.old ↔ M.is_true doors.new }
    ensures plan_stays { (n : ℕ) (door : _) → M.makes doors.old n door ↔ M.makes doors.new n door }
{
    let mut owner = owner;
    let told = run_load(rt, alloc, &shared, &mut owner, doors, gate, &plan);
    let Ok(desk) = shared.close(owner) else {
        // All passes came back.
        unreachable!()
    };
    // The desk's history is legal.
    desk.stands();
    match told {
        Ok(summary) => Ok((summary, desk)),
        Err(fault) => Err(early_end(fault)),
    }
}
