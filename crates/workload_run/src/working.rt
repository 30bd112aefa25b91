// The work of one of a load's workers.
ghost use Rattle.std.specs.Prelude.{◌≡◌, ◌+◌, ◌≤◌, [], sum_by};
ghost use denote.Param.Send.{IsSync};
ghost use Rattle.blob_model.specs.Limits.{greatest};
ghost use Rattle.faults.specs.Counts.{RoseBy};
ghost use Rattle.client_session.specs.Sessions.{session_of, Continues};
ghost use Rattle.workload_law.specs.Load.{IsSized};
ghost use Rattle.workload_run.specs.Updates.{IsReady, told_faults};
ghost use Rattle.workload_run.specs.Work.{IsOperation, Operated, WorkEnds};
ghost use Rattle.workload_run.specs.Callers.{IsFresh};

use crate::updating::update;
use blob_model::Place;
use client_session::Session;
use page_fan::BesideDoor;
use ports::gate::Gate;
use request_form::Fault;
use std::sync::Wait;
use std::thread::Threads;
use workload_law::laws::{calls_leave, loads_close, loads_go_on};
use workload_law::{LoadPlan, cell, record};

/// The blob to which the records are appended.
pub(crate) const LOG: u64 = 1;

/// The blob in which the cells lie.
pub(crate) const GRID: u64 = 2;

// Does an operation: appends its record, and then writes its cell. Where one of these isn't done, the session hangs up.
fn operate<R: Threads + Wait + Sync, D: BesideDoor, G: Gate>(
    rt: &R,
    session: &mut Session<'_, D, G>,
    plan: &LoadPlan,
    worker: u64,
    op: u64,
) -> Result<(), Fault>
    requires sync { IsSync R.row }
    requires operation { IsOperation plan.now worker op }
    requires caller { (session_of session.old).caller ≡ worker + 1 }
    requires limits { (session_of session.old).fixed.limits ≡ greatest }
    requires ready { IsReady (session_of session.old) }
    ensures operated { Operated plan.now worker op result (session_of session.old) (session_of session.new) }
    ensures faults { RoseBy (told_faults result) (sum_by D.faults session.old.doors) (sum_by D.faults session.new.doors) }
    ensures goes_on { Continues session.old session.new }
{
    calls_leave();
    let recorded = record(worker, op);
    match update(rt, session, LOG, Place::Append, &recorded) {
        Ok(()) => {}
        Err(stopped) => return Err(stopped.fault),
    }
    let offset = plan.cell_offset(worker, op);
    let written = cell(plan.seed, worker, op);
    match update(rt, session, GRID, Place::WriteAt(offset), &written) {
        Ok(()) => Ok(()),
        Err(lost) => Err(lost.fault),
    }
}

/// Does all operations of a worker, one after another, by a session that hasn't done anything yet. Where an update isn't done,
/// and that neither as too many updates wait nor as it is held back, the session hangs up and the worker stops.
pub fn work<R: Threads + Wait + Sync, D: BesideDoor, G: Gate>(
    rt: &R,
    session: &mut Session<'_, D, G>,
    plan: &LoadPlan,
    worker: u64,
) -> Result<(), Fault>
    requires sync { IsSync R.row }
    requires sized { IsSized plan.now }
    requires some { 1 ≤ worker }
    requires last { worker ≤ plan.now.workers }
    requires fresh { IsFresh worker (session_of session.old) }
    ensures ends { WorkEnds plan.now worker result (session_of session.old) (session_of session.new) }
    ensures faults { RoseBy (told_faults result) (sum_by D.faults session.old.doors) (sum_by D.faults session.new.doors) }
    ensures goes_on { Continues session.old session.new }
{
    loads_close();
    loads_go_on();
    'ops: for op in 0..plan.ops {
        match operate(rt, session, plan, worker, op as u64) {
            Ok(()) => {}
            Err(fault) => return Err(fault),
        }
    }
    Ok(())
}
