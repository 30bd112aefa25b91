// The work of a watch's writer.
ghost use Rattle.std.specs.Prelude.{◌≡◌, ◌≤◌, sum_by};
ghost use denote.Param.Send.{IsSync};
ghost use Rattle.faults.specs.Counts.{RoseBy};
ghost use Rattle.client_session.specs.Sessions.{session_of, Continues};
ghost use Rattle.workload_law.specs.Watch.{IsSized};
ghost use Rattle.workload_run.specs.Updates.{told_faults};
ghost use Rattle.workload_run.specs.Callers.{IsFresh};
ghost use Rattle.workload_run.specs.Writing.{WriteEnds};

use crate::updating::update;
use blob_model::Place;
use client_session::Session;
use page_fan::BesideDoor;
use ports::gate::Gate;
use request_form::Fault;
use std::sync::Wait;
use std::thread::Threads;
use workload_law::WatchPlan;
use workload_law::laws::loads_close;

/// The blob that is watched.
pub(crate) const BLOB: u64 = 1;

/// Appends all updates of a watch, one after another, by a session that hasn't done anything yet. Where an update isn't done, and that
/// neither as too many updates wait nor as it is held back, the session hangs up and the writer stops.
pub(crate) fn write_all<R: Threads + Wait + Sync, D: BesideDoor, G: Gate>(
    rt: &R,
    session: &mut Session<'_, D, G>,
    plan: &WatchPlan,
) -> Result<(), Fault>
    requires sync { IsSync R.row }
    requires sized { IsSized plan.now }
    requires fresh { IsFresh 1 (session_of session.old) }
    ensures ends { WriteEnds plan.now result (session_of session.old) (session_of session.new) }
    ensures faults { RoseBy (told_faults result) (sum_by D.faults session.old.doors) (sum_by D.faults session.new.doors) }
    ensures goes_on { Continues session.old session.new }
{
    loads_close();
    'ops: for op in 0..plan.ops {
        let piece = plan.piece(op as u64);
        match update(rt, session, BLOB, Place::Append, &piece) {
            Ok(()) => {}
            Err(stopped) => return Err(stopped.fault),
        }
    }
    Ok(())
}
