// The beginning of a load: the log, the grid and the grid's zeros.
ghost use Rattle.std.specs.Prelude.{◌≡◌, ◌≤◌, [], ◌∷◌, length, sum_by};
ghost use denote.Param.Send.{IsSync};
ghost use Rattle.faults.specs.Counts.{RoseBy};
ghost use Rattle.client_session.specs.Sessions.{session_of, Continues};
ghost use Rattle.workload_law.specs.Load.{IsSized, zeros_of};
ghost use Rattle.workload_run.specs.Updates.{told_faults};
ghost use Rattle.workload_run.specs.Callers.{IsFresh};
ghost use Rattle.workload_run.specs.Making.{MakingEnds};
ghost use Rattle.workload_run.specs.Opening.{OpeningEnds};

use crate::making::make_blob;
use crate::updating::update;
use crate::working::GRID;
use blob_model::Place;
use client_session::Session;
use page_fan::BesideDoor;
use ports::gate::Gate;
use request_form::Fault;
use std::sync::Wait;
use std::thread::Threads;
use workload_law::LoadPlan;
use workload_law::laws::calls_leave;

/// Makes the log and the grid, and fills the grid with zeros, by the first session of a store. Where one of these isn't done the
/// session hangs up.
pub(crate) fn open_blobs<R: Threads + Wait + Sync, D: BesideDoor, G: Gate>(
    rt: &R,
    session: &mut Session<'_, D, G>,
    plan: &LoadPlan,
    zeros: &[u8],
) -> Result<(), Fault>
    requires sync { IsSync R.row }
    requires sized { IsSized plan.now }
    requires zeros { zeros.now ≡ zeros_of plan.now }
    requires fresh { IsFresh 0 (session_of session.old) }
    ensures ends { OpeningEnds plan.now result (session_of session.old) (session_of session.new) }
    ensures faults { RoseBy (told_faults result) (sum_by D.faults session.old.doors) (sum_by D.faults session.new.doors) }
    ensures goes_on { Continues session.old session.new }
{
    calls_leave();
    match make_blob(rt, session) {
        Ok(()) => {}
        Err(no_log) => return Err(no_log),
    }
    match make_blob(rt, session) {
        Ok(()) => {}
        Err(no_grid) => return Err(no_grid),
    }
    match update(rt, session, GRID, Place::Append, zeros) {
        Ok(()) => Ok(()),
        Err(no_zeros) => Err(no_zeros.fault),
    }
}
