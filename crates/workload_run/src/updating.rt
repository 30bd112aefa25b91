// An update of a session, from its first try to its end.
ghost use Rattle.std.specs.Prelude.{◌≡◌, ◌≤◌, sum_by};
ghost use denote.Param.Send.{IsSync};
ghost use Rattle.faults.specs.Counts.{RoseBy};
ghost use Rattle.client_session.specs.Sessions.{session_of, Continues};
ghost use Rattle.workload_run.specs.Updates.{IsOneUpdate, IsReady, UpdateCompleted, UpdateTold, stop_faults};
ghost use Rattle.workload_run.specs.Left.{stopped_faults};

use crate::finishing::{Stop, finish_and_hang_up, finish_held};
use crate::trying::update_when_room;
use blob_model::Place;
use client_session::{Session, Updated};
use page_fan::BesideDoor;
use ports::gate::Gate;
use request_form::Fault;
use std::sync::Wait;
use std::thread::Threads;
use workload_law::laws::calls_end;

/// Why an update wasn't done, and what is left of it.
#[derive(Clone, Copy, Debug, PartialEq, Eq)]
pub struct Stopped {
    /// What hindered the update.
    pub fault: Fault,
    /// What hindered its last finish, where the session held it: no memory was found, or a page was lost. `None` where nothing is left
    /// to be finished: it wasn't numbered, or is finished, by the session or by another.
    pub left: Option<Fault>,
}

// Does an update once there is room for it. Where it is held back it is finished once the version before it is published.
fn complete<R: Threads + Wait + Sync, D: BesideDoor, G: Gate>(
    rt: &R,
    session: &mut Session<'_, D, G>,
    blob: u64,
    place: Place,
    bytes: &[u8],
) -> Result<(), Stop>
    requires sync { IsSync R.row }
    requires bytes { IsOneUpdate bytes.now }
    requires ready { IsReady (session_of session.old) }
    ensures told { UpdateCompleted (session_of session.old) blob place bytes.now result (session_of session.new) }
    ensures faults { RoseBy (stop_faults result) (sum_by D.faults session.old.doors) (sum_by D.faults session.new.doors) }
    ensures goes_on { Continues session.old session.new }
{
    match update_when_room(rt, session, blob, place, bytes) {
        Ok(Updated::Done(_done)) => Ok(()),
        Ok(Updated::Held(started)) => finish_held(rt, session, blob, started),
        Err(fault) => Err(Stop::at_update(fault)),
    }
}

/// Does an update, again and again while too many updates of its blob wait, and finishes it where it is held back. Where it is refused
/// otherwise, or finds no memory, or a page is lost, the session finishes what it holds of it, as soon as the version before that is
/// published, and hangs up. It answers what hindered the update, and what hindered that finish, if it was hindered again.
pub fn update<R: Threads + Wait + Sync, D: BesideDoor, G: Gate>(
    rt: &R,
    session: &mut Session<'_, D, G>,
    blob: u64,
    place: Place,
    bytes: &[u8],
) -> Result<(), Stopped>
    requires sync { IsSync R.row }
    requires bytes { IsOneUpdate bytes.now }
    requires ready { IsReady (session_of session.old) }
    ensures told { UpdateTold (session_of session.old) blob place bytes.now result (session_of session.new) }
    ensures faults { RoseBy (stopped_faults result) (sum_by D.faults session.old.doors) (sum_by D.faults session.new.doors) }
    ensures goes_on { Continues session.old session.new }
{
    calls_end();
    match complete(rt, session, blob, place, bytes) {
        Ok(()) => Ok(()),
        Err(Stop { fault, held }) => {
            let left = finish_and_hang_up(rt, session, blob, held);
            Err(Stopped { fault, left })
        }
    }
}
