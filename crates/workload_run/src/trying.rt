// An update of a session, which is tried again while too many updates of its blob wait.
ghost use Rattle.std.specs.Prelude.{◌≡◌, ◌≤◌, sum_by};
ghost use denote.Param.Send.{IsSync};
ghost use Rattle.faults.specs.Counts.{RoseBy};
ghost use Rattle.client_session.specs.Results.{updated_reply};
ghost use Rattle.client_session.specs.Sessions.{session_of, Continues};
ghost use Rattle.client_session.specs.Updates.{update_reply, start_reply};
ghost use Rattle.workload_law.specs.Ends.{UpdateEnds};
ghost use Rattle.workload_run.specs.Updates.{is_full as is_full_of, IsOneUpdate, IsReady, UpdateTried, told_faults};
ghost use Rattle.workload_run.specs.Left.{SettledTry};

use crate::waiting::wait_for_room;
use blob_model::Place;
use client_session::{Session, Updated};
use page_fan::BesideDoor;
use ports::gate::Gate;
use request_form::Fault;
use std::sync::Wait;
use std::thread::Threads;
use workload_law::laws::{calls_end, calls_leave};

// Whether too many updates of the blob wait.
fn is_full(told: &Result<Updated, Fault>) -> bool
    ensures { result ≡ is_full_of told.now }
{
    matches!(told, Err(Fault::TooManyOpen { .. }))
}

// Does an update once.
fn update_once<R: Threads + Wait + Sync, D: BesideDoor, G: Gate>(
    rt: &R,
    session: &mut Session<'_, D, G>,
    blob: u64,
    place: Place,
    bytes: &[u8],
) -> Result<Updated, Fault>
    requires sync { IsSync R.row }
    requires bytes { IsOneUpdate bytes.now }
    requires ready { IsReady (session_of session.old) }
    ensures ends { UpdateEnds (session_of session.old) blob place bytes.now (updated_reply place result) (session_of session.new) }
    ensures settled { SettledTry (session_of session.old) blob place bytes.now result (session_of session.new) }
    ensures faults { RoseBy (told_faults result) (sum_by D.faults session.old.doors) (sum_by D.faults session.new.doors) }
    ensures goes_on { Continues session.old session.new }
{
    calls_end();
    match place {
        Place::Append => session.append(rt, blob, bytes),
        Place::WriteAt(offset) => session.write(rt, blob, offset, bytes),
    }
}

/// Does an update, again and again while too many updates of its blob wait.
pub(crate) fn update_when_room<R: Threads + Wait + Sync, D: BesideDoor, G: Gate>(
    rt: &R,
    session: &mut Session<'_, D, G>,
    blob: u64,
    place: Place,
    bytes: &[u8],
) -> Result<Updated, Fault>
    requires sync { IsSync R.row }
    requires bytes { IsOneUpdate bytes.now }
    requires ready { IsReady (session_of session.old) }
    ensures told { UpdateTried (session_of session.old) blob place bytes.now result (session_of session.new) }
    ensures faults { RoseBy (told_faults result) (sum_by D.faults session.old.doors) (sum_by D.faults session.new.doors) }
    ensures goes_on { Continues session.old session.new }
{
    calls_leave();
    'tries: for _ in rt.forever() {
        let told = update_once(rt, session, blob, place, bytes);
        if !is_full(&told) {
            return told;
        }
        wait_for_room(rt, session, blob);
    }
    unreachable!()
}
