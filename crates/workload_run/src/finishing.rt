// How a session finishes an update that it holds, and how it stops at one.
ghost use Rattle.std.specs.Prelude.{◌≡◌, ◌≤◌, sum_by};
ghost use denote.Param.Send.{IsSync};
ghost use Rattle.faults.specs.Counts.{RoseBy};
ghost use Rattle.client_session.specs.Sessions.{session_of, Continues};
ghost use Rattle.workload_law.specs.Ends.{ticket_of, still_held};
ghost use Rattle.workload_run.specs.Updates.{awaited_by, told_faults, stop_faults, FinishedFor, CompletedFor, StandsAfter, HungUpFor};
ghost use Rattle.workload_run.specs.Left.{left_by, left_faults};

use crate::waiting::wait_for;
use blob_model::laws::{finished_by_events, old_versions_stay};
use client_session::{Session, Started};
use page_fan::BesideDoor;
use ports::gate::Gate;
use request_form::Fault;
use std::sync::Wait;
use std::thread::Threads;
use workload_law::laws::{calls_end, calls_leave};

/// Why an update wasn't done, and the ticket under which the session holds it, where it does.
pub(crate) struct Stop {
    /// What the call that hindered it told.
    pub(crate) fault: Fault,
    /// The number of the ticket.
    pub(crate) held: Option<u64>,
}

impl Stop {
    /// At an update that was refused with this fault.
    pub(crate) fn at_update(fault: Fault) -> Stop
        ensures { result ≡ record { fault = fault; held = ticket_of fault } }
    {
        let held = match fault {
            Fault::NoMemoryTicket { ticket } => Some(ticket),
            _ => None,
        };
        Stop { fault, held }
    }

    // At the finish of a ticket's update, which was refused with this fault. Where another session had finished the update, the ticket
    // is gone.
    fn at_finish(ticket: u64, fault: Fault) -> Stop
        ensures { result ≡ record { fault = fault; held = still_held ticket fault } }
    {
        let held = match fault {
            Fault::Already { .. } => None,
            _ => Some(ticket),
        };
        Stop { fault, held }
    }
}

// The version for which a finish has to wait, where it is refused for that.
fn awaited(told: &Result<u64, Fault>) -> Option<u64>
    ensures { result ≡ awaited_by told.now }
{
    match told {
        Err(Fault::Pending { version, .. }) => Some(*version),
        _ => None,
    }
}

// Finishes the update of a ticket, again and again while the version before it waits.
fn finish_when_ready<R: Threads + Wait + Sync, D: BesideDoor, G: Gate>(
    rt: &R,
    session: &mut Session<'_, D, G>,
    blob: u64,
    ticket: u64,
) -> Result<u64, Fault>
    requires sync { IsSync R.row }
    ensures told { FinishedFor blob ticket (session_of session.old) result (session_of session.new) }
    ensures faults { RoseBy (told_faults result) (sum_by D.faults session.old.doors) (sum_by D.faults session.new.doors) }
    ensures goes_on { Continues session.old session.new }
{
    calls_end();
    calls_leave();
    finished_by_events();
    old_versions_stay();
    'tries: for _ in rt.forever() {
        let told = session.finish(rt, ticket);
        match awaited(&told) {
            Some(version) => wait_for(rt, session, blob, version),
            None => return told,
        }
    }
    unreachable!()
}

/// Finishes an update that was held back, once the version before it is published.
pub(crate) fn finish_held<R: Threads + Wait + Sync, D: BesideDoor, G: Gate>(
    rt: &R,
    session: &mut Session<'_, D, G>,
    blob: u64,
    started: Started,
) -> Result<(), Stop>
    requires sync { IsSync R.row }
    requires some { 1 ≤ started.version }
    ensures told { CompletedFor blob started.ticket started.version (session_of session.old) result (session_of session.new) }
    ensures faults { RoseBy (stop_faults result) (sum_by D.faults session.old.doors) (sum_by D.faults session.new.doors) }
    ensures goes_on { Continues session.old session.new }
{
    calls_leave();
    wait_for(rt, session, blob, started.version - 1);
    match finish_when_ready(rt, session, blob, started.ticket) {
        Ok(_published) => Ok(()),
        Err(fault) => Err(Stop::at_finish(started.ticket, fault)),
    }
}

// Why an update isn't finished whose finish told that, if it isn't.
fn unfinished(told: Result<u64, Fault>) -> Option<Fault>
    ensures left { result ≡ left_by told }
    ensures faults { left_faults result ≡ told_faults told }
{
    match told {
        Ok(_published) => None,
        Err(Fault::Already { .. }) => None,
        Err(fault) => Some(fault),
    }
}

// Finishes the update at which the session stopped, where it holds that under this ticket. It answers what hindered that, if it was
// hindered again.
fn finish_last<R: Threads + Wait + Sync, D: BesideDoor, G: Gate>(
    rt: &R,
    session: &mut Session<'_, D, G>,
    blob: u64,
    held: Option<u64>,
) -> Option<Fault>
    requires sync { IsSync R.row }
    ensures stands { StandsAfter blob held (session_of session.old) result (session_of session.new) }
    ensures faults { RoseBy (left_faults result) (sum_by D.faults session.old.doors) (sum_by D.faults session.new.doors) }
    ensures goes_on { Continues session.old session.new }
{
    match held {
        Some(ticket) => unfinished(finish_when_ready(rt, session, blob, ticket)),
        None => None,
    }
}

/// Stops at an update that wasn't done: finishes it, where the session holds it under this ticket, and hangs up. It answers what
/// hindered that finish, if it was hindered again.
pub(crate) fn finish_and_hang_up<R: Threads + Wait + Sync, D: BesideDoor, G: Gate>(
    rt: &R,
    session: &mut Session<'_, D, G>,
    blob: u64,
    held: Option<u64>,
) -> Option<Fault>
    requires sync { IsSync R.row }
    ensures hung_up { HungUpFor blob held (session_of session.old) result (session_of session.new) }
    ensures faults { RoseBy (left_faults result) (sum_by D.faults session.old.doors) (sum_by D.faults session.new.doors) }
    ensures goes_on { Continues session.old session.new }
{
    calls_leave();
    let left = finish_last(rt, session, blob, held);
    session.hang_up(rt);
    left
}
