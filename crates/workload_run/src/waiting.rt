// How a session waits for other updates of a blob.
ghost use Rattle.std.specs.Prelude.{◌≡◌, ◌≤◌, sum_by};
ghost use Rattle.faults.specs.Counts.{RoseBy};
ghost use Rattle.client_session.specs.Sessions.{session_of, Continues};
ghost use Rattle.workload_run.specs.Updates.{HasWaited};

use blob_model::Outcome;
use client_session::Session;
use page_store::Door;
use ports::gate::Gate;
use std::sync::Wait;
use workload_law::laws::calls_leave;

/// Waits until a numbered version of the blob is published.
pub(crate) fn wait_for<R: Wait, D: Door, G: Gate>(
    rt: &R,
    session: &mut Session<'_, D, G>,
    blob: u64,
    version: u64,
)
    ensures waited { HasWaited (session_of session.old) (session_of session.new) }
    ensures faults { RoseBy 0 (sum_by D.faults session.old.doors) (sum_by D.faults session.new.doors) }
    ensures goes_on { Continues session.old session.new }
{
    calls_leave();
    let _published = session.sync_wait(rt, blob, version);
}

/// Waits for the least update of the blob that isn't finished, where there is one. Where the look is refused so is the update that
/// comes next.
pub(crate) fn wait_for_room<R: Wait, D: Door, G: Gate>(
    rt: &R,
    session: &mut Session<'_, D, G>,
    blob: u64,
)
    ensures waited { HasWaited (session_of session.old) (session_of session.new) }
    ensures faults { RoseBy 0 (sum_by D.faults session.old.doors) (sum_by D.faults session.new.doors) }
    ensures goes_on { Continues session.old session.new }
{
    calls_leave();
    if let Outcome::Status { held, .. } = session.status(rt, blob) {
        if held != 0 {
            wait_for(rt, session, blob, held);
        }
    }
}
