// The making of a blob.
ghost use Rattle.std.specs.Prelude.{◌≡◌, [], sum_by};
ghost use Rattle.faults.specs.Counts.{RoseBy};
ghost use Rattle.client_session.specs.Sessions.{session_of, Continues};
ghost use Rattle.workload_run.specs.Updates.{told_faults};
ghost use Rattle.workload_run.specs.Making.{MakingEnds};

use client_session::Session;
use page_store::Door;
use ports::gate::Gate;
use request_form::Fault;
use std::sync::Wait;
use workload_law::laws::calls_end;

/// Makes a blob, whatever its id is. One turn. Where it isn't made nothing is entered.
pub(crate) fn make_blob<R: Wait, D: Door, G: Gate>(
    rt: &R,
    session: &mut Session<'_, D, G>,
) -> Result<(), Fault>
    requires none_held { (session_of session.old).tickets ≡ [] }
    ensures ends { MakingEnds result (session_of session.old) (session_of session.new) }
    ensures faults { RoseBy (told_faults result) (sum_by D.faults session.old.doors) (sum_by D.faults session.new.doors) }
    ensures goes_on { Continues session.old session.new }
{
    calls_end();
    match session.create(rt) {
        Ok(_blob) => Ok(()),
        Err(fault) => Err(fault),
    }
}
