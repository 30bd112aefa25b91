// How work of many sessions ends early.
ghost use Rattle.std.specs.Prelude.{◌≡◌};
ghost use Rattle.workload_run.specs.Ending.{ended_by};

use request_form::Fault;

/// Why the work of many sessions ended early.
#[derive(Clone, Copy, Debug, PartialEq, Eq)]
pub enum EarlyEnd {
    /// A call of one of its sessions was refused with this fault.
    Refused(Fault),
    /// No memory was found.
    NoMemory,
}

/// How it ended that was ended by this fault of a call.
pub(crate) fn early_end(fault: Fault) -> EarlyEnd
    ensures { result ≡ ended_by fault }
{
    match fault {
        Fault::NoMemory => EarlyEnd::NoMemory,
        Fault::NoMemoryTicket { .. } => EarlyEnd::NoMemory,
        refused => EarlyEnd::Refused(refused),
    }
}
