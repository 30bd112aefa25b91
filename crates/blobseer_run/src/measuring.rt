// What the commands have in common that measure the store.
ghost use Rattle.std.specs.Prelude.{◌≡◌};
ghost use Rattle.blobseer_run.specs.Measuring.{status_of};

use crate::status::Status;
use workload_run::EarlyEnd;

/// How a measure ends that was ended early.
pub(crate) fn status_of(end: EarlyEnd) -> Status
    ensures { result ≡ status_of end }
{
    match end {
        EarlyEnd::Refused(_) => Status::LoadEndedEarly,
        EarlyEnd::NoMemory => Status::OutOfMemory,
    }
}
