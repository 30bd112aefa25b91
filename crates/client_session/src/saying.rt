// What is said of the results of a session's calls.
ghost use Rattle.std.specs.Prelude.{◌≡◌};
ghost use Rattle.client_session.specs.Results.{create_reply, branch_reply, finish_reply, read_reply, contents_reply, repair_reply, started_reply, updated_reply};

use crate::done::{Done, Started, Updated};
use blob_model::{Bytes, Place};
use request_form::{Fault, Reply};

/// What is said of a new blob.
pub fn said_of_create(created: Result<u64, Fault>) -> Reply
    ensures { result ≡ create_reply created }
{
    match created {
        Ok(blob) => Reply::Created { blob },
        Err(fault) => Reply::Refused(fault),
    }
}

/// What is said of a branch.
pub fn said_of_branch(branched: Result<u64, Fault>) -> Reply
    ensures { result ≡ branch_reply branched }
{
    match branched {
        Ok(blob) => Reply::Branched { blob },
        Err(fault) => Reply::Refused(fault),
    }
}

/// What is said of a finish.
pub fn said_of_finish(finished: Result<u64, Fault>) -> Reply
    ensures { result ≡ finish_reply finished }
{
    match finished {
        Ok(published) => Reply::Finished { published },
        Err(fault) => Reply::Refused(fault),
    }
}

/// What is said of a read.
pub fn said_of_read(read: Result<Bytes, Fault>) -> Reply
    ensures { result ≡ read_reply read }
{
    match read {
        Ok(bytes) => Reply::Content { bytes },
        Err(fault) => Reply::Refused(fault),
    }
}

/// What is said of an update at that place that waits for its finish.
pub fn said_of_start(place: Place, started: Result<Started, Fault>) -> Reply
    ensures { result ≡ started_reply place started }
{
    match started {
        Ok(
            Started {
                ticket,
                version,
                at,
                size,
            },
        ) => match place {
            Place::Append => Reply::AppendStarted {
                ticket,
                version,
                at,
                size,
            },
            Place::WriteAt(_) => Reply::WriteStarted {
                ticket,
                version,
                at,
                size,
            },
        },
        Err(fault) => Reply::Refused(fault),
    }
}

/// What is said of an update at that place that is finished, or held.
pub fn said_of_update(place: Place, updated: Result<Updated, Fault>) -> Reply
    ensures { result ≡ updated_reply place updated }
{
    match updated {
        Ok(Updated::Done(Done { version, at, size })) => match place {
            Place::Append => Reply::Appended { version, at, size },
            Place::WriteAt(_) => Reply::Wrote { version, at, size },
        },
        Ok(Updated::Held(started)) => said_of_start(place, Ok(started)),
        Err(fault) => Reply::Refused(fault),
    }
}

/// What is said of a read of many ranges.
pub fn said_of_contents(read: Result<Bytes, Fault>) -> Reply
    ensures { result ≡ contents_reply read }
{
    match read {
        Ok(bytes) => Reply::Contents { bytes },
        Err(fault) => Reply::Refused(fault),
    }
}

/// What is said of a repair.
pub fn said_of_repair(repaired: Result<u64, Fault>) -> Reply
    ensures { result ≡ repair_reply repaired }
{
    match repaired {
        Ok(published) => Reply::Repaired { published },
        Err(fault) => Reply::Refused(fault),
    }
}
