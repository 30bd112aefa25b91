//! What a listener does after an accept that gave no connection. No contract can say what an accept gives, but what is to
//! be done after it follows from the error alone.
ghost use Rattle.std.specs.Prelude.{◌≡◌, ◌↔◌, IsTrue};
ghost use Rattle.ports.specs.Accepting.{IsShort, retry_of};

use std::io::ErrorKind;

/// When the next accept is tried.
#[derive(Clone, Copy, Debug, PartialEq, Eq)]
pub(crate) enum Retry {
    /// Nothing is wrong with the listener.
    AtOnce,
    /// The system lacks something for the moment.
    AfterRest,
    /// The listener failed.
    Never,
}

/// Whether the system's number of an error says that files or buffers are lacking for the moment: of the whole system, of
/// this process, and of the network.
pub(crate) fn is_short(number: Option<i32>) -> bool
    ensures { IsTrue result ↔ IsShort number }
{
    matches!(number, Some(23 | 24 | 105))
}

/// When the next accept is tried, by the kind of an error and by whether its number says that files or buffers are lacking.
///
/// A wait that a signal interrupted, and what befell a connection before it was handed out, are no faults of the listener.
/// Neither is want of memory, of files or of buffers, which passes as connections end.
pub(crate) fn retry_after(kind: ErrorKind, short: bool) -> Retry
    ensures { result ≡ retry_of kind short }
{
    match kind {
        ErrorKind::Interrupted
        | ErrorKind::ConnectionAborted
        | ErrorKind::ConnectionReset
        | ErrorKind::TimedOut
        | ErrorKind::HostUnreachable
        | ErrorKind::NetworkUnreachable
        | ErrorKind::NetworkDown => Retry::AtOnce,
        ErrorKind::OutOfMemory => Retry::AfterRest,
        ErrorKind::Uncategorized if short => Retry::AfterRest,
        _ => Retry::Never,
    }
}
