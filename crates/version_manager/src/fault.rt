use blob_model::Refusal;
use thiserror::Error;

/// Why a desk did nothing. It is as before.
#[derive(Clone, Copy, Debug, PartialEq, Eq, Error)]
pub enum DeskFault {
    /// The store refuses the call.
    #[error("the store refuses the call")]
    Refused(Refusal),
    /// Memory was refused.
    #[error("no memory")]
    NoMemory,
}

/// Why a desk handed out no snapshot of a version.
#[derive(Clone, Copy, Debug, PartialEq, Eq, Error)]
pub enum OpenFault {
    /// The store refuses the size of the version.
    #[error("the store refuses the call")]
    Refused(Refusal),
    /// Memory was refused. The version is published, and has `size` bytes.
    #[error("no memory to open a version of {size} bytes")]
    NoMemory { size: u64 },
}
