// A version of a blob, as it is put on the board.
use snapshot::Snapshot;

/// A published version of a blob, as it lies on a board. Its snapshot stands for the blob's updates up to the version.
#[derive(Drop)]
pub struct Refresh {
    /// The blob's id.
    pub blob: u64,
    /// The snapshot of the version. Its rows are shared with the store.
    pub snapshot: Snapshot,
}
