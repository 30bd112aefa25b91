// The plan of a watch, and what a watch comes to.
ghost use Rattle.std.specs.Prelude.{◌≡◌};
ghost use Rattle.workload_law.specs.Watch.{piece_of};

use crate::cell;

/// How many readers read beside the writer, how many updates it appends, and the number from which their bytes begin. A watch has
/// 1 to 16 readers and 1 to 4,096 operations.
#[derive(Clone, Copy, Debug, PartialEq, Eq)]
pub struct WatchPlan {
    /// The number that is added to each byte of an update.
    pub seed: u64,
    /// The number of readers.
    pub readers: u32,
    /// The number of updates, of refreshes, and of reads of each reader.
    pub ops: u32,
}

impl WatchPlan {
    /// The bytes of an update; updates count from 0. Byte `j` is the sum of the seed, the update's number and `j`, modulo 256.
    pub fn piece(&self, op: u64) -> [u8; 16]
        ensures { result ≡ piece_of self.now op }
    {
        cell(self.seed, 0, op)
    }
}

/// What a watch comes to: the blob's last version, and how many readers read the same bytes of it.
#[derive(Clone, Copy, Debug, PartialEq, Eq)]
pub struct WatchSummary {
    /// The size of the last version, in bytes.
    pub size: u64,
    /// The last version.
    pub versions: u64,
    /// The number of readers that read the same bytes of it as the last session.
    pub agree: u32,
}
