// The plan of a load, and what a load comes to.
ghost use Rattle.std.specs.Prelude.{◌≡◌, ◌*◌, ◌≤◌, ◌<◌};

/// How many workers do how many operations each, and the number from which the bytes of the grid begin. A load has at least
/// one worker and at most 16, each with at least one operation and at most 4,096.
#[derive(Clone, Copy, Debug, PartialEq, Eq)]
pub struct LoadPlan {
    /// The number that is added to each byte of a cell.
    pub seed: u64,
    /// The number of workers.
    pub workers: u32,
    /// The number of operations of each worker.
    pub ops: u32,
}

impl LoadPlan {
    ghost use Rattle.workload_law.specs.Load.{all_ops, cell_offset, IsSized};

    /// How many operations the workers do together.
    pub fn all_ops(&self) -> u64
        requires { IsSized self.now }
        ensures { result ≡ all_ops self.now }
    {
        self.workers as u64 * self.ops as u64
    }

    /// The offset of the cell of a worker's operation in the grid, in bytes. Workers count from 1, operations from 0.
    pub fn cell_offset(&self, worker: u64, op: u64) -> u64
        requires sized { IsSized self.now }
        requires worker { (1 ≤ worker) × (worker ≤ self.now.workers) }
        requires op { op < self.now.ops }
        ensures { result ≡ cell_offset self.now worker op }
    {
        16 * (op * self.workers as u64 + (worker - 1))
    }
}

/// What a load comes to: what is told of the most recent versions of its two blobs.
#[derive(Clone, Copy, Debug, PartialEq, Eq)]
pub struct Summary {
    /// The log's size, in bytes.
    pub log_size: u64,
    /// The log's last version.
    pub log_versions: u64,
    /// The number of workers whose records stand in the log once each, and in the order of their operations.
    pub in_order: u32,
    /// The grid's size, in bytes.
    pub grid_size: u64,
    /// The grid's last version.
    pub grid_versions: u64,
    /// The sum of the grid's bytes.
    pub grid_sum: u64,
}
