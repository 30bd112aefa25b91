use blob_model::Bytes;

/// The answer of a read of a file.
#[derive(Drop)]
pub enum FileText {
    /// The whole file.
    Text(Bytes),
    /// The file has more bytes than were allowed.
    TooLong,
    /// The outside failed, or there is no such file.
    Failed,
    /// There was no memory for the file's bytes.
    NoMemory,
}

/// Files that are read whole, by name.
///
/// Its count of faults never falls, and stands still at the greatest u64, where every clause reads it as
/// having risen. What the files have is known only where the object tells it.
pub trait Files {
    ghost use Rattle.std.specs.Prelude.{◌≡◌, ℕ, List};
    ghost use Rattle.faults.specs.Counts.{RoseBy};
    ghost use Rattle.ports.specs.Files.{Files, file_faults, IsWithinLimit, Reads};

    /// The count of faults.
    ghost faults: { Self → ℕ };

    /// What is known of the file of each name.
    ghost known: { Self → Files };

    /// The whole file of this name, if it has no more than `limit` bytes.
    fn read(&mut self, name: &str, limit: usize) -> FileText
        ensures within { IsWithinLimit limit result }
        ensures reads { Reads (known self.old name.now) limit result }
        ensures faults { RoseBy (file_faults result) (faults self.old) (faults self.new) }
        ensures files { (other : List ℕ) → known self.new other ≡ known self.old other };
}
