/// The meanings of a stream: what went through it, and its counts. It has no calls.
///
/// Bytes are known only where the object tells them: memory does, a file, a socket or a terminal
/// doesn't. A count never falls, and stands still at the greatest u64, where every clause reads it as
/// having risen.
pub trait Ends {
    ghost use Rattle.std.specs.Prelude.{ℕ, List, Option};
    ghost use base.Fml.{GName};

    /// The bytes that it gave to reads so far.
    ghost given: { Self → Option (List ℕ) };

    /// The bytes that reads haven't taken yet.
    ghost left: { Self → Option (List ℕ) };

    /// The bytes that writes appended so far.
    ghost written: { Self → Option (List ℕ) };

    /// The count of faults of reads.
    ghost read_faults: { Self → ℕ };

    /// The count of faults of writes.
    ghost write_faults: { Self → ℕ };

    /// How often a read answered that nothing is left.
    ghost ends: { Self → ℕ };

    /// The references that it is made of. As no call changes them, who lent them learns what became of them.
    ghost objects: { Self → List GName };
}

/// What is known of the connection, the reader or the writer under a stream. It has no calls.
pub trait Connection {
    ghost use Rattle.std.specs.Prelude.{ℕ, List, Option};

    /// What it has left to read.
    ghost unread: { Self → Option (List ℕ) };

    /// What it holds of writes.
    ghost held: { Self → Option (List ℕ) };
}

/// The answer of a read.
#[derive(Clone, Copy, Debug, PartialEq, Eq)]
pub enum Taken {
    /// So many bytes, at least one, now stand at the front of the buffer.
    Got(usize),
    /// Nothing is left.
    End,
    /// The outside failed. Nothing was taken.
    Failed,
}

/// The answer of a write.
#[derive(Clone, Copy, Debug, PartialEq, Eq)]
pub enum Written {
    /// All bytes were appended.
    Whole,
    /// The outside failed. So many bytes from the front were appended, and not all.
    Failed(usize),
}

/// A stream of bytes that comes in.
pub trait Source: Ends {
    ghost use Rattle.std.specs.Prelude.{◌≡◌, ◌<◌, length};
    ghost use Rattle.std.specs.Io.KnownBytes.{Appends, Consumes};
    ghost use Rattle.faults.specs.Counts.{RoseBy};
    ghost use Rattle.ports.specs.Stream.{taken_bytes, IsPiece, EndsAtEnd, CountsEnd, read_fault_count};

    /// Takes the next bytes, as many as there are at once, into the front of `buf`, which isn't empty.
    fn read(&mut self, buf: &mut [u8]) -> Taken
        requires { 0 < length buf.old }

        // The bytes that it takes.
        ensures piece { IsPiece buf.old buf.new result }
        ensures given { Appends (Self.given self.old) (Self.given self.new) (taken_bytes buf.new result) }
        ensures left { Consumes (Self.left self.old) (Self.left self.new) (taken_bytes buf.new result) }
        ensures end { EndsAtEnd (Self.left self.new) result }

        // Its counts.
        ensures read_faults { RoseBy (read_fault_count result) (Self.read_faults self.old) (Self.read_faults self.new) }
        ensures ends { CountsEnd result (Self.ends self.old) (Self.ends self.new) }

        // What it leaves as it was.
        ensures written { Self.written self.new ≡ Self.written self.old }
        ensures write_faults { Self.write_faults self.new ≡ Self.write_faults self.old }
        ensures objects { Self.objects self.new ≡ Self.objects self.old };
}

/// A stream of bytes that goes out.
pub trait Sink: Ends {
    ghost use Rattle.std.specs.Prelude.{◌≡◌};
    ghost use Rattle.std.specs.Io.KnownBytes.{Appends};
    ghost use Rattle.faults.specs.Counts.{RoseBy};
    ghost use Rattle.ports.specs.Stream.{appended_bytes, LeavesOut, write_fault_count};

    /// Appends `bytes`, all of them unless the outside fails. No bytes at all are always whole.
    fn write(&mut self, bytes: &[u8]) -> Written
        // The bytes that it appends.
        ensures part { LeavesOut bytes.now result }
        ensures written { Appends (Self.written self.old) (Self.written self.new) (appended_bytes bytes.now result) }

        // Its count.
        ensures write_faults { RoseBy (write_fault_count result) (Self.write_faults self.old) (Self.write_faults self.new) }

        // What it leaves as it was.
        ensures given { Self.given self.new ≡ Self.given self.old }
        ensures left { Self.left self.new ≡ Self.left self.old }
        ensures read_faults { Self.read_faults self.new ≡ Self.read_faults self.old }
        ensures ends { Self.ends self.new ≡ Self.ends self.old }
        ensures objects { Self.objects self.new ≡ Self.objects self.old };
}
