ghost use Rattle.std.specs.Prelude.{◌≡◌, ◌<◌, ◌≤◌, ◌++◌, [], Some, length, take};
ghost use Rattle.std.specs.Io.KnownBytes.{Appends};
ghost use Rattle.faults.specs.Counts.{count_after, RoseBy};
ghost use Rattle.ports.specs.Stream.{appended_bytes, LeavesOut, write_fault_count};

use crate::account::Accounted;
use crate::stream::{Connection, Ends, Sink, Written};
use faults::count_up;
use std::io::{ErrorKind, Write};

/// A std writer as a sink. It tells what was written: the bytes that the writer took, one after another. What the writer holds
/// is known where it tells that.
///
/// A write that a signal interrupted appended nothing and is no fault: it is tried again. Each other
/// error is a fault, which is counted, and so is a write of no byte, and the interruption of u64::MAX
/// writes in a row. Nothing is flushed: a writer with a buffer is flushed by who owns it.
#[derive(Drop)]
pub struct WriterSink<W> {
    writer: Accounted<W>,
    faults: u64,
}

impl<W: Write> WriterSink<W> {
    /// A sink over this writer.
    pub fn new(writer: W) -> WriterSink<W>
        ensures written { ⟦<WriterSink<W> as Ends>⟧.written result ≡ Some [] }
        ensures held { ⟦<WriterSink<W> as Connection>⟧.held result ≡ W.contents writer }
        ensures write_faults { ⟦<WriterSink<W> as Ends>⟧.write_faults result ≡ 0 }
    {
        WriterSink {
            writer: Accounted::new(writer),
            faults: 0,
        }
    }

    /// The writer, with what it holds.
    pub fn into_inner(self) -> W
        ensures { W.contents result ≡ ⟦<WriterSink<W> as Connection>⟧.held self }
    {
        let WriterSink { writer, faults: _ } = self;
        writer.into_stream()
    }
}

// One write, tried again where it was interrupted. No byte is a fault.
fn write_some<W: Write>(writer: &mut Accounted<W>, bytes: &[u8]) -> usize
    ensures within { result ≤ length bytes.now }
    ensures written { writer.new.written ≡ writer.old.written ++ take result bytes.now }
    ensures held { Appends (W.contents writer.old.stream) (W.contents writer.new.stream) (take result bytes.now) }
    ensures given { writer.new.given ≡ writer.old.given }
{
    for _ in 0..u64::MAX {
        match writer.write_once(bytes) {
            Ok(n) => return n,
            Err(e) => {
                if e.kind() != ErrorKind::Interrupted {
                    return 0;
                }
            }
        }
    }
    0
}

// Writes until all bytes are written or the writer fails, and says how many were.
pub(crate) fn write_front<W: Write>(writer: &mut Accounted<W>, bytes: &[u8]) -> usize
    ensures within { result ≤ length bytes.now }
    ensures written { writer.new.written ≡ writer.old.written ++ take result bytes.now }
    ensures held { Appends (W.contents writer.old.stream) (W.contents writer.new.stream) (take result bytes.now) }
    ensures given { writer.new.given ≡ writer.old.given }
{
    let mut done = 0;
    'writes: while done < bytes.len() {
        let n = write_some(writer, &bytes[done..]);
        if n == 0 {
            return done;
        }
        done += n;
    }
    done
}

impl<W: Write> Connection for WriterSink<W> {
    ghost use Rattle.std.specs.Prelude.{None};

    ghost unread = { λ s. None };

    ghost held = { λ s. W.contents s.writer.stream };
}

impl<W: Write> Ends for WriterSink<W> {
    ghost use Rattle.std.specs.Prelude.{None, Some, []};

    ghost given = { λ s. None };

    ghost left = { λ s. None };

    ghost written = { λ s. Some s.writer.written };

    ghost read_faults = { λ s. 0 };

    ghost write_faults = { λ s. s.faults };

    ghost ends = { λ s. 0 };

    ghost objects = { λ s. [] };
}

impl<W: Write> Sink for WriterSink<W> {
    /// Writes until the writer has taken all, or fails. Only a fault counts one.
    fn write(&mut self, bytes: &[u8]) -> Written
        // What each sink ensures.
        ensures part { LeavesOut bytes.now result }
        ensures written { Appends (⟦<WriterSink<W> as Ends>⟧.written self.old) (⟦<WriterSink<W> as Ends>⟧.written self.new) (appended_bytes bytes.now result) }
        ensures write_faults { RoseBy (write_fault_count result) (⟦<WriterSink<W> as Ends>⟧.write_faults self.old) (⟦<WriterSink<W> as Ends>⟧.write_faults self.new) }

        // The bytes that it gives to the writer, and that only a fault counts one.
        ensures held { Appends (⟦<WriterSink<W> as Connection>⟧.held self.old) (⟦<WriterSink<W> as Connection>⟧.held self.new) (appended_bytes bytes.now result) }
        ensures count { ⟦<WriterSink<W> as Ends>⟧.write_faults self.new ≡ count_after (write_fault_count result) (⟦<WriterSink<W> as Ends>⟧.write_faults self.old) }
    {
        let n = write_front(&mut self.writer, bytes);
        if n == bytes.len() {
            return Written::Whole;
        }
        self.faults = count_up(self.faults);
        Written::Failed(n)
    }
}
