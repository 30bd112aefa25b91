ghost use Rattle.std.specs.Prelude.{◌≡◌, ◌<◌, ◌≤◌, ◌++◌, [], Some, length};
ghost use Rattle.std.specs.Io.KnownBytes.{Appends, Consumes};
ghost use Rattle.faults.specs.Counts.{count_after, RoseBy};
ghost use Rattle.ports.specs.Stream.{taken_bytes, IsPiece, EndsAtEnd, CountsEnd, IsWithin, read_fault_count};

use crate::account::Accounted;
use crate::stream::{Ends, Source, Taken};
use faults::count_up;
use std::io::{ErrorKind, Read};

/// The bytes that are asked for at once.
pub(crate) const PIECE: usize = 8192;

/// The bytes that are asked for at once where there is much to read.
pub(crate) const LONG_PIECE: usize = 65_536;

/// A std reader as a source. It tells what it gave: the bytes that its reads of the reader gave, one after another. What is left
/// is known where the reader tells it.
///
/// A read that a signal interrupted took nothing and is no fault: it is tried again. Each other error
/// is a fault, which is counted, and so is the interruption of u64::MAX reads in a row.
#[derive(Drop)]
pub struct ReaderSource<R> {
    reader: Accounted<R>,
    faults: u64,
    ends: u64,
}

impl<R: Read> ReaderSource<R> {
    /// A source over this reader.
    pub fn new(reader: R) -> ReaderSource<R>
        ensures given { ⟦<ReaderSource<R> as Ends>⟧.given result ≡ Some [] }
        ensures left { ⟦<ReaderSource<R> as Ends>⟧.left result ≡ R.remaining reader }
        ensures read_faults { ⟦<ReaderSource<R> as Ends>⟧.read_faults result ≡ 0 }
        ensures ends { ⟦<ReaderSource<R> as Ends>⟧.ends result ≡ 0 }
    {
        ReaderSource {
            reader: Accounted::new(reader),
            faults: 0,
            ends: 0,
        }
    }

    /// The reader, with what it has left.
    pub fn into_inner(self) -> R
        ensures { R.remaining result ≡ ⟦<ReaderSource<R> as Ends>⟧.left self }
    {
        let ReaderSource {
            reader,
            faults: _,
            ends: _,
        } = self;
        reader.into_stream()
    }
}

// One read, tried again where it was interrupted.
fn read_piece<R: Read>(reader: &mut Accounted<R>, piece: &mut [u8]) -> Taken
    requires { 0 < length piece.old }
    ensures within { IsWithin (length piece.old) result }
    ensures given { reader.new.given ≡ reader.old.given ++ taken_bytes piece.new result }
    ensures left { Consumes (R.remaining reader.old.stream) (R.remaining reader.new.stream) (taken_bytes piece.new result) }
    ensures end { EndsAtEnd (R.remaining reader.new.stream) result }
    ensures written { reader.new.written ≡ reader.old.written }
{
    for _ in 0..u64::MAX {
        match reader.read_once(piece) {
            Ok(0) => return Taken::End,
            Ok(n) => return Taken::Got(n),
            Err(e) => {
                if e.kind() != ErrorKind::Interrupted {
                    return Taken::Failed;
                }
            }
        }
    }
    Taken::Failed
}

fn empty_piece<const N: usize>() -> [u8; N] {
    [0; N]
}

/// One read into the front of a buffer, of at most N bytes. The reader gets bytes of its own to fill, since std lets it
/// write past those that it answers, and the rest of the buffer is to stay.
#[inline(never)]
pub(crate) fn read_front<const N: usize, R: Read>(
    reader: &mut Accounted<R>,
    buf: &mut [u8],
) -> Taken
    requires some { 0 < N }
    requires fits { N ≤ 65536 }
    requires room { 0 < length buf.old }
    ensures piece { IsPiece buf.old buf.new result }
    ensures given { reader.new.given ≡ reader.old.given ++ taken_bytes buf.new result }
    ensures left { Consumes (R.remaining reader.old.stream) (R.remaining reader.new.stream) (taken_bytes buf.new result) }
    ensures end { EndsAtEnd (R.remaining reader.new.stream) result }
    ensures written { reader.new.written ≡ reader.old.written }
{
    let mut piece = empty_piece::<N>();
    let room = buf.len().min(N);
    let taken = read_piece(reader, &mut piece[..room]);
    if let Taken::Got(n) = taken {
        buf[..n].copy_from_slice(&piece[..n]);
    }
    taken
}

impl<R: Read> Ends for ReaderSource<R> {
    ghost use Rattle.std.specs.Prelude.{None, Some, []};

    ghost given = { λ s. Some s.reader.given };

    ghost left = { λ s. R.remaining s.reader.stream };

    ghost written = { λ s. None };

    ghost read_faults = { λ s. s.faults };

    ghost write_faults = { λ s. 0 };

    ghost ends = { λ s. s.ends };

    ghost objects = { λ s. [] };
}

impl<R: Read> Source for ReaderSource<R> {
    /// Takes what one read of the reader gives. Only a fault counts one.
    fn read(&mut self, buf: &mut [u8]) -> Taken
        requires { 0 < length buf.old }

        // What each source ensures.
        ensures piece { IsPiece buf.old buf.new result }
        ensures given { Appends (⟦<ReaderSource<R> as Ends>⟧.given self.old) (⟦<ReaderSource<R> as Ends>⟧.given self.new) (taken_bytes buf.new result) }
        ensures left { Consumes (⟦<ReaderSource<R> as Ends>⟧.left self.old) (⟦<ReaderSource<R> as Ends>⟧.left self.new) (taken_bytes buf.new result) }
        ensures end { EndsAtEnd (⟦<ReaderSource<R> as Ends>⟧.left self.new) result }
        ensures read_faults { RoseBy (read_fault_count result) (⟦<ReaderSource<R> as Ends>⟧.read_faults self.old) (⟦<ReaderSource<R> as Ends>⟧.read_faults self.new) }
        ensures ends { CountsEnd result (⟦<ReaderSource<R> as Ends>⟧.ends self.old) (⟦<ReaderSource<R> as Ends>⟧.ends self.new) }

        // That only a fault counts one.
        ensures count { ⟦<ReaderSource<R> as Ends>⟧.read_faults self.new ≡ count_after (read_fault_count result) (⟦<ReaderSource<R> as Ends>⟧.read_faults self.old) }
    {
        let taken = read_front::<PIECE, R>(&mut self.reader, buf);
        match taken {
            Taken::Got(_) => {}
            Taken::End => self.ends = count_up(self.ends),
            Taken::Failed => self.faults = count_up(self.faults),
        }
        taken
    }
}
