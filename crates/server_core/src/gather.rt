// Replies that are gathered before they are written.
ghost use Rattle.std.specs.Prelude.{◌≡◌, ◌<◌, ◌+◌, ◌++◌, ℕ, List, [], length, true, IfOk, Option};
ghost use Rattle.std.specs.Io.KnownBytes.{Appends};
ghost use Rattle.faults.specs.Counts.{RoseBy};
ghost use Rattle.ports.specs.Stream.{appended_bytes, LeavesOut, write_fault_count};
ghost use Rattle.server_core.specs.Conversing.{IsPut, IsSettled, flow_write_faults};

use crate::flow::Flow;
use ports::stream::{Sink, Written};
use request_form::NoMemory;
use std::alloc::Global;

// From so many bytes on replies aren't gathered, but written.
const MOST: usize = 131_072;

/// Replies that were said and aren't written yet, fewer than 131,072 bytes.
///
/// Its memory is taken when it is made.
#[derive(Drop)]
pub(crate) struct Gathered {
    bytes: Vec<u8>,
    ghost few: { length bytes.items < 131072 },
}

impl Gathered {
    /// No replies yet.
    pub(crate) fn new(alloc: Global) -> Result<Gathered, NoMemory>
        ensures { IfOk result (λ gathered. gathered.bytes.items ≡ []) }
    {
        let bytes = Vec::with_capacity(alloc, MOST)?;
        Ok(Gathered { bytes })
    }

    /// Whether no reply waits.
    pub(crate) fn is_empty(&self) -> bool
        ensures { self.now.bytes.items ≡ [] → result ≡ true }
    {
        self.bytes.is_empty()
    }

    // Adds a text that fits.
    fn hold(&mut self, text: &[u8]) -> Flow
        requires { length self.old.bytes.items + length text.now < 131072 }
        ensures put { (written : Option (List ℕ)) → IsPut self.old.bytes.items text.now written self.new.bytes.items written result }
        ensures unwritten { flow_write_faults result ≡ 0 }
    {
        match self.bytes.extend_from_slice(text) {
            Ok(()) => Flow::Goes,
            Err(_) => Flow::NoMemory,
        }
    }

    // Writes what is held.
    fn flush<I: Sink>(&mut self, io: &mut I) -> Written
        ensures none { self.new.bytes.items ≡ [] }
        ensures part { LeavesOut self.old.bytes.items result }
        ensures written { Appends (I.written io.old) (I.written io.new) (appended_bytes self.old.bytes.items result) }
        ensures write_faults { RoseBy (write_fault_count result) (I.write_faults io.old) (I.write_faults io.new) }
        ensures given { I.given io.new ≡ I.given io.old }
        ensures left { I.left io.new ≡ I.left io.old }
        ensures read_faults { I.read_faults io.new ≡ I.read_faults io.old }
        ensures ends { I.ends io.new ≡ I.ends io.old }
        ensures objects { I.objects io.new ≡ I.objects io.old }
    {
        if self.bytes.is_empty() {
            return Written::Whole;
        }
        let written = io.write(self.bytes.as_slice());
        self.bytes.clear();
        written
    }

    // Adds a text where nothing is held, or writes it by itself where it is too long to be held.
    fn put_first<I: Sink>(&mut self, io: &mut I, text: &[u8]) -> Flow
        requires { self.old.bytes.items ≡ [] }
        ensures put { IsPut [] text.now (I.written io.old) self.new.bytes.items (I.written io.new) result }
        ensures write_faults { RoseBy (flow_write_faults result) (I.write_faults io.old) (I.write_faults io.new) }
        ensures given { I.given io.new ≡ I.given io.old }
        ensures left { I.left io.new ≡ I.left io.old }
        ensures read_faults { I.read_faults io.new ≡ I.read_faults io.old }
        ensures ends { I.ends io.new ≡ I.ends io.old }
        ensures objects { I.objects io.new ≡ I.objects io.old }
    {
        if text.len() < MOST {
            return self.hold(text);
        }
        match io.write(text) {
            Written::Failed(_) => Flow::WriteFault,
            Written::Whole => Flow::Goes,
        }
    }

    // Adds a text. Where it doesn't fit, what is held is written first, and a text that is too long to be held is written by
    // itself.
    fn put<I: Sink>(&mut self, io: &mut I, text: &[u8]) -> Flow
        ensures put { IsPut self.old.bytes.items text.now (I.written io.old) self.new.bytes.items (I.written io.new) result }
        ensures write_faults { RoseBy (flow_write_faults result) (I.write_faults io.old) (I.write_faults io.new) }
        ensures given { I.given io.new ≡ I.given io.old }
        ensures left { I.left io.new ≡ I.left io.old }
        ensures read_faults { I.read_faults io.new ≡ I.read_faults io.old }
        ensures ends { I.ends io.new ≡ I.ends io.old }
        ensures objects { I.objects io.new ≡ I.objects io.old }
    {
        if text.len() < MOST - self.bytes.len() {
            return self.hold(text);
        }
        match self.flush(io) {
            Written::Failed(_) => Flow::WriteFault,
            Written::Whole => self.put_first(io, text),
        }
    }

    /// Adds a reply, which is written as a head and a body. Where one of them doesn't fit, what is held is written first, and a
    /// body that is too long to be held is written from where it lies.
    pub(crate) fn put_reply<I: Sink>(&mut self, io: &mut I, head: &[u8], body: &[u8]) -> Flow
        ensures put { IsPut self.old.bytes.items (head.now ++ body.now) (I.written io.old) self.new.bytes.items (I.written io.new) result }
        ensures write_faults { RoseBy (flow_write_faults result) (I.write_faults io.old) (I.write_faults io.new) }
        ensures given { I.given io.new ≡ I.given io.old }
        ensures left { I.left io.new ≡ I.left io.old }
        ensures read_faults { I.read_faults io.new ≡ I.read_faults io.old }
        ensures ends { I.ends io.new ≡ I.ends io.old }
        ensures objects { I.objects io.new ≡ I.objects io.old }
    {
        if head.is_empty() {
            return self.put(io, body);
        }
        if body.is_empty() {
            return self.put(io, head);
        }
        match self.put(io, head) {
            Flow::Goes => self.put(io, body),
            Flow::Quits => unreachable!(),
            Flow::WriteFault => Flow::WriteFault,
            Flow::NoMemory => Flow::NoMemory,
        }
    }

    /// Writes what is held after a step, which tells then also of this write. After want of memory a fault is let be.
    pub(crate) fn settle<I: Sink>(&mut self, io: &mut I, flow: Flow) -> Flow
        ensures settled { IsSettled self.old.bytes.items (I.written io.old) (I.written io.new) flow result }
        ensures none { flow_write_faults result ≡ 0 → self.new.bytes.items ≡ [] }
        ensures write_faults { (before : ℕ) → RoseBy (flow_write_faults flow) before (I.write_faults io.old) → RoseBy (flow_write_faults result) before (I.write_faults io.new) }
        ensures given { I.given io.new ≡ I.given io.old }
        ensures left { I.left io.new ≡ I.left io.old }
        ensures read_faults { I.read_faults io.new ≡ I.read_faults io.old }
        ensures ends { I.ends io.new ≡ I.ends io.old }
        ensures objects { I.objects io.new ≡ I.objects io.old }
    {
        match flow {
            Flow::WriteFault => Flow::WriteFault,
            Flow::NoMemory => {
                let _ = self.flush(io);
                Flow::NoMemory
            }
            Flow::Goes | Flow::Quits => match self.flush(io) {
                Written::Failed(_) => Flow::WriteFault,
                Written::Whole => flow,
            },
        }
    }
}
