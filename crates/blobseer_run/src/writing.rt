// A command's own text on the output.
ghost use Rattle.std.specs.Prelude.{◌≡◌, ℕ, List, IfOk};
ghost use Rattle.std.specs.String.{string_bytes};
ghost use Rattle.faults.specs.Counts.{RoseBy};
ghost use Rattle.blobseer_run.specs.Writing.{ToldLine};
ghost use Rattle.blobseer_run.specs.Status.{code_of};

use crate::status::Status;
use ports::stream::{Sink, Written};
use std::alloc::AllocError;

/// Writes a text on the output.
pub(crate) fn tell<K: Sink>(text: &str, out: &mut K) -> Status
    ensures told { ToldLine text.now (K.written out.old) (K.written out.new) (K.write_faults out.old) (K.write_faults out.new) (code_of result) }
    ensures write_faults { RoseBy 0 (K.write_faults out.old) (K.write_faults out.new) }
{
    match out.write(text.as_bytes()) {
        Written::Whole => Status::Done,
        Written::Failed(_) => Status::WriteFault,
    }
}

/// Writes the lines that a command came to, where memory was found for them.
pub(crate) fn tell_lines<K: Sink>(lines: Result<String, AllocError>, out: &mut K) -> Status
    ensures told { (text : List ℕ) → IfOk lines (λ l. string_bytes l ≡ text)
        → ToldLine text (K.written out.old) (K.written out.new) (K.write_faults out.old) (K.write_faults out.new) (code_of result) }
    ensures write_faults { RoseBy 0 (K.write_faults out.old) (K.write_faults out.new) }
{
    match lines {
        Ok(text) => tell(text.as_str(), out),
        Err(_) => Status::OutOfMemory,
    }
}
