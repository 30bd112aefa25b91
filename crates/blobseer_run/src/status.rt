ghost use Rattle.std.specs.Prelude.{◌≡◌};
ghost use Rattle.faults.specs.Counts.{RoseBy};
ghost use Rattle.blobseer_run.specs.Conversation.{status_after};
ghost use Rattle.blobseer_run.specs.Status.{code_of, error_line, Tells};

use ports::stream::Sink;
use server_core::End;

/// The most bytes that a command takes of its input.
pub(crate) const INPUT_LIMIT: u64 = 4_294_967_296;

/// How a run ended.
#[derive(Clone, Copy, Debug, PartialEq, Eq)]
pub(crate) enum Status {
    /// The input was answered to its end, or up to a request to end.
    Done,
    /// The words aren't those of a command.
    WordsRefused,
    /// The settings file isn't one, or words and file don't go together.
    SettingsRefused,
    /// A read failed.
    ReadFault,
    /// A write failed.
    WriteFault,
    /// No memory was found.
    OutOfMemory,
    /// The listener failed.
    ListenerFault,
    /// As much input as a run takes was taken.
    InputTooLong,
    /// A load or a watch ended before its callers' ends.
    LoadEndedEarly,
}

impl Status {
    ghost use Rattle.blobseer_run.specs.Status.{code_of, error_line};

    /// How a command ends whose conversation over the input and the output ended so.
    pub(crate) fn after(end: End) -> Status
        ensures { result ≡ status_after end }
    {
        match end {
            End::InputEnd | End::Quit | End::Cut => Status::Done,
            End::ReadFault => Status::ReadFault,
            End::WriteFault => Status::WriteFault,
            End::InputTooLong => Status::InputTooLong,
            End::NoMemory => Status::OutOfMemory,
        }
    }

    /// The number that a process ends with.
    pub(crate) fn code(self) -> u8
        ensures { result ≡ code_of self }
    {
        match self {
            Status::Done => 0,
            Status::WordsRefused => 1,
            Status::SettingsRefused => 2,
            Status::ReadFault => 3,
            Status::WriteFault => 4,
            Status::OutOfMemory => 5,
            Status::ListenerFault => 6,
            Status::InputTooLong => 7,
            Status::LoadEndedEarly => 8,
        }
    }

    // What it puts on the error output.
    fn line(self) -> &'static [u8]
        ensures { result.now ≡ error_line (code_of self) }
    {
        match self {
            Status::Done => b"",
            Status::WordsRefused => b"blobseer: words refused\n",
            Status::SettingsRefused => b"blobseer: settings refused\n",
            Status::ReadFault => b"blobseer: read fault\n",
            Status::WriteFault => b"blobseer: write fault\n",
            Status::OutOfMemory => b"blobseer: out of memory\n",
            Status::ListenerFault => b"blobseer: listener fault\n",
            Status::InputTooLong => b"blobseer: input too long\n",
            Status::LoadEndedEarly => b"blobseer: load ended early\n",
        }
    }

    /// Writes its line on the error output, where a fault is let be, and gives its number.
    pub(crate) fn end<E: Sink>(self, err: &mut E) -> u8
        ensures code { result ≡ code_of self }
        ensures tells { Tells result (E.written err.old) (E.written err.new) (E.write_faults err.old) (E.write_faults err.new) }
        ensures write_faults { RoseBy 0 (E.write_faults err.old) (E.write_faults err.new) }
    {
        let _ = err.write(self.line());
        self.code()
    }
}
