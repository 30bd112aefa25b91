ghost use Rattle.std.specs.Prelude.{◌≡◌, ◌++◌, ℕ, List, [], IfOk, OnOk};
ghost use Rattle.items.specs.Items.{IsFed, IsNextItem, IsEndOf};
ghost use Rattle.file_names.specs.Lines.{heard, IsWellHeard};
ghost use Rattle.file_names.specs.Said.{said};

use crate::form::{FileHeard, FileReply};
use crate::line::Line;
use crate::reply::reply_line;
use blob_model::Bytes;
use faults::NoMemory;
use items::Ending;
use items::lines::Lines;
use request_form::Said;
use std::alloc::Global;
use std::marker::Model;

/// The spelling of lines of files and of their replies. After want of memory it isn't used again.
///
/// Of a comment and of a line that is too long it keeps nothing, and of another line that isn't whole its bytes. Contracts see
/// the bytes that were fed and not answered by `next`, or such as say the same however they go on.
#[derive(Drop)]
pub struct FileDialect {
    alloc: Global,
    lines: Lines<Line>,
}

impl Model for FileDialect {
    ghost use Rattle.std.specs.Prelude.{ℕ, List};

    ghost Value = { List ℕ };

    ghost view = { λ d. d.lines };
}

impl FileDialect {
    /// A dialect that was fed nothing.
    pub fn new(alloc: Global) -> Result<FileDialect, NoMemory>
        ensures { IfOk result (λ dialect. dialect ≡ []) }
    {
        Ok(FileDialect {
            alloc,
            lines: Lines::new(alloc)?,
        })
    }

    /// Takes the stream's next bytes.
    pub fn feed(&mut self, piece: &[u8]) -> Result<(), NoMemory>
        ensures { OnOk result (IsFed (λ more. heard (self.old ++ more)) piece.now (λ more. heard (self.new ++ more))) }
    {
        self.lines.feed(piece)
    }

    /// The next whole line of the bytes that were fed that says something, or none where only a part of one is left.
    pub fn next(&mut self) -> Result<Option<FileHeard>, NoMemory>
        ensures { IfOk result (λ item. IsNextItem IsWellHeard (λ more. heard (self.old ++ more)) item (λ more. heard (self.new ++ more))) }
    {
        self.lines.next()
    }

    /// What is left over at the end of the stream, once `next` has answered none. It is never cut.
    pub fn end(&mut self) -> Result<Ending<FileHeard>, NoMemory>
        requires { (heard (self.old ++ [])).whole ≡ [] }
        ensures { IfOk result (λ ending. IsEndOf IsWellHeard (λ more. heard (self.old ++ more)) ending) }
    {
        self.lines.end()
    }

    /// The reply as it is written.
    pub fn say(&self, reply: FileReply) -> Result<Said, NoMemory>
        ensures { IfOk result (λ parts. parts.head.items ++ parts.body ≡ said reply) }
    {
        Ok(Said::of_body(Bytes::of(reply_line(self.alloc, reply)?)))
    }
}
