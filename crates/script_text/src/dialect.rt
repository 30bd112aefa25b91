ghost use Rattle.std.specs.Prelude.{◌≡◌, [], IfOk};

use crate::line::Line;
use crate::reply::reply_line;
use blob_model::Bytes;
use items::lines::Lines;
use request_form::{Dialect, Ending, Heard, NoMemory, Reply, Said};
use std::alloc::Global;
use std::marker::Model;

/// The spelling of requests and replies as the lines of a script.
///
/// Of a line that isn't whole it keeps what was decoded, and of a comment and of a line that is certainly malformed no more
/// than that. Contracts see the bytes that were fed and not answered by `next`, or such as say the same however they go on.
#[derive(Drop)]
pub struct ScriptDialect {
    alloc: Global,
    lines: Lines<Line>,
}

impl Model for ScriptDialect {
    ghost use Rattle.std.specs.Prelude.{ℕ, List};

    ghost Value = { List ℕ };

    ghost view = { λ d. d.lines };
}

impl ScriptDialect {
    /// A dialect that was fed nothing.
    pub fn new(alloc: Global) -> Result<ScriptDialect, NoMemory>
        ensures { IfOk result (λ dialect. dialect ≡ []) }
    {
        Ok(ScriptDialect {
            alloc,
            lines: Lines::new(alloc)?,
        })
    }
}

impl Dialect for ScriptDialect {
    ghost use Rattle.std.specs.Prelude.{◌++◌};
    ghost use Rattle.script_text.specs.Lines.{heard};
    ghost use Rattle.script_text.specs.Said.{said};

    ghost reads = { λ fed more. heard (fed ++ more) };

    ghost said = { said };

    fn feed(&mut self, piece: &[u8]) -> Result<(), NoMemory> {
        self.lines.feed(piece)
    }

    fn next(&mut self) -> Result<Option<Heard>, NoMemory> {
        self.lines.next()
    }

    fn end(&mut self) -> Result<Ending, NoMemory> {
        self.lines.end()
    }

    fn say(&self, reply: &Reply) -> Result<Bytes, NoMemory> {
        Ok(Bytes::of(reply_line(self.alloc, reply)?))
    }

    fn say_in_parts(&self, reply: Reply) -> Result<Said, NoMemory> {
        Ok(Said::of_body(self.say(&reply)?))
    }
}
