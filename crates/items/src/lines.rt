ghost use Rattle.std.specs.Prelude.{◌≡◌, ◌<◌, ◌++◌, ℕ, List, [], length, Ok, true, IfOk, OnOk};
ghost use Rattle.items.specs.Items.{IsNextItem, IsEndOf};
ghost use Rattle.items.specs.Lines.{lined};
ghost use Rattle.items.specs.BegunLine.{TakesLine, TakesItem, EndsLine};

use crate::chunk::Chunk;
use crate::ending::Ending;
use crate::line::Line;
pub use crate::line_body::Body;
use faults::NoMemory;
use std::alloc::Global;
use std::marker::Model;

// The room for fed bytes to begin with.
const ROOM: usize = 65_536;

/// A stream of lines as it comes.
///
/// Of a line that isn't whole it keeps what was decoded, and of a comment and of a line that is certainly bad no more than that.
/// Contracts see the bytes that were fed and not answered by `next`, or such as say the same however they go on.
#[derive(Drop)]
pub struct Lines<B: Body> {
    line: Line<B>,
    rest: Chunk,
}

impl<B: Body> Model for Lines<B> {
    ghost use Rattle.std.specs.Prelude.{ℕ, List, ◌++◌};

    ghost Value = { List ℕ };

    ghost view = { λ d. d.line ++ d.rest };
}

// Moves bytes of the rest to the line, up to the line feed that ends it, and says whether there was one.
fn take_line<B: Body>(line: &mut Line<B>, rest: &mut Chunk) -> Result<bool, NoMemory>
    ensures taken { IfOk result (TakesLine B.lining line.old rest.old line.new rest.new) }
    ensures less { result ≡ Ok true → length rest.new < length rest.old }
{
    let count = line.take(rest.as_slice())?;
    if count == rest.as_slice().len() {
        rest.take(count);
        return Ok(false);
    }
    rest.take(count + 1);
    Ok(true)
}

// Takes the next item off, and passes over the lines that have none.
fn take_item<B: Body>(line: &mut Line<B>, rest: &mut Chunk) -> Result<Option<B::Item>, NoMemory>
    ensures { IfOk result (TakesItem B.lining B.IsWell line.old rest.old line.new rest.new) }
{
    'lines: while take_line(line, rest)? {
        if let Some(item) = line.end()? {
            return Ok(Some(item));
        }
    }
    Ok(None)
}

// What a line leaves over that no line feed ends.
fn last<B: Body>(line: &mut Line<B>) -> Result<Ending<B::Item>, NoMemory>
    ensures { IfOk result (EndsLine B.lining B.IsWell line.old) }
{
    match line.end()? {
        None => Ok(Ending::Clean),
        Some(item) => Ok(Ending::Last(item)),
    }
}

impl<B: Body> Lines<B> {
    /// A stream that was fed nothing.
    pub fn new(alloc: Global) -> Result<Lines<B>, NoMemory>
        ensures { IfOk result (λ lines. lines ≡ []) }
    {
        Ok(Lines {
            line: Line::new(alloc),
            rest: Chunk::with_room(alloc, ROOM)?,
        })
    }

    /// Takes the stream's next bytes.
    pub fn feed(&mut self, piece: &[u8]) -> Result<(), NoMemory>
        ensures { OnOk result ((more : List ℕ) → lined B.lining (self.new ++ more) ≡ lined B.lining (self.old ++ (piece.now ++ more))) }
    {
        // Bytes of the line that has begun go into it straight from the piece, where no others wait before them.
        if self.rest.as_slice().is_empty() {
            let taken = self.line.take(piece)?;
            self.rest.add(&piece[taken..])
        } else {
            self.rest.add(piece)
        }
    }

    /// The next whole line of the bytes that were fed that says something, or none where only a part of one is left.
    pub fn next(&mut self) -> Result<Option<B::Item>, NoMemory>
        ensures { IfOk result (λ item. IsNextItem B.IsWell (λ more. lined B.lining (self.old ++ more)) item (λ more. lined B.lining (self.new ++ more))) }
    {
        take_item(&mut self.line, &mut self.rest)
    }

    /// What is left over at the end of the stream, once `next` has answered none.
    pub fn end(&mut self) -> Result<Ending<B::Item>, NoMemory>
        requires { (lined B.lining (self.old ++ [])).whole ≡ [] }
        ensures { IfOk result (λ ending. IsEndOf B.IsWell (λ more. lined B.lining (self.old ++ more)) ending) }
    {
        match take_item(&mut self.line, &mut self.rest)? {
            Some(_) => unreachable!(),
            None => last(&mut self.line),
        }
    }
}
