ghost use Rattle.std.specs.Prelude.{◌≡◌, ◌≢◌, ◌<◌, ◌≤◌, ◌∷◌, ◌++◌, [], length, take, slice_index, IfOk, OnOk};
ghost use Rattle.std.specs.Option.{IfSome};
ghost use Rattle.items.specs.Lines.{item_of};
ghost use Rattle.items.specs.Text.{IsWithout, IsRun};
ghost use Rattle.items.specs.BegunLine.{GoesOnAs, TakesSome, TakesFront};

use crate::begun_line::{Begun, item, nothing, push_all};
use crate::line_body::Body;
use faults::NoMemory;
use memchr::{memchr, memchr2};
use std::alloc::Global;
use std::marker::Model;
use std::mem;

// How many bytes may be looked at for two at once. Among more, two searches for one byte each are faster.
const NEAR: usize = 32;

// How many bytes come before the first that is this one.
fn before(piece: &[u8], byte: u8) -> usize
    ensures within { result ≤ length piece.now }
    ensures without { IsWithout byte (take result piece.now) }
    ensures enough { result < length piece.now → slice_index piece.now result ≡ byte }
{
    match memchr(byte, piece) {
        Some(at) => at,
        None => piece.len(),
    }
}

// How many bytes come before the first line feed or CR, found by looking for both at once.
fn near_run(piece: &[u8]) -> usize
    ensures { IsRun piece.now result }
{
    match memchr2(b'\n', b'\r', piece) {
        Some(at) => at,
        None => piece.len(),
    }
}

// How many bytes come before the first line feed or CR.
fn run_of(piece: &[u8]) -> usize
    ensures { IsRun piece.now result }
{
    let near = near_run(&piece[..piece.len().min(NEAR)]);
    if near < NEAR {
        return near;
    }
    let line = before(piece, b'\n');
    before(&piece[..line], b'\r')
}

/// A line as it comes, decoded. Contracts see the bytes that have come, or such as say the same however they go on.
#[derive(Drop)]
pub struct Line<B: Body> {
    alloc: Global,
    begun: Begun<B>,
    // How many bytes have come, where the line may still be good.
    length: usize,
    // A CR has come behind them.
    returned: bool,
}

impl<B: Body> Model for Line<B> {
    ghost use Rattle.std.specs.Prelude.{ℕ, List, ◌++◌};
    ghost use Rattle.items.specs.BegunLine.{begun_text, return_text, IsLine};

    ghost Value = { List ℕ };

    ghost view = { λ l. begun_text B.text l.begun ++ return_text l.returned };

    ghost invariant = { λ l. IsLine B.lining.limit B.text l.begun l.length l.returned };
}

impl<B: Body> Line<B> {
    /// A line of which nothing has come.
    pub fn new(alloc: Global) -> Line<B>
        ensures { result ≡ [] }
    {
        Line {
            alloc,
            begun: nothing(alloc),
            length: 0,
            returned: false,
        }
    }

    // No line feed stands in a line.
    fn stands(&self)
        ensures { IsWithout 10 self.now }
    {
        let _ = &self.alloc;
    }

    // Takes a CR, which is the line's end's if nothing follows.
    fn take_return(&mut self) -> Result<(), NoMemory>
        ensures { OnOk result (GoesOnAs B.lining (self.old ++ 13 ∷ []) self.new) }
    {
        if !self.returned {
            self.returned = true;
            return Ok(());
        }
        push_all(
            self.alloc,
            &mut self.begun,
            &mut self.length,
            b"\r".as_slice(),
        )
    }

    // Takes bytes among which is no CR.
    fn take_run(&mut self, run: &[u8]) -> Result<(), NoMemory>
        requires some { 0 < length run.now }
        requires no_feed { IsWithout 10 run.now }
        requires no_return { IsWithout 13 run.now }
        ensures { OnOk result (GoesOnAs B.lining (self.old ++ run.now) self.new) }
    {
        if !self.returned {
            return push_all(self.alloc, &mut self.begun, &mut self.length, run);
        }
        push_all(
            self.alloc,
            &mut self.begun,
            &mut self.length,
            b"\r".as_slice(),
        )?;
        push_all(self.alloc, &mut self.begun, &mut self.length, run)?;
        self.returned = false;
        Ok(())
    }

    // Takes a CR off the front of a piece, or all bytes before the next CR or line feed. Says how many.
    fn take_some(&mut self, piece: &[u8]) -> Result<usize, NoMemory>
        requires some { 0 < length piece.now }
        requires no_feed { slice_index piece.now 0 ≢ 10 }
        ensures { IfOk result (TakesSome B.lining self.old piece.now self.new) }
    {
        let count = run_of(piece);
        if count == 0 {
            self.take_return()?;
            return Ok(1);
        }
        self.take_run(&piece[..count])?;
        Ok(count)
    }

    /// Takes bytes of the line off the front of a piece: all there are, or all before a line feed. Answers how many.
    pub fn take(&mut self, piece: &[u8]) -> Result<usize, NoMemory>
        ensures { IfOk result (TakesFront B.lining self.old piece.now self.new) }
    {
        let mut taken = 0;
        'piece: while taken < piece.len() && piece[taken] != b'\n' {
            taken += self.take_some(&piece[taken..])?;
        }
        self.stands();
        Ok(taken)
    }

    /// What the line says, now that it has ended; the next one begins then. Where memory is refused, nothing is left of it.
    pub fn end(&mut self) -> Result<Option<B::Item>, NoMemory>
        ensures says { IfOk result (λ item. item_of B.lining self.old ≡ item) }
        ensures well { IfOk result (λ item. IfSome item B.IsWell) }
        ensures next { self.new ≡ [] }
    {
        let begun = mem::replace(&mut self.begun, nothing(self.alloc));
        let length = self.length;
        self.length = 0;
        self.returned = false;
        item(self.alloc, begun, length)
    }
}
