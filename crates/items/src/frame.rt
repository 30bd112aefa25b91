ghost use Rattle.std.specs.Prelude.{◌≡◌, ◌==◌, [], length, IfOk, OnErr};
ghost use Rattle.items.specs.BegunFrame.{begun_bytes, IsBegun, IsNothing};
ghost use Rattle.items.specs.Taken.{TakesParts, Takes, Gives};

use crate::begun_frame::{Begun, is_complete, item, nothing, take_part};
use crate::frame_body::Body;
use faults::NoMemory;
use std::alloc::Global;
use std::marker::Model;
use std::mem;

/// A frame as it comes, decoded. Contracts see the bytes that have come, or such as say the same however they go on.
#[derive(Drop)]
pub struct Frame<B: Body> {
    begun: Begun<B>,
}

impl<B: Body> Model for Frame<B> {
    ghost use Rattle.std.specs.Prelude.{ℕ, List};

    ghost Value = { List ℕ };

    ghost use Rattle.items.specs.BegunFrame.{begun_bytes, IsBegun};

    ghost view = { λ f. begun_bytes B.come f.begun };

    ghost invariant = { λ f. IsBegun B.framing.limit B.come f.begun };
}

// Takes bytes of the frame off the front of a piece: all there are, or all that it lacks. Answers how many. Where memory is refused,
// nothing is left of it.
fn take_parts<B: Body>(alloc: Global, begun: &mut Begun<B>, piece: &[u8]) -> Result<usize, NoMemory>
    requires { IsBegun B.framing.limit B.come begun.old }
    ensures ok { IfOk result (λ count. TakesParts B.framing B.come (begun_bytes B.come begun.old) piece.now begun.new count) }
    ensures err { OnErr result (IsNothing B.framing.limit B.come begun.new) }
{
    let mut taken = 0;
    'parts: while taken < piece.len() && !is_complete(begun) {
        taken += take_part(alloc, begun, &piece[taken..])?;
    }
    Ok(taken)
}

impl<B: Body> Frame<B> {
    /// A frame of which nothing has come.
    pub fn new() -> Frame<B>
        ensures { result ≡ [] }
    {
        Frame { begun: nothing() }
    }

    /// Whether nothing has come.
    pub fn is_empty(&self) -> bool
        ensures { result ≡ (length self.now == 0) }
    {
        match &self.begun {
            Begun::Length(part) => part.is_empty(),
            _ => false,
        }
    }

    /// Takes bytes of the frame off the front of a piece: all there are, or all that it lacks. Answers how many.
    pub fn take(&mut self, alloc: Global, piece: &[u8]) -> Result<usize, NoMemory>
        ensures { IfOk result (Takes B.framing self.old piece.now self.new) }
    {
        let taken = take_parts(alloc, &mut self.begun, piece)?;
        Ok(taken)
    }

    /// What the frame says where all of it has come; the next one begins then.
    pub fn give(&mut self) -> Option<B::Item>
        ensures { Gives B.framing B.IsWell self.old self.new result }
    {
        if !is_complete(&self.begun) {
            return None;
        }
        Some(item(mem::replace(&mut self.begun, nothing())))
    }
}
