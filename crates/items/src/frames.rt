ghost use Rattle.std.specs.Prelude.{◌≡◌, ◌++◌, ℕ, List, [], IfOk, OnOk};
ghost use Rattle.items.specs.Items.{IsNextItem, IsEndOf};
ghost use Rattle.items.specs.Framing.{framed};

use crate::chunk::Chunk;
use crate::ending::Ending;
use crate::frame::Frame;
pub use crate::frame_body::Body;
pub use crate::part::fill;
use faults::NoMemory;
use std::alloc::Global;
use std::marker::Model;

// The room for fed bytes to begin with.
const ROOM: usize = 65_536;

/// A stream of frames as it comes.
///
/// Of a frame that isn't whole it keeps what was decoded, and of one that is certainly wrong only how long it is. Contracts see
/// the bytes that were fed and not answered by `next`, or such as say the same however they go on.
#[derive(Drop)]
pub struct Frames<B: Body> {
    alloc: Global,
    frame: Frame<B>,
    rest: Chunk,
}

impl<B: Body> Model for Frames<B> {
    ghost use Rattle.std.specs.Prelude.{ℕ, List, ◌++◌};

    ghost Value = { List ℕ };

    ghost view = { λ d. d.frame ++ d.rest };
}

impl<B: Body> Frames<B> {
    /// A stream that was fed nothing.
    pub fn new(alloc: Global) -> Result<Frames<B>, NoMemory>
        ensures { IfOk result (λ frames. frames ≡ []) }
    {
        Ok(Frames {
            alloc,
            frame: Frame::new(),
            rest: Chunk::with_room(alloc, ROOM)?,
        })
    }

    /// Takes the stream's next bytes.
    pub fn feed(&mut self, piece: &[u8]) -> Result<(), NoMemory>
        ensures { OnOk result ((more : List ℕ) → framed B.framing (self.new ++ more) ≡ framed B.framing (self.old ++ (piece.now ++ more))) }
    {
        // Bytes of the frame that has begun go into it straight from the piece, where no others wait before them.
        if self.rest.as_slice().is_empty() {
            let taken = self.frame.take(self.alloc, piece)?;
            self.rest.add(&piece[taken..])
        } else {
            self.rest.add(piece)
        }
    }

    /// The next whole frame of the bytes that were fed, or none where only a part of one is left.
    pub fn next(&mut self) -> Result<Option<B::Item>, NoMemory>
        ensures { IfOk result (λ item. IsNextItem B.IsWell (λ more. framed B.framing (self.old ++ more)) item (λ more. framed B.framing (self.new ++ more))) }
    {
        let taken = self.frame.take(self.alloc, self.rest.as_slice())?;
        self.rest.take(taken);
        Ok(self.frame.give())
    }

    /// What is left over at the end of the stream, once `next` has answered none.
    pub fn end(&self) -> Ending<B::Item>
        requires { (framed B.framing (self.now ++ [])).whole ≡ [] }
        ensures { IsEndOf B.IsWell (λ more. framed B.framing (self.now ++ more)) result }
    {
        if !self.frame.is_empty() {
            return Ending::Cut;
        }
        if !self.rest.as_slice().is_empty() {
            return Ending::Cut;
        }
        Ending::Clean
    }
}
