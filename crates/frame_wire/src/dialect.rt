ghost use Rattle.std.specs.Prelude.{◌≡◌, [], None, IfOk};

use crate::reply::{reply_frame, reply_parts};
use crate::spoken::{Spoken, next_second, opened};
use blob_model::Bytes;
use request_form::{Dialect, Ending, Heard, NoMemory, Reply, Said};
use std::alloc::Global;
use std::marker::Model;

/// The spelling of requests and replies as frames, of version 1 or, where the first frame is a hello, of version 2.
///
/// Of a frame that isn't whole it keeps what was decoded, and of one that is certainly wrong only how long it is. Contracts see
/// the bytes that were fed and not answered by `next`, or such as say the same however they go on, and of which version the
/// frames are, where that is known.
#[derive(Drop)]
pub struct FrameDialect {
    alloc: Global,
    spoken: Spoken,
}

impl Model for FrameDialect {
    ghost use Rattle.frame_wire.specs.Fed.{Fed, fed_coded, fed_by, IsSpoken};

    ghost Value = { Fed };

    ghost coded = { fed_coded };

    ghost view = { λ d. fed_by d.spoken };

    ghost invariant = { λ d. IsSpoken d.spoken };
}

impl FrameDialect {
    /// A dialect that was fed nothing. It takes its memory once it is fed.
    pub fn new(alloc: Global) -> Result<FrameDialect, NoMemory>
        ensures { IfOk result (λ dialect. dialect ≡ record { version = None; bytes = [] }) }
    {
        Ok(FrameDialect {
            alloc,
            spoken: Spoken::Opening(0),
        })
    }
}

impl Dialect for FrameDialect {
    ghost use Rattle.frame_wire.specs.Fed.{heard_by};
    ghost use Rattle.frame_wire.specs.Said.{said};

    ghost reads = { heard_by };

    ghost said = { said };

    fn feed(&mut self, piece: &[u8]) -> Result<(), NoMemory> {
        match &mut self.spoken {
            Spoken::Opening(count) => {
                self.spoken = opened(self.alloc, *count, piece)?;
                Ok(())
            }
            Spoken::First(frames) => frames.feed(piece),
            Spoken::Second { frames, .. } => frames.feed(piece),
        }
    }

    fn next(&mut self) -> Result<Option<Heard>, NoMemory> {
        match &mut self.spoken {
            Spoken::Opening(_) => Ok(None),
            Spoken::First(frames) => frames.next(),
            Spoken::Second { told, frames } => next_second(told, frames),
        }
    }

    fn end(&mut self) -> Result<Ending, NoMemory> {
        match &self.spoken {
            Spoken::Opening(count) => {
                if *count > 0 {
                    return Ok(Ending::Cut);
                }
                Ok(Ending::Clean)
            }
            Spoken::First(frames) => Ok(frames.end()),
            Spoken::Second { told, frames } => {
                if *told {
                    return Ok(frames.end());
                }
                unreachable!()
            }
        }
    }

    fn say(&self, reply: &Reply) -> Result<Bytes, NoMemory> {
        Ok(Bytes::of(reply_frame(self.alloc, reply)?))
    }

    fn say_in_parts(&self, reply: Reply) -> Result<Said, NoMemory> {
        Ok(reply_parts(self.alloc, reply)?)
    }
}
