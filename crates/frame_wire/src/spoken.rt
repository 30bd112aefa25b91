// Of which version the frames of a stream are.
ghost use Rattle.std.specs.Prelude.{◌≡◌, ◌<◌, ◌≤◌, ◌++◌, ℕ, List, take, IfOk};
ghost use Rattle.request_form.specs.Stream.{IsNext};
ghost use Rattle.items.specs.Framing.{framed};
ghost use Rattle.frame_wire.specs.Frames.{hello, request_frames, second_frames};
ghost use Rattle.frame_wire.specs.Fed.{SpeaksAs, heard_by, fed_by};
ghost use Rattle.frame_wire.specs.declared.spoken.Spoken.TheVariants.{Second};

use crate::fields::Fields;
use crate::second::SecondFields;
use items::frames::Frames;
use request_form::{Heard, NoMemory, Request};
use std::alloc::Global;

// The frame by which a stream asks for version 2.
const HELLO: [u8; 13] = [0, 0, 0, 9, 14, 0, 0, 0, 0, 0, 0, 0, 2];

/// What is known of the version of a stream's frames, and what has come of them.
#[derive(Drop)]
pub enum Spoken {
    /// So many bytes of a hello have come, not all of it, and nothing else.
    Opening(usize),
    /// Frames of version 1.
    First(Frames<Fields>),
    /// Frames of version 2, and whether the hello before them was told.
    Second {
        told: bool,
        frames: Frames<SecondFields>,
    },
}

// The first bytes of a hello.
fn front(count: usize) -> &'static [u8]
    requires { count ≤ 13 }
    ensures { result.now ≡ take count hello }
{
    &HELLO.as_slice()[..count]
}

// Frames of version 1, of which these bytes have come.
fn first(alloc: Global, front: &[u8], piece: &[u8]) -> Result<Frames<Fields>, NoMemory>
    ensures { IfOk result (λ frames. (more : List ℕ) → framed request_frames (frames ++ more) ≡ framed request_frames (front.now ++ (piece.now ++ more))) }
{
    let mut frames = Frames::new(alloc)?;
    frames.feed(front)?;
    frames.feed(piece)?;
    Ok(frames)
}

// Frames of version 2, of which these bytes have come.
fn second(alloc: Global, piece: &[u8]) -> Result<Frames<SecondFields>, NoMemory>
    ensures { IfOk result (λ frames. (more : List ℕ) → framed second_frames (frames ++ more) ≡ framed second_frames (piece.now ++ more)) }
{
    let mut frames = Frames::new(alloc)?;
    frames.feed(piece)?;
    Ok(frames)
}

/// What is known once a piece has come behind the first bytes of a hello.
pub fn opened(alloc: Global, count: usize, piece: &[u8]) -> Result<Spoken, NoMemory>
    requires { count < 13 }
    ensures { IfOk result (λ spoken. SpeaksAs (take count hello ++ piece.now) spoken) }
{
    let next = piece.len().min(HELLO.len() - count);
    if &piece[..next] != &HELLO.as_slice()[count..count + next] {
        return Ok(Spoken::First(first(alloc, front(count), piece)?));
    }
    if count + next < HELLO.len() {
        return Ok(Spoken::Opening(count + next));
    }
    Ok(Spoken::Second {
        told: false,
        frames: second(alloc, &piece[next..])?,
    })
}

/// The next item where the frames are of version 2: the hello comes first.
pub fn next_second(
    told: &mut bool,
    frames: &mut Frames<SecondFields>,
) -> Result<Option<Heard>, NoMemory>
    ensures { IfOk result (λ item. IsNext (heard_by (fed_by (Second told.old frames.old))) item (heard_by (fed_by (Second told.new frames.new)))) }
{
    if *told {
        return frames.next();
    }
    *told = true;
    Ok(Some(Heard::Asked(Request::Hello { version: 2 })))
}
