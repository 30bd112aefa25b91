ghost use Rattle.std.specs.Prelude.{◌≡◌, ◌+◌, ◌≤◌, ◌<◌, ◌∷◌, ◌++◌, [], length, true, false, IfOk, OnErr};
ghost use Rattle.items.specs.Framing.{item_of};
ghost use Rattle.items.specs.BegunFrame.{frame_part, begun_bytes, is_complete, IsBegun, IsNothing, TakesPart, GoesOnAs};

use crate::frame_body::Body;
use crate::part::{fill, short_number};
use arrayvec::ArrayVec;
use faults::NoMemory;
use std::alloc::Global;

/// A frame that is certainly wrong, of which no bytes are kept: what its length counts, and how many of them are still to come.
#[derive(Clone, Copy, Debug, PartialEq, Eq)]
pub struct Dropped {
    pub length: u32,
    pub left: u32,
}

/// What has come of a frame.
#[derive(Drop)]
pub enum Begun<B> {
    /// Some bytes of its length.
    Length(ArrayVec<u8, 4>),
    /// Its length alone, which counts at least one byte and not too many.
    Counted(u32),
    /// Its first byte, and some of those behind it.
    Asked(B),
    /// A frame that is certainly wrong.
    Wrong(Dropped),
}

/// A frame of which nothing has come.
pub fn nothing<B: Body>() -> Begun<B>
    ensures begun { IsBegun B.framing.limit B.come result }
    ensures bytes { begun_bytes B.come result ≡ [] }
{
    Begun::Length(ArrayVec::new())
}

/// Whether all bytes of the frame have come.
pub fn is_complete<B: Body>(begun: &Begun<B>) -> bool
    ensures { result ≡ is_complete B.come begun.now }
{
    match begun {
        Begun::Length(_) | Begun::Counted(_) => false,
        Begun::Asked(body) => body.left() == 0,
        Begun::Wrong(frame) => frame.left == 0,
    }
}

// A frame of which nothing but its length has come.
fn counted<B: Body>(length: u32) -> Begun<B>
    ensures begun { IsBegun B.framing.limit B.come result }
    ensures bytes { begun_bytes B.come result ≡ frame_part length [] }
{
    if length == 0 || length > B::limit() {
        Begun::Wrong(Dropped {
            length,
            left: length,
        })
    } else {
        Begun::Counted(length)
    }
}

// What a frame of that length is once its first byte has come.
fn asked<B: Body>(alloc: Global, length: u32, first: u8) -> Begun<B>
    requires some { 0 < length }
    requires few { length ≤ B.framing.limit }
    ensures begun { IsBegun B.framing.limit B.come result }
    ensures bytes { GoesOnAs B.framing (frame_part length (first ∷ [])) (begun_bytes B.come result) }
{
    let left = length - 1;
    match B::begin(alloc, first, left) {
        Some(body) => Begun::Asked(body),
        None => Begun::Wrong(Dropped { length, left }),
    }
}

// Drops bytes of a frame that is certainly wrong, and says how many.
fn drop_bytes(frame: &mut Dropped, piece: &[u8]) -> usize
    requires more { 0 < frame.old.left }
    requires some { 0 < length piece.now }
    ensures some { 0 < result }
    ensures within { result ≤ length piece.now }
    ensures same { frame.new.length ≡ frame.old.length }
    ensures left { frame.new.left + result ≡ frame.old.left }
{
    let count = piece.len().min(frame.left as usize);
    frame.left -= count as u32;
    count
}

/// Takes some bytes of the frame off the front of a piece, at least one, and says how many. What has come is changed where it lies.
/// Where memory is refused, nothing is left of it.
pub fn take_part<B: Body>(
    alloc: Global,
    begun: &mut Begun<B>,
    piece: &[u8],
) -> Result<usize, NoMemory>
    requires begun { IsBegun B.framing.limit B.come begun.old }
    requires more { is_complete B.come begun.old ≡ false }
    requires some { 0 < length piece.now }
    ensures ok { IfOk result (λ count. TakesPart B.framing B.come (begun_bytes B.come begun.old) piece.now begun.new count) }
    ensures err { OnErr result (IsNothing B.framing.limit B.come begun.new) }
{
    match begun {
        Begun::Length(part) => {
            if part.is_empty() && piece.len() >= 4 {
                *begun = counted(short_number(&piece[..4]));
                return Ok(4);
            }
            let count = fill(part, piece);
            if !part.is_full() {
                return Ok(count);
            }
            *begun = counted(short_number(part.as_slice()));
            Ok(count)
        }
        Begun::Counted(length) => {
            *begun = asked(alloc, *length, piece[0]);
            Ok(1)
        }
        Begun::Asked(body) => match body.take(piece) {
            Ok(count) => Ok(count),
            Err(error) => {
                *begun = nothing();
                Err(error)
            }
        },
        Begun::Wrong(frame) => Ok(drop_bytes(frame, piece)),
    }
}

/// What the frame says, now that all of it has come.
pub fn item<B: Body>(begun: Begun<B>) -> B::Item
    requires begun { IsBegun B.framing.limit B.come begun }
    requires whole { is_complete B.come begun ≡ true }
    ensures says { item_of B.framing (begun_bytes B.come begun) ≡ result }
    ensures well { B.IsWell result }
{
    match begun {
        Begun::Asked(body) => body.into_item(),
        Begun::Wrong(frame) if frame.length > B::limit() => B::too_long(frame.length),
        Begun::Wrong(_) => B::bad(),
        Begun::Length(_) | Begun::Counted(_) => unreachable!(),
    }
}
