ghost use Rattle.std.specs.Prelude.{◌≡◌, ◌-◌, ◌++◌, [], length, take, min};
ghost use Rattle.items.specs.BegunFrame.{frame_part};

use arrayvec::ArrayVec;
use byteorder::{BigEndian, ByteOrder};

/// Adds bytes off the front of a piece to those that have come of a number, as far as they belong to it. Answers how many.
pub fn fill<const N: usize>(part: &mut ArrayVec<u8, N>, piece: &[u8]) -> usize
    ensures count { result ≡ min (N - length part.old.items) (length piece.now) }
    ensures part { part.new.items ≡ part.old.items ++ take result piece.now }
{
    let count = part.remaining_capacity().min(piece.len());
    match part.try_extend_from_slice(&piece[..count]) {
        Ok(()) => count,
        Err(_) => unreachable!(),
    }
}

/// The number that 4 bytes make.
pub fn short_number(bytes: &[u8]) -> u32
    requires { length bytes.now ≡ 4 }
    ensures { frame_part result [] ≡ bytes.now }
{
    BigEndian::read_u32(bytes)
}
