ghost use Rattle.std.specs.Prelude.{◌≡◌, ◌<◌, ◌≤◌, ◌+◌, ◌*◌, ◌++◌, length, take};
ghost use Rattle.frame_wire.specs.Said.{field, fields};

use arrayvec::ArrayVec;
use byteorder::{BigEndian, ByteOrder};
use items::frames::fill;

/// The number that 8 bytes make.
pub fn number(bytes: &[u8]) -> u64
    requires { length bytes.now ≡ 8 }
    ensures { field result ≡ bytes.now }
{
    BigEndian::read_u64(bytes)
}

// Takes the numbers that lie whole at the front of a piece, until there are `most`, and says how many bytes they are.
fn take_whole(numbers: &mut ArrayVec<u64, 4>, most: usize, piece: &[u8]) -> usize
    requires room { length numbers.old.items ≤ most }
    requires most { most ≤ 4 }
    ensures some { length numbers.old.items < most → 8 ≤ length piece.now → 0 < result }
    ensures within { result ≤ length piece.now }
    ensures few { length numbers.new.items ≤ most }
    ensures bytes { fields numbers.new.items ≡ fields numbers.old.items ++ take result piece.now }
    ensures count { 8 * length numbers.new.items ≡ 8 * length numbers.old.items + result }
{
    let mut taken = 0;
    'numbers: while numbers.len() < most && piece.len() - taken >= 8 {
        numbers.push(number(&piece[taken..taken + 8]));
        taken += 8;
    }
    taken
}

// Takes bytes of the next number off the front of a piece, at least one, and says how many. A number that is whole then is
// added to the others.
fn take_number(numbers: &mut ArrayVec<u64, 4>, part: &mut ArrayVec<u8, 8>, piece: &[u8]) -> usize
    requires room { length numbers.old.items < 4 }
    requires part { length part.old.items < 8 }
    requires some { 0 < length piece.now }
    ensures some { 0 < result }
    ensures within { result ≤ length piece.now }
    ensures few { length part.old.items + result ≤ 8 }
    ensures bytes { fields numbers.new.items ++ part.new.items ≡ fields numbers.old.items ++ (part.old.items ++ take result piece.now) }
    ensures count { 8 * length numbers.new.items + length part.new.items ≡ 8 * length numbers.old.items + length part.old.items + result }
    ensures part { length part.new.items < 8 }
{
    let count = fill(part, piece);
    if part.is_full() {
        numbers.push(number(part.as_slice()));
        part.clear();
    }
    count
}

/// Takes bytes of the next numbers off the front of a piece, at least one, until there are `most` numbers, and says how many. Numbers
/// that are whole then are added to the others.
pub fn take_numbers(
    numbers: &mut ArrayVec<u64, 4>,
    most: usize,
    part: &mut ArrayVec<u8, 8>,
    piece: &[u8],
) -> usize
    requires room { length numbers.old.items < most }
    requires most { most ≤ 4 }
    requires part { length part.old.items < 8 }
    requires some { 0 < length piece.now }
    ensures some { 0 < result }
    ensures within { result ≤ length piece.now }
    ensures few { 8 * length numbers.new.items + length part.new.items ≤ 8 * most }
    ensures bytes { fields numbers.new.items ++ part.new.items ≡ fields numbers.old.items ++ (part.old.items ++ take result piece.now) }
    ensures count { 8 * length numbers.new.items + length part.new.items ≡ 8 * length numbers.old.items + length part.old.items + result }
    ensures part { length part.new.items < 8 }
{
    if part.is_empty() && piece.len() >= 8 {
        return take_whole(numbers, most, piece);
    }
    take_number(numbers, part, piece)
}
