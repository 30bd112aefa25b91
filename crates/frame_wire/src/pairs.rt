ghost use Rattle.std.specs.Prelude.{◌≡◌, ◌≢◌, ◌<◌, ◌≤◌, ◌+◌, ◌*◌, ◌∷◌, ◌++◌, [], length, take, true, IfOk, Some, None};
ghost use Rattle.std.specs.List.{All};
ghost use Rattle.std.specs.Vec.{vec_len, vec_capacity};
ghost use Rattle.items.specs.Come.{Come, TakesBytes};
ghost use Rattle.request_form.specs.Operations.{number_of, since_of};
ghost use Rattle.frame_wire.specs.Requests.{fits, request_of};
ghost use Rattle.frame_wire.specs.Said.{field, pair_fields};
ghost use Rattle.frame_wire.specs.Decoded.{all_pairs, IsSmallPair};

use crate::number::number;
use arrayvec::ArrayVec;
use blob_model::Bytes;
use items::frames::fill;
use request_form::{NoMemory, Operation, RangeList, Request};
use std::alloc::Global;
use std::marker::Model;

/// What has come of the fields of a request that frames have since version 2, decoded: they are pairs of numbers, a blob and its version,
/// and ranges behind them or none. Contracts see the operation and the bytes that have come behind it, and how many are still to come.
#[derive(Drop)]
pub struct Pairs {
    alloc: Global,
    operation: Operation,
    // The blob and its version, once they have come.
    target: Option<(u64, u64)>,
    ranges: Vec<(u64, u64)>,
    // What has come of the next pair.
    part: ArrayVec<u8, 16>,
    left: u32,
}

impl Model for Pairs {
    ghost use Rattle.std.specs.Prelude.{◌∷◌, ◌++◌};
    ghost use Rattle.items.specs.Come.{Come, come_coded};

    ghost Value = { Come };

    ghost coded = { come_coded };

    ghost use Rattle.request_form.specs.Operations.{number_of};
    ghost use Rattle.frame_wire.specs.Said.{pair_fields};
    ghost use Rattle.frame_wire.specs.Decoded.{all_pairs, IsPaired};

    ghost view = { λ p. record { bytes = number_of p.operation ∷ (pair_fields (all_pairs p.target p.ranges.items) ++ p.part.items); left = p.left } };

    ghost invariant = { λ p. IsPaired p.operation p.target p.ranges.items p.part.items p.left };
}

// The two numbers that 16 bytes make.
fn pair(bytes: &[u8]) -> (u64, u64)
    requires { length bytes.now ≡ 16 }
    ensures fields { field result.0 ++ field result.1 ≡ bytes.now }
    ensures fit { IsSmallPair result }
{
    let (first, second) = bytes.split_at(8);
    (number(first), number(second))
}

// Adds a pair: the blob and its version come first.
fn add_pair(target: &mut Option<(u64, u64)>, ranges: &mut Vec<(u64, u64)>, pair: (u64, u64))
    requires waits { target.old ≡ None → ranges.old.items ≡ [] }
    requires room { vec_len ranges.old < vec_capacity ranges.old }
    ensures added { all_pairs target.new ranges.new.items ≡ all_pairs target.old ranges.old.items ++ pair ∷ [] }
    ensures come { target.new ≢ None }
{
    match target {
        None => *target = Some(pair),
        Some(_) => ranges.push_reserved(pair),
    }
}

// Takes bytes of the next pair off the front of a piece, at least one, and says how many. A pair that is whole then is added to
// the others, for which there is room.
fn take_pair(
    target: &mut Option<(u64, u64)>,
    ranges: &mut Vec<(u64, u64)>,
    part: &mut ArrayVec<u8, 16>,
    piece: &[u8],
) -> usize
    requires waits { target.old ≡ None → ranges.old.items ≡ [] }
    requires fit { All IsSmallPair (all_pairs target.old ranges.old.items) }
    requires room { vec_len ranges.old < vec_capacity ranges.old }
    requires part { length part.old.items < 16 }
    requires some { 0 < length piece.now }
    ensures some { 0 < result }
    ensures within { result ≤ length piece.now }
    ensures few { length part.old.items + result ≤ 16 }
    ensures bytes { pair_fields (all_pairs target.new ranges.new.items) ++ part.new.items
        ≡ pair_fields (all_pairs target.old ranges.old.items) ++ (part.old.items ++ take result piece.now) }
    ensures count { 16 * length (all_pairs target.new ranges.new.items) + length part.new.items
        ≡ 16 * length (all_pairs target.old ranges.old.items) + length part.old.items + result }
    ensures part { length part.new.items < 16 }
    ensures waits { target.new ≡ None → ranges.new.items ≡ [] }
    ensures fit { All IsSmallPair (all_pairs target.new ranges.new.items) }
{
    let count = fill(part, piece);
    if part.is_full() {
        add_pair(target, ranges, pair(part.as_slice()));
        part.clear();
    }
    count
}

impl Pairs {
    /// The fields of an operation, of which nothing has come.
    pub fn of(alloc: Global, operation: Operation, left: u32) -> Pairs
        requires fits { fits operation left ≡ true }
        requires second { since_of operation ≡ Some 2 }
        ensures { result ≡ record { bytes = number_of operation ∷ []; left = left } }
    {
        Pairs {
            alloc,
            operation,
            target: None,
            ranges: Vec::new(alloc),
            part: ArrayVec::new(),
            left,
        }
    }

    /// How many bytes are still to come.
    pub fn left(&self) -> u32
        ensures { result ≡ self.now.left }
    {
        self.left
    }

    /// Takes some bytes off the front of a piece, at least one, and says how many.
    pub fn take(&mut self, piece: &[u8]) -> Result<usize, NoMemory>
        requires more { 0 < self.old.left }
        requires some { 0 < length piece.now }
        ensures { IfOk result (TakesBytes self.old piece.now self.new) }
    {
        if self.ranges.reserve(1).is_err() {
            return Err(NoMemory);
        }
        let count = take_pair(&mut self.target, &mut self.ranges, &mut self.part, piece);
        self.left -= count as u32;
        Ok(count)
    }

    /// What they ask for, now that all has come.
    pub fn into_request(self) -> Option<Request>
        requires { self.left ≡ 0 }
        ensures { request_of 2 self.bytes ≡ result }
    {
        let Pairs {
            alloc,
            operation,
            target,
            ranges,
            part: _,
            left: _,
        } = self;
        let Some((blob, version)) = target else {
            unreachable!()
        };
        if operation.has_ranges() {
            Some(Request::ReadMany {
                blob,
                version,
                ranges: RangeList::of(ranges),
            })
        } else {
            operation.request(&[blob, version], Bytes::of(Vec::new(alloc)))
        }
    }
}
