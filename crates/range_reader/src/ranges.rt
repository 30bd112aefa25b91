// Ranges of a version, read into a buffer of their own.
ghost use Rattle.std.specs.Prelude.{◌≡◌, ◌≢◌, ℕ, ◌+◌, ◌≤◌, length, take, drop, map, sum_by, All, IfOk, OnOk, IfErr, Err, None, Some};
ghost use Rattle.blob_model.specs.Content.{content, size_of};
ghost use Rattle.range_log.specs.Updates.{extents};
ghost use Rattle.snapshot.specs.Versions.{IsVersionIn};
ghost use Rattle.range_reader.specs.Reading.{IsKnown};
ghost use Rattle.range_reader.specs.Faults.{CountsKept};
ghost use Rattle.range_reader.specs.Ranges.{OverUpdates, RangeAnswers, RangeSteps, RangesAnswers, first_end_past, joined, bytes_in, visits_of};

use crate::known::KnownNode;
use crate::marks::ReadRoom;
use crate::reader::{ReadFault, read_version};
use crate::source::ReadSource;
use blob_model::Bytes;
use page_fan::Doors;
use page_store::Door;
use std::alloc::Global;
use std::sync::ledger::Ledger;
use thiserror::Error;
use tree_geom::Steps;

// How many nodes a read of many ranges remembers: those of the upper six levels of a tree have places among so many.
const KNOWN: usize = 64;

/// Why a range was not read.
#[derive(Clone, Copy, Debug, PartialEq, Eq, Error)]
pub enum RangeFault {
    /// The range would end at byte `end`, past the version's size.
    #[error("the range ends at byte {end}, past the size of {size} bytes")]
    RangePastSize { end: u128, size: u64 },
    /// No provider gave this page of the blob, which the range meets; pages count from 0.
    #[error("no provider gave page {0}")]
    PageFault(u64),
    /// Memory was refused.
    #[error("no memory")]
    NoMemory,
}

/// Fills a part of a buffer with the bytes of the version from byte `offset` on, as many as the part has.
///
/// `RangePastSize` comes exactly where the range ends past the version's size. `PageFault` comes only where all doors of a stored
/// page failed that a page of the range needs; the part then holds any bytes. It takes no memory and no lock and waits for nobody.
/// The clause `steps` bounds its node steps; a range past the size takes none. `room` is one for pages of the snapshot's size, and
/// `known` has nodes of this version that earlier reads came past.
fn read_into<D: Door, L: Ledger>(
    source: &ReadSource,
    doors: &mut Doors<D>,
    room: &mut ReadRoom,
    known: &mut [KnownNode],
    offset: u64,
    out: &mut [u8],
    steps: &mut Steps<L>,
) -> Result<(), RangeFault>
    requires here { IsVersionIn source.now.nodes.now source.now.houses.now source.now.view.now }
    requires doors { length doors.old ≡ length source.now.houses.now }
    requires room { length room.old ≡ source.now.view.now.page_size }
    requires known { All (IsKnown source.now.view.now) known.old }
    requires true_doors { All D.is_true doors.old }
    ensures bytes { OverUpdates source.now.view.now (λ us. OnOk result (out.new ≡ take (length out.old) (drop offset (content us (length source.now.view.now.rows))))) }
    ensures answers { RangeAnswers source.now.view.now offset (length out.old) (map D.faults doors.old) (map D.faults doors.new)
        (sum_by D.faults doors.old) (sum_by D.faults doors.new) result }
    ensures memory { IfErr result (λ fault. fault ≢ RangeFault.NoMemory) }
    ensures steps { RangeSteps source.now.view.now offset (length out.old) steps.old steps.new }
    ensures kept { CountsKept (map D.faults doors.old) (map D.faults doors.new) (sum_by D.faults doors.old) (sum_by D.faults doors.new) }
    ensures doors_stay { length doors.new ≡ length doors.old }
    ensures room_stays { length room.new ≡ length room.old }
    ensures truth_stays { All D.is_true doors.new }
    ensures known { All (IsKnown source.now.view.now) known.new }
{
    range_log::laws::older_versions_stay();
    range_log::laws::page_bytes_stay();
    source.view.page_size().stands();
    source.view.stands();
    match read_version(source, doors, room, known, offset, out, steps) {
        Ok(()) => Ok(()),
        Err(ReadFault::RangePastSize { end, size }) => Err(RangeFault::RangePastSize { end, size }),
        Err(ReadFault::PageFault(page)) => Err(RangeFault::PageFault(page)),
    }
}

/// The `count` bytes of the version from byte `offset` on.
///
/// `RangePastSize` comes exactly where the range ends past the version's size. `PageFault` comes only where all doors of a stored
/// page failed that a page of the range needs. Memory is taken for the bytes once the range is known to be within the size.
///
/// It takes no lock and waits for nobody. The clause `steps` bounds its node steps; a range past the size takes none. `room` is one
/// for pages of the snapshot's size, and stays one.
pub fn read_range<D: Door, L: Ledger>(
    alloc: Global,
    source: &ReadSource,
    doors: &mut Doors<D>,
    room: &mut ReadRoom,
    offset: u64,
    count: u64,
    steps: &mut Steps<L>,
) -> Result<Bytes, RangeFault>
    requires here { IsVersionIn source.now.nodes.now source.now.houses.now source.now.view.now }
    requires doors { length doors.old ≡ length source.now.houses.now }
    requires room { length room.old ≡ source.now.view.now.page_size }
    requires true_doors { All D.is_true doors.old }

    ensures bytes { OverUpdates source.now.view.now (λ us. IfOk result (λ bytes. bytes ≡ take count (drop offset (content us (length source.now.view.now.rows))))) }
    ensures answers { RangeAnswers source.now.view.now offset count (map D.faults doors.old) (map D.faults doors.new)
        (sum_by D.faults doors.old) (sum_by D.faults doors.new) result }
    ensures steps { RangeSteps source.now.view.now offset count steps.old steps.new }
    ensures kept { CountsKept (map D.faults doors.old) (map D.faults doors.new) (sum_by D.faults doors.old) (sum_by D.faults doors.new) }
    ensures doors_stay { length doors.new ≡ length doors.old }
    ensures room_stays { length room.new ≡ length room.old }
    ensures truth_stays { All D.is_true doors.new }
{
    let size = source.view.size();
    let end = u128::from(offset) + u128::from(count);
    if end > u128::from(size) {
        return Err(RangeFault::RangePastSize { end, size });
    }
    let Ok(mut out) = vec![in alloc; 0; count as usize] else {
        return Err(RangeFault::NoMemory);
    };
    let buffer = out.as_mut_slice();
    match read_into(source, doors, room, &mut [], offset, buffer, steps) {
        Ok(()) => Ok(Bytes::of(out)),
        Err(fault) => Err(fault),
    }
}

/// The end of the first of these ranges that ends past the size.
pub fn first_past(size: u64, ranges: &[(u64, u64)]) -> Option<u128>
    ensures { result ≡ first_end_past size ranges.now }
{
    for range in ranges {
        let (offset, count) = *range;
        let end = u128::from(offset) + u128::from(count);
        if u128::from(size) < end {
            return Some(end);
        }
    }
    None
}

// Fills a buffer with the bytes of these ranges of the version, one behind the other. Of the inner nodes that
// several of them lie below, those that `known` has places for are asked for once.
fn fill_ranges<D: Door, L: Ledger>(
    source: &ReadSource,
    doors: &mut Doors<D>,
    room: &mut ReadRoom,
    known: &mut [KnownNode],
    ranges: &[(u64, u64)],
    out: &mut [u8],
    steps: &mut Steps<L>,
) -> Result<(), RangeFault>
    requires here { IsVersionIn source.now.nodes.now source.now.houses.now source.now.view.now }
    requires doors { length doors.old ≡ length source.now.houses.now }
    requires room { length room.old ≡ source.now.view.now.page_size }
    requires known { All (IsKnown source.now.view.now) known.old }
    requires true_doors { All D.is_true doors.old }
    requires whole { length out.old ≡ bytes_in ranges.now }
    ensures bytes { OverUpdates source.now.view.now (λ us. OnOk result (out.new ≡ joined (content us (length source.now.view.now.rows)) ranges.now)) }
    ensures answers { RangesAnswers source.now.view.now ranges.now (map D.faults doors.old) (map D.faults doors.new)
        (sum_by D.faults doors.old) (sum_by D.faults doors.new) result }
    ensures memory { IfErr result (λ fault. fault ≢ RangeFault.NoMemory) }
    ensures steps { OverUpdates source.now.view.now (λ us. steps.new ≤ steps.old + visits_of source.now.view.now.page_size (extents us) (length source.now.view.now.rows) ranges.now) }
    ensures kept { CountsKept (map D.faults doors.old) (map D.faults doors.new) (sum_by D.faults doors.old) (sum_by D.faults doors.new) }
    ensures doors_stay { length doors.new ≡ length doors.old }
    ensures room_stays { length room.new ≡ length room.old }
    ensures truth_stays { All D.is_true doors.new }
{
    let mut filled = 0;
    for range in ranges {
        let (offset, count) = *range;
        let end = filled + count as usize;
        let part = &mut out[filled..end];
        match read_into(source, doors, room, known, offset, part, steps) {
            Ok(()) => filled = end,
            Err(fault) => return Err(fault),
        }
    }
    Ok(())
}

/// The bytes of these ranges of the version, one behind the other. They have `count` bytes together.
///
/// `RangePastSize` comes exactly where one of them ends past the version's size, and tells of the first such range. `PageFault`
/// names a page that one of the ranges meets, and comes only where all doors of a stored page failed that it needs. Memory is taken once for all bytes, when all
/// ranges are known to be within the size, and each range is read into its place there. A little more is taken for the nodes near the
/// tree's root, so that those that several ranges lie below are asked for once.
///
/// It takes no lock and waits for nobody. The clause `steps` bounds its node steps; where a range ends past the size there are
/// none. `room` is one for pages of the snapshot's size, and stays one.
pub fn read_ranges<D: Door, L: Ledger>(
    alloc: Global,
    source: &ReadSource,
    doors: &mut Doors<D>,
    room: &mut ReadRoom,
    ranges: &[(u64, u64)],
    count: u64,
    steps: &mut Steps<L>,
) -> Result<Bytes, RangeFault>
    requires here { IsVersionIn source.now.nodes.now source.now.houses.now source.now.view.now }
    requires doors { length doors.old ≡ length source.now.houses.now }
    requires room { length room.old ≡ source.now.view.now.page_size }
    requires true_doors { All D.is_true doors.old }
    requires count { count ≡ bytes_in ranges.now }

    ensures bytes { OverUpdates source.now.view.now (λ us. IfOk result (λ bytes. bytes ≡ joined (content us (length source.now.view.now.rows)) ranges.now)) }
    ensures refused { OverUpdates source.now.view.now (λ us. (end : ℕ) → first_end_past (size_of us (length source.now.view.now.rows)) ranges.now ≡ Some end
        → result ≡ Err (RangeFault.RangePastSize end (size_of us (length source.now.view.now.rows)))) }
    ensures answers { RangesAnswers source.now.view.now ranges.now (map D.faults doors.old) (map D.faults doors.new)
        (sum_by D.faults doors.old) (sum_by D.faults doors.new) result }
    ensures steps { OverUpdates source.now.view.now (λ us. steps.new ≤ steps.old + visits_of source.now.view.now.page_size (extents us) (length source.now.view.now.rows) ranges.now) }
    ensures no_steps { OverUpdates source.now.view.now (λ us. first_end_past (size_of us (length source.now.view.now.rows)) ranges.now ≢ None → steps.new ≡ steps.old) }
    ensures kept { CountsKept (map D.faults doors.old) (map D.faults doors.new) (sum_by D.faults doors.old) (sum_by D.faults doors.new) }
    ensures doors_stay { length doors.new ≡ length doors.old }
    ensures room_stays { length room.new ≡ length room.old }
    ensures truth_stays { All D.is_true doors.new }
{
    source.view.stands();
    let size = source.view.size();
    if let Some(end) = first_past(size, ranges) {
        return Err(RangeFault::RangePastSize { end, size });
    }
    let Ok(mut out) = vec![in alloc; 0; count as usize] else {
        return Err(RangeFault::NoMemory);
    };
    let Ok(mut known) = vec![in alloc; KnownNode::none(); KNOWN] else {
        return Err(RangeFault::NoMemory);
    };
    let (buffer, known) = (out.as_mut_slice(), known.as_mut_slice());
    match fill_ranges(source, doors, room, known, ranges, buffer, steps) {
        Ok(()) => Ok(Bytes::of(out)),
        Err(fault) => Err(fault),
    }
}
