// The read of a range of a snapshot.
ghost use Rattle.std.specs.Prelude.{◌≡◌, ℕ, ◌+◌, ◌*◌, ◌<◌, ◌≤◌, length, map, sum_by, All, OnOk, IfErr, Err};
ghost use Rattle.page_store.specs.Count.{HasRisen};
ghost use Rattle.page_fan.specs.Counts.{NoneFell};
ghost use Rattle.snapshot.specs.Versions.{size_now, IsVersionIn};
ghost use Rattle.range_reader.specs.Reading.{bytes_at, bound, IsKnown};
ghost use Rattle.range_reader.specs.Faults.{CountsKept, PageFailedIn};
ghost use Rattle.range_reader.specs.Answers.{ReadAnswers, OnPastSize, OnPageFault};

use crate::known::KnownNode;
use crate::marks::ReadRoom;
use crate::source::ReadSource;
use crate::walk::{walk, walk_to_page};
use node_store::NodeHouse;
use page_fan::Doors;
use page_store::{Door, Houses};
use snapshot::Snapshot;
use std::sync::ledger::Ledger;
use thiserror::Error;
use tree_geom::{Steps, height};

/// Why a read gave no bytes. The buffer then holds any bytes.
#[derive(Clone, Copy, Debug, PartialEq, Eq, Error)]
pub enum ReadFault {
    /// The range would end at byte `end`, past the version's size.
    #[error("the range ends at byte {end}, past the size of {size} bytes")]
    RangePastSize { end: u128, size: u64 },
    /// All doors of a stored page failed that this page of the blob needs.
    #[error("no door gave a stored page of page {0}")]
    PageFault(u64),
}

/// Reads as many bytes of the version as `out` has room for, from byte `offset` on.
///
/// It takes no lock and no memory, and waits for nobody. Its node steps are bounded by the clause `steps`; there are none for no
/// bytes and for a range past the size. `room` is one for pages of the snapshot's size.
pub fn read<D: Door, L: Ledger>(
    snapshot: &Snapshot,
    nodes: &NodeHouse,
    houses: &Houses,
    doors: &mut Doors<D>,
    room: &mut ReadRoom,
    offset: u64,
    out: &mut [u8],
    steps: &mut Steps<L>,
) -> Result<(), ReadFault>
    requires here { IsVersionIn nodes.now houses.now snapshot.now }
    requires doors { length doors.old ≡ length houses.now }
    requires room { length room.old ≡ snapshot.now.page_size }
    ensures bytes { All D.is_true doors.old → OnOk result (out.new ≡ bytes_at snapshot.now offset (length out.old)) }
    ensures refused { size_now snapshot.now < offset + length out.old → result ≡ Err (ReadFault.RangePastSize (offset + length out.old) (size_now snapshot.now)) }
    ensures past { IfErr result (λ fault. OnPastSize fault (size_now snapshot.now < offset + length out.old)) }
    ensures no_steps { size_now snapshot.now < offset + length out.old → steps.new ≡ steps.old }
    ensures steps { steps.new ≤ steps.old + bound snapshot.now offset (length out.old) }
    ensures some { IfErr result (λ fault. OnPageFault fault (λ _. 1 ≤ length out.old)) }
    ensures failed { IfErr result (λ fault. OnPageFault fault
        (PageFailedIn snapshot.now offset (length out.old) (map D.faults doors.old) (map D.faults doors.new))) }
    ensures counted { IfErr result (λ fault. OnPageFault fault (λ _. HasRisen (sum_by D.faults doors.old) (sum_by D.faults doors.new))) }
    ensures none_fell { NoneFell (map D.faults doors.old) (map D.faults doors.new) }
    ensures sum_never_falls { sum_by D.faults doors.old ≤ sum_by D.faults doors.new }
    ensures count { length doors.new ≡ length doors.old }
    ensures room_stays { length room.new ≡ length room.old }
    ensures truth_stays { All D.is_true doors.old → All D.is_true doors.new }
{
    let view = snapshot.view();
    let source = ReadSource {
        view: &view,
        nodes,
        houses,
    };
    read_version(&source, doors, room, &mut [], offset, out, steps)
}

/// Reads as `read` does, by the view of a version, and as one of several reads of it. Of the inner nodes none is asked for that is
/// among those that are known, and where the bytes lie in one page, nodes that it comes past are put among them, as many as there are
/// places for. Nobody else's are: so what is known of one version is lent to reads of that version alone.
///
/// It takes no lock and no memory, and waits for nobody. Its node steps are bounded by the clause `steps`; there are none for no
/// bytes and for a range past the size. `room` is one for pages of the snapshot's size.
pub fn read_version<D: Door, L: Ledger>(
    source: &ReadSource,
    doors: &mut Doors<D>,
    room: &mut ReadRoom,
    known: &mut [KnownNode],
    offset: u64,
    out: &mut [u8],
    steps: &mut Steps<L>,
) -> Result<(), ReadFault>
    requires here { IsVersionIn source.now.nodes.now source.now.houses.now source.now.view.now }
    requires doors { length doors.old ≡ length source.now.houses.now }
    requires room { length room.old ≡ source.now.view.now.page_size }
    requires known { All (IsKnown source.now.view.now) known.old }
    ensures bytes { All D.is_true doors.old → OnOk result (out.new ≡ bytes_at source.now.view.now offset (length out.old)) }
    ensures answers { ReadAnswers source.now.view.now offset (length out.old) (map D.faults doors.old) (map D.faults doors.new)
        (sum_by D.faults doors.old) (sum_by D.faults doors.new) result }
    ensures no_steps { size_now source.now.view.now < offset + length out.old → steps.new ≡ steps.old }
    ensures steps { steps.new ≤ steps.old + bound source.now.view.now offset (length out.old) }
    ensures kept { CountsKept (map D.faults doors.old) (map D.faults doors.new) (sum_by D.faults doors.old) (sum_by D.faults doors.new) }
    ensures count { length doors.new ≡ length doors.old }
    ensures room_stays { length room.new ≡ length room.old }
    ensures truth_stays { All D.is_true doors.old → All D.is_true doors.new }
    ensures known { All (IsKnown source.now.view.now) known.new }
    ensures known_stays { length known.new ≡ length known.old }
{
    range_log::laws::page_bytes_stay();
    range_log::laws::newest_is_greatest();
    range_log::walks::links_find();
    range_log::walks::visited_are_few();
    let view = source.view;
    let size = view.size();
    let end = u128::from(offset) + out.len() as u128;
    if end > u128::from(size) {
        return Err(ReadFault::RangePastSize { end, size });
    }
    if out.is_empty() {
        return Ok(());
    }
    let marks = room.wanted.as_mut_slice();
    let page_size = view.page_size();
    let bytes = page_size.bytes();
    if offset % bytes + out.len() as u64 <= bytes {
        let levels = height(page_size, size);
        return match walk_to_page(source, doors, steps, marks, known, levels, offset, out) {
            Ok(()) => Ok(()),
            Err(page) => Err(ReadFault::PageFault(page)),
        };
    }
    let version = view.version();
    let Some(root) = view.root() else {
        return Ok(());
    };
    match walk(
        source, doors, steps, marks, version, root.range, offset, out,
    ) {
        Ok(()) => Ok(()),
        Err(page) => Err(ReadFault::PageFault(page)),
    }
}
