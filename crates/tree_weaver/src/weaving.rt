// The row of a numbered update.
ghost use Rattle.std.specs.Prelude.{◌≡◌, ◌<◌, ℕ, ◌≤◌, List, [], All, length, map, sum_by, IfOk, IfErr, IfSome, IfNone};
ghost use Rattle.std.specs.Arc.{arc_value};
ghost use Rattle.range_log.specs.Extents.{Extent};
ghost use Rattle.range_log.specs.Rows.{folds_of, row_of};
ghost use Rattle.snapshot.specs.Versions.{NodesLieIn, IsVersionIn};
ghost use Rattle.border_hints.specs.Numbered.{IsTicketAmong};
ghost use Rattle.page_store.specs.Count.{HasRisen};
ghost use Rattle.page_store.specs.House.{House};
ghost use Rattle.page_store.specs.Stored.{LieAmong};
ghost use Rattle.page_fan.specs.Counts.{NoneFell};
ghost use Rattle.tree_weaver.specs.Planned.{ranges_of, own_ranges};
ghost use Rattle.tree_weaver.specs.Anew.{StoresNoneAnew, StoresSomeAnew, IsStoredAnew, KnowsBefore, FoldFailed, OnLostFold};
ghost use Rattle.tree_weaver.specs.Woven.{IsWoven, BytesAnewStand};
ghost use Rattle.tree_weaver.specs.Put.{WasPut};

use crate::folding::{Folding, WeaveFault};
use crate::planning::{PlannedRow, plan};
use crate::put::put_row;
use border_hints::Ticket;
use node_store::{Folds, NoMemory, NodeHouse, Row};
use page_fan::{BesideDoor, Doors};
use page_store::Houses;
use provider_manager::SharedLoads;
use range_reader::ReadRoom;
use std::alloc::Global;
use std::marker::Brand;
use std::sync::ledger::{Blank, Ledger};
use std::sync::{Arc, Wait};
use std::thread::Threads;
use tree_geom::Steps;

/// Weaves the row of the ticket's update, and stores its nodes under the ticket's blob, where the update stores no page of the blob
/// anew. Its pages are the ticket's, so it lies in each list of houses in which these lie. Where it stores a page anew the answer is
/// None, and nothing was put: then `weave_anew` weaves the row, once the version before is published.
///
/// It takes no lock, and may wait for another thread's put into the house. After want of memory some nodes may lie unused there, and
/// it may be called again.
pub fn weave<R: Wait>(
    rt: &R,
    alloc: Global,
    ticket: &Ticket,
    nodes: &NodeHouse,
) -> Result<Option<Arc<Row>>, NoMemory>
    requires { NodesLieIn nodes.now ticket.now.snapshot }
    ensures woven { IfOk result (λ said. IfSome said (λ row.
        (houses : List House) → LieAmong houses ticket.now.pages.pages → IsWoven nodes.now houses ticket.now (arc_value row))) }
    ensures none_anew { IfOk result (λ said. IfSome said (λ _. StoresNoneAnew ticket.now)) }
    ensures anew { IfOk result (λ said. IfNone said (StoresSomeAnew ticket.now)) }
{
    snapshot::laws::rows_stay();
    crate::laws::stored_rows_are_rows();
    ticket.stands();
    let planned = planned::<Brand>(ticket, nodes, Blank::new(1))?;
    let [first, last] = planned.folded();
    if first.is_some() || last.is_some() {
        return Ok(None);
    }
    let row = put_row(rt, alloc, ticket, &planned, Folds::none(), nodes)?;
    Ok(Some(row))
}

/// Weaves the row of the ticket's update, also of one that stores pages of the blob anew, and stores its nodes under the ticket's blob.
/// Such an update is woven by a ticket whose snapshot is the version before it.
///
/// Each page that is stored anew is read at the version before, by the doors, and the update's own bytes, which come from its stored pages,
/// are put over it. It is placed by the loads as each page of an update is, and counts as stored where one door of its placement
/// took it. `PageFault` names such a page of the blob, by its number from 0, and comes only where all doors of a stored page failed that
/// is read for it, or all doors of its placement. An update that stores no page anew calls no door.
///
/// It may wait for the lock of the loads and for another thread's push or put into a house, and may start threads, which it has
/// joined when it answers. `room` is one for pages of the store's size, and stays one. After a fault nodes and pages that were put may lie
/// unused in their houses, and it may be called again.
pub fn weave_anew<D: BesideDoor, R: Threads + Wait + Sync>(
    rt: &R,
    alloc: Global,
    ticket: &Ticket,
    nodes: &NodeHouse,
    loads: &SharedLoads,
    doors: &mut Doors<D>,
    houses: &Houses,
    room: &mut ReadRoom,
) -> Result<Arc<Row>, WeaveFault>
    requires before { KnowsBefore ticket.now }
    requires here { IsVersionIn nodes.now houses.now ticket.now.snapshot }
    requires pages { LieAmong houses.now ticket.now.pages.pages }
    requires served { loads.now.providers ≡ length doors.old }
    requires doors { length doors.old ≡ length houses.now }
    requires room { length room.old ≡ ticket.now.snapshot.page_size }
    requires true_doors { All D.is_true doors.old }

    // Where all is well.
    ensures woven { IfOk result (λ row. IsWoven nodes.now houses.now ticket.now (arc_value row)) }
    ensures put { IfOk result (λ row. All (WasPut D.called D.faults loads.now.providers loads.now.replicas doors.old doors.new) (arc_value row).folds) }

    // Why a page fault is answered.
    ensures page { IfErr result (λ fault. OnLostFold fault (IsStoredAnew ticket.now)) }
    ensures failed { IfErr result (λ fault. OnLostFold fault
        (FoldFailed ticket.now loads.now.providers loads.now.replicas (map D.faults doors.old) (map D.faults doors.new))) }
    ensures counted { IfErr result (λ fault. OnLostFold fault (λ _. HasRisen (sum_by D.faults doors.old) (sum_by D.faults doors.new))) }

    // What becomes of the doors and the room.
    ensures untouched { StoresNoneAnew ticket.now → doors.new ≡ doors.old }
    ensures none_fell { NoneFell (map D.faults doors.old) (map D.faults doors.new) }
    ensures sum_never_falls { sum_by D.faults doors.old ≤ sum_by D.faults doors.new }
    ensures doors_stay { length doors.new ≡ length doors.old }
    ensures room_stays { length room.new ≡ length room.old }
    ensures truth_stays { All D.is_true doors.new }
{
    snapshot::laws::rows_stay();
    crate::laws::stored_rows_are_rows();
    bytes_anew_stand();
    ticket.stands();
    let planned = planned::<Brand>(ticket, nodes, Blank::new(1))?;
    let folding = Folding {
        ticket,
        nodes,
        houses,
        loads,
    };
    match folding.fold_pages(rt, alloc, doors, room, planned.folded()) {
        Ok(folds) => Ok(put_row(rt, alloc, ticket, &planned, folds, nodes)?),
        Err(fault) => Err(fault),
    }
}

// A page's bytes with the update's own over them are those of the page after the update, among whichever updates it is one. For
// proofs: it does nothing.
fn bytes_anew_stand()
    ensures { BytesAnewStand }
{
    range_log::laws::extents_hold();
    range_log::laws::folds_are();
    range_log::laws::leaves_fill();
    range_log::laws::logs_are_grown();
    range_log::laws::newest_has_node();
    range_log::laws::newest_is_greatest();
}

// The plan of the ticket's row, whose node steps nobody counts.
fn planned<'a, L: Ledger>(
    ticket: &'a Ticket,
    nodes: &NodeHouse,
    blank: Blank,
) -> Result<PlannedRow<'a>, NoMemory>
    requires here { NodesLieIn nodes.now ticket.now.snapshot }
    requires name { blank.name ≡ L.name }
    requires parts { blank.parts ≡ L.parts }
    requires some { 0 < blank.parts }
    ensures row { IfOk result (λ row. (us : List Extent) → IsTicketAmong ticket.now us → row.nodes ≡ row_of ticket.now.snapshot.page_size us ticket.now.version) }
    ensures ranges { IfOk result (λ row. ranges_of row.nodes ≡ own_ranges ticket.now) }
    ensures folded { IfOk result (λ row. (us : List Extent) → IsTicketAmong ticket.now us → row.folded ≡ folds_of ticket.now.snapshot.page_size us ticket.now.version) }
{
    let mut steps = Steps::<L>::open(blank);
    plan(ticket, nodes, &mut steps)
}
