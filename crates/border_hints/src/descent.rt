// The way down the published snapshot's tree to the edges of an update's row.
ghost use Rattle.std.specs.Prelude.{◌≡◌, ℕ, ◌+◌, ◌-◌, ◌*◌, ◌/◌, ◌^◌, ◌<◌, ◌≤◌, List, length};
ghost use Rattle.tree_geom.specs.Geometry.{tree_range, height_of, meets_of};
ghost use Rattle.range_log.specs.Log.{newest_of};
ghost use Rattle.range_log.specs.Depths.{fold_number, depth_of, depth_after};
ghost use Rattle.snapshot.specs.Versions.{size_now, NodesLieIn};
ghost use Rattle.border_hints.specs.Numbered.{log_of, log_upto, own_touch};
ghost use Rattle.border_hints.specs.Borders.{beside, newest_known, KnowsEdge, AreBorders, edge_links};

use crate::border::{Borders, Edge};
use crate::known::{depth_known, halves_known};
use crate::ticket::Ticket;
use node_store::NodeHouse;
use range_log::deeper;
use snapshot::{RowView, Snapshot};
use std::sync::ledger::Ledger;
use tree_geom::{Steps, Touch, height, span_stands};

// Whether an update with that touch touches range number `number` of a height.
fn reaches(touch: &Touch, level: u32, number: u64) -> bool
    requires { level < 64 }
    ensures { (p : ℕ) → 1 ≤ p → result ≡ meets_of p touch.now (tree_range p level number) }
{
    let first = touch.first >> level;
    let last = touch.last >> level;
    first <= number && number <= last
}

// The newest lower version for range number `number` of a height: the newest waiting update that touches it, or else `known`,
// that of the snapshot. The range is told by its number, so that nothing is multiplied where nothing waits, and nothing is divided.
fn newest_below(ticket: &Ticket, level: u32, number: u64, known: u64) -> u64
    requires level { level < 64 }
    requires known { let s = ticket.now.snapshot in known ≡ newest_known s (tree_range s.page_size level number) }
    ensures { let t = ticket.now in
        result ≡ newest_of t.snapshot.page_size (log_upto t) (t.version - 1) (tree_range t.snapshot.page_size level number) }
{
    range_log::laws::logs_are_grown();
    range_log::laws::older_versions_stay();
    ticket.stands();
    let hints = ticket.hints();
    for i in (0..hints.waiting.count()).rev() {
        let waiting = hints.waiting.at(i);
        if reaches(&waiting.touch, level, number) {
            return waiting.version;
        }
    }
    known
}

// How deep the newest leaf of the page lies after an update, where it lay `depth` deep before: 0 where the update covers
// the page, one more where it leaves valid bytes of it to older leaves, or 0 again where it stores the page anew, and the same
// where it doesn't touch the page.
fn depth_with(touch: &Touch, page: u64, depth: u32) -> u32
    requires { depth ≤ 2 ^ 21 }
    ensures { (p : ℕ) → 1 ≤ p → result ≡ depth_after fold_number p touch.now page depth }
{
    tree_geom::laws::ranges_align();
    if !reaches(touch, 0, page) {
        return depth;
    }
    if touch.leaves_open(page) {
        deeper(depth)
    } else {
        0
    }
}

// How deep the newest lower leaf of the page lies, where that of the snapshot lies `known` deep.
fn depth_below(ticket: &Ticket, page: u64, known: u32) -> u32
    requires { let s = ticket.now.snapshot in known ≡ depth_of s.page_size (log_of s) (length s.rows) page }
    ensures depth { result ≡ depth_of ticket.now.snapshot.page_size (log_upto ticket.now) (ticket.now.version - 1) page }
    ensures few { result ≤ 2 ^ 21 }
{
    range_log::laws::logs_are_grown();
    range_log::laws::depth_counts_backs();
    ticket.stands();
    let hints = ticket.hints();
    let mut depth = known;
    for i in 0..hints.waiting.count() {
        let waiting = hints.waiting.at(i);
        depth = depth_with(&waiting.touch, page, depth);
    }
    depth
}

// The height of the snapshot's tree, or 0 for version 0.
fn tree_height(snapshot: &Snapshot) -> u32
    ensures { result ≡ height_of snapshot.now.page_size (size_now snapshot.now) }
{
    let size = snapshot.size();
    if size == 0 {
        return 0;
    }
    height(snapshot.page_size(), size)
}

// One step on the path to the page, down to the range of height `level`, from the one above, whose newest version of the
// snapshot is `at`, that of the row: that for the next range on the path, and the newest lower version for the one beside it.
fn turn<L: Ledger>(
    ticket: &Ticket,
    nodes: &NodeHouse,
    row: &RowView,
    at: u64,
    tall: u32,
    level: u32,
    page: u64,
    steps: &mut Steps<L>,
) -> (u64, u64)
    requires here { NodesLieIn nodes.now ticket.now.snapshot }
    requires version { row.now.version ≡ ticket.now.snapshot }
    requires row { row.now.update ≡ at }
    requires tall { tall ≡ height_of ticket.now.snapshot.page_size (size_now ticket.now.snapshot) }
    requires level { level < 64 }
    requires at { at ≡ newest_known ticket.now.snapshot (tree_range ticket.now.snapshot.page_size (level + 1) (page / 2 ^ (level + 1))) }
    ensures on { result.0 ≡ newest_known ticket.now.snapshot (tree_range ticket.now.snapshot.page_size level (page / 2 ^ level)) }
    ensures off { let t = ticket.now in
        result.1 ≡ newest_of t.snapshot.page_size (log_upto t) (t.version - 1) (tree_range t.snapshot.page_size level (beside (page / 2 ^ level))) }
    ensures steps { steps.new ≤ steps.old + 1 }
{
    let number = page >> level;
    let (low, high) = halves_known(row, nodes, at, tall, level, number / 2, steps);
    if number % 2 == 0 {
        (low, newest_below(ticket, level, number + 1, high))
    } else {
        (high, newest_below(ticket, level, number - 1, low))
    }
}

// Fills an edge with the newest lower versions along the path to the page, which is one of the update's version, and with how
// deep the page's newest lower leaf lies.
fn descend<L: Ledger>(
    ticket: &Ticket,
    nodes: &NodeHouse,
    page: u64,
    edge: &mut Edge,
    steps: &mut Steps<L>,
)
    requires here { NodesLieIn nodes.now ticket.now.snapshot }
    requires page { page * ticket.now.snapshot.page_size < ticket.now.size }
    ensures knows { let t = ticket.now in
        KnowsEdge t.snapshot.page_size (log_upto t) (t.version - 1) (height_of t.snapshot.page_size t.size) page
        (edge_links edge.new.besides edge.new.leaf edge.new.depth) }
    ensures few { edge.new.depth ≤ 2 ^ 21 }
    ensures steps { steps.new ≤ steps.old + height_of ticket.now.snapshot.page_size ticket.now.size + 1 }
{
    tree_geom::laws::spans_hold();
    tree_geom::laws::ranges_align();
    range_log::laws::newest_is_greatest();
    range_log::laws::logs_are_grown();
    range_log::laws::page_bytes_stay();
    let snapshot = &ticket.hints().snapshot;
    let p = snapshot.page_size();
    ticket.stands();
    ticket.hints().waiting.stands();
    let tall = tree_height(snapshot);
    let view = snapshot.view();
    let mut at = snapshot.version();
    let mut row = view.row_of(at);
    for level in (0..height(p, ticket.size())).rev() {
        let (on, off) = turn(ticket, nodes, &row, at, tall, level, page, steps);
        edge.besides[level as usize] = off as u32;
        // mostly the next node is of the same row
        if on != at {
            row = view.row_of(on);
        }
        at = on;
    }
    let known = depth_known(&row, nodes, at, page, steps);
    edge.leaf = newest_below(ticket, 0, page, at) as u32;
    edge.depth = depth_below(ticket, page, known);
}

/// The newest lower versions over the borders of the row of the ticket's update, and how deep the newest lower leaves of its
/// first and its last page lie.
///
/// It goes down the snapshot's tree to a leaf once for each edge, and once where both are one page. So it takes at most
/// `2 h + 2` node steps, `h` the height of the tree after the update, and `h + 1` where the update touches one page. It takes
/// no memory, no lock, and waits for nobody.
#[tactic(auto, using(crate::proofs::Turning::first_inside, crate::proofs::Turning::last_inside, crate::proofs::Turning::pages_ordered))]
pub fn borders<L: Ledger>(ticket: &Ticket, nodes: &NodeHouse, steps: &mut Steps<L>) -> Borders
    requires here { NodesLieIn nodes.now ticket.now.snapshot }
    ensures page_size { result.page_size ≡ ticket.now.snapshot.page_size }
    ensures touch { result.touch ≡ own_touch ticket.now }
    ensures borders { AreBorders (log_upto ticket.now) (ticket.now.version - 1) result }
    ensures steps { steps.new ≤ steps.old + 2 * height_of ticket.now.snapshot.page_size ticket.now.size + 2 }
    ensures one_page { let touch = own_touch ticket.now in
        touch.first ≡ touch.last → steps.new ≤ steps.old + height_of ticket.now.snapshot.page_size ticket.now.size + 1 }
{
    ticket.stands();
    let page_size = ticket.hints().snapshot.page_size();
    span_stands(page_size, ticket.size());
    let touch = ticket.touch();
    let mut found = Borders {
        page_size,
        touch,
        first: Edge::blank(),
        last: None,
    };
    descend(ticket, nodes, touch.first, &mut found.first, steps);
    if touch.last != touch.first {
        let mut last = Edge::blank();
        descend(ticket, nodes, touch.last, &mut last, steps);
        found.last = Some(last);
    }
    found
}
