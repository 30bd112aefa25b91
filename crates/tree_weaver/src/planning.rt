// The plan of a row.
ghost use Rattle.std.specs.Prelude.{◌≡◌, ℕ, ◌+◌, ◌-◌, ◌*◌, ◌/◌, ◌^◌, ◌<◌, ◌≤◌, ◌++◌, List, length, IfOk};
ghost use Rattle.std.specs.List.{filter_map};
ghost use Rattle.tree_geom.specs.Geometry.{tree_range, height_of};
ghost use Rattle.range_log.specs.Extents.{Extent};
ghost use Rattle.range_log.specs.Rows.{folds_of, level_of, levels_of, row_of};
ghost use Rattle.node_store.specs.House.{IsIn};
ghost use Rattle.border_hints.specs.Numbered.{own_touch, IsTicketAmong};
ghost use Rattle.snapshot.specs.Versions.{NodesLieIn};
ghost use Rattle.tree_weaver.specs.Planned.{own_node, own_nodes, own_ranges, ranges_of, nodes_of, TellsNodes, TellsRow};

use crate::node::{folds, inner, leaf, page_size};
use border_hints::{Borders, Ticket, borders};
use node_store::{NoMemory, NodeHouse, RowNodes};
use std::alloc::Global;
use std::marker::{Brand, Model};
use std::sync::Wait;
use std::sync::ledger::{Blank, Ledger};
use tree_geom::{Node, Range, Steps, Touch, height, span_stands};

/// The nodes of a numbered update beside their ranges, in the order of its row: the largest ranges first, and then by offset.
/// Beside them are the pages of the blob that the update stores anew.
///
/// It has the borders of the row and borrows the ticket, and tells each node by these when it is put. So a plan takes no memory.
#[derive(Drop)]
pub struct PlannedRow<'a> {
    ticket: &'a Ticket,
    borders: Borders,
    // of the tree after the update
    height: u32,
    folded: [Option<u64>; 2],
}

impl<'a> Model for PlannedRow<'a> {
    ghost use Rattle.std.specs.List.{filter_map};
    ghost use Rattle.tree_weaver.specs.Planned.{RowPlan, TellsRow, own_nodes, own_ranges};

    ghost Value = { RowPlan };

    ghost view = { λ r. record { nodes = own_nodes r.ticket.now (own_ranges r.ticket.now); folded = filter_map (λ o. o) r.folded } };

    ghost invariant = { λ r. TellsRow r.ticket.now r.borders r.height };
}

impl<'a> PlannedRow<'a> {
    /// A list of the nodes beside their ranges.
    pub fn nodes(&self, alloc: Global) -> Result<Vec<(Range, Node)>, NoMemory>
        ensures { IfOk result (λ list. list.items ≡ self.now.nodes) }
    {
        listed(alloc, self.ticket, &self.borders, self.height)
    }

    /// The pages of the blob that the update stores anew, in their order.
    pub fn folded(&self) -> [Option<u64>; 2]
        ensures { filter_map (λ o. o) result ≡ self.now.folded }
    {
        self.folded
    }

    /// Puts the nodes into a house, one after another, as nodes of that version.
    pub(crate) fn put<R: Wait>(
        &self,
        rt: &R,
        alloc: Global,
        version: u64,
        nodes: &NodeHouse,
    ) -> Result<RowNodes, NoMemory>
        ensures here { IfOk result (λ row. IsIn nodes.now row.spot) }
        ensures version { IfOk result (λ row. row.version ≡ version) }
        ensures nodes { IfOk result (λ row. row.nodes ≡ nodes_of self.now.nodes) }
    {
        put_nodes(
            rt,
            alloc,
            version,
            self.ticket,
            &self.borders,
            self.height,
            nodes,
        )
    }
}

// The update's node for range number `q` of a height. The update touches the range.
fn node(ticket: &Ticket, borders: &Borders, level: u32, q: u64) -> Node
    requires tells { TellsNodes ticket.now borders.now }
    requires level { level ≤ height_of ticket.now.snapshot.page_size ticket.now.size }
    requires first { (own_touch ticket.now).first / 2 ^ level ≤ q }
    requires last { q ≤ (own_touch ticket.now).last / 2 ^ level }
    ensures { result ≡ own_node ticket.now (tree_range ticket.now.snapshot.page_size level q) }
{
    ticket.stands();
    if level == 0 {
        leaf(ticket, borders, q)
    } else {
        inner(ticket, borders, level, q)
    }
}

// The same beside its range.
fn pair(ticket: &Ticket, borders: &Borders, level: u32, q: u64) -> (Range, Node)
    requires tells { TellsNodes ticket.now borders.now }
    requires level { level ≤ height_of ticket.now.snapshot.page_size ticket.now.size }
    requires root { ticket.now.snapshot.page_size * 2 ^ height_of ticket.now.snapshot.page_size ticket.now.size ≤ 2 ^ 40 }
    requires first { (own_touch ticket.now).first / 2 ^ level ≤ q }
    requires last { q ≤ (own_touch ticket.now).last / 2 ^ level }
    ensures { let range = tree_range ticket.now.snapshot.page_size level q in
        result ≡ record { 0 = range; 1 = own_node ticket.now range } }
{
    tree_geom::laws::spans_hold();
    tree_geom::laws::ranges_align();
    ticket.stands();
    let size = page_size(ticket).bytes() << level;
    let range = Range {
        offset: q * size,
        size,
    };
    (range, node(ticket, borders, level, q))
}

// Adds the update's nodes for the ranges of one height to a list, by offset.
fn list_level(
    ticket: &Ticket,
    borders: &Borders,
    level: u32,
    row: &mut Vec<(Range, Node)>,
) -> Result<(), NoMemory>
    requires tells { TellsNodes ticket.now borders.now }
    requires level { level ≤ height_of ticket.now.snapshot.page_size ticket.now.size }
    requires root { ticket.now.snapshot.page_size * 2 ^ height_of ticket.now.snapshot.page_size ticket.now.size ≤ 2 ^ 40 }
    ensures { IfOk result (λ _. row.new.items ≡ row.old.items ++ own_nodes ticket.now (level_of ticket.now.snapshot.page_size (own_touch ticket.now) level)) }
{
    ticket.stands();
    let touch = ticket.touch();
    for q in touch.first >> level..(touch.last >> level) + 1 {
        row.push(pair(ticket, borders, level, q))?;
    }
    Ok(())
}

// A list of the update's nodes beside their ranges.
fn listed(
    alloc: Global,
    ticket: &Ticket,
    borders: &Borders,
    height: u32,
) -> Result<Vec<(Range, Node)>, NoMemory>
    requires tells { TellsRow ticket.now borders.now height }
    ensures { IfOk result (λ list. list.items ≡ own_nodes ticket.now (own_ranges ticket.now)) }
{
    tree_geom::laws::spans_hold();
    ticket.stands();
    span_stands(page_size(ticket), ticket.size());
    let mut row = Vec::new(alloc);
    for level in (0..height + 1).rev() {
        list_level(ticket, borders, level, &mut row)?;
    }
    Ok(row)
}

// How many nodes the row of an update with that touch has, in a tree of that height. Where it touches one page there is one at each
// height.
fn node_count(touch: &Touch, height: u32) -> u64
    requires ordered { touch.now.first ≤ touch.now.last }
    requires small { touch.now.last ≤ 2 ^ 40 }
    requires low { height ≤ 38 }
    ensures { (p : ℕ) → result ≡ length (levels_of p touch.now (height + 1)) }
{
    if touch.first == touch.last {
        return u64::from(height) + 1;
    }
    let mut count = 0u64;
    for level in 0..height + 1 {
        count += (touch.last >> level) - (touch.first >> level) + 1;
    }
    count
}

// Puts the update's nodes for the ranges of one height, by offset.
fn put_level(
    ticket: &Ticket,
    borders: &Borders,
    level: u32,
    nodes: &NodeHouse,
    row: &mut RowNodes,
) -> Result<(), NoMemory>
    requires tells { TellsNodes ticket.now borders.now }
    requires level { level ≤ height_of ticket.now.snapshot.page_size ticket.now.size }
    requires here { IsIn nodes.now row.old.spot }
    requires room { length row.old.nodes + length (level_of ticket.now.snapshot.page_size (own_touch ticket.now) level) ≤ row.old.room }
    ensures { IfOk result (λ _. row.new ≡ record row.old {
      nodes = row.old.nodes ++ nodes_of (own_nodes ticket.now (level_of ticket.now.snapshot.page_size (own_touch ticket.now) level));
    }) }
{
    ticket.stands();
    let touch = ticket.touch();
    for q in touch.first >> level..(touch.last >> level) + 1 {
        nodes.put(row, node(ticket, borders, level, q))?;
    }
    Ok(())
}

// Puts the update's nodes, one after another, as nodes of that version.
fn put_nodes<R: Wait>(
    rt: &R,
    alloc: Global,
    version: u64,
    ticket: &Ticket,
    borders: &Borders,
    height: u32,
    nodes: &NodeHouse,
) -> Result<RowNodes, NoMemory>
    requires tells { TellsRow ticket.now borders.now height }
    ensures here { IfOk result (λ row. IsIn nodes.now row.spot) }
    ensures version { IfOk result (λ row. row.version ≡ version) }
    ensures nodes { IfOk result (λ row. row.nodes ≡ nodes_of (own_nodes ticket.now (own_ranges ticket.now))) }
{
    ticket.stands();
    let count = node_count(&ticket.touch(), height) as usize;
    let mut row = nodes.room(rt, alloc, version, count)?;
    for level in (0..height + 1).rev() {
        put_level(ticket, borders, level, nodes, &mut row)?;
    }
    Ok(row)
}

/// Plans the row of the ticket's update. However far publication had come at the numbering, it is the row that its version has
/// in the whole list of the blob's updates.
///
/// It takes at most `2 h + 2` node steps, `h` the height of the tree after the update, and `h + 1` where the update touches one
/// page, and time linear in the waiting updates and the height. It takes no memory and no lock, and waits for nobody. It fails
/// only for an update of more pages than all but two of the numbers that there are for pages, which is taken for one that wants
/// memory.
pub fn plan<'a, L: Ledger>(
    ticket: &'a Ticket,
    nodes: &NodeHouse,
    steps: &mut Steps<L>,
) -> Result<PlannedRow<'a>, NoMemory>
    requires here { NodesLieIn nodes.now ticket.now.snapshot }
    ensures row { IfOk result (λ row. (us : List Extent) → IsTicketAmong ticket.now us → row.nodes ≡ row_of ticket.now.snapshot.page_size us ticket.now.version) }
    ensures ranges { IfOk result (λ row. ranges_of row.nodes ≡ own_ranges ticket.now) }
    ensures folded { IfOk result (λ row. (us : List Extent) → IsTicketAmong ticket.now us → row.folded ≡ folds_of ticket.now.snapshot.page_size us ticket.now.version) }
    ensures steps { steps.new ≤ steps.old + 2 * height_of ticket.now.snapshot.page_size ticket.now.size + 2 }
    ensures one_page { let touch = own_touch ticket.now in
        touch.first ≡ touch.last → steps.new ≤ steps.old + height_of ticket.now.snapshot.page_size ticket.now.size + 1 }
{
    range_log::laws::logs_are_grown();
    if ticket.pages().count() > u32::MAX - 2 {
        return Err(NoMemory);
    }
    let borders = borders(ticket, nodes, steps);
    let folded = folds(ticket, &borders);
    ticket.stands();
    let height = height(page_size(ticket), ticket.size());
    Ok(PlannedRow {
        ticket,
        borders,
        height,
        folded,
    })
}

/// The pages of the blob that the ticket's update stores anew, in their order: those that its planned row would name, from the ticket
/// alone and without a plan.
///
/// It goes down the snapshot's tree as `plan` does and makes no row: it takes no memory and no lock, and waits for nobody.
pub fn folds_of_ticket(ticket: &Ticket, nodes: &NodeHouse) -> [Option<u64>; 2]
    requires here { NodesLieIn nodes.now ticket.now.snapshot }
    ensures folded { (us : List Extent) → IsTicketAmong ticket.now us → filter_map (λ o. o) result ≡ folds_of ticket.now.snapshot.page_size us ticket.now.version }
{
    folds_by::<Brand>(ticket, nodes, Blank::new(1))
}

// The same. Nobody counts the node steps that it takes.
fn folds_by<L: Ledger>(ticket: &Ticket, nodes: &NodeHouse, blank: Blank) -> [Option<u64>; 2]
    requires here { NodesLieIn nodes.now ticket.now.snapshot }
    requires name { blank.name ≡ L.name }
    requires parts { blank.parts ≡ L.parts }
    requires some { 0 < blank.parts }
    ensures folded { (us : List Extent) → IsTicketAmong ticket.now us → filter_map (λ o. o) result ≡ folds_of ticket.now.snapshot.page_size us ticket.now.version }
{
    range_log::laws::logs_are_grown();
    ticket.stands();
    let mut steps = Steps::<L>::open(blank);
    let borders = borders(ticket, nodes, &mut steps);
    folds(ticket, &borders)
}
