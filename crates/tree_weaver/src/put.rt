// A planned row, stored.
ghost use Rattle.std.specs.Prelude.{◌≡◌, IfOk};
ghost use Rattle.std.specs.Arc.{arc_value};
ghost use Rattle.node_store.specs.House.{IsIn};
ghost use Rattle.border_hints.specs.Numbered.{own_touch};
ghost use Rattle.tree_weaver.specs.Planned.{own_ranges, ranges_of};

use crate::node::page_size;
use crate::planning::PlannedRow;
use border_hints::Ticket;
use node_store::{Folds, NoMemory, NodeHouse, Row};
use std::alloc::Global;
use std::sync::{Arc, Wait};
use tree_geom::{height, span_stands};

/// Stores the planned nodes, and gives the row of the ticket's update with them, the update's pages, and the pages of the blob that
/// the update stores anew. The planned nodes are those of the ticket, as `plan` gives them.
///
/// It takes no lock; it may wait for another thread's put. After want of memory some nodes may lie unused in the house, and nothing
/// else has changed; the ticket can be planned anew then.
pub fn put_row<R: Wait>(
    rt: &R,
    alloc: Global,
    ticket: &Ticket,
    planned: &PlannedRow,
    folds: Folds,
    nodes: &NodeHouse,
) -> Result<Arc<Row>, NoMemory>
    requires planned { ranges_of planned.now.nodes ≡ own_ranges ticket.now }
    ensures blob { IfOk result (λ row. (arc_value row).blob ≡ ticket.now.blob) }
    ensures version { IfOk result (λ row. (arc_value row).version ≡ ticket.now.version) }
    ensures offset { IfOk result (λ row. (arc_value row).offset ≡ ticket.now.at) }
    ensures touch { IfOk result (λ row. (arc_value row).touch ≡ own_touch ticket.now) }
    ensures nodes { IfOk result (λ row. (arc_value row).nodes ≡ planned.now.nodes) }
    ensures here { IfOk result (λ row. IsIn nodes.now (arc_value row).spot) }
    ensures pages { IfOk result (λ row. (arc_value row).pages ≡ ticket.now.pages) }
    ensures folds { IfOk result (λ row. (arc_value row).folds ≡ folds) }
{
    ticket.stands();
    let p = page_size(ticket);
    span_stands(p, ticket.size());
    let height = height(p, ticket.size());
    ticket.hints().waiting.stands();
    let pages = Arc::try_clone(ticket.pages())?;
    let (blob, version) = (ticket.blob(), ticket.version());
    let (offset, touch) = (ticket.at(), ticket.touch());
    let placed = planned.put(rt, alloc, version, nodes)?;
    let row = Row::of(
        alloc,
        blob,
        version as u32,
        offset,
        touch,
        p,
        height,
        pages,
        folds,
        placed,
    )?;
    Ok(Arc::new(alloc, row)?)
}
