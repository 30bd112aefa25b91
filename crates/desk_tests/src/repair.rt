//! Tests of updates that wait, whose tickets a desk hands out anew: anybody finishes what one caller numbered.
ghost use Rattle.std.specs.Prelude.{◌≡◌, length};
ghost use Rattle.std.specs.Arc.{arc_value};
ghost use Rattle.page_store.specs.Stored.{LieAmong};
ghost use Rattle.node_store.specs.UpdateRows.{IsRowIn};
ghost use Rattle.blob_model.specs.Content.{content};
ghost use Rattle.snapshot.specs.Versions.{NodesLieIn, updates_of};
ghost use Rattle.version_manager.specs.Desks.{IsTicketOf, IsRowFor, store_now, updates_in};
ghost use Rattle.version_manager.specs.Folds.{IsInOrder};

use crate::desk::{CALLER, check, three_waiting};
use blob_model::{Place, Refusal};
use border_hints::Ticket;
use node_store::{NodeHouse, Row};
use std::alloc::Global;
use std::process::Abort;
use std::sync::{Arc, Wait};
use std::thread::Threads;
use tree_weaver::weave;
use version_manager::{Desk, DeskFault};

// Who finishes what `CALLER` numbered.
const OTHER: u32 = 2;

// The ticket of a waiting version of blob 1, made anew.
fn ticket_anew<R: Abort>(rt: &R, desk: &Desk, version: u64) -> Ticket
    ensures ticket { IsTicketOf desk.now result }
    ensures here { LieAmong desk.now.houses result.pages.pages }
    ensures nodes { NodesLieIn desk.now.nodes result.snapshot }
    ensures before { content (updates_of result.snapshot) (length result.snapshot.rows) ≡ content (updates_in desk.now result.blob) (length result.snapshot.rows) }
{
    match desk.ticket_of(1, version) {
        Ok(ticket) => ticket,
        Err(_) => panic!(rt; "a ticket"),
    }
}

// Its row.
fn row_of<R: Wait + Abort>(
    rt: &R,
    alloc: Global,
    desk: &Desk,
    ticket: &Ticket,
    nodes: &NodeHouse,
) -> Arc<Row>
    requires ticket { IsTicketOf desk.now ticket.now }
    requires pages { LieAmong desk.now.houses ticket.now.pages.pages }
    requires nodes { NodesLieIn desk.now.nodes ticket.now.snapshot }
    requires house { desk.now.nodes ≡ nodes.now }
    requires before { content (updates_of ticket.now.snapshot) (length ticket.now.snapshot.rows) ≡ content (updates_in desk.now ticket.now.blob) (length ticket.now.snapshot.rows) }
    ensures row { IsRowFor desk.now ticket.now (arc_value result) }
    ensures under { (arc_value result).blob ≡ ticket.now.blob }
    ensures here { IsRowIn desk.now.nodes desk.now.houses (arc_value result) }
    ensures in_order { IsInOrder desk.now.page_size (store_now desk.now) ticket.now.blob ticket.now.version }
{
    match weave(rt, alloc, ticket, nodes) {
        Ok(Some(row)) => row,
        Ok(None) => panic!(rt; "no page that is stored anew"),
        Err(_) => panic!(rt; "memory"),
    }
}

// Finishes a waiting version of blob 1 by a ticket made anew, and checks which version is published then.
fn check_finish<R: Wait + Abort>(
    rt: &R,
    alloc: Global,
    desk: &mut Desk,
    nodes: &NodeHouse,
    version: u64,
    published: u64,
)
    requires nodes { desk.old.nodes ≡ nodes.now }
    ensures nodes { desk.new.nodes ≡ desk.old.nodes }
{
    let ticket = ticket_anew(rt, desk, version);
    check(rt, ticket.caller(), CALLER, "who numbered it");
    let row = row_of(rt, alloc, desk, &ticket, nodes);
    let finished = desk.finish(OTHER, &ticket, row).ok();
    check(rt, finished, Some(published), "what is published then");
}

// Checks what a ticket of blob 1 tells: how far is published, and how many updates wait below it.
fn check_hints<R: Abort>(rt: &R, desk: &Desk, version: u64, published: u64, waiting: u32) {
    let ticket = ticket_anew(rt, desk, version);
    let hints = ticket.hints();
    check(
        rt,
        hints.snapshot.version(),
        published,
        "how far is published",
    );
    check(rt, hints.waiting.count(), waiting, "how many wait");
}

// The blob and the version of which there is no ticket, and why.
type NoTicket = (u64, u64, Refusal);

const NO_TICKETS: [NoTicket; 5] = [
    (0, 1, Refusal::NoBlob { blob: 0 }),
    (2, 1, Refusal::NoBlob { blob: 2 }),
    (1, 0, Refusal::Already { version: 0 }),
    (1, 2, Refusal::Already { version: 2 }),
    (
        1,
        4,
        Refusal::NotPublished {
            version: 4,
            published: 0,
        },
    ),
];

const FINISHED: NoTicket = (1, 3, Refusal::Already { version: 3 });

fn check_refused<R: Abort>(rt: &R, desk: &Desk, row: &NoTicket) {
    let (blob, version, refusal) = *row;
    let fault = desk.ticket_of(blob, version).err();
    check(rt, fault, Some(DeskFault::Refused(refusal)), "no ticket");
}

// There is no ticket of a version that is finished, nor of one that isn't there.
fn check_no_tickets<R: Abort>(rt: &R, desk: &Desk) {
    for row in &NO_TICKETS {
        check_refused(rt, desk, row);
    }
}

fn finish_all<R: Wait + Abort>(rt: &R, alloc: Global, desk: &mut Desk, nodes: &NodeHouse)
    requires nodes { desk.old.nodes ≡ nodes.now }
{
    check_hints(rt, desk, 3, 0, 2);
    check_finish(rt, alloc, desk, nodes, 2, 0);
    check_hints(rt, desk, 3, 0, 2);
    check_no_tickets(rt, desk);
    check_finish(rt, alloc, desk, nodes, 1, 2);
    check_hints(rt, desk, 3, 2, 0);
    check_finish(rt, alloc, desk, nodes, 3, 3);
    check_refused(rt, desk, &FINISHED);
}

fn repair_three<R: Threads + Wait + Sync + Abort>(rt: &R, alloc: Global) {
    let (mut desk, nodes) = three_waiting(rt, alloc);
    finish_all(rt, alloc, &mut desk, &nodes);
}

#[test]
fn another_caller_finishes_what_one_numbered(rt: HostRuntime) {
    repair_three(&rt, rt.alloc());
}

// The blob, the place and the length of an update, and why it would be refused.
const UPDATES: [(u64, Place, u64, Option<Refusal>); 3] = [
    (1, Place::Append, 16_777_216, None),
    (
        1,
        Place::WriteAt(19),
        1,
        Some(Refusal::OffsetPastSize {
            offset: 19,
            size: 18,
        }),
    ),
    (2, Place::Append, 1, Some(Refusal::NoBlob { blob: 2 })),
];

fn check_refusals<R: Threads + Wait + Sync + Abort>(rt: &R, alloc: Global) {
    let (desk, _nodes) = three_waiting(rt, alloc);
    for (blob, place, count, refusal) in &UPDATES {
        let told = desk.refusal_of(*blob, *place, *count);
        check(rt, told, *refusal, "a refusal");
    }
}

#[test]
fn a_desk_tells_what_it_would_refuse(rt: HostRuntime) {
    check_refusals(&rt, rt.alloc());
}
