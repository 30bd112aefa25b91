//! Sixteen sessions on threads that append, write, branch and read over three blobs, most of them small parts of one page. Each reads
//! back what it wrote, and what all were told agrees with the updates played again, and with what the store holds in the end. And
//! sixteen that leave updates open, and finish those of others.
ghost use Rattle.std.specs.Prelude.{◌≡◌};
ghost use Rattle.client_session.specs.Sessions.{IsOwnerOf};

use crate::calls::{Member, check, create, new_member, recent, repair, size, status, update};
use crate::client::{Client, Note, read_again, read_first};
use crate::replay::check_history;
use crate::script::{BASE, CLIENTS, Manner, sum_of};
use blob_model::{Limits, Place};
use client_session::{Owner, Shared};
use std::alloc::Global;
use std::process::Abort;
use std::sync::Wait;
use std::thread;
use std::thread::Threads;
use tree_geom::PageSize;

// Makes the three blobs, each with its first version.
fn make_blobs<R: Threads + Wait + Sync + Abort>(rt: &R, founder: &mut Member<'_>) {
    for _ in 0..3 {
        let blob = create(rt, founder);
        update(rt, founder, blob, Place::Append, BASE);
    }
}

// The clients, each with a session of its own.
fn clients_of<'a, R: Abort>(
    rt: &R,
    alloc: Global,
    shared: &'a Shared,
    owner: &mut Owner,
) -> Vec<Client<'a>>
    requires owner { IsOwnerOf shared.now owner.old }
{
    let mut clients = Vec::new(alloc);
    for number in 0..CLIENTS {
        let client = Client {
            member: new_member(rt, alloc, shared, owner),
            alloc,
            number,
            notes: Vec::new(alloc),
        };
        clients.push(client).expect(rt, "memory");
    }
    clients
}

// Each client goes through its script, beside the others.
fn work_all<R: Threads + Wait + Sync + Abort>(rt: &R, clients: &mut [Client<'_>], manner: Manner) {
    thread::for_each_mut(
        rt,
        clients,
        usize::from(CLIENTS),
        &|_, client| { client.work(rt, manner) },
    );
}

// What the clients were told. All end here, and what they hold is left.
fn notes_of<R: Abort>(rt: &R, alloc: Global, clients: Vec<Client<'_>>) -> Vec<Note> {
    let mut all = Vec::new(alloc);
    for mut client in clients {
        all.append(&mut client.notes).expect(rt, "memory");
    }
    all
}

// Finishes the versions of a blob that aren't finished, in rising order.
fn mend_blob<R: Threads + Wait + Sync + Abort>(rt: &R, mender: &mut Member<'_>, blob: u64) {
    for before in 1..sum_of(blob).last {
        repair(rt, mender, blob, before + 1);
    }
}

// Finishes what the clients left in the three blobs.
fn mend_blobs<R: Threads + Wait + Sync + Abort>(rt: &R, mender: &mut Member<'_>) {
    for blob in 1..4 {
        mend_blob(rt, mender, blob);
    }
}

// A version is read as its note says, and has the size that its note tells. The notes of careless clients say nothing of the bytes before:
// they do so from here on.
fn read_note<R: Threads + Wait + Sync + Abort>(
    rt: &R,
    reader: &mut Member<'_>,
    note: &mut Note,
    manner: Manner,
) {
    match manner {
        Manner::Careful => read_again(rt, reader, note),
        Manner::Careless => read_first(rt, reader, note),
    }
    let told = size(rt, reader, note.blob, note.done.version);
    check(rt, told, Some(note.done.size), "the size of a version");
}

fn read_notes<R: Threads + Wait + Sync + Abort>(
    rt: &R,
    reader: &mut Member<'_>,
    notes: &mut [Note],
    manner: Manner,
) {
    for note in notes {
        read_note(rt, reader, note, manner);
    }
}

// How many branches were made of a blob, whose history is what the notes say and the scripts add up to.
fn check_blob<R: Wait + Abort>(
    rt: &R,
    alloc: Global,
    reader: &mut Member<'_>,
    notes: &[Note],
    blob: u64,
) -> u64 {
    let sum = sum_of(blob);
    check_history(rt, alloc, notes, blob, sum.last);
    let ended = Some((sum.last, sum.last, 0));
    check(rt, status(rt, reader, blob), ended, "all is finished");
    let newest = Some((sum.last, sum.size as u64));
    check(rt, recent(rt, reader, blob), newest, "the size");
    sum.branches
}

// How many branches the scripts make. The three blobs are as the notes say.
fn check_blobs<R: Wait + Abort>(
    rt: &R,
    alloc: Global,
    reader: &mut Member<'_>,
    notes: &[Note],
) -> u64 {
    let mut branches: u64 = 0;
    for blob in 1..4 {
        let more = check_blob(rt, alloc, reader, notes, blob);
        branches = branches.saturating_add(more);
    }
    branches
}

// A branch has no update but the one of its note.
fn check_branch<R: Wait + Abort>(rt: &R, reader: &mut Member<'_>, note: &Note) {
    let version = note.done.version;
    let ended = Some((version, version, 0));
    check(rt, status(rt, reader, note.blob), ended, "a branch");
}

// How many notes are of branches, each of which has no other update.
fn check_branches<R: Wait + Abort>(rt: &R, reader: &mut Member<'_>, notes: &[Note]) -> u64 {
    let mut count: u64 = 0;
    for note in notes {
        if note.blob > 3 {
            check_branch(rt, reader, note);
            count = count.saturating_add(1);
        }
    }
    count
}

// The founder of a store with three blobs finishes what the clients left, and reads every version. What all were told is left.
fn told_to<R: Threads + Wait + Sync + Abort>(
    rt: &R,
    alloc: Global,
    founder: &mut Member<'_>,
    clients: Vec<Client<'_>>,
    manner: Manner,
) -> Vec<Note> {
    let mut clients = clients;
    work_all(rt, clients.as_mut_slice(), manner);
    let mut notes = notes_of(rt, alloc, clients);
    mend_blobs(rt, founder);
    read_notes(rt, founder, notes.as_mut_slice(), manner);
    notes
}

// The notes agree with the store. Careful clients make the branches of their scripts, careless ones none; and the store has no other blob.
fn check_notes<R: Wait + Abort>(
    rt: &R,
    alloc: Global,
    reader: &mut Member<'_>,
    notes: &[Note],
    manner: Manner,
) {
    let branches = check_blobs(rt, alloc, reader, notes);
    let expected = match manner {
        Manner::Careful => branches,
        Manner::Careless => 0,
    };
    check(rt, check_branches(rt, reader, notes), expected, "branches");
    let next = recent(rt, reader, expected.saturating_add(4));
    check(rt, next, None, "no blob behind them");
}

// A new store, with pages of 4 bytes, three providers and two replicas of each page.
fn new_store<R: Abort>(rt: &R, alloc: Global) -> (Shared, Owner)
    ensures { IsOwnerOf result.0 result.1 }
{
    let page_size = PageSize::new(4).expect(rt, "a page size");
    let made = Shared::new(alloc, Limits::greatest(), page_size, 3, 2);
    made.expect(rt, "memory")
}

fn share_by_all<R: Threads + Wait + Sync + Abort>(rt: &R, alloc: Global, manner: Manner) {
    let (shared, mut owner) = new_store(rt, alloc);
    let mut founder = new_member(rt, alloc, &shared, &mut owner);
    make_blobs(rt, &mut founder);
    let clients = clients_of(rt, alloc, &shared, &mut owner);
    let notes = told_to(rt, alloc, &mut founder, clients, manner);
    check_notes(rt, alloc, &mut founder, notes.as_slice(), manner);
}

#[test]
fn sixteen_sessions_write_parts_of_a_page_of_three_blobs(rt: HostRuntime) {
    share_by_all(&rt, rt.alloc(), Manner::Careful);
}

#[test]
fn what_sixteen_sessions_leave_open_is_finished_by_others(rt: HostRuntime) {
    share_by_all(&rt, rt.alloc(), Manner::Careless);
}
