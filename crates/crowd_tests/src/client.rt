//! A client of a shared store, and what it was told.

use crate::calls::{Member, branch, check, done_of, read, start, try_finish, try_repair, update};
use crate::script::{BASE, Dice, MOST, Manner, Next, STEPS, Step};
use blob_model::{Bytes, Place};
use client_session::{Done, Started};
use std::alloc::Global;
use std::process::Abort;
use std::sync::Wait;
use std::thread::Threads;

/// An update of which a client was told: so many bytes, all the same, and what it then read.
pub(crate) struct Note {
    pub(crate) blob: u64,
    pub(crate) place: Place,
    pub(crate) byte: u8,
    pub(crate) count: usize,
    /// What the update was answered.
    pub(crate) done: Done,
    /// All bytes of its version.
    pub(crate) content: Bytes,
}

// By hand, here and below, so that it is one call wherever one is let go.
impl Drop for Note {
    fn drop(self) {
        let Note {
            blob: _,
            place: _,
            byte: _,
            count: _,
            done: _,
            content: _,
        } = self;
    }
}

impl Note {
    // Whether the update's own bytes stand in what was read.
    fn reads_back(&self) -> bool {
        let bytes = [self.byte; MOST];
        let from = self.done.at as usize;
        let to = from.saturating_add(self.count);
        self.content.as_slice().get(from..to) == bytes.get(..self.count)
    }

    // Whether this is the branch of `older`, with one byte written over the first.
    fn branches(&self, older: &Note) -> bool {
        let expected = (older.done.version.checked_add(1), 0, older.done.size);
        (Some(self.done.version), self.done.at, self.done.size) == expected
            && self.content.as_slice().get(1..) == older.content.as_slice().get(1..)
    }
}

// A version has these bytes, once it is published.
fn read_as<R: Threads + Wait + Sync + Abort>(
    rt: &R,
    member: &mut Member<'_>,
    blob: u64,
    version: u64,
    bytes: &[u8],
) {
    let content = read(rt, member, blob, version, bytes.len() as u64);
    let is_same = content.as_slice() == bytes;
    check(rt, is_same, true, "a version is read as it was told");
}

/// The version of a note is read as the note says.
pub(crate) fn read_again<R: Threads + Wait + Sync + Abort>(
    rt: &R,
    member: &mut Member<'_>,
    note: &Note,
) {
    read_as(
        rt,
        member,
        note.blob,
        note.done.version,
        note.content.as_slice(),
    );
}

/// Reads the version of a note for the first time, once it is published. The note's own bytes stand there.
pub(crate) fn read_first<R: Threads + Wait + Sync + Abort>(
    rt: &R,
    member: &mut Member<'_>,
    note: &mut Note,
) {
    note.content = read(rt, member, note.blob, note.done.version, note.done.size);
    check(rt, note.reads_back(), true, "an update is read back");
}

// Repairs a version, or finishes the update, or leaves it.
fn leave<R: Threads + Wait + Sync + Abort>(
    rt: &R,
    member: &mut Member<'_>,
    step: &Step,
    started: Started,
) {
    match step.next {
        Next::Branches => {
            let version = step.version_up_to(started.version);
            try_repair(rt, member, step.blob, version);
        }
        Next::ReadsBase => {
            if step.count != 1 {
                try_finish(rt, member, started.ticket);
            }
        }
    }
}

/// A session, its number, and what it was told.
pub(crate) struct Client<'a> {
    pub(crate) member: Member<'a>,
    /// Where its notes lie.
    pub(crate) alloc: Global,
    /// Its number, which is each byte that it writes.
    pub(crate) number: u8,
    /// Its updates.
    pub(crate) notes: Vec<Note>,
}

impl<'a> Drop for Client<'a> {
    fn drop(self) {
        let Client {
            member: _,
            alloc: _,
            number: _,
            notes: _,
        } = self;
    }
}

impl<'a> Client<'a> {
    /// Goes through its steps.
    pub(crate) fn work<R: Threads + Wait + Sync + Abort>(&mut self, rt: &R, manner: Manner) {
        let mut dice = Dice::of(self.number);
        for _ in 0..STEPS {
            self.go(rt, manner, &dice.step());
        }
    }

    fn go<R: Threads + Wait + Sync + Abort>(&mut self, rt: &R, manner: Manner, step: &Step) {
        let note = match manner {
            Manner::Careful => self.go_carefully(rt, step),
            Manner::Careless => self.go_carelessly(rt, step),
        };
        self.keep(rt, note);
    }

    fn keep<R: Abort>(&mut self, rt: &R, note: Note) {
        self.notes.push(note).expect(rt, "memory");
    }

    // A note of an update, whose version isn't read yet.
    fn note(&self, blob: u64, place: Place, count: usize, done: Done) -> Note {
        Note {
            blob,
            place,
            byte: self.number,
            count,
            done,
            content: Bytes::of(Vec::new(self.alloc)),
        }
    }

    fn go_carelessly<R: Threads + Wait + Sync + Abort>(&mut self, rt: &R, step: &Step) -> Note {
        let bytes = [self.number; MOST];
        let bytes = bytes.get(..step.count).unwrap_or_default();
        let started = start(rt, &mut self.member, step.blob, step.place, bytes);
        leave(rt, &mut self.member, step, started);
        self.note(step.blob, step.place, step.count, done_of(started))
    }

    fn go_carefully<R: Threads + Wait + Sync + Abort>(&mut self, rt: &R, step: &Step) -> Note {
        let note = self.update(rt, step.blob, step.place, step.count);
        match step.next {
            Next::Branches => self.branch(rt, &note),
            Next::ReadsBase => read_as(rt, &mut self.member, step.blob, 1, BASE),
        }
        note
    }

    // Makes an update, and reads the whole of its version, in which it stands.
    fn update<R: Threads + Wait + Sync + Abort>(
        &mut self,
        rt: &R,
        blob: u64,
        place: Place,
        count: usize,
    ) -> Note {
        let bytes = [self.number; MOST];
        let bytes = bytes.get(..count).unwrap_or_default();
        let done = update(rt, &mut self.member, blob, place, bytes);
        let mut note = self.note(blob, place, count, done);
        read_first(rt, &mut self.member, &mut note);
        note
    }

    // Branches the blob at the update, and writes the branch's first byte, which the blob doesn't see.
    fn branch<R: Threads + Wait + Sync + Abort>(&mut self, rt: &R, note: &Note) {
        let branch = branch(rt, &mut self.member, note.blob, note.done.version);
        let made = self.update(rt, branch, Place::WriteAt(0), 1);
        check(rt, made.branches(note), true, "a branch of the update");
        read_again(rt, &mut self.member, note);
        self.keep(rt, made);
    }
}
