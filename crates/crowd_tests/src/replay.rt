//! The history that the notes of all clients tell, played again over flat bytes.

use crate::calls::check;
use crate::client::Note;
use crate::script::BASE;
use blob_model::Place;
use std::alloc::Global;
use std::process::Abort;

// The update that made the version, where one client was told of it, and no other.
fn only_note(notes: &[Note], blob: u64, version: u64) -> Option<&Note> {
    let mut found = None;
    for note in notes {
        if note.blob == blob && note.done.version == version {
            if found.is_some() {
                return None;
            }
            found = Some(note);
        }
    }
    found
}

// Where an update of a blob of so many bytes falls, if it may be made.
fn start_of(place: Place, size: usize) -> Option<usize> {
    match place {
        Place::Append => Some(size),
        Place::WriteAt(offset) => {
            let offset = offset as usize;
            (offset <= size).then_some(offset)
        }
    }
}

// Writes one byte, over another or behind the last.
fn put<R: Abort>(rt: &R, content: &mut Vec<u8>, at: usize, byte: u8) {
    match content.get_mut(at) {
        Some(old) => *old = byte,
        None => content.push(byte).expect(rt, "memory"),
    }
}

// Makes the update again, which falls where its client was told.
fn replay<R: Abort>(rt: &R, content: &mut Vec<u8>, note: &Note) {
    let start = start_of(note.place, content.len());
    let start = start.expect(rt, "an update that may be made");
    check(rt, note.done.at, start as u64, "where an update falls");
    for i in 0..note.count {
        put(rt, content, start.saturating_add(i), note.byte);
    }
}

// Whether the update was answered the size, and its version read as the bytes.
fn is_told(note: &Note, content: &[u8]) -> bool {
    note.done.size == content.len() as u64 && note.content.as_slice() == content
}

// Plays the update again that made the version, and checks what it was told.
fn check_version<R: Abort>(rt: &R, content: &mut Vec<u8>, notes: &[Note], blob: u64, version: u64) {
    let note = only_note(notes, blob, version).expect(rt, "one note of each version");
    replay(rt, content, note);
    check(rt, is_told(note, content.as_slice()), true, "a version");
}

/// Each version of a blob up to the last was told to one client alone, and every answer and every read is what the updates up to
/// it make.
pub(crate) fn check_history<R: Abort>(rt: &R, alloc: Global, notes: &[Note], blob: u64, last: u64) {
    let mut content = BASE.to_vec(alloc).expect(rt, "memory");
    for before in 1..last {
        check_version(rt, &mut content, notes, blob, before + 1);
    }
}
