//! Lines that sessions say about files, and what the tests look at of their replies.

use blob_model::Bytes;
use client_session::Fault;
use file_layer::FileSession;
use file_names::{FileFault, FileLine, FileReply, Path};
use page_store::PlainDoor;
use ports::gate::FreeGate;
use std::alloc::Global;
use std::process::Abort;
use std::sync::Wait;
use std::thread::Threads;

/// Who says lines about files. The tests know no more of a session, so that what a session is stands in no goal of theirs.
pub(crate) trait Says {
    ghost use denote.Param.Send.{IsSync};

    /// What a line is answered, if there is memory.
    fn say<R: Threads + Wait + Sync>(&mut self, rt: &R, line: FileLine) -> Option<FileReply>
        requires sync { IsSync R.row };
}

impl<'a> Says for FileSession<'a, PlainDoor, FreeGate> {
    fn say<R: Threads + Wait + Sync>(&mut self, rt: &R, line: FileLine) -> Option<FileReply> {
        self.answer(rt, line).ok()
    }
}

/// What is looked at of a reply.
#[derive(Clone, Copy)]
pub(crate) enum Heard {
    Made { blob: u64 },
    Exists,
    Appended { version: u64, at: u64, size: u64 },
    NoName,
    TooManyOpen,
    Is { blob: u64, version: u64, size: u64 },
    Other,
}

fn heard_of(reply: &Option<FileReply>) -> Heard {
    match reply {
        Some(FileReply::File { path: _, blob }) => Heard::Made { blob: *blob },
        Some(FileReply::Refused(FileFault::Exists { path: _ })) => Heard::Exists,
        Some(FileReply::Appended { version, at, size }) => Heard::Appended {
            version: *version,
            at: *at,
            size: *size,
        },
        Some(FileReply::Refused(FileFault::NoName { path: _ })) => Heard::NoName,
        Some(FileReply::Refused(FileFault::Store(Fault::TooManyOpen { limit: _ }))) => {
            Heard::TooManyOpen
        }
        Some(
            FileReply::FileIs {
                blob,
                version,
                size,
            },
        ) => Heard::Is {
            blob: *blob,
            version: *version,
            size: *size,
        },
        _ => Heard::Other,
    }
}

/// What a session hears of a line.
pub(crate) fn hear<R: Threads + Wait + Sync, S: Says>(
    rt: &R,
    session: &mut S,
    line: FileLine,
) -> Heard {
    heard_of(&session.say(rt, line))
}

// Whether a reply has these bytes.
fn holds(reply: &Option<FileReply>, content: &[u8]) -> bool {
    match reply {
        Some(FileReply::Content { bytes }) => bytes.as_slice() == content,
        _ => false,
    }
}

/// Whether a session is given these bytes.
pub(crate) fn is_given<R: Threads + Wait + Sync, S: Says>(
    rt: &R,
    session: &mut S,
    line: FileLine,
    content: &[u8],
) -> bool {
    holds(&session.say(rt, line), content)
}

/// The path that this text is.
pub(crate) fn path_of<R: Abort>(rt: &R, alloc: Global, text: &str) -> Path {
    let bytes = text.as_bytes().to_vec(alloc).expect(rt, "memory");
    Path::of(bytes).expect(rt, "a path")
}

/// An append of so many bytes, all the same.
pub(crate) fn append_of<R: Abort>(
    rt: &R,
    alloc: Global,
    text: &str,
    byte: u8,
    count: usize,
) -> FileLine {
    let bytes = vec![in alloc; byte; count].expect(rt, "memory");
    FileLine::Append {
        path: path_of(rt, alloc, text),
        bytes: Bytes::of(bytes),
    }
}
