//! A store inside a program of your own: a log with two versions, a branch of the first one, and what a reader of each gets.
//!
//! The file `stdout` beside `src` has what it prints.
#![tactic(auto)]

ghost use denote.Param.Send.{IsSync};
ghost use Rattle.std.specs.Prelude.{◌≡◌};

use client_session::{
    Fault, FreeGate, Limits, NoMemory, Outcome, PageSize, PlainDoor, PlainMaker, Reply, Request,
    Service, Session, Shared, Updated,
};
use std::io::{self, Print};
use std::process::ExitCode;
use std::sync::Wait;
use std::thread::Threads;
use store_sessions::{end_session, open_session};

// How large a page is, in bytes. Updates and reads have any bounds.
const PAGE: u64 = 4096;

// Why the program can't go on.
enum Trouble {
    NoMemory,
    Refused,
    Output,
}

impl From<NoMemory> for Trouble {
    fn from(_: NoMemory) -> Trouble {
        Trouble::NoMemory
    }
}

impl From<Fault> for Trouble {
    fn from(fault: Fault) -> Trouble {
        match fault {
            Fault::NoMemory => Trouble::NoMemory,
            _ => Trouble::Refused,
        }
    }
}

impl From<io::Error> for Trouble {
    fn from(_: io::Error) -> Trouble {
        Trouble::Output
    }
}

type PlainSession<'a> = Session<'a, PlainDoor, FreeGate>;

// Appends the text, and tells the version that has it.
fn append<R: Threads + Wait + Sync + Print>(
    rt: &R,
    session: &mut PlainSession<'_>,
    blob: u64,
    text: &str,
) -> Result<u64, Trouble>
    requires sync { IsSync R.row }
    ensures store { session.new.store ≡ session.old.store }
{
    match session.append(rt, blob, text.as_bytes())? {
        Updated::Done(done) => Ok(done.version),
        // This comes where others update the same page at the same time: a finish of its ticket goes on with it.
        Updated::Held(held) => {
            session.finish(rt, held.ticket)?;
            Ok(held.version)
        }
    }
}

// Prints all that a version of a blob has.
fn show<R: Threads + Wait + Sync + Print>(
    rt: &R,
    session: &mut PlainSession<'_>,
    blob: u64,
    version: u64,
) -> Result<(), Trouble>
    requires sync { IsSync R.row }
    ensures store { session.new.store ≡ session.old.store }
{
    let Outcome::Size(length) = session.size(rt, blob, version) else {
        return Err(Trouble::Refused);
    };
    let read = Request::Read {
        blob,
        version,
        offset: 0,
        length,
    };
    let Reply::Content { bytes } = session.answer(rt, read) else {
        return Err(Trouble::Refused);
    };
    let text = str::from_utf8(bytes.as_slice()).unwrap_or("no text");
    println!(rt; "blob {} version {}: {}", blob, version, text)?;
    Ok(())
}

// What one session does.
fn work<R: Threads + Wait + Sync + Print>(
    rt: &R,
    session: &mut PlainSession<'_>,
) -> Result<(), Trouble>
    requires sync { IsSync R.row }
    ensures store { session.new.store ≡ session.old.store }
{
    let log = session.create(rt)?;
    let first = append(rt, session, log, "one")?;
    let second = append(rt, session, log, ", two")?;
    let branch = session.branch(rt, log, first)?;
    let other = append(rt, session, branch, ", and another")?;
    show(rt, session, log, first)?;
    show(rt, session, log, second)?;
    show(rt, session, branch, other)
}

// Opens a store with three providers and two replicas of each page, works with it, and closes it.
fn with_store<R: Threads + Wait + Sync + Print + AllocGlobal>(rt: &R) -> Result<(), Trouble>
    requires sync { IsSync R.row }
{
    let Some(page_size) = PageSize::new(PAGE) else {
        return Err(Trouble::Refused);
    };
    let (shared, mut owner) = Shared::new(rt.alloc(), Limits::greatest(), page_size, 3, 2)?;
    let mut doors = PlainMaker::new();
    let gate = FreeGate;
    let mut session = open_session(rt.alloc(), &shared, &mut owner, &mut doors, &gate)?;
    let done = work(rt, &mut session);
    session.hang_up(rt);
    end_session(&shared, &mut owner, &mut doors, session);
    let _desk = shared.close(owner);
    done
}

fn main(rt: HostRuntime) -> ExitCode {
    match with_store(&rt) {
        Ok(()) => ExitCode::SUCCESS,
        Err(Trouble::NoMemory) => ExitCode::from(5),
        Err(Trouble::Refused) => ExitCode::from(1),
        Err(Trouble::Output) => ExitCode::from(4),
    }
}
