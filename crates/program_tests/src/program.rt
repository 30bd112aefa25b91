//! The program over an input, outputs and a file in memory, and rows of what it comes to with doors that fail.

ghost use Rattle.std.specs.Prelude.{◌≡◌};

use blob_model::Bytes;
use blobseer_run::run;
use memory_ports::{MemFiles, MemListener, MemSink, MemSource};
use page_fan::BesideDoor;
use page_store::{DoorMaker, FlakyMaker};
use ports::files::Files;
use ports::gate::{FreeGate, Gate};
use ports::listener::Listener;
use ports::pair::Pair;
use ports::stream::{Sink, Source};
use std::alloc::Global;
use std::collections::BTreeMap;
use std::process::Abort;
use std::sync::Wait;
use std::thread::Threads;

/// More than any output here has, and than any peer gets.
pub(crate) const ROOM: usize = 4096;

/// A command line, the text of the file `s`, the input, and how many bytes the output takes.
#[derive(Clone, Copy)]
pub(crate) struct Given<'a> {
    pub(crate) line: &'a str,
    pub(crate) text: &'a str,
    pub(crate) script: &'a str,
    pub(crate) room: usize,
}

/// What is said holds. In a call of its own an assertion costs its caller no branch.
pub(crate) fn check<R: Abort>(rt: &R, holds: bool, what: &str) {
    assert!(rt; holds, "{what}");
}

/// What the program wrote, and how it ended.
#[derive(Drop)]
pub(crate) struct Ran {
    out: MemSink,
    err: MemSink,
    status: u8,
}

impl Ran {
    /// Whether the program wrote these texts, and ended so.
    pub(crate) fn is_so(&self, out: &[u8], err: &str, status: u8) -> bool {
        self.out.bytes() == out && self.err.bytes() == err.as_bytes() && self.status == status
    }
}

// The words of a line, which stand between single spaces.
fn words_of<R: Abort>(rt: &R, alloc: Global, line: &str) -> Vec<String> {
    let mut words = Vec::new(alloc);
    for part in line.split(' ') {
        let word = String::from_str(alloc, part).expect(rt, "memory");
        words.push(word).expect(rt, "memory");
    }
    words
}

// Files of which one is called `s` and has this text.
fn file_of<R: Abort>(rt: &R, alloc: Global, text: &str) -> MemFiles {
    let mut files = BTreeMap::new(alloc);
    let name = String::from_str(alloc, "s").expect(rt, "memory");
    let bytes = text.as_bytes().to_vec(alloc).expect(rt, "memory");
    let before: Result<Option<Bytes>, _> = files.insert(name, Bytes::of(bytes));
    before.expect(rt, "memory");
    MemFiles::new(alloc, files)
}

// An input in pieces of seven bytes.
fn input_of<R: Abort>(rt: &R, alloc: Global, script: &str) -> MemSource {
    let bytes = script.as_bytes().to_vec(alloc).expect(rt, "memory");
    MemSource::new(bytes, 7, Vec::new(alloc))
}

// The status of a run. It is one call over any types, and nothing is said of it, so that what `run` ensures is looked at once and stands
// in no goal of the tests.
fn status_of<
    R: Wait + Threads + Sync,
    S: Source,
    K: Sink,
    E: Sink,
    L: Listener,
    F: Files,
    M: DoorMaker,
    G: Gate + Sync,
>(
    rt: &R,
    alloc: Global,
    words: &[String],
    script: &mut S,
    out: &mut K,
    err: &mut E,
    net: &mut L,
    files: &mut F,
    doors: &mut M,
    gate: &G,
) -> u8
where
    L::Peer: Drop + Send,
    M::Door: BesideDoor + Drop + Send,
    requires { M.is_true doors.old }
{
    run(rt, alloc, words, script, out, err, net, files, doors, gate)
}

/// The program with what it is given, over a listener, doors of this maker, and a gate.
pub(crate) fn run_over<R: Wait + Threads + Sync + Abort, L: Listener, M: DoorMaker, G: Gate + Sync>(
    rt: &R,
    alloc: Global,
    given: &Given,
    net: &mut L,
    doors: &mut M,
    gate: &G,
) -> Ran
where
    L::Peer: Drop + Send,
    M::Door: BesideDoor + Drop + Send,
    requires { M.is_true doors.old }
{
    let words = words_of(rt, alloc, given.line);
    let mut out = MemSink::new(alloc, given.room).expect(rt, "memory");
    let mut err = MemSink::new(alloc, ROOM).expect(rt, "memory");
    let status = status_of(
        rt,
        alloc,
        words.as_slice(),
        &mut input_of(rt, alloc, given.script),
        &mut out,
        &mut err,
        net,
        &mut file_of(rt, alloc, given.text),
        doors,
        gate,
    );
    Ran { out, err, status }
}

/// A command line, the text of the file `s`, the calls of each provider's doors that fail, the input, the output and the status. A
/// door's calls are counted from 1.
#[derive(Clone, Copy)]
pub(crate) struct Row<'a> {
    pub(crate) line: &'a str,
    pub(crate) text: &'a str,
    pub(crate) failing: &'a [&'a [u64]],
    pub(crate) script: &'a str,
    pub(crate) out: &'a [u8],
    pub(crate) status: u8,
}

// A listener to which nobody comes.
fn nobody<'a>(alloc: Global) -> MemListener<Pair<'a, MemSource, MemSink>> {
    MemListener::new(alloc, String::new(alloc), Vec::new(alloc))
}

// The line that the error output gets.
fn error_line(status: u8) -> &'static str {
    match status {
        8 => "blobseer: load ended early\n",
        _ => "",
    }
}

// The program wrote what a row says, and ended so.
fn check_ended<R: Abort>(rt: &R, row: &Row, ran: &Ran) {
    let is_so = ran.is_so(row.out, error_line(row.status), row.status);
    let Row { line, script, .. } = *row;
    assert!(rt; is_so, "{line}: {script}");
}

/// The program comes to what a row says, with doors of this maker.
pub(crate) fn check_over<R: Wait + Threads + Sync + Abort, M: DoorMaker>(
    rt: &R,
    alloc: Global,
    row: &Row,
    doors: &mut M,
)
where
    M::Door: BesideDoor + Drop + Send,
    requires { M.is_true doors.old }
{
    let Row {
        line,
        text,
        script,
        ..
    } = *row;
    let given = Given {
        line,
        text,
        script,
        room: ROOM,
    };
    let ran = run_over(rt, alloc, &given, &mut nobody(alloc), doors, &FreeGate);
    check_ended(rt, row, &ran);
}

// A maker of doors that fail at a row's calls.
fn maker_of<R: Abort>(rt: &R, alloc: Global, failing: &[&[u64]]) -> FlakyMaker {
    let mut lists = Vec::new(alloc);
    for calls in failing {
        let list = calls.to_vec(alloc).expect(rt, "memory");
        lists.push(list).expect(rt, "memory");
    }
    FlakyMaker::new(alloc, lists)
}

/// The program comes to what a row says. How many calls of its doors failed.
pub(crate) fn check_row<R: Wait + Threads + Sync + Abort>(rt: &R, alloc: Global, row: &Row) -> u64 {
    let mut doors = maker_of(rt, alloc, row.failing);
    check_over(rt, alloc, row, &mut doors);
    let faults = doors.faults();
    check(rt, row.status == 0 || faults > 0, "a call that fails");
    faults
}

/// The program comes to what each row says. How many calls of the last one's doors failed.
pub(crate) fn check_rows<R: Wait + Threads + Sync + Abort>(
    rt: &R,
    alloc: Global,
    rows: &[Row],
) -> u64 {
    let mut faults = 0;
    for row in rows {
        faults = check_row(rt, alloc, row);
    }
    faults
}
