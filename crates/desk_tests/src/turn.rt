//! The turn lock, on threads.
mod hall;
mod notebook;
mod writers;

ghost use Rattle.std.specs.Prelude.{◌≡◌, [], Some};

use crate::desk::check;
use crate::turn::hall::{Work, written};
use crate::turn::notebook::{Count, Notebook, ReadAt, Text, Write};
use crate::turn::writers::{count_and_write, make_and_take_back, write_times};
use std::alloc::Global;
use std::process::Abort;
use std::sync::{Arc, Wait};
use std::thread::Threads;
use turn_lock::{NoMemory, Owner, Pass, PassFault, Turn};

fn seven<R: Abort>(rt: &R, alloc: Global) -> Arc<Text, Global> {
    let mut bytes = Vec::new(alloc);
    bytes.push(7).expect(rt, "memory");
    Arc::new(alloc, Text::new(bytes)).expect(rt, "memory")
}

// A lock over a notebook without texts, whose title is 3, and its owner.
fn empty_book<R: Abort>(rt: &R, alloc: Global) -> (Turn<Notebook>, Owner<Notebook>)
    ensures { result.1 ≡ record { lock = result.0; made = 0; out = 0; seen = []; fixed = Some 3; kept = [] } }
{
    Turn::new(alloc, Notebook::new(alloc, 3)).expect(rt, "memory")
}

// Each of the callers from 1 on wrote so many texts, and nobody else wrote.
fn check_counts<R: Abort>(rt: &R, book: &Notebook, callers: u32, texts: usize, all: usize) {
    check(rt, book.len(), all, "all texts");
    for before in 0..callers {
        check(rt, book.count_by(before + 1), texts, "of one caller");
    }
}

// Checks what the threads of the work have written: each pass, and there is one for each round, all texts of a round.
fn check_work<R: Threads + Wait + Sync + Abort>(
    rt: &R,
    alloc: Global,
    writers: u32,
    rounds: u32,
    texts: usize,
    all: usize,
) {
    let text = seven(rt, alloc);
    let work = Work {
        writers,
        rounds,
        texts,
    };
    let book = written(rt, alloc, 3, &text, work).expect(rt, "a notebook");
    check_counts(rt, &book, writers.saturating_mul(rounds), texts, all);
}

#[test]
fn two_and_sixteen_threads_write_a_thousand_texts_each(rt: HostRuntime) {
    check_work(&rt, rt.alloc(), 2, 1, 1000, 2000);
    check_work(&rt, rt.alloc(), 16, 1, 1000, 16000);
}

#[test]
fn passes_are_taken_back_and_given_again_while_others_write(rt: HostRuntime) {
    check_work(&rt, rt.alloc(), 4, 100, 5, 2000);
}

// There are eight texts, and the last is the caller's own, of one byte.
fn check_eighth<R: Wait + Abort>(rt: &R, turn: &Turn<Notebook>, pass: &mut Pass<Notebook>)
    requires { pass.old.lock ≡ turn.now }
{
    let count = turn.with_turn(rt, pass, Count);
    // The next turn reads one of them, so the prover must know it.
    assert!(rt; count == 8);
    let mut len = 0;
    let read = ReadAt {
        at: 7,
        len: &mut len,
    };
    let by = turn.with_turn(rt, pass, read);
    check(rt, (by, len), (pass.caller(), 1), "the last text");
}

fn check_eight<R: Wait + Abort>(rt: &R, alloc: Global) {
    let text = seven(rt, alloc);
    let (turn, mut owner) = empty_book(rt, alloc);
    let mut pass = owner.pass(&turn).expect(rt, "a pass");
    check(rt, pass.caller(), 1, "the first pass");
    check(
        rt,
        count_and_write(rt, &turn, &mut pass, &text, 8),
        true,
        "counts",
    );
    check_eighth(rt, &turn, &mut pass);
}

#[test]
fn turns_go_on_where_their_numbers_wrap(rt: HostRuntime) {
    check_eight(&rt, rt.alloc());
}

// The first pass writes the text twice, and is taken back.
fn write_twice<R: Wait + Abort>(
    rt: &R,
    turn: &Turn<Notebook>,
    owner: &mut Owner<Notebook>,
    text: &Arc<Text, Global>,
)
    requires { owner.old.lock ≡ turn.now }
    ensures { owner.new.lock ≡ turn.now }
{
    let mut first = owner.pass(turn).expect(rt, "a pass");
    check(
        rt,
        write_times(rt, turn, &mut first, text, 2),
        true,
        "two texts",
    );
    owner.take_back(turn, first);
}

// The second pass counts two texts and writes one more, and is taken back.
fn write_once_more<R: Wait + Abort>(
    rt: &R,
    turn: &Turn<Notebook>,
    owner: &mut Owner<Notebook>,
    text: &Arc<Text, Global>,
)
    requires { owner.old.lock ≡ turn.now }
    ensures { owner.new.lock ≡ turn.now }
{
    let mut second = owner.pass(turn).expect(rt, "a pass");
    check(rt, second.caller(), 2, "the second pass");
    check(rt, turn.with_turn(rt, &mut second, Count), 2, "two texts");
    check(
        rt,
        turn.with_turn(rt, &mut second, Write { text }),
        true,
        "one more",
    );
    owner.take_back(turn, second);
}

fn check_both<R: Wait + Abort>(rt: &R, alloc: Global) {
    let text = seven(rt, alloc);
    let (turn, mut owner) = empty_book(rt, alloc);
    write_twice(rt, &turn, &mut owner, &text);
    write_once_more(rt, &turn, &mut owner, &text);
    let book = owner.close(turn).ok().expect(rt, "both passes came back");
    check(rt, book.len(), 3, "three texts");
}

#[test]
fn a_pass_sees_what_a_pass_that_was_taken_back_had_written(rt: HostRuntime) {
    check_both(&rt, rt.alloc());
}

fn check_last_pass<R: Abort>(rt: &R, alloc: Global) {
    let (turn, mut owner) = empty_book(rt, alloc);
    check(
        rt,
        make_and_take_back(&turn, &mut owner, 1024),
        true,
        "1024 passes",
    );
    let refused = owner.pass(&turn);
    check(
        rt,
        matches!(&refused, Err(PassFault::TooManyPasses)),
        true,
        "no more",
    );
    check(rt, owner.close(turn).is_ok(), true, "all came back");
}

#[test]
fn the_1025th_pass_is_refused(rt: HostRuntime) {
    check_last_pass(&rt, rt.alloc());
}

fn check_printed<R: Abort>(rt: &R, alloc: Global) {
    let none = format!(in alloc; "{NoMemory}").expect(rt, "memory");
    check(rt, none.as_str(), "no memory", "NoMemory");
    let many = format!(in alloc; "{}", PassFault::TooManyPasses).expect(rt, "memory");
    check(rt, many.as_str(), "1024 passes were made", "TooManyPasses");
}

#[test]
fn faults_are_printed(rt: HostRuntime) {
    check_printed(&rt, rt.alloc());
}
