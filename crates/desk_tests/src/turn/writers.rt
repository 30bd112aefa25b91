//! Threads that write texts.
ghost use Rattle.std.specs.Prelude.{◌≡◌};

use crate::turn::notebook::{Count, Notebook, Text, Write};
use std::alloc::Global;
use std::process::Abort;
use std::sync::{Arc, Wait};
use turn_lock::{Owner, Pass, Turn};

/// Writes the text so many times, and answers whether there was room each time.
pub fn write_times<R: Wait>(
    rt: &R,
    turn: &Turn<Notebook>,
    pass: &mut Pass<Notebook>,
    text: &Arc<Text, Global>,
    times: usize,
) -> bool
    requires { pass.old.lock ≡ turn.now }
    ensures { pass.new.lock ≡ turn.now }
{
    for _ in 0..times {
        if !turn.with_turn(rt, pass, Write { text }) {
            return false;
        }
    }
    true
}

/// Counts and writes in turn, and answers whether each count was one more than the one before, from 0 up.
pub fn count_and_write<R: Wait>(
    rt: &R,
    turn: &Turn<Notebook>,
    pass: &mut Pass<Notebook>,
    text: &Arc<Text, Global>,
    times: usize,
) -> bool
    requires { pass.old.lock ≡ turn.now }
    ensures { pass.new.lock ≡ turn.now }
{
    for before in 0..times {
        if turn.with_turn(rt, pass, Count) != before || !turn.with_turn(rt, pass, Write { text }) {
            return false;
        }
    }
    true
}

/// Makes so many passes and takes each back, and answers whether there were so many.
pub fn make_and_take_back(turn: &Turn<Notebook>, owner: &mut Owner<Notebook>, passes: u32) -> bool
    requires { owner.old.lock ≡ turn.now }
    ensures { owner.new.lock ≡ turn.now }
{
    for _ in 0..passes {
        let Ok(pass) = owner.pass(turn) else {
            return false;
        };
        owner.take_back(turn, pass);
    }
    true
}
