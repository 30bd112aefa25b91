//! A blob that is written in small parts, so that two of its pages are stored anew in between: of every range of every version it is told
//! beforehand how many node steps a read may take, and then they are counted. What is read then is shown by a script.

use crate::bounds::told;
use crate::plain::{Written, plain_bound};
use crate::store::{Member, check, create, new_session, store_of, update};
use crate::visits::{Part, counted};
use blob_model::Place;
use std::alloc::Global;
use std::process::Abort;
use std::sync::Wait;
use std::thread::Threads;

// How many updates follow the first, of the ten bytes of three pages. None ends more than two bytes behind them, so that the tree has
// three levels throughout.
const WRITES: u8 = 48;

const FIRST: &[u8] = b"abcdefghij";

// Draws numbers, the same at each run.
#[derive(Drop)]
struct Dice {
    state: u64,
}

impl Dice {
    fn below(&mut self, bound: u64) -> u64 {
        self.state = self.state.wrapping_mul(75).wrapping_add(74) % 65_537;
        self.state % bound.max(1)
    }
}

// Writes one to three bytes somewhere among the first ten of a blob of that size.
fn write_part<R: Threads + Wait + Sync + Abort>(
    rt: &R,
    session: &mut Member<'_>,
    dice: &mut Dice,
    before: u64,
    byte: u8,
) -> Written {
    let at = dice.below(10);
    let count = dice.below(3).saturating_add(1);
    let bytes = [byte; 3];
    let bytes = bytes.get(..count as usize).unwrap_or_default();
    update(rt, session, Place::WriteAt(at), bytes);
    let end = at.saturating_add(count);
    Written {
        at,
        end,
        size: before.max(end),
    }
}

// Reads a range of the last version that these updates leave.
fn check_part<R: Wait + Abort>(rt: &R, session: &mut Member<'_>, written: &[Written], part: Part) {
    let most = told(rt, session, part);
    check(rt, most, plain_bound(written, part), "what is stated");
    let (bytes, steps) = counted(rt, session, part);
    check(rt, steps <= most, true, "no more steps than stated");
    check(rt, bytes.len() as u64, part.count, "so many bytes");
}

// Reads each range of the last version that these updates leave, from a byte on.
fn check_from<R: Wait + Abort>(
    rt: &R,
    session: &mut Member<'_>,
    written: &[Written],
    offset: u64,
    size: u64,
) {
    let version = written.len() as u64;
    for count in 0..size.saturating_sub(offset).saturating_add(1) {
        let part = Part {
            version,
            offset,
            count,
        };
        check_part(rt, session, written, part);
    }
}

// Reads each range of the last version that these updates leave.
fn check_version<R: Wait + Abort>(rt: &R, session: &mut Member<'_>, written: &[Written]) {
    let last = written.last().expect(rt, "an update");
    for offset in 0..last.size {
        check_from(rt, session, written, offset, last.size);
    }
}

// Reads each range of each version.
fn check_versions<R: Wait + Abort>(rt: &R, session: &mut Member<'_>, written: &[Written]) {
    for before in 0..written.len() {
        let first = written.get(..before + 1).unwrap_or_default();
        check_version(rt, session, first);
    }
}

// Writes a blob, and gives its updates.
fn write_all<R: Threads + Wait + Sync + Abort>(
    rt: &R,
    alloc: Global,
    session: &mut Member<'_>,
) -> Vec<Written> {
    create(rt, session);
    update(rt, session, Place::Append, FIRST);
    let mut dice = Dice { state: 1 };
    let mut last = Written {
        at: 0,
        end: FIRST.len() as u64,
        size: FIRST.len() as u64,
    };
    let mut written = Vec::new(alloc);
    written.push(last).expect(rt, "memory");
    for byte in 0..WRITES {
        last = write_part(rt, session, &mut dice, last.size, byte);
        written.push(last).expect(rt, "memory");
    }
    written
}

#[test]
fn a_page_that_is_changed_in_small_parts_stays_as_cheap_to_read_as_it_is_stated(rt: HostRuntime) {
    let alloc = rt.alloc();
    let (shared, mut owner) = store_of(&rt, alloc, 4);
    let mut session = new_session(&rt, alloc, &shared, &mut owner);
    let written = write_all(&rt, alloc, &mut session);
    check_versions(&rt, &mut session, written.as_slice());
}
