//! Random walks of updates, each planned against the plain row.
ghost use Rattle.std.specs.Prelude.{◌<◌, ◌≤◌};

use crate::blob::Blob;
use std::process::Abort;
use std::sync::Wait;
use tree_geom::PageSize;

// A blob after some updates, each of one to 24 bytes at a place by chance.
#[derive(Drop)]
struct Walk {
    // the last of the numbers that look random
    chance: u64,
    blob: Blob,
    // the waiting updates, each beside the version that was published when it was numbered
    held: Vec<(u64, u64)>,
    // how many plans weren't the plain row
    wrong: u64,
}

// Whether the plan of the version is the plain row, with that version published.
fn is_plain<R: Abort + AllocGlobal>(rt: &R, blob: &Blob, version: u64, published: u64) -> bool {
    let ticket = blob.ticket(rt, version, published);
    let (planned, _) = blob.plan(rt, &ticket);
    let plain = blob.plain(rt, version);
    let nodes = planned.nodes(rt.alloc()).expect(rt, "memory");
    nodes.as_slice() == plain.as_slice()
}

// The size of a version below the last.
fn size_of<R: Abort + AllocGlobal>(rt: &R, blob: &Blob, version: u64) -> u64 {
    let ticket = blob.ticket(rt, version.saturating_add(1), version);
    ticket.hints().snapshot.size()
}

// Whether the bound that is told of a read of a version below the last is the plain one, and took no more node steps to tell
// than the read itself may.
fn is_told<R: Abort + AllocGlobal>(
    rt: &R,
    blob: &Blob,
    version: u64,
    offset: u64,
    count: u64,
) -> bool {
    let ticket = blob.ticket(rt, version.saturating_add(1), version);
    let (told, steps) = blob.stated(rt, &ticket, offset, count);
    told == blob.plain_bound(rt, version, offset, count) && steps <= told
}

impl Walk {
    // A walk before its first step.
    fn new<R: Abort + AllocGlobal>(rt: &R, chance: u64) -> Walk {
        let p = PageSize::new(4).expect(rt, "four bytes");
        Walk {
            chance,
            blob: Blob::new(rt, p),
            held: Vec::new(rt.alloc()),
            wrong: 0,
        }
    }

    // A number below `sides`.
    fn roll(&mut self, sides: u64) -> u64
        requires { 1 ≤ sides }
        ensures { result < sides }
    {
        self.chance = self
            .chance
            .wrapping_mul(6_364_136_223_846_793_005)
            .wrapping_add(1_442_695_040_888_963_407);
        (self.chance >> 33) % sides
    }

    // Numbers one update more: half of them append, while the blob is small.
    fn start<R: Wait + Abort + AllocGlobal>(&mut self, rt: &R) -> u64 {
        let size = self.blob.size();
        let append = size < 200 && self.roll(2) == 0;
        let at = if append {
            size
        } else {
            self.roll(size.saturating_add(1))
        };
        let bytes = [0; 24];
        let len = self.roll(24) as usize + 1;
        self.blob.start(rt, at, &bytes[..len])
    }

    // Checks the plan of a version, with that version published.
    fn check<R: Abort + AllocGlobal>(&mut self, rt: &R, version: u64, published: u64) {
        if !is_plain(rt, &self.blob, version, published) {
            self.wrong = self.wrong.saturating_add(1);
        }
    }

    // Finishes one of the waiting updates.
    fn finish<R: Wait + Abort + AllocGlobal>(&mut self, rt: &R) {
        let count = self.held.len() as u64;
        if count == 0 {
            return;
        }
        let index = self.roll(count) as usize;
        if index < self.held.len() {
            let (version, published) = self.held.swap_remove(index);
            let _ = self.blob.finish(rt, version, published);
        }
    }

    // Numbers an update and checks its plan; up to six wait at a time.
    fn step<R: Wait + Abort + AllocGlobal>(&mut self, rt: &R) {
        let published = self.blob.window().published();
        let version = self.start(rt);
        self.held.push((version, published)).expect(rt, "memory");
        self.check(rt, version, published);
        if self.held.len() > 5 || self.roll(2) == 0 {
            self.finish(rt);
        }
    }

    // So many steps, after which no update waits.
    fn walk<R: Wait + Abort + AllocGlobal>(&mut self, rt: &R, steps: u64) {
        for _step in 0..steps {
            self.step(rt);
        }
        for _left in 0..6u64 {
            self.finish(rt);
        }
    }

    // How many of some reads by chance of a version below the last have a bound told that `is_told` refuses.
    fn wrong_bounds<R: Abort + AllocGlobal>(&mut self, rt: &R, version: u64) -> u64 {
        let size = size_of(rt, &self.blob, version);
        let mut wrong = 0u64;
        for _read in 0..4u64 {
            let offset = self.roll(size.saturating_add(1));
            let count = self.roll(size.saturating_sub(offset).saturating_add(1));
            if !is_told(rt, &self.blob, version, offset, count) {
                wrong = wrong.saturating_add(1);
            }
        }
        wrong
    }

    // Checks the plan of a version with each older one published.
    fn check_all<R: Abort + AllocGlobal>(&mut self, rt: &R, version: u64) {
        for published in 0..version {
            self.check(rt, version, published);
        }
    }

    // Checks the plan of a version with near and far older ones published.
    fn check_some<R: Abort + AllocGlobal>(&mut self, rt: &R, version: u64) {
        for waiting in [1, 2, 5, 17, 65] {
            self.check(rt, version, version.saturating_sub(waiting));
        }
    }
}

// The published version after a short walk, and how many plans were wrong with any version published.
fn short_walk<R: Wait + Abort + AllocGlobal>(rt: &R, chance: u64) -> (u64, u64) {
    let mut walk = Walk::new(rt, chance);
    walk.walk(rt, 8);
    for version in 1..9u64 {
        walk.check_all(rt, version);
    }
    (walk.blob.window().published(), walk.wrong)
}

// The same of a long walk, with some versions published.
fn long_walk<R: Wait + Abort + AllocGlobal>(rt: &R, chance: u64) -> (u64, u64) {
    let mut walk = Walk::new(rt, chance);
    walk.walk(rt, 300);
    for version in 1..301u64 {
        walk.check_some(rt, version);
    }
    (walk.blob.window().published(), walk.wrong)
}

// The published version after a walk, and how many bounds of reads of the versions below it were told wrong.
fn walk_of_reads<R: Wait + Abort + AllocGlobal>(rt: &R, chance: u64) -> (u64, u64) {
    let mut walk = Walk::new(rt, chance);
    walk.walk(rt, 60);
    let mut wrong = 0u64;
    for version in 1..60u64 {
        wrong = wrong.saturating_add(walk.wrong_bounds(rt, version));
    }
    (walk.blob.window().published(), wrong)
}

#[test]
fn bounds_told_after_random_updates_are_the_plain_sums(rt: HostRuntime) {
    for chance in 0..5u64 {
        assert!(rt; walk_of_reads(&rt, chance) == (60, 0), "walk {chance}");
    }
}

#[test]
fn plans_of_short_walks_are_plain_rows_whichever_version_was_published(rt: HostRuntime) {
    for chance in 0..25u64 {
        assert!(rt; short_walk(&rt, chance) == (8, 0), "walk {chance}");
    }
}

#[test]
fn plans_of_a_long_walk_are_plain_rows_over_near_and_far_versions(rt: HostRuntime) {
    assert!(rt; long_walk(&rt, 7) == (300, 0));
}
