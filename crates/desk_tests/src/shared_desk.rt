//! A desk that two threads share.
ghost use Rattle.std.specs.Prelude.{◌≡◌};

use crate::desk::{check, desk_of, one_house};
use blob_model::Outcome;
use std::alloc::Global;
use std::process::Abort;
use std::sync::Wait;
use std::thread::{Threads, join};
use version_manager::{Desk, Owner, Pass, SharedDesk};

// Makes two blobs, and tells whether a look at the second finds it.
fn make_two<R: Wait>(rt: &R, desk: &SharedDesk, pass: Pass) -> (Pass, bool)
    requires { pass.lock ≡ desk.now }
    ensures { result.0.lock ≡ desk.now }
{
    let mut pass = pass;
    let first = desk.create(rt, &mut pass).unwrap_or(0);
    let second = desk.create(rt, &mut pass).unwrap_or(0);
    let look = desk.status(rt, &mut pass, second);
    let found = matches!(&look, Outcome::Status { .. });
    (pass, found && first < second)
}

fn make_beside<R: Threads + Wait + Sync>(
    rt: &R,
    desk: &SharedDesk,
    one: Pass,
    two: Pass,
) -> ((Pass, bool), (Pass, bool))
    requires one { one.lock ≡ desk.now }
    requires two { two.lock ≡ desk.now }
    ensures one { result.0.0.lock ≡ desk.now }
    ensures two { result.1.0.lock ≡ desk.now }
{
    join(rt, || make_two(rt, desk, one), || make_two(rt, desk, two))
}

// A desk without blobs that is shared, and its owner.
fn empty_desk<R: Abort>(rt: &R, alloc: Global) -> (SharedDesk, Owner)
    ensures lock { result.1.lock ≡ result.0 }
    ensures made { result.1.made ≡ 0 }
    ensures out { result.1.out ≡ 0 }
{
    let houses = one_house(rt, alloc);
    let (desk, _nodes) = desk_of(rt, alloc, &houses);
    SharedDesk::new(alloc, desk).expect(rt, "memory")
}

// Tries to close while one pass is out.
fn close_early<R: Abort>(rt: &R, shared: SharedDesk, owner: Owner) -> (SharedDesk, Owner)
    requires { owner.lock ≡ shared }
    ensures desk { result.0 ≡ shared }
    ensures owner { result.1 ≡ owner }
{
    let refused = shared.close(owner).err().expect(rt, "a pass is out");
    check(rt, refused.out, 1, "a pass is out");
    (refused.desk, refused.owner)
}

// The last of the blobs is blob 4.
fn check_last<R: Abort>(rt: &R, desk: &Desk) {
    let last = desk.status(4);
    check(rt, matches!(&last, Outcome::Status { .. }), true, "blob 4");
    let past = desk.status(5);
    check(rt, matches!(&past, Outcome::Refused(_)), true, "blob 5");
}

// A desk isn't closed while a pass is out.
fn close_twice<R: Abort>(rt: &R, shared: SharedDesk, mut owner: Owner, one: Pass, two: Pass)
    requires owner { owner.lock ≡ shared }
    requires one { one.lock ≡ shared }
    requires two { two.lock ≡ shared }
{
    shared.take_back(&mut owner, one);
    let (shared, mut owner) = close_early(rt, shared, owner);
    shared.take_back(&mut owner, two);
    let desk = shared.close(owner).ok().expect(rt, "every pass came back");
    check_last(rt, &desk);
}

// Two threads make two blobs each.
fn make_four<R: Threads + Wait + Sync + Abort>(rt: &R, alloc: Global) {
    let (shared, mut owner) = empty_desk(rt, alloc);
    let one = shared.pass(&mut owner).expect(rt, "a pass");
    let two = shared.pass(&mut owner).expect(rt, "a pass");
    let ((one, first), (two, second)) = make_beside(rt, &shared, one, two);
    check(rt, first && second, true, "two blobs each");
    close_twice(rt, shared, owner, one, two);
}

#[test]
fn closing_with_one_pass_out_is_refused_with_1(rt: HostRuntime) {
    make_four(&rt, rt.alloc());
}
