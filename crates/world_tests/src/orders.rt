//! Three overlapping updates of a page: every order in which their nodes are stored and they are finished.
use crate::steps::{Act, Look, reads, world_of};
use blob_core::{ReplayFault, World};
use blob_model::Place;
use std::process::Abort;

/// How many orders there are of six acts.
const ORDERS: usize = 720;

/// Order number `number` of the acts: the digits of the number say which of the acts that are left comes next.
fn order(number: usize) -> [Act; 6] {
    let mut acts = ACTS;
    let mut rest = number;
    for taken in 0..6usize {
        let choices = 6 - taken;
        let chosen = taken.saturating_add(rest % choices);
        if chosen < acts.len() {
            acts.swap(taken, chosen);
        }
        rest /= choices;
    }
    acts
}

/// Four bytes, two over the middle, and two over the end.
const OVERLAPPING: [Act; 7] = [
    Act::Create,
    Act::Page(1, &[1, 2, 3, 4]),
    Act::Page(2, &[5, 6]),
    Act::Page(3, &[7, 8]),
    Act::Update(1, Place::Append, &[1]),
    Act::Update(1, Place::WriteAt(1), &[2]),
    Act::Update(1, Place::WriteAt(2), &[3]),
];

/// Acts 0 to 2 store the node of version 1 to 3, and acts 3 to 5 finish it.
const ACTS: [Act; 6] = [
    Act::Put(1, 1, 0, 4),
    Act::Put(1, 2, 0, 4),
    Act::Put(1, 3, 0, 4),
    Act::Finish(1, 1),
    Act::Finish(1, 2),
    Act::Finish(1, 3),
];

/// What is read where all are published.
const LOOKS: [Look; 2] = [
    (1, 3, 0, 4, Some(&[1, 5, 7, 8])),
    (1, 2, 0, 4, Some(&[1, 5, 6, 4])),
];

/// Whether the world ends in the bytes of the three updates.
fn ends_so<R: Abort + AllocGlobal>(rt: &R, world: &World) -> bool {
    world.published(1) == Some(3) && reads(rt, world, &LOOKS[0]) && reads(rt, world, &LOOKS[1])
}

/// Whether the order is allowed; then it ends in the bytes of the three updates, and else the fault is of one of its acts.
fn is_allowed<R: Abort + AllocGlobal>(rt: &R, number: usize) -> bool {
    let (is_allowed, is_right) = match world_of(rt, &OVERLAPPING, &order(number)) {
        Ok(world) => (true, ends_so(rt, &world)),
        Err(ReplayFault::NotPossible(step)) => (false, step > 7),
        Err(ReplayFault::NoMemory) => (false, false),
    };
    assert!(rt; is_right, "order {number}");
    is_allowed
}

#[test]
fn each_order_that_is_allowed_ends_in_the_same_bytes(rt: HostRuntime) {
    let mut allowed = 0u32;
    for number in 0..ORDERS {
        if is_allowed(&rt, number) {
            allowed = allowed.saturating_add(1);
        }
    }
    // each update's node comes before its finish in one of two of the orders: 720 / 8
    assert!(rt; allowed == 90);
}
