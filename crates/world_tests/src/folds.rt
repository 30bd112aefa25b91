//! An update that stores a page anew: its leaf would be the seventeenth of the page.
use crate::steps::{Act, Case, check_case, check_fault};
use blob_model::Place;
use std::process::Abort;
use tree_geom::{Node, Piece};

// Two bytes, and a byte that is written over the first.
const FIRST: [Act; 4] = [
    Act::Create,
    Act::Page(1, &[0, 0]),
    Act::Page(2, &[0xff]),
    Act::Update(1, Place::Append, &[1]),
];

// How many times it is written over.
const WRITES: u64 = 16;

// The leaf of the last: the whole page, stored anew behind the update's own.
const ANEW: Node = Node::Leaf {
    start: 0,
    count: 1,
    first: Piece {
        page: 1,
        from: 0,
        len: 2,
    },
    second: Piece {
        page: 0,
        from: 0,
        len: 0,
    },
    back: 0,
    depth: 0,
};

const LAST: Case = Case {
    steps: &[
        Act::Fold(1, 17, 0),
        Act::Put(1, 17, 0, 4),
        Act::Finish(1, 17),
    ],
    published: &[(1, Some(17))],
    looks: &[
        (1, 17, 0, 2, Some(&[0xff, 0])),
        (1, 16, 0, 2, Some(&[0xff, 0])),
        (1, 1, 0, 2, Some(&[0, 0])),
    ],
    nodes: &[((1, 17, 0, 4), Some(ANEW))],
};

// The updates, and the nodes and finishes of all but the last.
fn before_last<R: Abort + AllocGlobal>(rt: &R) -> Vec<Act> {
    let mut acts = FIRST.to_vec(rt.alloc()).expect(rt, "memory");
    for _write in 0..WRITES {
        let write = Act::Update(1, Place::WriteAt(0), &[2]);
        acts.push(write).ok().expect(rt, "memory");
    }
    for version in 1..WRITES.saturating_add(1) {
        acts.push(Act::Put(1, version, 0, 4))
            .ok()
            .expect(rt, "memory");
        acts.push(Act::Finish(1, version)).ok().expect(rt, "memory");
    }
    acts
}

#[test]
fn the_seventeenth_leaf_of_a_page_stores_it_anew(rt: HostRuntime) {
    let acts = before_last(&rt);
    check_case(&rt, acts.as_slice(), &LAST);
    // Its node comes after the page.
    check_fault(&rt, acts.as_slice(), &[Act::Put(1, 17, 0, 4)], 53);
}

#[test]
fn a_page_is_stored_anew_once_the_version_before_is_published(rt: HostRuntime) {
    let mut acts = before_last(&rt);
    // The finish of version 16.
    acts.truncate(51);
    check_fault(&rt, acts.as_slice(), &[Act::Fold(1, 17, 0)], 52);
}
