//! Worlds of appends and of branches, and steps that no world allows.
use crate::steps::{Act, Case, check_case, check_fault};
use blob_model::Place;
use tree_geom::{Node, Piece};

// A blob, two pages of a byte, and an append of each.
const APPENDS: [Act; 5] = [
    Act::Create,
    Act::Page(1, &[0xaa]),
    Act::Page(2, &[0xbb]),
    Act::Update(1, Place::Append, &[1]),
    Act::Update(1, Place::Append, &[2]),
];

// The leaf of the second append: its byte stands behind that of the first.
const SECOND_LEAF: Node = Node::Leaf {
    start: 1,
    count: 1,
    first: Piece {
        page: 0,
        from: 0,
        len: 1,
    },
    second: Piece {
        page: 0,
        from: 0,
        len: 0,
    },
    back: 1,
    depth: 1,
};

const AFTER_APPENDS: [Case; 4] = [
    // A leaf leads back to the version that waits.
    Case {
        steps: &[Act::Put(1, 2, 0, 4)],
        published: &[(1, Some(0))],
        looks: &[],
        nodes: &[((1, 2, 0, 4), Some(SECOND_LEAF)), ((1, 1, 0, 4), None)],
    },
    // The second append waits for the first.
    Case {
        steps: &[Act::Put(1, 2, 0, 4), Act::Finish(1, 2)],
        published: &[(1, Some(0))],
        looks: &[(1, 2, 0, 2, None)],
        nodes: &[],
    },
    Case {
        steps: &[
            Act::Put(1, 2, 0, 4),
            Act::Finish(1, 2),
            Act::Put(1, 1, 0, 4),
            Act::Finish(1, 1),
        ],
        published: &[(1, Some(2))],
        looks: &[(1, 2, 0, 2, Some(&[0xaa, 0xbb]))],
        nodes: &[],
    },
    // A node may be put twice.
    Case {
        steps: &[
            Act::Put(1, 1, 0, 4),
            Act::Put(1, 1, 0, 4),
            Act::Finish(1, 1),
        ],
        published: &[(1, Some(1))],
        looks: &[(1, 1, 0, 1, Some(&[0xaa]))],
        nodes: &[],
    },
];

#[test]
fn the_second_append_waits_for_the_first(rt: HostRuntime) {
    for case in &AFTER_APPENDS {
        check_case(&rt, &APPENDS, case);
    }
}

// Steps that aren't allowed after the two appends.
const REFUSED: [Act; 26] = [
    // A finish before the node is stored, of no update, and of one that isn't there.
    Act::Finish(1, 2),
    Act::Finish(1, 0),
    Act::Finish(1, 1),
    Act::Finish(1, 3),
    // Nodes before the numbering, of no blob, and for ranges that no node of the update has.
    Act::Put(1, 3, 0, 4),
    Act::Put(2, 1, 0, 4),
    Act::Put(1, 0, 0, 4),
    Act::Put(1, 2, 0, 8),
    Act::Put(1, 2, 4, 4),
    Act::Put(1, 2, 0, 2),
    // Pages that aren't stored anew: one whose leaf covers it, one whose leaf leaves a byte of it to the first, and pages of
    // no update.
    Act::Fold(1, 1, 0),
    Act::Fold(1, 2, 0),
    Act::Fold(1, 2, 1),
    Act::Fold(1, 3, 0),
    Act::Fold(1, 0, 0),
    Act::Fold(2, 1, 0),
    // What the store refuses.
    Act::Branch(1, 1),
    Act::Branch(2, 0),
    Act::Read(1, 1, 0, 1),
    Act::Read(1, 0, 0, 1),
    Act::Read(1, 0, u64::MAX, 2),
    // Pages of a number that is taken, of no byte, and of five.
    Act::Page(2, &[7]),
    Act::Page(3, &[]),
    Act::Page(3, &[7; 5]),
    // Updates of no page, and of one that isn't there.
    Act::Update(1, Place::Append, &[]),
    Act::Update(1, Place::Append, &[3]),
];

// An update of a page of a byte before another page; and a finish that comes twice.
const SHORT_PAGE_FIRST: [Act; 1] = [Act::Update(1, Place::Append, &[1, 2])];

const TWICE: [Act; 3] = [Act::Put(1, 1, 0, 4), Act::Finish(1, 1), Act::Finish(1, 1)];

#[test]
fn what_the_store_refuses_is_no_step(rt: HostRuntime) {
    for act in &REFUSED {
        check_fault(&rt, &APPENDS, &[*act, Act::Create], 6);
    }
    check_fault(&rt, &APPENDS, &SHORT_PAGE_FIRST, 6);
    check_fault(&rt, &APPENDS, &TWICE, 8);
}

// `abcdef` in blob 1, and `XY` at its end, which waits; a branch at version 1, and `Z` at the branch's end.
const BRANCHED: [Act; 15] = [
    Act::Create,
    Act::Page(1, b"abcd"),
    Act::Page(2, b"ef"),
    Act::Update(1, Place::Append, &[1, 2]),
    Act::Put(1, 1, 0, 8),
    Act::Put(1, 1, 0, 4),
    Act::Put(1, 1, 4, 4),
    Act::Finish(1, 1),
    Act::Page(3, b"XY"),
    Act::Update(1, Place::Append, &[3]),
    Act::Branch(1, 1),
    Act::Page(4, b"Z"),
    Act::Update(2, Place::Append, &[4]),
    Act::Put(2, 2, 4, 4),
    Act::Put(2, 2, 0, 8),
];

// A node of version 1 for the second page, as it is stored under the parent.
const PARENT_LEAF: Node = Node::Leaf {
    start: 0,
    count: 1,
    first: Piece {
        page: 1,
        from: 0,
        len: 2,
    },
    second: Piece {
        page: 0,
        from: 0,
        len: 0,
    },
    back: 0,
    depth: 0,
};

const AFTER_BRANCH: [Case; 2] = [
    Case {
        steps: &[Act::Finish(2, 2)],
        published: &[(1, Some(1)), (2, Some(2)), (3, None)],
        looks: &[
            (2, 2, 0, 7, Some(b"abcdefZ")),
            (2, 2, 3, 3, Some(b"def")),
            (2, 1, 0, 6, Some(b"abcdef")),
            (1, 2, 0, 8, None),
        ],
        nodes: &[((1, 1, 4, 4), Some(PARENT_LEAF)), ((2, 1, 4, 4), None)],
    },
    // The parent goes on as before.
    Case {
        steps: &[
            Act::Finish(2, 2),
            Act::Put(1, 2, 0, 8),
            Act::Put(1, 2, 4, 4),
            Act::Finish(1, 2),
        ],
        published: &[(1, Some(2)), (2, Some(2))],
        looks: &[
            (1, 2, 0, 8, Some(b"abcdefXY")),
            (2, 2, 0, 7, Some(b"abcdefZ")),
        ],
        nodes: &[],
    },
];

// A node of the parent's version isn't stored under the branch.
const UNDER_BRANCH: [Act; 2] = [Act::Finish(2, 2), Act::Put(2, 1, 0, 8)];

#[test]
fn a_branch_shares_the_past_and_goes_its_own_way(rt: HostRuntime) {
    for case in &AFTER_BRANCH {
        check_case(&rt, &BRANCHED, case);
    }
    check_fault(&rt, &BRANCHED, &UNDER_BRANCH, 17);
}
