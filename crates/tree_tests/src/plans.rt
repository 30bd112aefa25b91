//! Whole plans, in pages of four bytes.
use crate::blob::Blob;
use crate::plain::NO_PIECE;
use std::process::Abort;
use std::sync::Wait;
use tree_geom::{Node, PageSize, Piece, Range};

// Numbers the update of so many zeros at byte `at`, and finishes it.
fn write<R: Wait + Abort + AllocGlobal>(rt: &R, blob: &mut Blob, at: u64, len: usize) {
    let zeros = [0; 31];
    let bytes = zeros.get(..len).expect(rt, "as many bytes");
    let version = blob.start(rt, at, bytes);
    let _ = blob.finish(rt, version, version.saturating_sub(1));
}

/// A blob with updates that begin and have as many bytes as told, each finished before the next is numbered.
pub fn written<R: Wait + Abort + AllocGlobal>(rt: &R, updates: &[(u64, usize)]) -> Blob {
    let p = PageSize::new(4).expect(rt, "four bytes");
    let mut blob = Blob::new(rt, p);
    for (at, len) in updates {
        write(rt, &mut blob, *at, *len);
    }
    blob
}

fn inner(offset: u64, size: u64, left: u64, right: u64) -> (Range, Node) {
    (Range { offset, size }, Node::Inner { left, right })
}

fn piece(page: u32, from: u32, len: u32) -> Piece {
    Piece { page, from, len }
}

// The leaf of a page with one piece.
fn leaf(offset: u64, start: u32, first: Piece, back: u64, depth: u32) -> (Range, Node) {
    (
        Range { offset, size: 4 },
        Node::Leaf {
            start,
            count: 1,
            first,
            second: NO_PIECE,
            back,
            depth,
        },
    )
}

// The leaf of a page that two pieces cover, the first of one byte.
fn full_leaf(offset: u64, page: u32) -> (Range, Node) {
    (
        Range { offset, size: 4 },
        Node::Leaf {
            start: 0,
            count: 2,
            first: piece(page, 3, 1),
            second: piece(page.saturating_add(1), 0, 3),
            back: 0,
            depth: 0,
        },
    )
}

// Whether the plan of the version has just these nodes, with that version published; and the node steps that it took.
fn planned<R: Abort + AllocGlobal>(
    rt: &R,
    blob: &Blob,
    version: u64,
    published: u64,
    want: &[(Range, Node)],
) -> (bool, u64) {
    let ticket = blob.ticket(rt, version, published);
    let (planned, steps) = blob.plan(rt, &ticket);
    let nodes = planned.nodes(rt.alloc()).expect(rt, "memory");
    (nodes.as_slice() == want, steps)
}

// Checks that the plan of the version has just these nodes, with that version published.
fn check_planned<R: Abort + AllocGlobal>(
    rt: &R,
    blob: &Blob,
    version: u64,
    published: u64,
    want: &[(Range, Node)],
) {
    let (is_so, _) = planned(rt, blob, version, published, want);
    assert!(rt; is_so, "over version {published}");
}

// The nodes of an append of 31 bytes after one byte.
fn eight_pages() -> [(Range, Node); 15] {
    [
        inner(0, 32, 2, 2),
        inner(0, 16, 2, 2),
        inner(16, 16, 2, 2),
        inner(0, 8, 2, 2),
        inner(8, 8, 2, 2),
        inner(16, 8, 2, 2),
        inner(24, 8, 2, 2),
        leaf(0, 1, piece(0, 0, 3), 1, 1),
        full_leaf(4, 0),
        full_leaf(8, 1),
        full_leaf(12, 2),
        full_leaf(16, 3),
        full_leaf(20, 4),
        full_leaf(24, 5),
        full_leaf(28, 6),
    ]
}

#[test]
fn an_append_over_eight_pages_has_fifteen_nodes_whichever_version_was_published(rt: HostRuntime) {
    let blob = written(&rt, &[(0, 1), (1, 31)]);
    let want = eight_pages();
    for published in [1, 0] {
        check_planned(&rt, &blob, 2, published, &want);
    }
}

#[test]
fn a_third_append_links_to_the_second_whichever_version_was_published(rt: HostRuntime) {
    let blob = written(&rt, &[(0, 4), (4, 4), (8, 1)]);
    let want = [
        inner(0, 16, 2, 3),
        inner(8, 8, 3, 0),
        leaf(8, 0, piece(0, 0, 1), 0, 0),
    ];
    assert!(rt; planned(&rt, &blob, 3, 0, &want) == (true, 0));
    for published in [1, 2] {
        check_planned(&rt, &blob, 3, published, &want);
    }
}

#[test]
fn a_write_across_two_pages_leads_back_in_both(rt: HostRuntime) {
    let blob = written(&rt, &[(0, 6), (3, 2)]);
    let want = [
        inner(0, 8, 2, 2),
        leaf(0, 3, piece(0, 0, 1), 1, 1),
        leaf(4, 0, piece(0, 1, 1), 1, 1),
    ];
    check_planned(&rt, &blob, 2, 1, &want);
}

#[test]
fn each_part_of_a_page_that_is_written_anew_lies_one_deeper(rt: HostRuntime) {
    let blob = written(&rt, &[(0, 4), (0, 1), (1, 1)]);
    let leaves = [
        (1u64, leaf(0, 0, piece(0, 0, 4), 0, 0)),
        (2, leaf(0, 0, piece(0, 0, 1), 1, 1)),
        (3, leaf(0, 1, piece(0, 0, 1), 2, 2)),
    ];
    for (version, want) in leaves {
        check_planned(&rt, &blob, version, version.saturating_sub(1), &[want]);
        check_planned(&rt, &blob, version, 0, &[want]);
    }
}
