//! Which stored page holds a byte, in pages of four bytes.
use crate::plans::written;
use std::process::Abort;
use std::sync::Wait;

// How many bytes the stored page has that holds the byte of the version that these updates leave.
fn held_in<R: Wait + Abort + AllocGlobal>(
    rt: &R,
    updates: &[(u64, usize)],
    at: u64,
) -> Option<u32> {
    let mut blob = written(rt, updates);
    let end = blob.size();
    let next = blob.start(rt, end, b"z");
    let ticket = blob.ticket(rt, next, next.saturating_sub(1));
    blob.holder_len(&ticket, at)
}

#[test]
fn the_first_leaf_that_has_a_byte_holds_it(rt: HostRuntime) {
    let rows: [(&[(u64, usize)], u64, Option<u32>); 9] = [
        (&[(0, 4), (1, 2)], 0, Some(4)),
        (&[(0, 4), (1, 2)], 1, Some(2)),
        (&[(0, 4), (1, 2)], 3, Some(4)),
        (&[(0, 4), (1, 2)], 4, None),
        (&[(0, 7), (3, 2)], 4, Some(2)),
        (&[(0, 7), (3, 2)], 5, Some(3)),
        (&[(0, 1), (1, 31)], 28, Some(4)),
        (&[(0, 1), (1, 31)], 29, Some(3)),
        (&[(0, 4), (0, 1), (1, 2)], 0, Some(1)),
    ];
    for (updates, at, want) in rows {
        assert!(rt; held_in(&rt, updates, at) == want, "byte {at}");
    }
}
