//! Visit bounds of reads, told before the read, in pages of four bytes.
use crate::plans::written;
use std::process::Abort;
use std::sync::Wait;

// The bound that is told of a read of the version that these updates leave.
fn told<R: Wait + Abort + AllocGlobal>(
    rt: &R,
    updates: &[(u64, usize)],
    offset: u64,
    count: u64,
) -> u64 {
    let mut blob = written(rt, updates);
    let end = blob.size();
    let next = blob.start(rt, end, b"z");
    let ticket = blob.ticket(rt, next, next.saturating_sub(1));
    let (most, _) = blob.stated(rt, &ticket, offset, count);
    most
}

#[test]
fn partial_writes_raise_the_bound_of_later_reads(rt: HostRuntime) {
    let rows: [(&[(u64, usize)], u64, u64, u64); 6] = [
        (&[(0, 6), (6, 2)], 4, 4, 5),
        (&[(0, 1), (1, 31)], 0, 32, 23),
        (&[(0, 4), (0, 1), (1, 1)], 0, 4, 4),
        (&[(0, 6), (3, 2)], 0, 6, 8),
        (&[(0, 4), (0, 1), (1, 1), (0, 4)], 0, 4, 2),
        (&[(0, 6), (3, 2)], 6, 0, 0),
    ];
    for (updates, offset, length, want) in rows {
        assert!(rt; told(&rt, updates, offset, length) == want, "at {offset}");
    }
}
