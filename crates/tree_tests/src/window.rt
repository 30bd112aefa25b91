//! The order of publication.
use crate::blob::Blob;
use publisher::{FinishFault, Window};
use range_log::OpenTouch;
use std::process::Abort;
use std::sync::Wait;
use tree_geom::{PageSize, Touch};

const FIRST: OpenTouch = OpenTouch {
    version: 1,
    touch: Touch {
        first: 0,
        last: 0,
        size: 1,
        open_first: false,
        open_last: false,
    },
};

const SECOND: OpenTouch = OpenTouch {
    version: 2,
    touch: Touch {
        first: 0,
        last: 7,
        size: 32,
        open_first: true,
        open_last: false,
    },
};

// Whether just these updates wait.
fn waits(window: &Window<()>, want: &[OpenTouch]) -> bool {
    let list = window.waiting();
    if list.count() as usize != want.len() {
        return false;
    }
    for i in 0..list.count() {
        if list.at(i) != want[i as usize] {
            return false;
        }
    }
    true
}

// Checks that just these updates wait.
fn check_waits<R: Abort>(rt: &R, blob: &Blob, want: &[OpenTouch]) {
    assert!(rt; waits(blob.window(), want));
}

// Numbers the update of these bytes at byte `at`, and checks its version.
fn check_start<R: Wait + Abort + AllocGlobal>(
    rt: &R,
    blob: &mut Blob,
    at: u64,
    bytes: &[u8],
    want: u64,
) {
    assert!(rt; blob.start(rt, at, bytes) == want);
}

// One byte is appended, and then 31; the waiting updates are those that were numbered.
fn two_appends<R: Wait + Abort + AllocGlobal>(rt: &R) -> Blob {
    let p = PageSize::new(4).expect(rt, "four bytes");
    let mut blob = Blob::new(rt, p);
    check_waits(rt, &blob, &[]);
    check_start(rt, &mut blob, 0, &[0], 1);
    check_waits(rt, &blob, &[FIRST]);
    check_start(rt, &mut blob, 1, &[0; 31], 2);
    check_waits(rt, &blob, &[FIRST, SECOND]);
    blob
}

// What a finish answers: the published version, or none where it was finished already and its row came back.
fn finished<R: Wait + Abort + AllocGlobal>(rt: &R, blob: &mut Blob, version: u64) -> Option<u64> {
    match blob.finish(rt, version, 0) {
        Ok(published) => Some(published),
        Err((fault, row)) => {
            assert!(rt; fault == FinishFault::Already && row.version() == version);
            None
        }
    }
}

// Checks what a finish answers, and what is published then.
fn check_finish<R: Wait + Abort + AllocGlobal>(
    rt: &R,
    blob: &mut Blob,
    version: u64,
    want: Option<u64>,
    published: u64,
) {
    assert!(rt; finished(rt, blob, version) == want);
    assert!(rt; blob.window().published() == published);
}

// Checks that the snapshot of a published version is that version's and has so many bytes.
fn check_size<R: Abort>(rt: &R, window: &Window<()>, version: u64, want: u64) {
    assert!(rt; version <= window.published(), "not published");
    let snapshot = window.snapshot_at(version).expect(rt, "memory");
    assert!(rt; snapshot.version() == version && snapshot.size() == want);
}

#[test]
fn a_later_update_is_published_once_the_earlier_one_is_finished(rt: HostRuntime) {
    let mut blob = two_appends(&rt);
    check_finish(&rt, &mut blob, 2, Some(0), 0);
    check_waits(&rt, &blob, &[FIRST, SECOND]);
    check_finish(&rt, &mut blob, 1, Some(2), 2);
    check_waits(&rt, &blob, &[]);
    check_size(&rt, blob.window(), 0, 0);
    check_size(&rt, blob.window(), 1, 1);
    check_size(&rt, blob.window(), 2, 32);
}

#[test]
fn a_version_that_is_finished_already_gives_the_row_back(rt: HostRuntime) {
    let mut blob = two_appends(&rt);
    check_finish(&rt, &mut blob, 2, Some(0), 0);
    check_finish(&rt, &mut blob, 2, None, 0);
    check_finish(&rt, &mut blob, 1, Some(2), 2);
    check_finish(&rt, &mut blob, 1, None, 2);
}
