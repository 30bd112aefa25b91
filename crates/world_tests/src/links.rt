// The newest version of a range, and the ranges of a row: worked values.
ghost use Rattle.std.specs.Prelude.{◌+◌, ◌^◌, ◌≤◌, length};

use range_log::{newest, row_keys};
use std::process::Abort;
use tree_geom::{PageSize, Range, Touch, height, touched};

/// Checks the newest version of the range among the first `k`.
fn check_newest<R: Abort>(rt: &R, p: PageSize, log: &[Touch], k: usize, range: Range, want: u64)
    requires within { k ≤ length log.now }
    requires fits { range.offset + range.size ≤ 2 ^ 40 }
{
    assert!(rt; newest(p, log, k, range) == want);
}

#[test]
fn three_appends_link_to_the_second(rt: HostRuntime) {
    let p = PageSize::new(4).expect(&rt, "4 bytes");
    let log = [
        touched(p, 0, 4, 4),
        touched(p, 4, 4, 8),
        touched(p, 8, 1, 9),
    ];
    check_newest(&rt, p, &log, 3, Range { offset: 0, size: 8 }, 2);
    check_newest(&rt, p, &log, 1, Range { offset: 4, size: 4 }, 0);
    let keys = row_keys(rt.alloc(), p, &log, 3).expect(&rt, "memory");
    let want = [
        Range {
            offset: 0,
            size: 16,
        },
        Range { offset: 8, size: 8 },
        Range { offset: 8, size: 4 },
    ];
    assert!(rt; keys.as_slice() == want.as_slice());
}

/// Checks that the newest version of each page is the one that wrote all 256.
fn check_pages<R: Abort>(rt: &R, p: PageSize, log: &[Touch])
    requires { 1 ≤ length log.now }
{
    for page in 0..256u64 {
        let range = Range {
            offset: page * 4096,
            size: 4096,
        };
        check_newest(rt, p, log, 1, range, 1);
        check_newest(rt, p, log, 0, range, 0);
    }
}

#[test]
fn a_whole_mebibyte_may_visit_528_nodes(rt: HostRuntime) {
    let p = PageSize::new(4096).expect(&rt, "4096 bytes");
    let touch = touched(p, 0, 1_048_576, 1_048_576);
    let log = [touch];
    let pages = touch.last - touch.first + 1;
    let levels = height(p, touch.size);
    assert!(rt; pages == 256 && levels == 8);
    let keys = row_keys(rt.alloc(), p, &log, 1).expect(&rt, "memory");
    assert!(rt; keys.len() == 511);
    check_pages(&rt, p, &log);
    assert!(rt; 2 * pages + 2 * u64::from(levels) == 528);
}
