// Pages, ranges and touched pages: worked values.
use std::process::Abort;
use tree_geom::{PageSize, Range, halves, height, meets, span, touched};

#[test]
fn page_sizes_are_powers_of_two(rt: HostRuntime) {
    for (bytes, is_one) in [
        (2, false),
        (3, false),
        (4, true),
        (6, false),
        (1_048_576, true),
        (2_097_152, false),
    ] {
        assert!(rt; PageSize::new(bytes).is_some() == is_one, "{bytes} bytes");
    }
}

fn check_spans<R: Abort>(rt: &R, p: PageSize) {
    assert!(rt; [span(p, 0), span(p, 4), span(p, 9)] == [0, 4, 16]);
    assert!(rt; [height(p, 4), height(p, 9)] == [0, 2]);
}

fn check_halves<R: Abort>(rt: &R) {
    let whole = Range {
        offset: 0,
        size: 16,
    };
    let low = Range { offset: 0, size: 8 };
    let high = Range { offset: 8, size: 8 };
    assert!(rt; halves(whole) == (low, high));
}

fn check_meetings<R: Abort>(rt: &R, p: PageSize) {
    let touch = touched(p, 4, 4, 8);
    assert!(rt; meets(p, &touch, Range { offset: 0, size: 8 }));
    assert!(rt; !meets(p, &touch, Range { offset: 8, size: 8 }));
    assert!(rt; !meets(p, &touch, Range { offset: 0, size: 4 }));
}

#[test]
fn worked_pages_and_ranges(rt: HostRuntime) {
    let p = PageSize::new(4).expect(&rt, "4 bytes");
    assert!(rt; p.bytes() == 4);
    let grown = touched(p, 1, 31, 32);
    assert!(rt; [grown.first, grown.last, grown.size] == [0, 7, 32]);
    check_spans(&rt, p);
    check_halves(&rt);
    check_meetings(&rt, p);
}
