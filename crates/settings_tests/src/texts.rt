//! Texts of settings files, and the settings that they give.

use crate::words::line_of;
use settings::read_text;
use std::alloc::Global;
use std::process::Abort;

// Texts, and each setting that they give.
static ACCEPTED: [(&str, &str); 27] = [
    ("", ""),
    ("\n", ""),
    ("\r\n", ""),
    ("# nothing\n", ""),
    ("# page = 4", ""),
    ("page = 4", " page=4"),
    ("page=4\n", " page=4"),
    ("\t page = 4  # bytes\n", " page=4"),
    ("page = 4\r\nproviders = 3\r\n", " page=4 providers=3"),
    ("providers = 3\n\npage = 4\n", " page=4 providers=3"),
    ("\"page\" = 4", " page=4"),
    ("'page' = 4", " page=4"),
    ("page = 1048576", " page=1048576"),
    ("page = 0x1000", " page=4096"),
    ("ops = 0xfF", " ops=255"),
    ("ops = 0o17", " ops=15"),
    ("ops = 0b11", " ops=3"),
    ("ops = 1_000", " ops=1000"),
    ("ops = +7", " ops=7"),
    ("ops = 1", " ops=1"),
    ("ops = 4096", " ops=4096"),
    ("seed = 0", " seed=0"),
    ("seed = -0", " seed=0"),
    ("seed = 9223372036854775807", " seed=9223372036854775807"),
    ("providers = 64\nreplicas = 8", " providers=64 replicas=8"),
    ("providers = 2\nreplicas = 3", " providers=2 replicas=3"),
    (
        "ops = 1\nseed = 2\nconnections = 4294967295\nworkers = 16\nmax-blobs = 65535\nmax-open = 64\nmax-versions = 1048576\nmax-size = 1099511627776\nreplicas = 8\nproviders = 7\npage = 16\n",
        " page=16 providers=7 replicas=8 max-size=1099511627776 max-versions=1048576 max-open=64 max-blobs=65535 workers=16 connections=4294967295 seed=2 ops=1",
    ),
];

fn check_row<R: Abort>(rt: &R, alloc: Global, text: &str, expected: &str) {
    let given = read_text(alloc, text.as_bytes()).expect(rt, text);
    let shown = line_of(rt, alloc, "", &given);
    assert!(rt; shown.as_str() == expected, "{text}");
}

#[test]
fn texts_give_settings(rt: HostRuntime) {
    for (text, expected) in ACCEPTED.as_slice() {
        check_row(&rt, rt.alloc(), text, expected);
    }
}
