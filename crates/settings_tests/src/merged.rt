//! Words and settings files together.

use crate::words::words_of;
use settings::{Settings, merge, read_text, read_words};
use std::alloc::Global;
use std::process::Abort;

// Words, a settings file, and what they come to: page, providers, replicas, the greatest size, versions, waiting updates and blobs,
// workers, connections, seed, operations, readers; and the address and the name of the file.
static MERGED: [(&str, &str, [u64; 12], [&str; 2]); 10] = [
    (
        "run",
        "",
        [
            4096,
            4,
            2,
            1099511627776,
            1048576,
            64,
            65535,
            4,
            4294967295,
            1,
            100,
            2,
        ],
        ["", ""],
    ),
    (
        "run --replicas 1",
        "page = 4",
        [
            4,
            4,
            1,
            1099511627776,
            1048576,
            64,
            65535,
            4,
            4294967295,
            1,
            100,
            2,
        ],
        ["", ""],
    ),
    (
        "run --page 8 --settings s",
        "page = 4\nproviders = 3",
        [
            8,
            3,
            2,
            1099511627776,
            1048576,
            64,
            65535,
            4,
            4294967295,
            1,
            100,
            2,
        ],
        ["", "s"],
    ),
    (
        "run --replicas 4",
        "",
        [
            4096,
            4,
            4,
            1099511627776,
            1048576,
            64,
            65535,
            4,
            4294967295,
            1,
            100,
            2,
        ],
        ["", ""],
    ),
    (
        "run --replicas 2",
        "providers = 2\nreplicas = 8",
        [
            4096,
            2,
            2,
            1099511627776,
            1048576,
            64,
            65535,
            4,
            4294967295,
            1,
            100,
            2,
        ],
        ["", ""],
    ),
    (
        "run --replicas 1",
        "providers = 1",
        [
            4096,
            1,
            1,
            1099511627776,
            1048576,
            64,
            65535,
            4,
            4294967295,
            1,
            100,
            2,
        ],
        ["", ""],
    ),
    (
        "load --seed 7",
        "seed = 8\nops = 9\nmax-size = 10\nconnections = 11",
        [4096, 4, 2, 10, 1048576, 64, 65535, 4, 11, 7, 9, 2],
        ["", ""],
    ),
    (
        "serve --listen a:1 --page 8 --providers 6 --replicas 5 --max-size 2 --max-versions 3 --max-open 4 --max-blobs 5 --workers 6 --connections 7",
        "page = 16\nproviders = 16\nreplicas = 6\nmax-size = 12\nmax-versions = 13\nmax-open = 14\nmax-blobs = 15\nworkers = 16\nconnections = 17\nseed = 18\nops = 19",
        [8, 6, 5, 2, 3, 4, 5, 6, 7, 18, 19, 2],
        ["a:1", ""],
    ),
    (
        "watch --readers 9 --ops 4",
        "seed = 5\nworkers = 3\nops = 6",
        [
            4096,
            4,
            2,
            1099511627776,
            1048576,
            64,
            65535,
            3,
            4294967295,
            5,
            4,
            9,
        ],
        ["", ""],
    ),
    (
        "run",
        "page = 16\nproviders = 16\nreplicas = 6\nmax-size = 12\nmax-versions = 13\nmax-open = 14\nmax-blobs = 15\nworkers = 16\nconnections = 17\nseed = 18\nops = 19",
        [16, 16, 6, 12, 13, 14, 15, 16, 17, 18, 19, 2],
        ["", ""],
    ),
];

fn numbers_of(settings: &Settings) -> [u64; 12] {
    [
        settings.page,
        u64::from(settings.providers),
        u64::from(settings.replicas),
        settings.limits.max_size,
        settings.limits.max_versions,
        settings.limits.max_open,
        settings.limits.max_blobs,
        u64::from(settings.workers),
        u64::from(settings.connections),
        settings.seed,
        u64::from(settings.ops),
        u64::from(settings.readers),
    ]
}

fn merged<R: Abort>(rt: &R, alloc: Global, line: &str, text: &str) -> Settings {
    let words = words_of(rt, alloc, line);
    let (_, given) = read_words(alloc, words.as_slice()).expect(rt, line);
    let file = read_text(alloc, text.as_bytes()).expect(rt, text);
    merge(given, file).expect(rt, line)
}

fn check_row<R: Abort>(
    rt: &R,
    alloc: Global,
    line: &str,
    text: &str,
    numbers: &[u64; 12],
    texts: &[&str; 2],
) {
    let settings = merged(rt, alloc, line, text);
    assert!(rt; numbers_of(&settings) == *numbers, "numbers of {line}");
    let [listen, file] = *texts;
    assert!(rt;
        settings.listen.as_str() == listen && settings.settings.as_str() == file,
        "texts of {line}"
    );
}

#[test]
fn words_win_over_the_file_and_the_file_over_the_defaults(rt: HostRuntime) {
    for (line, text, numbers, texts) in MERGED.as_slice() {
        check_row(&rt, rt.alloc(), line, text, numbers, texts);
    }
}
