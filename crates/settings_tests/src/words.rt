//! Command lines, and the settings that they give.

use settings::{Command, Given, Text, read_words};
use std::alloc::{AllocError, Global};
use std::process::Abort;

// Command lines, and what they give: the command and each setting.
static ACCEPTED: [(&str, &str); 57] = [
    ("run", "run"),
    ("load", "load"),
    ("node", "node"),
    ("node --page 4", "node page=4"),
    ("node --page=1048576", "node page=1048576"),
    ("files", "files"),
    (
        "files --page 4 --providers 3 --replicas 2",
        "files page=4 providers=3 replicas=2",
    ),
    (
        "files --settings s --max-size=9 --max-open 3 --max-blobs 1 --max-versions 7",
        "files max-size=9 max-versions=7 max-open=3 max-blobs=1 settings=s",
    ),
    ("serve --listen a:1", "serve listen=a:1"),
    ("serve --listen=127.0.0.1:9", "serve listen=127.0.0.1:9"),
    ("serve --listen nowhere", "serve listen=nowhere"),
    ("serve --listen a=b", "serve listen=a=b"),
    ("serve --listen=a=b", "serve listen=a=b"),
    ("serve --listen=-", "serve listen=-"),
    ("serve --listen=--workers", "serve listen=--workers"),
    ("run --page 4", "run page=4"),
    ("run --page=4", "run page=4"),
    ("run --page 1048576", "run page=1048576"),
    ("run --providers 1", "run providers=1"),
    ("run --providers=64", "run providers=64"),
    ("run --replicas 1", "run replicas=1"),
    ("run --replicas 8", "run replicas=8"),
    (
        "run --providers 2 --replicas 3",
        "run providers=2 replicas=3",
    ),
    ("run --max-size 1", "run max-size=1"),
    ("run --max-size 1099511627776", "run max-size=1099511627776"),
    ("run --max-versions=1", "run max-versions=1"),
    ("run --max-versions 1048576", "run max-versions=1048576"),
    ("run --max-open 1", "run max-open=1"),
    ("run --max-open=64", "run max-open=64"),
    ("run --max-blobs 1", "run max-blobs=1"),
    ("run --max-blobs 65535", "run max-blobs=65535"),
    (
        "run --max-size 8 --max-versions 2 --max-blobs 1",
        "run max-size=8 max-versions=2 max-blobs=1",
    ),
    ("run --settings s", "run settings=s"),
    ("run --settings=s", "run settings=s"),
    ("run --settings=-", "run settings=-"),
    ("run --settings=--page", "run settings=--page"),
    ("run --settings a=b", "run settings=a=b"),
    ("run --settings==", "run settings=="),
    ("run --settings help", "run settings=help"),
    ("run --settings 8", "run settings=8"),
    ("run --settings größe", "run settings=größe"),
    ("load --workers=1", "load workers=1"),
    ("load --workers 16", "load workers=16"),
    ("load --seed 0", "load seed=0"),
    (
        "load --seed=18446744073709551615",
        "load seed=18446744073709551615",
    ),
    ("load --ops 1", "load ops=1"),
    ("load --ops=4096", "load ops=4096"),
    (
        "load --seed 7 --workers 4 --ops 100",
        "load workers=4 seed=7 ops=100",
    ),
    (
        "load --ops=100 --workers=4 --seed=7",
        "load workers=4 seed=7 ops=100",
    ),
    (
        "serve --connections 1 --listen :0",
        "serve connections=1 listen=:0",
    ),
    (
        "serve --listen :0 --connections=4294967295",
        "serve connections=4294967295 listen=:0",
    ),
    (
        "serve --settings s --page 8 --max-open 3 --listen h:80 --workers 5 --max-size 9 --connections 6 --max-blobs 1 --replicas 2 --max-versions 7 --providers 3",
        "serve page=8 providers=3 replicas=2 max-size=9 max-versions=7 max-open=3 max-blobs=1 workers=5 connections=6 listen=h:80 settings=s",
    ),
    (
        "load --page 16 --providers=5 --replicas 3 --settings=t --workers 2 --seed 10 --ops 20",
        "load page=16 providers=5 replicas=3 workers=2 seed=10 ops=20 settings=t",
    ),
    ("watch", "watch"),
    ("watch --readers 1", "watch readers=1"),
    ("watch --readers=16", "watch readers=16"),
    (
        "watch --readers 3 --seed=8 --settings u --ops 30 --replicas 1 --providers=6 --page 32",
        "watch page=32 providers=6 replicas=1 seed=8 ops=30 readers=3 settings=u",
    ),
];

/// The words of a line, which stand between single spaces.
pub fn words_of<R: Abort>(rt: &R, alloc: Global, line: &str) -> Vec<String> {
    let mut words = Vec::new(alloc);
    for part in line.split(' ') {
        let word = String::from_str(alloc, part).expect(rt, "memory");
        words.push(word).expect(rt, "memory");
    }
    words
}

fn word_of(command: Command) -> &'static str {
    match command {
        Command::Run => "run",
        Command::Serve => "serve",
        Command::Load => "load",
        Command::Node => "node",
        Command::Files => "files",
        Command::Watch => "watch",
    }
}

fn wide(number: Option<u32>) -> Option<u64> {
    match number {
        Some(number) => Some(u64::from(number)),
        None => None,
    }
}

// The numbers that were given, by their names.
fn numbers_of(given: &Given) -> [(&'static str, Option<u64>); 12] {
    [
        ("page", given.page),
        ("providers", wide(given.providers)),
        ("replicas", wide(given.replicas)),
        ("max-size", given.max_size),
        ("max-versions", given.max_versions),
        ("max-open", given.max_open),
        ("max-blobs", given.max_blobs),
        ("workers", wide(given.workers)),
        ("connections", wide(given.connections)),
        ("seed", given.seed),
        ("ops", wide(given.ops)),
        ("readers", wide(given.readers)),
    ]
}

fn add_number(line: &mut String, name: &str, number: Option<u64>) -> Result<(), AllocError> {
    match number {
        Some(number) => write!(line, " {name}={number}"),
        None => Ok(()),
    }
}

fn add_text(line: &mut String, name: &str, text: &Option<Text>) -> Result<(), AllocError> {
    match text {
        Some(text) => {
            let text = text.as_str();
            write!(line, " {name}={text}")
        }
        None => Ok(()),
    }
}

// Adds each setting that was given.
fn add_given(line: &mut String, given: &Given) -> Result<(), AllocError> {
    for (name, number) in numbers_of(given) {
        add_number(line, name, number)?;
    }
    add_text(line, "listen", &given.listen)?;
    add_text(line, "settings", &given.settings)
}

/// Each setting that was given, behind that beginning.
pub fn line_of<R: Abort>(rt: &R, alloc: Global, begin: &str, given: &Given) -> String {
    let mut line = String::from_str(alloc, begin).expect(rt, "memory");
    add_given(&mut line, given).expect(rt, "memory");
    line
}

fn check_row<R: Abort>(rt: &R, alloc: Global, line: &str, expected: &str) {
    let words = words_of(rt, alloc, line);
    let (command, given) = read_words(alloc, words.as_slice()).expect(rt, line);
    let shown = line_of(rt, alloc, word_of(command), &given);
    assert!(rt; shown.as_str() == expected, "{line}");
}

#[test]
fn lines_give_a_command_and_settings(rt: HostRuntime) {
    for (line, expected) in ACCEPTED.as_slice() {
        check_row(&rt, rt.alloc(), line, expected);
    }
}
