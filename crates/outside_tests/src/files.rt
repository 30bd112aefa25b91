//! Files: in a map, and those of the system.
use blob_model::Bytes;
use memory_ports::MemFiles;
use ports::files::{FileText, Files};
use ports::host::HostFiles;
use std::alloc::{AllocError, Global};
use std::collections::BTreeMap;
use std::fs;
use std::process::Abort;
use std::rt::Files as SystemFiles;

// What a read answers, as one text: the file's, or a word.
fn answer<F: Files>(
    files: &mut F,
    alloc: Global,
    name: &str,
    limit: usize,
) -> Result<Vec<u8>, AllocError> {
    match files.read(name, limit) {
        FileText::Text(bytes) => Ok(bytes.into_vec()),
        FileText::TooLong => b"too long".to_vec(alloc),
        FileText::Failed => b"failed".to_vec(alloc),
        FileText::NoMemory => b"no memory".to_vec(alloc),
    }
}

// The files that are there, by name.
static FILES: [(&str, &str); 2] = [("settings", "page = 4"), ("empty", "")];

// A name, a limit, and the answer.
static READS: [(&str, usize, &str); 7] = [
    ("settings", 65536, "page = 4"),
    ("settings", 8, "page = 4"),
    ("settings", 7, "too long"),
    ("settings", 0, "too long"),
    ("empty", 0, ""),
    ("Settings", 65536, "failed"),
    ("", 0, "failed"),
];

fn check_file<R: Abort, F: Files>(
    rt: &R,
    alloc: Global,
    files: &mut F,
    name: &str,
    limit: usize,
    text: &str,
) {
    let found = answer(files, alloc, name, limit).expect(rt, name);
    assert!(rt; found.as_slice() == text.as_bytes(), "{name}");
}

fn check_files<R: Abort, F: Files + Drop>(rt: &R, alloc: Global, files: F) {
    let mut files = files;
    for (name, limit, text) in READS.as_slice() {
        check_file(rt, alloc, &mut files, name, *limit, text);
    }
}

fn add_file<R: Abort>(
    rt: &R,
    alloc: Global,
    files: &mut BTreeMap<String, Bytes>,
    name: &str,
    text: &str,
) {
    let name = String::from_str(alloc, name).expect(rt, "memory");
    let bytes = text.as_bytes().to_vec(alloc).expect(rt, "memory");
    assert!(rt; files.insert(name, Bytes::of(bytes)).is_ok(), "memory");
}

#[test]
fn files_in_a_map_are_read_whole_or_refused(rt: HostRuntime) {
    let alloc = rt.alloc();
    let mut files = BTreeMap::new(alloc);
    for (name, text) in FILES.as_slice() {
        add_file(&rt, alloc, &mut files, name, text);
    }
    check_files(&rt, alloc, MemFiles::new(alloc, files));
}

fn write_files<R: SystemFiles + Abort>(rt: &R) {
    for (name, text) in FILES.as_slice() {
        fs::write(rt, *name, *text).expect(rt, name);
    }
}

fn remove_files<R: SystemFiles + Abort>(rt: &R) {
    for (name, _) in FILES.as_slice() {
        fs::remove_file(rt, *name).expect(rt, name);
    }
}

#[test]
fn files_of_the_system_are_read_whole_or_refused(rt: HostRuntime) {
    write_files(&rt);
    let system = rt.clone().expect(&rt, "memory");
    check_files(&rt, rt.alloc(), HostFiles::new(system, rt.alloc()));
    remove_files(&rt);
}
