//! Paths: where a folder or a file stands in the tree of names.
ghost use Rattle.std.specs.Prelude.{◌≡◌, ◌≤◌, ◌∷◌, [], ℕ, List, length, true, false, is_some, IfSome, IfOk, take};
ghost use Rattle.std.specs.List.{list_all, slice_split, count_by};
ghost use Rattle.file_names.specs.Paths.{is_slash, is_name_byte, is_name, are_names, is_path, is_root, parent_of, name_of, behind_slash};

use faults::NoMemory;
use std::alloc::Global;
use std::marker::Model;

// The most parts of a path.
const MOST_PARTS: usize = 16;

// The most bytes of a name.
const MOST_NAME: usize = 255;

/// A path: `/`, or 1 to 16 parts of a slash and a name each. A name is 1 to 255 letters, digits, `.`, `_` or `-` of ASCII, and
/// neither `.` nor `..`. Contracts see the path's bytes.
#[derive(Drop)]
pub struct Path {
    text: Vec<u8>,
}

impl Model for Path {
    ghost use Rattle.std.specs.Prelude.{◌≡◌, ℕ, List, true};
    ghost use Rattle.file_names.specs.Paths.{is_path};

    ghost Value = { List ℕ };

    ghost view = { λ p. p.text.items };

    ghost invariant = { λ p. is_path p.text.items ≡ true };
}

fn is_slash(byte: u8) -> bool
    ensures { result ≡ is_slash byte }
{
    byte == b'/'
}

fn is_name_byte(byte: u8) -> bool
    ensures { result ≡ is_name_byte byte }
{
    byte.is_ascii_alphanumeric() || byte == b'.' || byte == b'_' || byte == b'-'
}

// Whether all bytes are bytes of names.
fn are_name_bytes(name: &[u8]) -> bool
    ensures { result ≡ list_all is_name_byte name.now }
{
    name.iter().all(|byte| is_name_byte(*byte))
}

// Whether a name is neither empty nor too long, and has no other bytes than a name may have.
fn is_name(name: &[u8]) -> bool
    ensures { result ≡ is_name name.now }
{
    let fits = 1 <= name.len() && name.len() <= MOST_NAME;
    let dots = name == b".".as_slice() || name == b"..".as_slice();
    fits && !dots && are_name_bytes(name)
}

// How many slashes a text has.
fn slashes(text: &[u8]) -> usize
    ensures { result ≡ count_by is_slash text.now }
{
    text.iter().filter(|byte| is_slash(**byte)).count()
}

// Whether what stands between the slashes of a text are names.
fn parts_are_names(text: &[u8]) -> bool
    ensures { result ≡ list_all is_name (slice_split is_slash text.now) }
{
    text.split(|byte| is_slash(*byte)).all(|part| is_name(part))
}

// Whether a text is the names of a path, with slashes between them.
fn are_names(text: &[u8]) -> bool
    ensures { result ≡ are_names text.now }
{
    slashes(text) < MOST_PARTS && parts_are_names(text)
}

/// Whether a text is a path.
pub fn is_path(text: &[u8]) -> bool
    ensures { result ≡ is_path text.now }
{
    match text.split_first() {
        Some((first, rest)) => is_slash(*first) && (rest.is_empty() || are_names(rest)),
        None => false,
    }
}

// How many bytes stand behind the last slash of a text.
fn behind_slash(text: &[u8]) -> usize
    ensures behind { result ≡ behind_slash text.now }
    ensures within { result ≤ length text.now }
{
    match text.iter().rev().position(|byte| is_slash(*byte)) {
        Some(count) => count,
        None => text.len(),
    }
}

// How many bytes of a path come before its last name's slash, or 1 where none do.
fn parent_end(text: &[u8]) -> usize
    requires { is_path text.now ≡ true }
    ensures within { result ≤ length text.now }
    ensures parent { take result text.now ≡ parent_of text.now }
{
    let end = text.len() - behind_slash(text);
    if end <= 1 { 1 } else { end - 1 }
}

// Whether a path is `/`.
pub(crate) fn is_root(text: &[u8]) -> bool
    ensures { result ≡ is_root text.now }
{
    text.len() == 1
}

// What stands behind the last slash.
pub(crate) fn name_of(text: &[u8]) -> &[u8]
    ensures { result.now ≡ name_of text.now }
{
    &text[text.len() - behind_slash(text)..]
}

// The path of the folder that a path stands in.
pub(crate) fn parent_of(text: &[u8]) -> &[u8]
    requires { is_path text.now ≡ true }
    ensures parent { result.now ≡ parent_of text.now }
    ensures path { is_path result.now ≡ true }
{
    &text[..parent_end(text)]
}

impl Path {
    /// The text as a path, where it is one. Takes no memory.
    pub fn of(text: Vec<u8>) -> Option<Path>
        ensures exactly { is_some result ≡ is_path text.items }
        ensures path { IfSome result (λ p. p ≡ text.items) }
    {
        if is_path(text.as_slice()) {
            Some(Path { text })
        } else {
            None
        }
    }

    /// The path's bytes as a vector. Takes no memory.
    pub fn into_vec(self) -> Vec<u8>
        ensures bytes { result.items ≡ self }
        ensures path { is_path self ≡ true }
    {
        self.text
    }

    /// The path's bytes.
    pub fn as_slice(&self) -> &[u8]
        ensures bytes { result.now ≡ self.now }
        ensures path { is_path self.now ≡ true }
    {
        self.text.as_slice()
    }

    /// The same path in memory of its own.
    pub fn copy(&self, alloc: Global) -> Result<Path, NoMemory>
        ensures { IfOk result (λ p. p ≡ self.now) }
    {
        let text = self.text.as_slice().to_vec(alloc)?;
        Ok(Path { text })
    }

    /// Whether the path is `/`, which has no parent and no name.
    pub fn is_root(&self) -> bool
        ensures { result ≡ is_root self.now }
    {
        is_root(self.text.as_slice())
    }

    /// The path's last name: what stands behind its last slash.
    pub fn name(&self) -> &[u8]
        ensures { result.now ≡ name_of self.now }
    {
        name_of(self.text.as_slice())
    }

    /// The path of the folder that the path stands in: what stands before its last slash, and `/` where nothing does.
    pub fn parent(&self) -> &[u8]
        ensures parent { result.now ≡ parent_of self.now }
        ensures path { is_path result.now ≡ true }
    {
        parent_of(self.text.as_slice())
    }

    /// The path of the folder that the path stands in. Takes no memory.
    pub fn into_parent(self) -> Path
        ensures { result ≡ parent_of self }
    {
        let Path { mut text } = self;
        let end = parent_end(text.as_slice());
        text.truncate(end);
        Path { text }
    }
}
