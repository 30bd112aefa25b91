// Which bytes of one page a read still wants, as marks.
ghost use Rattle.std.specs.Prelude.{◌≡◌, ◌≢◌, ℕ, ◌<◌, ◌≤◌, length, false, IfOk, slice_index_or};

use node_store::NoMemory;
use std::alloc::Global;
use std::marker::Model;
use tree_geom::PageSize;

/// What a read needs beside its buffer: a mark for each byte of a page, whether it is still wanted.
///
/// It is made once and lent to each read.
#[derive(Drop)]
pub struct ReadRoom {
    pub(crate) wanted: Vec<bool>,
}

impl Model for ReadRoom {
    ghost use Rattle.std.specs.Prelude.{List, Bool};

    ghost Value = { List Bool };

    ghost view = { λ r. r.wanted.items };
}

impl ReadRoom {
    /// Marks for pages of that size.
    pub fn new(alloc: Global, p: PageSize) -> Result<ReadRoom, NoMemory>
        ensures { IfOk result (λ room. length room ≡ p) }
    {
        let bytes = p.bytes() as usize;
        let mut wanted = Vec::with_capacity(alloc, bytes)?;
        for _byte in 0..bytes {
            wanted.push_reserved(false);
        }
        Ok(ReadRoom { wanted })
    }
}

// Marks all bytes as wanted or not.
pub(crate) fn mark_all(marks: &mut [bool], wanted: bool)
    ensures { (x : ℕ) → x < length marks.old → slice_index_or marks.new x false ≡ wanted }
{
    for mark in marks.iter_mut() {
        *mark = wanted;
    }
}

// How many marks are looked at together.
const BLOCK: usize = 64;

// Whether some mark is `wanted`. It looks at all of them, without a branch for each, so that many are looked at by one instruction.
fn has_mark(marks: &[bool], wanted: bool) -> bool
    ensures none { result ≡ false → (x : ℕ) → x < length marks.now → slice_index_or marks.now x false ≢ wanted }
{
    let mut found = false;
    for mark in marks {
        found |= *mark == wanted;
    }
    found
}

// The first byte from `from` on whose mark is `wanted`, or the number of marks.
pub(crate) fn first_marked(marks: &[bool], from: usize, wanted: bool) -> usize
    requires { from ≤ length marks.now }
    ensures least { from ≤ result }
    ensures most { result ≤ length marks.now }
    ensures none { (x : ℕ) → from ≤ x → x < result → slice_index_or marks.now x false ≢ wanted }
    ensures found { result < length marks.now → slice_index_or marks.now result false ≡ wanted }
{
    let mut start = from;
    while marks.len() - start >= BLOCK {
        if has_mark(&marks[start..start + BLOCK], wanted) {
            break;
        }
        start += BLOCK;
    }
    for byte in start..marks.len() {
        if marks[byte] == wanted {
            return byte;
        }
    }
    marks.len()
}
