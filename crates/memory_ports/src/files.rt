ghost use Rattle.std.specs.Prelude.{◌≡◌, ℕ, List, Some, None};
ghost use Rattle.std.specs.BTreeMap.{get_by_text};
ghost use Rattle.faults.specs.Counts.{RoseBy, count_after};
ghost use Rattle.ports.specs.Files.{file_faults, IsWithinLimit, Reads};

use blob_model::Bytes;
use faults::count_up;
use ports::files::{FileText, Files};
use std::alloc::Global;
use std::collections::BTreeMap;

/// Files in memory, by their names, which tell what they have.
#[derive(Drop)]
pub struct MemFiles {
    files: BTreeMap<String, Bytes>,
    alloc: Global,
    faults: u64,
}

impl MemFiles {
    /// These files. A text that is read is given in memory of its own, from `alloc`.
    pub fn new(alloc: Global, files: BTreeMap<String, Bytes>) -> MemFiles
        ensures known { (name : List ℕ) → ⟦<MemFiles as Files>⟧.known result name ≡ Some (get_by_text files name) }
        ensures faults { ⟦<MemFiles as Files>⟧.faults result ≡ 0 }
    {
        MemFiles {
            files,
            alloc,
            faults: 0,
        }
    }

    // A file's bytes, in memory of their own, if there are no more than `limit`.
    fn text(&self, name: &str, limit: usize) -> FileText
        ensures within { IsWithinLimit limit result }
        ensures reads { Reads (Some (get_by_text self.now.files name.now)) limit result }
        ensures missing { file_faults result ≡ 1 → get_by_text self.now.files name.now ≡ None }
    {
        let Some(file) = self.files.get(name) else {
            return FileText::Failed;
        };
        if file.len() > limit {
            return FileText::TooLong;
        }
        match file.as_slice().to_vec(self.alloc) {
            Ok(bytes) => FileText::Text(Bytes::of(bytes)),
            Err(_) => FileText::NoMemory,
        }
    }
}

impl Files for MemFiles {
    ghost use Rattle.std.specs.Prelude.{Some};

    ghost faults = { λ f. f.faults };

    ghost known = { λ f name. Some (get_by_text f.files name) };

    /// The file's bytes. Only a name without a file is a fault.
    fn read(&mut self, name: &str, limit: usize) -> FileText
        // What all files ensure.
        ensures within { IsWithinLimit limit result }
        ensures reads { Reads (Some (get_by_text self.old.files name.now)) limit result }
        ensures faults { RoseBy (file_faults result) self.old.faults self.new.faults }
        ensures files { (other : List ℕ) → get_by_text self.new.files other ≡ get_by_text self.old.files other }

        // When a read fails, and that only this counts a fault.
        ensures missing { file_faults result ≡ 1 → get_by_text self.old.files name.now ≡ None }
        ensures count { self.new.faults ≡ count_after (file_faults result) self.old.faults }
    {
        let text = self.text(name, limit);
        match &text {
            FileText::Text(_) | FileText::TooLong | FileText::NoMemory => {}
            FileText::Failed => self.faults = count_up(self.faults),
        }
        text
    }
}
