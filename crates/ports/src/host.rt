ghost use Rattle.std.specs.Prelude.{◌≡◌, IfSome};
ghost use Rattle.faults.specs.Counts.{RoseBy, count_after};
ghost use Rattle.ports.specs.Files.{file_faults, IsWithinLimit, ReadsStart};

use crate::files::{FileText, Files};
use blob_model::Bytes;
use faults::count_up;
use std::alloc::Global;
use std::fs::File;
use std::io::{ErrorKind, Read};
use std::rt::Files as SystemFiles;

/// The files of a system. What they have is not known.
#[derive(Drop)]
pub struct HostFiles<R> {
    system: R,
    alloc: Global,
    faults: u64,
}

impl<R: SystemFiles> HostFiles<R> {
    /// The files of this runtime. A text that is read is given in memory from `alloc`.
    pub fn new(system: R, alloc: Global) -> HostFiles<R>
        ensures { ⟦<HostFiles<R> as Files>⟧.faults result ≡ 0 }
    {
        HostFiles {
            system,
            alloc,
            faults: 0,
        }
    }
}

// All that a reader has left, unless it is more than `limit` bytes. One byte more tells.
fn read_whole<F: Read + Drop>(file: F, alloc: Global, limit: usize) -> FileText
    ensures within { IsWithinLimit limit result }
    ensures reads { IfSome (F.remaining file) (λ bytes. ReadsStart bytes limit result) }
{
    let mut text = Vec::new(alloc);
    let mut start = file.take((limit as u64).saturating_add(1));
    match start.read_to_end(&mut text) {
        Ok(_) if text.len() <= limit => FileText::Text(Bytes::of(text)),
        Ok(_) => FileText::TooLong,
        Err(error) if error.kind() == ErrorKind::OutOfMemory => FileText::NoMemory,
        Err(_) => FileText::Failed,
    }
}

// The whole file of this name.
fn read_named<R: SystemFiles>(system: &R, alloc: Global, name: &str, limit: usize) -> FileText
    ensures { IsWithinLimit limit result }
{
    match File::open(system, name) {
        Ok(file) => read_whole(file, alloc, limit),
        Err(error) if error.kind() == ErrorKind::OutOfMemory => FileText::NoMemory,
        Err(_) => FileText::Failed,
    }
}

impl<R: SystemFiles> Files for HostFiles<R> {
    ghost use Rattle.std.specs.Prelude.{None};

    ghost faults = { λ f. f.faults };

    ghost known = { λ f name. None };

    /// The whole file, if it has no more than `limit` bytes. Only a fault counts one.
    fn read(&mut self, name: &str, limit: usize) -> FileText
        // What all files ensure.
        ensures within { IsWithinLimit limit result }
        ensures faults { RoseBy (file_faults result) (⟦<HostFiles<R> as Files>⟧.faults self.old) (⟦<HostFiles<R> as Files>⟧.faults self.new) }

        // That only a fault counts one.
        ensures count { ⟦<HostFiles<R> as Files>⟧.faults self.new ≡ count_after (file_faults result) (⟦<HostFiles<R> as Files>⟧.faults self.old) }
    {
        let text = read_named(&self.system, self.alloc, name, limit);
        match &text {
            FileText::Text(_) | FileText::TooLong | FileText::NoMemory => {}
            FileText::Failed => self.faults = count_up(self.faults),
        }
        text
    }
}
