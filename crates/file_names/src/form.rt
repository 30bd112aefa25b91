//! Lines about files, and their replies.
ghost use Rattle.std.specs.Prelude.{◌≡◌};

use crate::path::Path;
use crate::tree::Listing;
use blob_model::Bytes;
use request_form::Fault;
use std::marker::Model;

/// What a client asks of its file session.
#[derive(Drop)]
pub enum FileLine {
    /// A new folder.
    Mkdir {
        path: Path,
    },
    /// A new file, of a new blob.
    Make {
        path: Path,
    },
    /// The bytes at the file's end, as a new version.
    Append {
        path: Path,
        bytes: Bytes,
    },
    /// `length` bytes from `offset` of a published version of a file.
    Read {
        path: Path,
        version: u64,
        offset: u64,
        length: u64,
    },
    /// What the path is: a file's blob, and its last published version with its size in bytes, or how many entries a folder has.
    Stat {
        path: Path,
    },
    /// What is right in a folder.
    List {
        path: Path,
    },
    /// Which providers hold the pages of a range of a published version of a file.
    Where {
        path: Path,
        version: u64,
        offset: u64,
        length: u64,
    },
    /// The report of the update that the session holds under this ticket.
    Finish {
        ticket: u64,
    },
    /// The end of the stream's lines.
    Quit,
}

/// Why a line isn't done. The path is the one that the refusal speaks of: of `NoName` and `NotFolder` it may be the parent of the
/// line's path.
#[derive(Drop)]
pub enum FileFault {
    /// The path isn't there.
    NoName { path: Path },
    /// The path is there, or is `/`.
    Exists { path: Path },
    /// The path is a file.
    NotFolder { path: Path },
    /// The path is a folder.
    NotFile { path: Path },
    /// There are 65,535 paths beside `/`, as many as there may be.
    TooManyNames,
    /// What the store's session refuses, and a line that is none.
    Store(Fault),
}

/// The numbers of the providers that hold a page, from 1. Contracts see the list.
#[derive(Drop)]
pub struct Providers {
    numbers: Vec<u32>,
}

impl Model for Providers {
    ghost use Rattle.std.specs.Prelude.{ℕ, List};

    ghost Value = { List ℕ };

    ghost view = { λ p. p.numbers.items };
}

impl Providers {
    /// Keeps the vector's numbers. Takes no memory.
    pub fn of(numbers: Vec<u32>) -> Providers
        ensures { result ≡ numbers.items }
    {
        Providers { numbers }
    }

    /// Gives the numbers back as a vector. Takes no memory.
    pub fn into_vec(self) -> Vec<u32>
        ensures { result.items ≡ self }
    {
        self.numbers
    }

    /// The numbers as a slice.
    pub fn as_slice(&self) -> &[u32]
        ensures { result.now ≡ self.now }
    {
        self.numbers.as_slice()
    }
}

/// A page of a file's version, and the providers that hold it.
#[derive(Drop)]
pub struct PageHolders {
    /// The page's number, from 0.
    pub page: u64,
    /// The providers.
    pub providers: Providers,
}

/// The pages of a range, each with the providers that hold it. Contracts see the list.
#[derive(Drop)]
pub struct Holders {
    pages: Vec<PageHolders>,
}

impl Model for Holders {
    ghost use Rattle.std.specs.Prelude.{List};
    ghost use Rattle.file_names.specs.declared.form.PageHolders.{PageHolders};

    ghost Value = { List PageHolders };

    ghost view = { λ h. h.pages.items };
}

impl Holders {
    /// Keeps the vector's pages. Takes no memory.
    pub fn of(pages: Vec<PageHolders>) -> Holders
        ensures { result ≡ pages.items }
    {
        Holders { pages }
    }

    /// Gives the pages back as a vector. Takes no memory.
    pub fn into_vec(self) -> Vec<PageHolders>
        ensures { result.items ≡ self }
    {
        self.pages
    }

    /// The pages as a slice.
    pub fn as_slice(&self) -> &[PageHolders]
        ensures { result.now ≡ self.now }
    {
        self.pages.as_slice()
    }
}

/// The answer to a line.
#[derive(Drop)]
pub enum FileReply {
    /// The new folder.
    Folder {
        path: Path,
    },
    /// The new file and its blob.
    File {
        path: Path,
        blob: u64,
    },
    /// The append's version, the offset at which it fell, and the file's size then. It is finished.
    Appended {
        version: u64,
        at: u64,
        size: u64,
    },
    /// The append's ticket, version and offset, and the file's size then. It waits for its Finish.
    Started {
        ticket: u64,
        version: u64,
        at: u64,
        size: u64,
    },
    /// Which version of the ticket's blob is the last published one, now that the update is finished.
    Finished {
        published: u64,
    },
    /// The bytes of the range.
    Content {
        bytes: Bytes,
    },
    /// The path is a file: its blob, the greatest published version, and its size.
    FileIs {
        blob: u64,
        version: u64,
        size: u64,
    },
    /// The path is a folder, with so many entries.
    FolderIs {
        entries: u64,
    },
    /// What is right in the folder.
    Listed {
        entries: Listing,
    },
    /// The pages that the range meets, and their providers.
    HeldBy {
        pages: Holders,
    },
    /// The line wasn't done.
    Refused(FileFault),
    /// The stream's lines have ended.
    Bye,
    /// Memory was wanting where the names may have been asked already. Nothing is said of it, and the stream ends.
    Unsaid,
}

/// One item of a stream of lines about files.
#[derive(Drop)]
pub enum FileHeard {
    /// A line.
    Asked(FileLine),
    /// A line that is none, and the fault that it is.
    Wrong(Fault),
}
