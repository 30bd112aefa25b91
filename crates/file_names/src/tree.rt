//! What paths name, and what is told of it.
ghost use Rattle.std.specs.Prelude.{◌≡◌, length, List};
ghost use Rattle.file_names.specs.Tree.{is_folder};

use crate::path::Path;
use blob_model::Bytes;
use std::marker::Model;
use thiserror::Error;

/// What a path names.
#[derive(Clone, Copy, Debug, PartialEq, Eq)]
pub enum Named {
    /// A folder, which may have folders and files in it.
    Folder,
    /// A file: the blob of this id.
    File(u64),
}

// Whether it is a folder.
pub(crate) fn is_folder(named: Named) -> bool
    ensures { result ≡ is_folder named }
{
    match named {
        Named::Folder => true,
        Named::File(_) => false,
    }
}

/// What was entered once: a path, and what it names from then on.
#[derive(Drop)]
pub struct Entered {
    /// The path.
    pub path: Path,
    /// What it names.
    pub named: Named,
}

/// What is known of what a path names, without going into it.
#[derive(Clone, Copy, Debug, PartialEq, Eq)]
pub enum Stat {
    /// A folder with so many folders and files right in it.
    Folder(u64),
    /// A file: the blob of this id.
    File(u64),
}

/// One of the folders and files that are right in a folder.
#[derive(Drop)]
pub struct Listed {
    /// Its name in the folder.
    pub name: Bytes,
    /// Whether it is a folder.
    pub folder: bool,
}

/// What is right in a folder, in the order of the names' bytes. Contracts see the list.
#[derive(Drop)]
pub struct Listing {
    entries: Vec<Listed>,
}

impl Model for Listing {
    ghost use Rattle.std.specs.Prelude.{List};
    ghost use Rattle.file_names.specs.declared.tree.Listed.{Listed};

    ghost Value = { List Listed };

    ghost view = { λ l. l.entries.items };
}

impl Listing {
    /// Keeps the vector's entries. Takes no memory.
    pub fn of(entries: Vec<Listed>) -> Listing
        ensures { result ≡ entries.items }
    {
        Listing { entries }
    }

    /// Gives the entries back as a vector. Takes no memory.
    pub fn into_vec(self) -> Vec<Listed>
        ensures { result.items ≡ self }
    {
        self.entries
    }

    /// How many entries there are.
    pub fn len(&self) -> usize
        ensures { result ≡ length self.now }
    {
        self.entries.len()
    }

    /// The entries as a slice.
    pub fn as_slice(&self) -> &[Listed]
        ensures { result.now ≡ self.now }
    {
        self.entries.as_slice()
    }
}

/// Why a path isn't entered. The names are as before.
#[derive(Clone, Copy, Debug, PartialEq, Eq, Error)]
pub enum EnterFault {
    /// The path's parent isn't there.
    #[error("the folder isn't there")]
    NoParent,
    /// The path's parent is a file.
    #[error("it is no folder")]
    ParentNotFolder,
    /// The path is there, or is `/`.
    #[error("the name is there")]
    Exists,
    /// There are 65,535 paths beside `/`, as many as there may be.
    #[error("there are 65535 names")]
    TooManyNames,
    /// Memory was refused.
    #[error("no memory")]
    NoMemory,
}

/// Why a path gives no blob.
#[derive(Clone, Copy, Debug, PartialEq, Eq, Error)]
pub enum FindFault {
    /// The path isn't there.
    #[error("the name isn't there")]
    NoName,
    /// The path is a folder.
    #[error("it is no file")]
    NotFile,
}

/// Why a folder isn't listed.
#[derive(Clone, Copy, Debug, PartialEq, Eq, Error)]
pub enum ListFault {
    /// The path isn't there.
    #[error("the name isn't there")]
    NoName,
    /// The path is a file.
    #[error("it is no folder")]
    NotFolder,
    /// Memory was refused.
    #[error("no memory")]
    NoMemory,
}
