//! The tree of names, and its history.
ghost use Rattle.std.specs.Prelude.{◌≡◌, ◌≤◌, ◌<◌, ◌^◌, ◌++◌, ◌∷◌, [], ℕ, List, length, true, Some, None, IsSome, IfOk, OnOk, OnErr};
ghost use Rattle.file_names.specs.Paths.{is_path, parent_of};
ghost use Rattle.file_names.specs.Folders.{entries_at, Keeps, HasPath};
ghost use Rattle.file_names.specs.declared.tree.Named.TheVariants.{Folder};
ghost use Rattle.file_names.specs.Tree.{NameLog, IsLegal, most_names, named_at, enter_fault, blob_at, stat_at, Lists, ListsNamed, Enters};

use crate::folders::{Folders, count_in, list_entries, named_in, open_folder, put_entry};
use crate::path::{Path, name_of, parent_of};
use crate::tree::{EnterFault, Entered, FindFault, ListFault, Listing, Named, Stat};
use faults::NoMemory;
use std::alloc::Global;
use std::collections::BTreeMap;
use std::marker::Model;
use turn_lock::Journaled;

/// The most paths beside `/`.
pub const MOST_NAMES: usize = 65535;

/// A tree of names: which folders and files there are, and of which blob a file is. It begins with `/` alone, and no name goes away.
///
/// It keeps the history of all that was entered. Contracts see that history: each path, what it names, and who entered it, oldest
/// first. What a call answers is what the definition of the tree gives on it. A path is found and entered without a look at
/// others but its folder's, and a folder is listed by itself.
#[derive(Drop)]
pub struct Names {
    alloc: Global,
    folders: Folders,
    history: Vec<(u32, Entered)>,
}

impl Model for Names {
    ghost use Rattle.file_names.specs.Tree.{NameLog};
    ghost use Rattle.file_names.specs.Folders.{AreOf};

    ghost Value = { NameLog };

    ghost view = { λ n. n.history.items };

    ghost invariant = { λ n. AreOf n.history.items n.folders };
}

impl Journaled for Names {
    type Entry = Entered;

    type Fixed = ();

    ghost history = { λ n. n };

    ghost fixed = { λ _. tt };

    fn count(&self) -> u64 {
        self.history.len() as u64
    }
}

impl Names {
    /// The tree with `/` alone. What is entered later is kept in memory from `alloc`.
    pub fn new(alloc: Global) -> Result<Names, NoMemory>
        ensures { IfOk result (λ n. n ≡ []) }
    {
        let mut folders = BTreeMap::new(alloc);
        open_folder(alloc, &mut folders, b"/".as_slice())?;
        Ok(Names {
            alloc,
            folders,
            history: Vec::new(alloc),
        })
    }

    /// All that was entered, oldest first, each with its caller.
    pub fn history(&self) -> &[(u32, Entered)]
        ensures history { result.now ≡ self.now }
        ensures legal { IsLegal self.now }
        ensures few { length self.now ≤ most_names }
    {
        self.history.as_slice()
    }

    // What a path names.
    fn named(&self, path: &[u8]) -> Option<Named>
        requires { is_path path.now ≡ true }
        ensures { result ≡ named_at self.now path.now }
    {
        named_in(&self.folders, path)
    }

    /// The blob of a file. `NoName` exactly where the path isn't there, and `NotFile` exactly where it is a folder.
    pub fn find(&self, path: &Path) -> Result<u64, FindFault>
        ensures { result ≡ blob_at self.now path.now }
    {
        match self.named(path.as_slice()) {
            None => Err(FindFault::NoName),
            Some(Named::Folder) => Err(FindFault::NotFile),
            Some(Named::File(blob)) => Ok(blob),
        }
    }

    /// What a path names, and of a folder how many folders and files are right in it. None exactly where the path isn't there.
    pub fn stat(&self, path: &Path) -> Option<Stat>
        ensures { result ≡ stat_at self.now path.now }
    {
        let text = path.as_slice();
        match self.named(text) {
            None => None,
            Some(Named::Folder) => Some(Stat::Folder(count_in(&self.folders, text) as u64)),
            Some(Named::File(blob)) => Some(Stat::File(blob)),
        }
    }

    /// The folders and files that are right in a folder, in the order of their names' bytes. `NoName` exactly where the path
    /// isn't there, and `NotFolder` exactly where it is a file.
    pub fn list(&self, path: &Path) -> Result<Listing, ListFault>
        ensures { Lists self.now path.now result }
    {
        let text = path.as_slice();
        match self.named(text) {
            None => Err(ListFault::NoName),
            Some(Named::File(_)) => Err(ListFault::NotFolder),
            Some(Named::Folder) => self.list_folder(text),
        }
    }

    // What is right in a folder.
    fn list_folder(&self, path: &[u8]) -> Result<Listing, ListFault>
        requires path { is_path path.now ≡ true }
        requires folder { named_at self.now path.now ≡ Some Folder }
        ensures { ListsNamed self.now path.now (Some Folder) result }
    {
        match self.folders.get(path) {
            Some(entries) => match list_entries(self.alloc, entries) {
                Ok(listing) => Ok(listing),
                Err(NoMemory) => Err(ListFault::NoMemory),
            },
            None => unreachable!(),
        }
    }

    /// Why a path can't be entered, if it can't: `Exists` for `/`, then `NoParent`, `ParentNotFolder`, `Exists` and `TooManyNames`.
    pub fn enter_fault(&self, path: &Path) -> Option<EnterFault>
        ensures { result ≡ enter_fault self.now path.now }
    {
        if path.is_root() {
            return Some(EnterFault::Exists);
        }
        match self.named(path.parent()) {
            None => Some(EnterFault::NoParent),
            Some(Named::File(_)) => Some(EnterFault::ParentNotFolder),
            Some(Named::Folder) => match self.named(path.as_slice()) {
                Some(_) => Some(EnterFault::Exists),
                None if MOST_NAMES <= self.history.len() => Some(EnterFault::TooManyNames),
                None => None,
            },
        }
    }

    /// Enters a path under its caller, as what it names from then on. The faults are those of `enter_fault`, and leave the names.
    pub fn enter(&mut self, caller: u32, path: &Path, named: Named) -> Result<(), EnterFault>
        ensures { Enters self.old caller path.now named result self.new }
    {
        if let Some(fault) = self.enter_fault(path) {
            return Err(fault);
        }
        match self.add(caller, path, named) {
            Ok(()) => Ok(()),
            Err(NoMemory) => Err(EnterFault::NoMemory),
        }
    }

    // Enters a path that can be entered.
    fn add(&mut self, caller: u32, path: &Path, named: Named) -> Result<(), NoMemory>
        requires { enter_fault self.old path.now ≡ None }
        ensures added { OnOk result (self.new ≡ self.old ++ (caller, record { path = path.now; named = named }) ∷ []) }
        ensures same { OnErr result (self.new ≡ self.old) }
    {
        let entered = Entered {
            path: path.copy(self.alloc)?,
            named,
        };
        if self.history.reserve(1).is_err() {
            return Err(NoMemory);
        }
        put_path(self.alloc, &mut self.folders, path.as_slice(), named)?;
        self.history.push_reserved((caller, entered));
        Ok(())
    }
}

// Puts a path into its parent, and gives it a map for its entries where it is a folder.
fn put_path(alloc: Global, folders: &mut Folders, path: &[u8], named: Named) -> Result<(), NoMemory>
    requires path { is_path path.now ≡ true }
    requires parent { IsSome (entries_at folders.old (parent_of path.now)) }
    ensures put { OnOk result (HasPath folders.old path.now named folders.new) }
    ensures same { OnErr result (Keeps folders.old folders.new) }
{
    match named {
        Named::Folder => open_folder(alloc, folders, path)?,
        Named::File(_) => {}
    }
    put_entry(alloc, folders, parent_of(path), name_of(path), named)
}
