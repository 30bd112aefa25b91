// How names are kept: each folder has the entries that are right in it in a map of their own.
ghost use Rattle.std.specs.Prelude.{◌≡◌, ◌<◌, ◌^◌, ◌++◌, ◌∷◌, [], ℕ, List, true, Some, None, IsSome, IfOk, OnOk, OnErr, map};
ghost use Rattle.std.specs.Str.{bytes_eq};
ghost use Rattle.file_names.specs.Paths.{is_path, is_root, parent_of, name_of};
ghost use Rattle.file_names.specs.Folders.{entries_at, kept_at, count_at, named_in, listed_of, IsPut, IsOpened, HasPut, Keeps, IsInOrder, at_bytes};
ghost use Rattle.std.specs.List.{All};

use crate::path::{is_root, name_of, parent_of};
use crate::tree::{Listed, Listing, Named, is_folder};
use blob_model::Bytes;
use faults::NoMemory;
use std::alloc::Global;
use std::collections::BTreeMap;

// What is right in a folder, by name.
pub(crate) type Entries = BTreeMap<Vec<u8>, Named>;

// The entries of each folder, by path.
pub(crate) type Folders = BTreeMap<Vec<u8>, Entries>;

// What a path names.
pub(crate) fn named_in(folders: &Folders, path: &[u8]) -> Option<Named>
    requires { is_path path.now ≡ true }
    ensures { result ≡ named_in folders.now path.now }
{
    if is_root(path) {
        return Some(Named::Folder);
    }
    match folders.get(parent_of(path)) {
        Some(entries) => entries.get(name_of(path)).copied(),
        None => None,
    }
}

// How many entries a folder has.
pub(crate) fn count_in(folders: &Folders, path: &[u8]) -> usize
    ensures count { result ≡ count_at folders.now path.now }
    ensures small { result < 2 ^ 63 }
{
    match folders.get(path) {
        Some(entries) => entries.len(),
        None => 0,
    }
}

// Puts a value into a map at these bytes.
fn put_at<X: Drop>(
    alloc: Global,
    map: &mut BTreeMap<Vec<u8>, X>,
    bytes: &[u8],
    value: X,
) -> Result<(), NoMemory>
    ensures put { OnOk result (HasPut map.old bytes.now value map.new) }
    ensures same { OnErr result (map.new.entries ≡ map.old.entries) }
{
    let key = bytes.to_vec(alloc)?;
    let _before = map.insert(key, value)?;
    Ok(())
}

// Gives a folder a map for its entries, where it has none.
pub(crate) fn open_folder(alloc: Global, folders: &mut Folders, path: &[u8]) -> Result<(), NoMemory>
    ensures opened { OnOk result (IsOpened folders.old path.now folders.new) }
    ensures same { OnErr result (Keeps folders.old folders.new) }
{
    if folders.contains_key(path) {
        return Ok(());
    }
    put_at(alloc, folders, path, BTreeMap::new(alloc))
}

// Puts an entry into a folder.
pub(crate) fn put_entry(
    alloc: Global,
    folders: &mut Folders,
    folder: &[u8],
    name: &[u8],
    named: Named,
) -> Result<(), NoMemory>
    requires { IsSome (entries_at folders.old folder.now) }
    ensures put { OnOk result (IsPut folders.old folder.now name.now named folders.new) }
    ensures same { OnErr result (Keeps folders.old folders.new) }
{
    match folders.get_mut(folder) {
        Some(entries) => put_at(alloc, entries, name, named),
        None => unreachable!(),
    }
}

// One entry, in memory of its own.
fn listed(alloc: Global, name: &[u8], named: Named) -> Result<Listed, NoMemory>
    ensures { IfOk result (λ l. l ≡ listed_of (name.now, named)) }
{
    Ok(Listed {
        name: Bytes::of(name.to_vec(alloc)?),
        folder: is_folder(named),
    })
}

// One entry more.
fn list_one(all: &mut Vec<Listed>, one: Listed) -> Result<(), NoMemory>
    ensures { OnOk result (all.new.items ≡ all.old.items ++ one ∷ []) }
{
    Ok(all.push(one)?)
}

// A folder's entries in order.
pub(crate) fn list_entries(alloc: Global, entries: &Entries) -> Result<Listing, NoMemory>
    ensures listed { IfOk result (λ l. l ≡ map (λ e. listed_of (e.0.items, e.1)) entries.now.entries) }
    ensures in_order { OnOk result (IsInOrder entries.now) }
    ensures found { OnOk result (All (λ e. at_bytes entries.now e.0.items ≡ Some e.1) entries.now.entries) }
{
    let mut all = Vec::new(alloc);
    for (name, named) in entries {
        list_one(&mut all, listed(alloc, name.as_slice(), *named)?)?;
    }
    Ok(Listing::of(all))
}
