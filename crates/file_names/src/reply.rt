ghost use Rattle.std.specs.Prelude.{◌≡◌, ◌++◌, ◌∷◌, [], flat_map, IfOk, OnOk, codes};
ghost use Rattle.std.specs.Fmt.{decimal};
ghost use Rattle.file_names.specs.Said.{fault_text, entry_text, number_text, numbers_text, page_text, pages_text, said};

use crate::form::{FileFault, FileReply, PageHolders};
use crate::tree::Listed;
use request_form::Reply;
use std::alloc::{AllocError, Global};

// The line of a text behind another.
fn line_behind(alloc: Global, head: &[u8], text: &[u8]) -> Result<Vec<u8>, AllocError>
    ensures { IfOk result (λ line. line.items ≡ (head.now ++ text.now) ++ 10 ∷ []) }
{
    let mut line = head.to_vec(alloc)?;
    line.extend_from_slice(text)?;
    line.push(b'\n')?;
    Ok(line)
}

// The line of a new file.
fn file_line(alloc: Global, path: &[u8], blob: u64) -> Result<Vec<u8>, AllocError>
    ensures { IfOk result (λ line. line.items ≡ (codes "file " ++ path.now ++ codes " blob " ++ decimal blob) ++ 10 ∷ []) }
{
    let mut line = b"file ".to_vec(alloc)?;
    line.extend_from_slice(path)?;
    line.extend_from_slice(format!(in alloc; " blob {blob}\n")?.as_bytes())?;
    Ok(line)
}

// A fault's line.
fn fault_line(alloc: Global, fault: FileFault) -> Result<Vec<u8>, AllocError>
    ensures { IfOk result (λ line. line.items ≡ fault_text fault ++ 10 ∷ []) }
{
    match fault {
        FileFault::NoName { path } => line_behind(alloc, b"error no-name ", path.as_slice()),
        FileFault::Exists { path } => line_behind(alloc, b"error exists ", path.as_slice()),
        FileFault::NotFolder { path } => line_behind(alloc, b"error not-folder ", path.as_slice()),
        FileFault::NotFile { path } => line_behind(alloc, b"error not-file ", path.as_slice()),
        FileFault::TooManyNames => b"error too-many-names 65535\n".to_vec(alloc),
        FileFault::Store(fault) => script_text::reply_line(alloc, &Reply::Refused(fault)),
    }
}

// One entry more of a folder.
fn add_entry(line: &mut Vec<u8>, entry: &Listed) -> Result<(), AllocError>
    ensures { OnOk result (line.new.items ≡ line.old.items ++ entry_text entry.now) }
{
    line.push(b' ')?;
    line.extend_from_slice(entry.name.as_slice())?;
    if entry.folder {
        line.push(b'/')?;
    }
    Ok(())
}

// The line of a folder's entries.
fn entries_line(alloc: Global, entries: &[Listed]) -> Result<Vec<u8>, AllocError>
    ensures { IfOk result (λ line. line.items ≡ (codes "list" ++ flat_map entry_text entries.now) ++ 10 ∷ []) }
{
    let mut line = b"list".to_vec(alloc)?;
    for entry in entries {
        add_entry(&mut line, entry)?;
    }
    line.push(b'\n')?;
    Ok(line)
}

// One number more, with a comma before it if it isn't the first.
fn add_number(alloc: Global, line: &mut Vec<u8>, first: bool, number: u32) -> Result<(), AllocError>
    ensures { OnOk result (line.new.items ≡ line.old.items ++ number_text first number) }
{
    if !first {
        line.push(b',')?;
    }
    line.extend_from_slice(format!(in alloc; "{number}")?.as_bytes())
}

// Numbers with commas between.
fn add_numbers(alloc: Global, line: &mut Vec<u8>, numbers: &[u32]) -> Result<(), AllocError>
    ensures { OnOk result (line.new.items ≡ line.old.items ++ numbers_text numbers.now) }
{
    let mut first = true;
    for number in numbers {
        add_number(alloc, line, first, *number)?;
        first = false;
    }
    Ok(())
}

// One page more, and the providers that hold it.
fn add_page(alloc: Global, line: &mut Vec<u8>, held: &PageHolders) -> Result<(), AllocError>
    ensures { OnOk result (line.new.items ≡ line.old.items ++ page_text held.now) }
{
    let page = held.page;
    line.extend_from_slice(format!(in alloc; " {page}:")?.as_bytes())?;
    add_numbers(alloc, line, held.providers.as_slice())
}

// The line of a range's pages.
fn pages_line(alloc: Global, pages: &[PageHolders]) -> Result<Vec<u8>, AllocError>
    ensures { IfOk result (λ line. line.items ≡ (codes "where" ++ pages_text pages.now) ++ 10 ∷ []) }
{
    if pages.is_empty() {
        return b"where -\n".to_vec(alloc);
    }
    let mut line = b"where".to_vec(alloc)?;
    for held in pages {
        add_page(alloc, &mut line, held)?;
    }
    line.push(b'\n')?;
    Ok(line)
}

// The line of what a file is.
fn file_is_line(alloc: Global, blob: u64, version: u64, size: u64) -> Result<Vec<u8>, AllocError>
    ensures { IfOk result (λ line. line.items ≡ (codes "file blob " ++ decimal blob ++ codes " version " ++ decimal version ++ codes " size " ++ decimal size) ++ 10 ∷ []) }
{
    Ok(format!(in alloc; "file blob {blob} version {version} size {size}\n")?.into_bytes())
}

/// A reply's line, with its end. There is none of `Unsaid`.
pub fn reply_line(alloc: Global, reply: FileReply) -> Result<Vec<u8>, AllocError>
    ensures { IfOk result (λ line. line.items ≡ said reply) }
{
    match reply {
        FileReply::Folder { path } => line_behind(alloc, b"folder ", path.as_slice()),
        FileReply::File { path, blob } => file_line(alloc, path.as_slice(), blob),
        FileReply::Appended { version, at, size } => {
            script_text::reply_line(alloc, &Reply::Appended { version, at, size })
        }
        FileReply::Started {
            ticket,
            version,
            at,
            size,
        } => {
            script_text::reply_line(
                alloc,
                &Reply::AppendStarted {
                    ticket,
                    version,
                    at,
                    size,
                },
            )
        }
        FileReply::Content { bytes } => script_text::reply_line(alloc, &Reply::Content { bytes }),
        FileReply::FileIs {
            blob,
            version,
            size,
        } => file_is_line(alloc, blob, version, size),
        FileReply::FolderIs { entries } => {
            Ok(format!(in alloc; "folder {entries}\n")?.into_bytes())
        }
        FileReply::Listed { entries } => entries_line(alloc, entries.as_slice()),
        FileReply::HeldBy { pages } => pages_line(alloc, pages.as_slice()),
        FileReply::Finished { published } => {
            Ok(format!(in alloc; "published {published}\n")?.into_bytes())
        }
        FileReply::Refused(fault) => fault_line(alloc, fault),
        FileReply::Bye => b"bye\n".to_vec(alloc),
        FileReply::Unsaid => Err(AllocError),
    }
}
