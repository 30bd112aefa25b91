// What is said of what the names and the store told.
ghost use Rattle.std.specs.Prelude.{◌≡◌, ℕ, true, Some, Ok, Err};
ghost use Rattle.blob_model.specs.declared.call.Place.TheVariants.{Append};
ghost use Rattle.request_form.specs.Replies.{reply_of};
ghost use Rattle.client_session.specs.Results.{updated_reply, finish_reply, read_reply};
ghost use Rattle.file_layer.specs.Files.{file_reply, recent_reply, store_fault, find_refused, enter_refused, list_reply, is_recent};
ghost use Rattle.file_layer.specs.Sessions.{said_of};
ghost use Rattle.file_names.specs.Paths.{parent_of};
ghost use Rattle.file_names.specs.declared.form.FileFault.TheVariants as FileFaults;

use blob_model::{Bytes, Outcome};
use client_session::{Done, Started, Updated};
use faults::NoMemory;
use file_names::{EnterFault, FileFault, FileReply, FindFault, ListFault, Listing, Path};
use request_form::Fault;

// What the store's session refuses.
pub(crate) fn said_of_fault(fault: Fault) -> FileReply
    ensures { result ≡ store_fault fault }
{
    FileReply::Refused(FileFault::Store(fault))
}

// What is said of an append.
pub(crate) fn said_of_append(updated: Result<Updated, Fault>) -> FileReply
    ensures { file_reply (updated_reply Append updated) ≡ Some result }
{
    match updated {
        Ok(Updated::Done(Done { version, at, size })) => FileReply::Appended { version, at, size },
        Ok(
            Updated::Held(
                Started {
                    ticket,
                    version,
                    at,
                    size,
                },
            ),
        ) => FileReply::Started {
            ticket,
            version,
            at,
            size,
        },
        Err(fault) => said_of_fault(fault),
    }
}

// What is said of a finish.
pub(crate) fn said_of_finish(finished: Result<u64, Fault>) -> FileReply
    ensures { file_reply (finish_reply finished) ≡ Some result }
{
    match finished {
        Ok(published) => FileReply::Finished { published },
        Err(fault) => said_of_fault(fault),
    }
}

// What is said of a read.
pub(crate) fn said_of_read(read: Result<Bytes, Fault>) -> FileReply
    ensures { file_reply (read_reply read) ≡ Some result }
{
    match read {
        Ok(bytes) => FileReply::Content { bytes },
        Err(fault) => said_of_fault(fault),
    }
}

// What is said of the last published version of a file's blob.
pub(crate) fn said_of_recent(blob: u64, outcome: Outcome) -> FileReply
    requires { is_recent (reply_of outcome) ≡ true }
    ensures { recent_reply blob (reply_of outcome) ≡ Some result }
{
    match outcome {
        Outcome::Recent { version, size } => FileReply::FileIs {
            blob,
            version,
            size,
        },
        Outcome::Refused(refusal) => said_of_fault(Fault::of(refusal)),
        _ => unreachable!(),
    }
}

// What is said of a path that is no file.
pub(crate) fn said_of_missing(path: Path, fault: FindFault) -> FileReply
    ensures { result ≡ find_refused path fault }
{
    FileReply::Refused(match fault {
        FindFault::NoName => FileFault::NoName { path },
        FindFault::NotFile => FileFault::NotFile { path },
    })
}

// The fault of a path whose parent isn't there.
fn no_parent(path: Path) -> FileFault
    ensures { result ≡ FileFaults.NoName (parent_of path) }
{
    FileFault::NoName {
        path: path.into_parent(),
    }
}

// The fault of a path whose parent is a file.
fn parent_not_folder(path: Path) -> FileFault
    ensures { result ≡ FileFaults.NotFolder (parent_of path) }
{
    FileFault::NotFolder {
        path: path.into_parent(),
    }
}

// What is said of a path that isn't entered: where the parent is at fault, it is named.
pub(crate) fn said_of_unentered(path: Path, fault: EnterFault) -> Result<FileReply, NoMemory>
    ensures { said_of result ≡ enter_refused path fault }
{
    Ok(FileReply::Refused(match fault {
        EnterFault::NoParent => no_parent(path),
        EnterFault::ParentNotFolder => parent_not_folder(path),
        EnterFault::Exists => FileFault::Exists { path },
        EnterFault::TooManyNames => FileFault::TooManyNames,
        EnterFault::NoMemory => return Err(NoMemory),
    }))
}

// What is said of what is in a folder.
pub(crate) fn said_of_list(
    path: Path,
    listed: Result<Listing, ListFault>,
) -> Result<FileReply, NoMemory>
    ensures { said_of result ≡ list_reply path listed }
{
    match listed {
        Ok(entries) => Ok(FileReply::Listed { entries }),
        Err(ListFault::NoName) => Ok(FileReply::Refused(FileFault::NoName { path })),
        Err(ListFault::NotFolder) => Ok(FileReply::Refused(FileFault::NotFolder { path })),
        Err(ListFault::NoMemory) => Err(NoMemory),
    }
}
