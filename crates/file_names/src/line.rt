ghost use Rattle.std.specs.Prelude.{◌≡◌, [], IfOk};
ghost use Rattle.script_text.specs.Lines.{fields_of};
ghost use Rattle.file_names.specs.Lines.{makes, line_of, heard_as};
ghost use Rattle.file_names.specs.declared.command.FileCommand.TheVariants as Commands;

use crate::command::{FileCommand, command_in};
use crate::fields::{cut, one_number, one_path, path_and_bytes, path_and_range};
use crate::form::{FileHeard, FileLine};
use faults::NoMemory;
use items::lines::Body;
use request_form::Fault;
use std::alloc::Global;
use std::marker::Model;

// The most bytes of a line, its end not counted.
const MAX_LINE: usize = 4_194_304;

// The line of an append.
fn append_line(alloc: Global, text: &[u8]) -> Result<Option<FileLine>, NoMemory>
    ensures { IfOk result (λ line. line ≡ makes Commands.Append (fields_of text.now)) }
{
    match path_and_bytes(alloc, text)? {
        None => Ok(None),
        Some((path, bytes)) => Ok(Some(FileLine::Append { path, bytes })),
    }
}

// The line of a read.
fn read_line(alloc: Global, text: &[u8]) -> Result<Option<FileLine>, NoMemory>
    ensures { IfOk result (λ line. line ≡ makes Commands.Read (fields_of text.now)) }
{
    match path_and_range(alloc, text)? {
        None => Ok(None),
        Some((path, version, offset, length)) => Ok(Some(FileLine::Read {
            path,
            version,
            offset,
            length,
        })),
    }
}

// The line that asks where a range lies.
fn where_line(alloc: Global, text: &[u8]) -> Result<Option<FileLine>, NoMemory>
    ensures { IfOk result (λ line. line ≡ makes Commands.Where (fields_of text.now)) }
{
    match path_and_range(alloc, text)? {
        None => Ok(None),
        Some((path, version, offset, length)) => Ok(Some(FileLine::Where {
            path,
            version,
            offset,
            length,
        })),
    }
}

// The line of a command with fields behind it, if they are those that it has.
fn line_with(alloc: Global, command: FileCommand, text: &[u8]) -> Result<Option<FileLine>, NoMemory>
    ensures { IfOk result (λ line. line ≡ makes command (fields_of text.now)) }
{
    match command {
        FileCommand::Mkdir => Ok(one_path(alloc, text)?.map(|path| FileLine::Mkdir { path })),
        FileCommand::Make => Ok(one_path(alloc, text)?.map(|path| FileLine::Make { path })),
        FileCommand::Stat => Ok(one_path(alloc, text)?.map(|path| FileLine::Stat { path })),
        FileCommand::List => Ok(one_path(alloc, text)?.map(|path| FileLine::List { path })),
        FileCommand::Append => append_line(alloc, text),
        FileCommand::Read => read_line(alloc, text),
        FileCommand::Where => where_line(alloc, text),
        FileCommand::Finish => Ok(one_number(text).map(|ticket| FileLine::Finish { ticket })),
        FileCommand::Quit => Ok(None),
    }
}

// The line of a command without fields, if it may have none.
fn line_alone(command: FileCommand) -> Option<FileLine>
    ensures { result ≡ makes command [] }
{
    match command {
        FileCommand::Quit => Some(FileLine::Quit),
        _ => None,
    }
}

// The line that a text spells, if it spells one.
fn line_of(alloc: Global, text: &[u8]) -> Result<Option<FileLine>, NoMemory>
    ensures { IfOk result (λ line. line ≡ line_of (fields_of text.now)) }
{
    let (word, rest) = cut(text);
    let Some(command) = command_in(word) else {
        return Ok(None);
    };
    match rest {
        None => Ok(line_alone(command)),
        Some(fields) => line_with(alloc, command, fields),
    }
}

// What a line says that may ask for something.
fn heard(line: Option<FileLine>) -> FileHeard
    ensures { result ≡ heard_as line }
{
    match line {
        Some(line) => FileHeard::Asked(line),
        None => FileHeard::Wrong(Fault::Malformed),
    }
}

/// A line as it comes. It is kept whole, and read once it has ended. Contracts see its bytes.
#[derive(Drop)]
pub struct Line {
    bytes: Vec<u8>,
}

impl Model for Line {
    ghost use Rattle.std.specs.Prelude.{ℕ, List};

    ghost Value = { List ℕ };

    ghost view = { λ l. l.bytes.items };
}

impl Body for Line {
    ghost use Rattle.file_names.specs.Lines.{file_lines, file_lines_hold, IsWellHeard};

    type Item = FileHeard;

    ghost lining = { file_lines };

    ghost IsWell = { IsWellHeard };

    ghost text = { λ l. l };

    fn limit() -> usize {
        MAX_LINE
    }

    fn new(alloc: Global) -> Line {
        Line {
            bytes: Vec::new(alloc),
        }
    }

    fn take(&mut self, _: Global, piece: &[u8]) -> Result<Option<usize>, NoMemory> {
        self.bytes.extend_from_slice(piece)?;
        Ok(Some(piece.len()))
    }

    fn into_item(self, alloc: Global) -> Result<FileHeard, NoMemory> {
        Ok(heard(line_of(alloc, self.bytes.as_slice())?))
    }

    fn bad() -> FileHeard {
        FileHeard::Wrong(Fault::Malformed)
    }

    ghost is_lining = { file_lines_hold };
}
