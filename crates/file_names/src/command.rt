ghost use Rattle.std.specs.Prelude.{◌≡◌, ◌≢◌, MatchOption};
ghost use Rattle.file_names.specs.declared.command.FileCommand.{FileCommand};
ghost use Rattle.file_names.specs.Lines.{command_of};

/// The commands of lines.
#[derive(Clone, Copy, Debug, PartialEq, Eq)]
pub enum FileCommand {
    Mkdir,
    Make,
    Append,
    Read,
    Stat,
    List,
    Where,
    Finish,
    Quit,
}

/// The command that a word is.
pub fn command_in(word: &[u8]) -> Option<FileCommand>
    ensures { MatchOption result
        ((command : FileCommand) → word.now ≢ command_of command)
        (λ command. word.now ≡ command_of command) }
{
    match word {
        b"mkdir" => Some(FileCommand::Mkdir),
        b"make" => Some(FileCommand::Make),
        b"append" => Some(FileCommand::Append),
        b"read" => Some(FileCommand::Read),
        b"stat" => Some(FileCommand::Stat),
        b"list" => Some(FileCommand::List),
        b"where" => Some(FileCommand::Where),
        b"finish" => Some(FileCommand::Finish),
        b"quit" => Some(FileCommand::Quit),
        _ => None,
    }
}
