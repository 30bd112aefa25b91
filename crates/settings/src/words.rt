// The words of the command line.
ghost use Rattle.std.specs.Prelude.{◌≡◌, map, Some, None, MatchResult, string_bytes};
ghost use Rattle.settings.specs.Words.{given_by_words};

use crate::parser::parse;
use crate::spelling::is_spelled;
use crate::table::Command;
use crate::values::Given;
use std::alloc::{AllocError, Global};
use thiserror::Error;

/// Why words gave nothing.
#[derive(Clone, Copy, Debug, PartialEq, Eq, Error)]
pub enum WordsFault {
    /// They aren't a command with options that it takes, each at most once and with a value of its range.
    #[error("words refused")]
    Refused,
    /// Memory ran out.
    #[error("out of memory")]
    NoMemory,
}

impl From<AllocError> for WordsFault {
    ghost use Rattle.std.specs.Prelude.{◌≡◌};
    ghost use Rattle.settings.specs.declared.words.WordsFault.TheVariants.{NoMemory};

    ghost from_gives = { λ e r. r ≡ NoMemory };

    fn from(_error: AllocError) -> WordsFault {
        WordsFault::NoMemory
    }
}

/// The command that the words of the command line name, and what its options give. The words are those after the
/// program's name.
///
/// Refused exactly where the first word isn't a command, another word isn't an option of that command, as `--name value`
/// or `--name=value`, or the value after one, an option is given twice, one that the command needs is missing, a value is
/// empty, or a number isn't one of its option's range.
pub fn read_words(alloc: Global, words: &[String]) -> Result<(Command, Given), WordsFault>
    ensures { MatchResult result
        (λ r. given_by_words (map string_bytes words.now) ≡ Some (r.0, r.1))
        (λ e. e ≡ WordsFault.Refused → given_by_words (map string_bytes words.now) ≡ None) }
{
    let Some(first) = words.first() else {
        return Err(WordsFault::Refused);
    };
    let Some(command) = Command::named(first.as_str()) else {
        return Err(WordsFault::Refused);
    };
    if !is_spelled(command, &words[1..]) {
        return Err(WordsFault::Refused);
    }
    let given = parse(alloc, command, words)?;
    Ok((command, given))
}
