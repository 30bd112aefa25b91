// The text of the settings file.
ghost use Rattle.std.specs.Prelude.{◌≡◌, Some, None, IsTrue, MatchResult};
ghost use Rattle.std.specs.Option.{ForSome};
ghost use Rattle.toml.specs.View.{view, table_view};
ghost use Rattle.settings.specs.Table.{fits};
ghost use Rattle.settings.specs.Values.{GivenValues, nothing};
ghost use Rattle.settings.specs.File.{number_by, with_key, with_keys, Gives};

use crate::table::{Key, NumberRange};
use crate::values::Given;
use std::alloc::Global;
use thiserror::Error;
use toml::{Table, Value};

/// The most bytes of a settings file. Who reads the file refuses a longer one.
pub const MOST_FILE_BYTES: usize = 65_536;

/// Why the text of a settings file gave nothing.
#[derive(Clone, Copy, Debug, PartialEq, Eq, Error)]
pub enum TextFault {
    /// It isn't a TOML document of keys with integers of their ranges.
    #[error("settings refused")]
    Refused,
    /// Memory ran out.
    #[error("out of memory")]
    NoMemory,
}

// The integer of the range that a value is.
fn number_of_value(value: &Value, range: &NumberRange) -> Option<u64>
    ensures number { result ≡ number_by range.now (view value.now) }
    ensures fits { ForSome result (λ n. IsTrue (fits range.now n)) }
{
    let integer = value.as_integer()?;
    let number = u64::try_from(integer).ok()?;
    if range.takes_in_file(number) {
        Some(number)
    } else {
        None
    }
}

// What is given with one key more.
fn with(given: Given, name: &str, value: &Value) -> Option<Given>
    ensures { result ≡ with_key name.now (view value.now) given }
{
    let key = Key::named(name)?;
    let number = number_of_value(value, &key.setting().range)?;
    Some(given.with(key, Some(number)))
}

// What the keys of a table give.
fn with_all(table: &Table) -> Option<Given>
    ensures { result ≡ with_keys (table_view table.now) nothing }
{
    let mut given = Given::nothing();
    for (name, value) in table {
        given = with(given, name.as_str(), value)?;
    }
    Some(given)
}

/// What the text of a settings file gives.
///
/// Refused exactly where it isn't UTF-8 or no TOML document, has a key that no settings file has, or a value that isn't an
/// integer of its key's range, whichever command is to use it.
pub fn read_text(alloc: Global, text: &[u8]) -> Result<Given, TextFault>
    ensures { MatchResult result
        (λ given. Gives text.now given)
        (λ e. e ≡ TextFault.Refused → (given : GivenValues) → ¬ (Gives text.now given)) }
{
    let table = match toml::table_from_slice(alloc, text) {
        Ok(table) => table,
        Err(error) => {
            return Err(if error.is_memory() {
                TextFault::NoMemory
            } else {
                TextFault::Refused
            });
        }
    };
    with_all(&table).ok_or(TextFault::Refused)
}
