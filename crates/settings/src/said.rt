// What the parser found, as the values of the settings.
ghost use Rattle.std.specs.Prelude.{◌≡◌, Some, None, true, if◌then◌else◌, MatchResult, IfOk};
ghost use Rattle.std.specs.Option.{ForSome};
ghost use Rattle.std.specs.List.{list_all};
ghost use Rattle.clap.specs.Matches.{first_value, found_of};
ghost use Rattle.settings.specs.Table.{keys, choice_name};
ghost use Rattle.settings.specs.Values.{IsOf};
ghost use Rattle.settings.specs.Words.{is_number, numbers_said, given_said};
ghost use Rattle.settings.specs.Reading as reading;

use crate::table::{Choice, KEYS, Key};
use crate::values::{Given, Text};
use crate::words::WordsFault;
use clap::ArgMatches;
use items::number;
use std::alloc::{AllocError, Global};

// The number that is given to a key, if there is one. None where what is given isn't a number of the key's range.
fn number_given(found: &ArgMatches, key: Key) -> Option<Option<u64>>
    ensures number { result ≡ reading.number_if (first_value (found_of found.now)) key }
    ensures fits { ForSome result (λ number. IsOf key number) }
{
    let setting = key.setting();
    let Some(text) = found.get_str(setting.name) else {
        return Some(None);
    };
    let number = number(text)?;
    if setting.range.takes(number) {
        Some(Some(number))
    } else {
        None
    }
}

// What is given with the numbers of these keys. None where one isn't of its key's range.
fn with_numbers(given: Given, found: &ArgMatches, keys: &[Key]) -> Option<Given>
    ensures { result ≡ reading.with_numbers (first_value (found_of found.now)) keys.now given }
{
    let mut given = given;
    for key in keys {
        given = given.with(*key, number_given(found, *key)?);
    }
    Some(given)
}

fn numbers_given(found: &ArgMatches) -> Option<Given>
    ensures { result ≡ (if list_all (is_number (first_value (found_of found.now))) keys then Some (numbers_said (first_value (found_of found.now))) else None) }
{
    with_numbers(Given::nothing(), found, KEYS.as_slice())
}

fn text_given(alloc: Global, found: &ArgMatches, choice: Choice) -> Result<Option<Text>, AllocError>
    ensures { IfOk result (λ text. text ≡ first_value (found_of found.now) (choice_name choice)) }
{
    match found.get_str(choice.name()) {
        None => Ok(None),
        Some(text) => {
            let text = String::from_str(alloc, text)?;
            Ok(Some(Text::of(text)))
        }
    }
}

/// What is given to the options that the parser found. Refused exactly where a number isn't one of its option's range.
pub fn given_in(alloc: Global, found: &ArgMatches) -> Result<Given, WordsFault>
    ensures { MatchResult result
        (λ given. given_said (first_value (found_of found.now)) ≡ Some given)
        (λ e. e ≡ WordsFault.Refused → given_said (first_value (found_of found.now)) ≡ None) }
{
    let Some(numbers) = numbers_given(found) else {
        return Err(WordsFault::Refused);
    };
    let listen = text_given(alloc, found, Choice::Listen)?;
    let settings = text_given(alloc, found, Choice::Settings)?;
    Ok(numbers.with_texts(listen, settings))
}
