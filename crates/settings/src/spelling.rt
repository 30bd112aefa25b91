// Whether words spell pairs of options and values, which is looked at before a parser gets them.
ghost use Rattle.std.specs.Prelude.{◌≡◌, false, map, option_map, string_bytes};
ghost use Rattle.std.specs.List.{list_any};
ghost use Rattle.std.specs.Str.{bytes_eq};
ghost use Rattle.settings.specs.Table.{choice_name};
ghost use Rattle.settings.specs.Words as grammar;
ghost use Rattle.settings.specs.Spelling as spelling;

use crate::table::{Choice, Command};

fn strip_hyphen(word: &str) -> Option<&str>
    ensures { option_map (λ s. s.now) result ≡ grammar.strip_hyphen word.now }
{
    word.strip_prefix('-')
}

// The text before the first `=`, and the text behind it where there is one.
fn name_and_value(text: &str) -> (&str, Option<&str>)
    ensures { (result.0.now, option_map (λ s. s.now) result.1) ≡ grammar.name_and_value text.now }
{
    match text.split_once('=') {
        Some((name, value)) => (name, Some(value)),
        None => (text, None),
    }
}

// What follows two hyphens, as a name and a value.
fn option_word(word: &str) -> Option<(&str, Option<&str>)>
    ensures { option_map (λ p. (p.0.now, option_map (λ s. s.now) p.1)) result ≡ grammar.option_word word.now }
{
    let rest = strip_hyphen(strip_hyphen(word)?)?;
    Some(name_and_value(rest))
}

// The word may be the value of the option before it.
fn is_plain(word: &str) -> bool
    ensures { result ≡ grammar.is_plain word.now }
{
    !word.is_empty() && strip_hyphen(word).is_none()
}

fn is_among(choices: &[Choice], name: &str) -> bool
    ensures { result ≡ list_any (λ choice. bytes_eq (choice_name choice) name.now) choices.now }
{
    choices.iter().any(|choice| choice.name() == name)
}

#[tactic(auto, using(crate::proofs::ChoiceLemmas::listed_choices))]
fn is_listed(command: Command, name: &str) -> bool
    ensures { result ≡ grammar.is_listed (grammar.names_of command) name.now }
{
    is_among(command.options(), name)
}

fn waits_after_name(value: Option<&str>) -> Option<bool>
    ensures { result ≡ spelling.waits_after_name (option_map (λ s. s.now) value.entry) }
{
    match value {
        None => Some(true),
        Some(text) if text.is_empty() => None,
        Some(_) => Some(false),
    }
}

fn waits_after_option(command: Command, word: &str) -> Option<bool>
    ensures { result ≡ spelling.waits_after_option (grammar.names_of command) (grammar.option_word word.now) }
{
    let (name, value) = option_word(word)?;
    if is_listed(command, name) {
        waits_after_name(value)
    } else {
        None
    }
}

// Whether an option waits for its value after the word, or none where the word may not stand there.
fn waits_after(command: Command, waits: bool, word: &str) -> Option<bool>
    ensures { result ≡ spelling.waits_after (grammar.names_of command) waits word.now }
{
    if waits {
        if is_plain(word) { Some(false) } else { None }
    } else {
        waits_after_option(command, word)
    }
}

/// Whether each word is an option of the command in one of its two forms, or the value after one.
pub fn is_spelled(command: Command, words: &[String]) -> bool
    ensures { result ≡ spelling.is_spelled (grammar.names_of command) (map string_bytes words.now) false }
{
    let mut waits = false;
    for word in words {
        match waits_after(command, waits, word.as_str()) {
            None => return false,
            Some(next) => waits = next,
        }
    }
    !waits
}
