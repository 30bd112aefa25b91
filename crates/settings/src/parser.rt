// The parser of the command line: each option takes a value, none may come twice, and each that has no default must come.
ghost use Rattle.std.specs.Prelude.{◌≡◌, ◌∷◌, fold, map, drop, Some, None, true, false, IfOk, MatchResult, string_bytes};
ghost use Rattle.clap.specs.Words.{app_of, rule_of, with_rule};
ghost use Rattle.clap.specs.Simple.{new_app};
ghost use Rattle.clap.specs.declared.builder.command.Command.TheViews.{out-Command as fields_of};
ghost use Rattle.settings.specs.Table.{command_name};
ghost use Rattle.settings.specs.Words.{named, names_of, given_by_pairs};
ghost use Rattle.settings.specs.Spelling as spelling;
ghost use Rattle.settings.specs.Parser as parser;

use crate::said::given_in;
use crate::table::{COMMANDS, Choice, Command};
use crate::values::Given;
use crate::words::WordsFault;
use clap::error::ErrorKind;
use clap::{Arg, ArgAction};
use std::alloc::{AllocError, Global};

// An option that takes one text.
fn option<'a>(alloc: Global, name: &'a str, needed: bool) -> Arg<'a>
    ensures rule { rule_of result ≡ parser.asked (name.entry.now, needed) }
    ensures local { result.global ≡ false }
{
    Arg::new(alloc, name)
        .long(name)
        .action(ArgAction::Set)
        .required(needed)
}

// A command of that name with these options, in their order.
fn with_options<'a>(
    alloc: Global,
    name: &'a str,
    choices: &[Choice],
) -> Result<clap::Command<'a>, AllocError>
    ensures app { IfOk result (λ c. app_of c ≡ fold with_rule (new_app name.entry.now) (map parser.asked (named choices.now))) }
    ensures local { IfOk result (λ c. (fields_of c).has_globals ≡ false) }
{
    let mut command = clap::Command::new(alloc, name);
    for choice in choices {
        let name: &'a str = choice.name();
        command = command.arg(option(alloc, name, choice.is_needed()))?;
    }
    Ok(command)
}

fn subcommand<'a>(alloc: Global, command: Command) -> Result<clap::Command<'a>, AllocError>
    ensures app { IfOk result (λ c. app_of c ≡ parser.subcommand_app command) }
    ensures local { IfOk result (λ c. (fields_of c).has_globals ≡ false) }
{
    let name: &'a str = command.name();
    with_options(alloc, name, command.options())
}

// A command whose words are words from the first on, and in which nothing asks for help.
fn bare<'a>(alloc: Global) -> clap::Command<'a>
    ensures { app_of result ≡ parser.bare }
{
    clap::Command::new(alloc, "blobseer")
        .no_binary_name(true)
        .disable_help_flag(true)
        .disable_help_subcommand(true)
        .disable_version_flag(true)
}

// The program with one command more.
fn with_command<'a>(
    alloc: Global,
    program: clap::Command<'a>,
    command: Command,
) -> Result<clap::Command<'a>, AllocError>
    ensures { IfOk result (λ c. app_of c ≡ parser.with_command (app_of program.entry) command) }
{
    program.subcommand(subcommand(alloc, command)?)
}

// The program with these commands more, in their order.
fn with_commands<'a>(
    alloc: Global,
    program: clap::Command<'a>,
    commands: &[Command],
) -> Result<clap::Command<'a>, AllocError>
    ensures { IfOk result (λ c. app_of c ≡ fold parser.with_command (app_of program.entry) commands.now) }
{
    let mut program = program;
    for command in commands {
        program = with_command(alloc, program, *command)?;
    }
    Ok(program)
}

fn program<'a>(alloc: Global) -> Result<clap::Command<'a>, AllocError>
    ensures { IfOk result (λ c. app_of c ≡ parser.program_app) }
{
    with_commands(alloc, bare(alloc), COMMANDS.as_slice())
}

/// What the words behind the command give, which were found to be options with their values. Refused exactly where an
/// option is given twice, where one that the command needs is missing, or where a number isn't one of its option's range.
pub fn parse(alloc: Global, command: Command, words: &[String]) -> Result<Given, WordsFault>
    requires label { map string_bytes words.now ≡ command_name command ∷ drop 1 (map string_bytes words.now) }
    requires spelled { spelling.is_spelled (names_of command) (drop 1 (map string_bytes words.now)) false ≡ true }
    ensures { let behind = drop 1 (map string_bytes words.now) in MatchResult result
        (λ given. given_by_pairs command (parser.pairs_in command behind) ≡ Some given)
        (λ e. e ≡ WordsFault.Refused → given_by_pairs command (parser.pairs_in command behind) ≡ None) }
{
    let program = program(alloc)?;
    match program.try_get_matches_from(words) {
        Ok(matches) => match matches.subcommand() {
            Some((_, found)) => given_in(alloc, found),
            None => unreachable!(),
        },
        Err(error) => {
            if error.kind() == ErrorKind::OutOfMemory {
                Err(WordsFault::NoMemory)
            } else {
                Err(WordsFault::Refused)
            }
        }
    }
}
