//! The program with its commands, as clap takes it.
ghost use Rattle.std.specs.Prelude.{◌≡◌, IfOk, false, map, option_map, string_bytes};
ghost use Rattle.std.specs.List.{find, fold};
ghost use Rattle.std.specs.Str.{bytes_eq};
ghost use Rattle.clap.specs.Words.{app_of, rule_of, shape_of, with_rule};
ghost use Rattle.clap.specs.declared.builder.command.Command.TheViews.{out-Command as fields_of};
ghost use Rattle.pkder.specs.CommandLines.{command_named as shape_named, program_for, program, top};
ghost use Rattle.pkder.specs.Tables.{rule_in, shape_in, words_of};

use crate::arguments::{Argument, Subcommand, subcommands};
use crate::help::PROGRAM;
use clap::{Arg, Command};
use explain::version::VERSION;
use std::alloc::{AllocError, Global};

/// The program as far as a line needs it: with the command alone that the word after the program's name names, else
/// with all of them.
pub fn command_for<'a>(alloc: Global, words: &[String]) -> Result<Command<'a>, AllocError>
    ensures { IfOk result (λ command. app_of command
        ≡ program_for (map string_bytes words.now)) }
{
    let [_, word, ..] = words else {
        return command(alloc);
    };
    match named(subcommands(), word.as_str()) {
        Some(row) => {
            let one = subcommand(alloc, row)?;
            pkder(alloc).subcommand(one)
        }
        None => command(alloc),
    }
}

/// The first of these commands that has the name.
fn named(among: &'static [Subcommand], word: &str) -> Option<&'static Subcommand>
    ensures { option_map (λ it. shape_in it.now) result
        ≡ find (λ shape. bytes_eq word.now shape.name) (map shape_in among.now) }
{
    match among {
        [] => None,
        [first, rest @ ..] => {
            if word == first.name {
                Some(first)
            } else {
                named(rest, word)
            }
        }
    }
}

/// The program: its commands with their options.
fn command<'a>(alloc: Global) -> Result<Command<'a>, AllocError>
    ensures { IfOk result (λ command. app_of command ≡ program) }
{
    let mut command = pkder(alloc);
    for row in subcommands() {
        let one = subcommand(alloc, row)?;
        command = command.subcommand(one)?;
    }
    Ok(command)
}

/// The program without its commands.
fn pkder<'a>(alloc: Global) -> Command<'a>
    ensures { app_of result ≡ top }
{
    Command::new(alloc, "pkder")
        .about("reads, checks and normalises keys and certification requests in BER or DER")
        .version(VERSION)
        .after_help(PROGRAM)
        .subcommand_required(true)
}

/// A command with its options.
fn subcommand<'a>(alloc: Global, row: &Subcommand) -> Result<Command<'a>, AllocError>
    ensures shape { IfOk result (λ command. shape_of command ≡ shape_in row.now) }
    ensures local { IfOk result (λ command. (fields_of command).has_globals ≡ false) }
{
    let command = Command::new(alloc, row.name)
        .about(row.about)
        .after_help(row.topic.text());
    with_arguments(alloc, command, row.arguments)
}

/// A command with these options, too.
fn with_arguments<'a>(
    alloc: Global,
    mut command: Command<'a>,
    arguments: &[Argument],
) -> Result<Command<'a>, AllocError>
    requires { (fields_of command).has_globals ≡ false }
    ensures shape { IfOk result (λ new. app_of new
        ≡ fold with_rule (app_of command.entry) (map rule_in arguments.now)) }
    ensures local { IfOk result (λ new. (fields_of new).has_globals ≡ false) }
{
    for argument in arguments {
        command = command.arg(arg(alloc, argument))?;
    }
    Ok(command)
}

/// An option as clap takes it, or the name of a file.
fn arg<'a>(alloc: Global, argument: &Argument) -> Arg<'a>
    ensures rule { rule_of result ≡ rule_in argument.now }
    ensures local { result.global ≡ false }
{
    let arg = Arg::new(alloc, argument.id)
        .value_names(argument.values)
        .help(argument.help)
        .default_values(argument.defaults)
        .required(argument.required)
        .action(argument.action);
    with_words(arg, argument)
}

/// The same, by its word and its letter, where it is an option.
fn with_words<'a>(arg: Arg<'a>, argument: &Argument) -> Arg<'a>
    ensures words { rule_of result ≡ words_of (rule_of arg.entry) argument.now }
    ensures local { result.global ≡ arg.entry.global }
{
    if !argument.is_option {
        return arg;
    }
    let with_word = arg.long(argument.id);
    match argument.letter {
        Some(letter) => with_word.short(letter),
        None => with_word,
    }
}
