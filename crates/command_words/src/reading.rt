//! Words to a command.
ghost use Rattle.std.specs.Prelude.{◌≡◌, IfOk, IfSome, option_and_then, Some, None, map, string_bytes};
ghost use Rattle.clap.specs.Matches.{found_of};
ghost use Rattle.clap.specs.Simple.{subcommand_rows_of};
ghost use Rattle.clap.specs.Walk.{rows_of};
ghost use Rattle.command_words.specs.Accepted.{accepted, command_in, run_in, make_in, number_of, InRange};
ghost use Rattle.command_words.specs.Options.{IsNumberOf};

use crate::command::{Command, WordsFault};
use crate::number_option::NumberOption;
use crate::numbers::number;
use crate::program::program;
use clap::ArgMatches;
use clap::error::ErrorKind;
use std::alloc::Global;

/// The command that these words ask for: the subcommand, and the number of each option, in its
/// range. The words come without the program's name.
///
/// # Errors
///
/// `Words` only where clap's definitions don't accept the words, and `NoMemory` where memory runs out.
pub fn read_command(alloc: Global, words: &[String]) -> Result<Command, WordsFault>
    ensures ok { IfOk result (λ command. accepted (map string_bytes words.now) ≡ Some command) }
    ensures words { result ≡ Err WordsFault.Words → accepted (map string_bytes words.now) ≡ None }
    ensures ranges { IfOk result InRange }
{
    let program = match program(alloc) {
        Ok(program) => program,
        Err(_) => return Err(WordsFault::NoMemory),
    };
    match program.try_get_matches_from(words) {
        Ok(matches) => command_from(&matches).ok_or(WordsFault::Words),
        Err(error) => match error.kind() {
            ErrorKind::OutOfMemory => Err(WordsFault::NoMemory),
            _ => Err(WordsFault::Words),
        },
    }
}

/// The command of what clap found.
fn command_from(matches: &ArgMatches) -> Option<Command>
    ensures command { result ≡ option_and_then command_in (subcommand_rows_of matches.now) }
    ensures ranges { IfSome result InRange }
{
    let (name, options) = matches.subcommand()?;
    if name == "run" {
        run_from(options)
    } else if name == "ask" {
        Some(Command::Ask {
            commit: number(options, NumberOption::Commit),
        })
    } else if name == "list" {
        Some(Command::List)
    } else if name == "check" {
        Some(Command::Check)
    } else if name == "make" {
        make_from(options)
    } else {
        None
    }
}

/// `run` with its numbers.
fn run_from(options: &ArgMatches) -> Option<Command>
    ensures command { result ≡ run_in (rows_of (found_of options.now)) }
    ensures ranges { IfSome result InRange }
{
    let threads = number(options, NumberOption::Threads)?;
    let buffer = number(options, NumberOption::Buffer)?;
    let merge = number(options, NumberOption::Merge)?;
    Some(Command::Run {
        threads: threads as u32,
        buffer: buffer as u32,
        merge: merge as u32,
        keep: keep_from(options),
    })
}

/// How many of the last commits `run` keeps, where that is given.
fn keep_from(options: &ArgMatches) -> Option<u32>
    ensures keep { result ≡ number_of NumberOption.Keep (rows_of (found_of options.now)) }
    ensures range { IfSome result (IsNumberOf NumberOption.Keep) }
{
    let keep = number(options, NumberOption::Keep)?;
    Some(keep as u32)
}

/// `make` with its numbers.
fn make_from(options: &ArgMatches) -> Option<Command>
    ensures command { result ≡ make_in (rows_of (found_of options.now)) }
    ensures ranges { IfSome result InRange }
{
    let seed = number(options, NumberOption::Seed)?;
    let lines = number(options, NumberOption::Lines)?;
    let callers = number(options, NumberOption::Callers)?;
    Some(Command::Make {
        seed: seed as u32,
        lines: lines as u32,
        callers: callers as u32,
    })
}
