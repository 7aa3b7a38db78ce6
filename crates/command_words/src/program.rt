//! The program's command, made for clap.
ghost use Rattle.std.specs.Prelude.{◌≡◌, IfOk, false};
ghost use Rattle.clap.specs.Simple.{app_of};
ghost use Rattle.clap.specs.Walk.{rule_of};
ghost use Rattle.clap.specs.declared.builder.command.Command.TheViews.{out-Command};
ghost use Rattle.command_words.specs.Program as spec;
ghost use Rattle.command_words.specs.Program.{number_rule, ranged_rule};

use crate::number_option::NumberOption;
use clap::builder::ValueParser;
use clap::{Arg, Command};
use std::alloc::{AllocError, Global};

/// The whole command: one of its five subcommands has to be named.
pub fn program<'a>(alloc: Global) -> Result<Command<'a>, AllocError>
    ensures { IfOk result (λ command. app_of command ≡ spec.program) }
{
    let run = run_command(alloc)?;
    let ask = ask_command(alloc)?;
    let make = make_command(alloc)?;
    Command::new(alloc, "index_run")
        .no_binary_name(true)
        .subcommand_required(true)
        .subcommand(run)?
        .subcommand(ask)?
        .subcommand(Command::new(alloc, "list"))?
        .subcommand(Command::new(alloc, "check"))?
        .subcommand(make)
}

/// `run`, whose last option has no default.
fn run_command<'a>(alloc: Global) -> Result<Command<'a>, AllocError>
    ensures app { IfOk result (λ command. app_of command ≡ spec.run) }
    ensures local { IfOk result (λ command. (out-Command command).has_globals ≡ false) }
{
    let keep = number_option(alloc, NumberOption::Keep);
    run_with_defaults(alloc)?.arg(keep)
}

/// `run` with its options that have a default.
fn run_with_defaults<'a>(alloc: Global) -> Result<Command<'a>, AllocError>
    ensures app { IfOk result (λ command. app_of command ≡ spec.run_with_defaults) }
    ensures local { IfOk result (λ command. (out-Command command).has_globals ≡ false) }
{
    let threads = number_option(alloc, NumberOption::Threads).default_value("4");
    let buffer = number_option(alloc, NumberOption::Buffer).default_value("1000");
    let merge = number_option(alloc, NumberOption::Merge).default_value("8");
    Command::new(alloc, "run")
        .arg(threads)?
        .arg(buffer)?
        .arg(merge)
}

/// `ask`, whose option has no default.
fn ask_command<'a>(alloc: Global) -> Result<Command<'a>, AllocError>
    ensures app { IfOk result (λ command. app_of command ≡ spec.ask) }
    ensures local { IfOk result (λ command. (out-Command command).has_globals ≡ false) }
{
    let commit = number_option(alloc, NumberOption::Commit);
    Command::new(alloc, "ask").arg(commit)
}

/// `make`, with three options that are required.
fn make_command<'a>(alloc: Global) -> Result<Command<'a>, AllocError>
    ensures app { IfOk result (λ command. app_of command ≡ spec.make) }
    ensures local { IfOk result (λ command. (out-Command command).has_globals ≡ false) }
{
    let seed = number_option(alloc, NumberOption::Seed).required(true);
    let lines = number_option(alloc, NumberOption::Lines).required(true);
    let callers = number_option(alloc, NumberOption::Callers).required(true);
    Command::new(alloc, "make")
        .arg(seed)?
        .arg(lines)?
        .arg(callers)
}

/// A long option with a number in its range.
fn number_option<'a>(alloc: Global, option: NumberOption) -> Arg<'a>
    ensures rule { rule_of result ≡ number_rule option }
    ensures local { result.global ≡ false }
{
    ranged_option(alloc, option.name(), option.low(), option.high())
}

/// A long option of this name, with a number from `low` to `high`.
fn ranged_option<'a>(alloc: Global, name: &'a str, low: u64, high: u64) -> Arg<'a>
    ensures rule { rule_of result ≡ ranged_rule name.entry.now low high }
    ensures local { result.global ≡ false }
{
    Arg::new(alloc, name)
        .long(name)
        .value_parser(ValueParser::unsigned(low, high))
}
