//! The words of the command line.
ghost use Rattle.std.specs.Prelude.{◌≡◌, ◌⊎◌, IfOk, IfErr, Err, Some, None};
ghost use Rattle.command_words.specs.Accepted.{InRange};
ghost use Rattle.report_text.specs.declared.fault.Fault.{Fault};
ghost use Rattle.index_run.specs.Commands.{command_of};

use crate::stop::Stop;
use command_words::{Command, WordsFault};
use report_text::Fault;
use std::alloc::Global;

/// The command that the words are.
pub fn read_command(alloc: Global, words: &[String]) -> Result<Command, Stop>
    ensures command { IfOk result (λ command. command_of words.now ≡ Some command) }
    ensures ranges { IfOk result InRange }
    ensures words { result ≡ Err (Stop.Fault Fault.Words) → command_of words.now ≡ None }
    ensures others { IfErr result (λ stop. (stop ≡ Stop.Fault Fault.Words)
        ⊎ (stop ≡ Stop.NoMemory)) }
{
    match command_words::read_command(alloc, words) {
        Ok(command) => Ok(command),
        Err(WordsFault::Words) => Err(Stop::Fault(Fault::Words)),
        Err(WordsFault::NoMemory) => Err(Stop::NoMemory),
    }
}
