//! The laws of accepted words, as the contracts of functions that do nothing.
ghost use Rattle.command_words.specs.WordLaws.{RunAccepted, AskAccepted, ListAccepted, CheckAccepted, MakeAccepted};
ghost use Rattle.command_words.specs.WordLaws.{FaultlessAccepted};

/// The law of accepted words: a subcommand's name and then its options, in any order and each at
/// most once, as `--name` and the decimal digits of a number in its range, are accepted with these
/// numbers; `run` takes its defaults, none for `--keep`, and `make` needs all three. It does
/// nothing: its clauses are the law.
pub fn options_in_any_order()
    ensures run { RunAccepted }
    ensures ask { AskAccepted }
    ensures list { ListAccepted }
    ensures check { CheckAccepted }
    ensures make { MakeAccepted }
{}

/// Words are a command wherever clap's definitions give them no fault, so that exactly the words
/// with a fault aren't accepted. It does nothing: its clause is the law.
pub fn accepted_unless_a_fault()
    ensures { FaultlessAccepted }
{}
