//! The number of an option.
ghost use Rattle.std.specs.Prelude.{◌≡◌, ◌≤◌, IfSome};
ghost use Rattle.clap.specs.Matches.{found_of};
ghost use Rattle.clap.specs.Walk.{rows_of};
ghost use Rattle.command_words.specs.Accepted.{number_of, ranged_number};
ghost use Rattle.command_words.specs.Options.{IsNumberOf};

use crate::number_option::NumberOption;
use clap::ArgMatches;

/// The number of the option, where it has one in its range.
pub fn number(matches: &ArgMatches, option: NumberOption) -> Option<u64>
    ensures number { result ≡ number_of option (rows_of (found_of matches.now)) }
    ensures range { IfSome result (IsNumberOf option) }
{
    number_in(matches, option.name(), option.low(), option.high())
}

/// The number of the option of this name, where it has one from `low` to `high`.
fn number_in(matches: &ArgMatches, name: &str, low: u64, high: u64) -> Option<u64>
    ensures number { result ≡ ranged_number name.now low high (rows_of (found_of matches.now)) }
    ensures range { IfSome result (λ number. (low ≤ number) × (number ≤ high)) }
{
    let number = matches.get_one::<u64>(name)?;
    if low <= number && number <= high {
        Some(number)
    } else {
        None
    }
}
