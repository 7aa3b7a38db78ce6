//! The words of the program's command line, read by clap.
//!
//! | Subcommand | Options (range, number where not given) |
//! |---|---|
//! | `run` | `--threads` 1..=16 (4), `--buffer` 1..=65536 (1000), `--merge` 2..=64 (8), `--keep` 1..=1000 (none: all commits stay) |
//! | `ask` | `--commit` 0..=9223372036854775807 (none: the last commit) |
//! | `list` | none |
//! | `check` | none |
//! | `make` | `--seed` 0..=2147483647, `--lines` 1..=1000000, `--callers` 1..=256, all three required |
//!
//! Which words are accepted, and with which numbers, is what clap's own definitions give
//! (`specs/Accepted.antt`) for this command (`specs/Program.antt`) and these options (`specs/Options.antt`).
#![tactic(auto)]

mod command;
mod laws;
mod number_option;
mod numbers;
mod program;
mod reading;

pub use command::{Command, WordsFault};
pub use laws::{accepted_unless_a_fault, options_in_any_order};
pub use reading::read_command;
