//! The report of a run: one text for each line of the script, made from what became of the lines. The text
//! of a search line is made before, where its commit is in memory.
#![tactic(auto)]

mod assembly;
mod outcome;

pub use assembly::report;
pub use outcome::{Answer, Outcome};
