//! What can go wrong from outside, for tests: stores with a damaged file, inputs with a bad line, and
//! what a run that was stopped may leave, each with what a call then has to write.
#![tactic(auto)]

mod damage;
mod inputs;
mod part;
mod stages;

pub use damage::{Damage, changes, counts, cuts, is_first};
pub use inputs::{BadInput, bad_scripts, cut_scripts, long_input};
pub use part::Part;
pub use stages::{Stage, Told, add_and_commit, how_many, report_on, told_of};
