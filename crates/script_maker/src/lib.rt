//! Scripts that are made from a seed, for runs of any length: the same seed, number of lines and
//! number of callers always make the same script.
//!
//! Each caller touches documents of its own alone and commits at the end, so the rows that a run
//! leaves are the same whichever way its callers' lines are interleaved.
#![tactic(auto)]

mod documents;
mod draws;
mod make;
mod operations;
mod texts;

pub use make::make_script;
