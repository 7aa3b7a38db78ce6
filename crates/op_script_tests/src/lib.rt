//! Tests of `op_script`: scripts and questions, and what is refused of them.
#![tactic(auto)]

#[cfg(test)]
mod tests;
#[cfg(test)]
mod tests_large;
#[cfg(test)]
mod tests_questions;
