//! Tests of `run_report`: the texts of lines of each kind, in the order of the script.
#![tactic(auto)]

#[cfg(test)]
mod tests;
