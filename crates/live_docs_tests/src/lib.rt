//! Tests of `live_docs`: rows that die and numbers that are set, beside plain lists.
#![tactic(auto)]

#[cfg(test)]
mod tests;
