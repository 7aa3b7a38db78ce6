//! Tests of `store_answers`: questions and lists of a store.
#![tactic(auto)]

#[cfg(test)]
mod tests;
