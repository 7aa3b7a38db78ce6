//! Tests of `node_words`: operations as words, and words that are no operation.
#![tactic(auto)]

#[cfg(test)]
mod query_tests;
#[cfg(test)]
mod tests;
