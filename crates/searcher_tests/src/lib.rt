//! Tests of `searcher`: the hits of questions on a commit.
#![tactic(auto)]

#[cfg(test)]
mod tests;
