//! Tests of `commit_board`: what watchers are shown.
#![tactic(auto)]

#[cfg(test)]
mod tests;
