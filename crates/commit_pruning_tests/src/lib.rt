//! Tests of `commit_pruning`: which files stay, and what stops leave.
#![tactic(auto)]

#[cfg(test)]
mod tests;
#[cfg(test)]
mod tests_stops;
#[cfg(test)]
mod tests_stores;
