//! Tests of `segment_core`: segments that are built, and what updates do to them.
#![tactic(auto)]

#[cfg(test)]
mod tests;
#[cfg(test)]
mod tests_live;
