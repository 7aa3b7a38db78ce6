//! Tests of `ram_postings`: documents that are staged, and the postings of those that are born.
#![tactic(auto)]

#[cfg(test)]
mod tests;
#[cfg(test)]
mod tests_large;
