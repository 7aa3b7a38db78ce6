//! Tests of `line_shares`: lines dealt out to workers.
#![tactic(auto)]

#[cfg(test)]
mod tests;
