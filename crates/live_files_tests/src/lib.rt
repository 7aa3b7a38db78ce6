//! Tests of `live_files`: live bits and set numbers in bytes, and what is damaged.
#![tactic(auto)]

#[cfg(test)]
mod tests;
