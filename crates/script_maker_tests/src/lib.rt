//! Tests of `script_maker`: generated scripts.
#![tactic(auto)]

#[cfg(test)]
mod tests;
