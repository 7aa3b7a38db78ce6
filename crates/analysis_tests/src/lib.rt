//! Tests of `analysis`: terms, phrases and inversion, by examples of the public standards.
#![tactic(auto)]

#[cfg(test)]
mod tests;
