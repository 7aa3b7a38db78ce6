//! Tests of `ix_base`: texts, names, codecs, lists and the bytes of queries.
#![tactic(auto)]

#[cfg(test)]
mod tests;
