//! Tests of `ix_memory`: stores, sources and sinks in memory, and what a crash leaves of a store.
#![tactic(auto)]

#[cfg(test)]
mod tests;
