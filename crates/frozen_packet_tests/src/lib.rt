//! Tests of `frozen_packet`: updates taken one by one, and gathered.
#![tactic(auto)]

#[cfg(test)]
mod tests;
