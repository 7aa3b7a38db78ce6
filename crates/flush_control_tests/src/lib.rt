//! Tests of `flush_control`: pieces that become segments, packets and merges.
#![tactic(auto)]

#[cfg(test)]
mod round;
#[cfg(test)]
mod tests;
#[cfg(test)]
mod tests_merging;
mod told;

pub use told::Told;
