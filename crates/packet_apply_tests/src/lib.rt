//! Tests of `packet_apply`: packets applied to one segment and to several, worked out by hand.
#![tactic(auto)]

#[cfg(test)]
mod tests;
