//! Tests of `queue_rule`: the layout of a queue's words.
#![tactic(auto)]

#[cfg(test)]
mod tests;
