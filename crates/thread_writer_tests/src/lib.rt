//! Tests of `thread_writer`: writers of a small queue.
#![tactic(auto)]

#[cfg(test)]
mod tests;
