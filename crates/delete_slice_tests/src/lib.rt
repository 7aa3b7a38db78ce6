//! Tests of `delete_slice`: updates read off a queue.
#![tactic(auto)]

#[cfg(test)]
mod tests;
