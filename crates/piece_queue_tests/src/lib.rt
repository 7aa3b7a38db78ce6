//! Tests of `piece_queue`: pieces of two workers.
#![tactic(auto)]

#[cfg(test)]
mod tests;
