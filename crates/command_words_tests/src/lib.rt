//! Tests of `command_words`: words that are commands, and words that are refused.
#![tactic(auto)]

#[cfg(test)]
mod tests;
