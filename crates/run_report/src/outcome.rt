//! What became of a line.

use ix_base::{List, Refusal};

/// What became of a line.
#[derive(Drop)]
pub enum Answer {
    /// It got this number.
    Numbered(u64),
    /// It got this number, and its commit has so many documents.
    Committed(u64, u64),
    /// It was refused.
    Refused(Refusal),
    /// It searched, and this is its text.
    Found(List<u8>),
}

/// A line, by its place in the script, and what became of it.
#[derive(Drop)]
pub struct Outcome {
    pub line: u32,
    pub answer: Answer,
}
