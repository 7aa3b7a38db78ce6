//! What a worker is to do, and what it was told.

use ix_base::{Operation, Refusal};

/// A line that writes or commits, with its place in the script.
#[derive(Drop)]
pub struct Task {
    pub line: u32,
    pub operation: Operation,
}

/// What a task was told.
#[derive(Clone, Copy, Debug, PartialEq, Eq)]
pub enum Reply {
    /// The operation was done, and has this sequence number.
    Numbered(u64),
    /// It is refused for itself or for a document. It got no number.
    Refused(Refusal),
}
