//! What the questions of an input are.

use ix_base::{List, Query};

/// A query that is asked: it, and the number of its line in the input, counted from 1.
#[derive(Drop)]
pub struct Question {
    pub line: u32,
    pub query: Query,
}

/// The questions of an input, in order, those lines left out that are passed over.
#[derive(Drop)]
pub struct Questions {
    pub lines: List<Question>,
}
