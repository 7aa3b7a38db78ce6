//! A round: the queue and its writers, and what comes of them.

use delete_queue::DeleteQueue;
use thread_writer::{Piece, ThreadWriter};

/// A round that was begun: a new queue, and a writer for each of its seats, by seat number.
#[derive(Drop)]
pub struct Round {
    pub queue: DeleteQueue,
    pub writers: Vec<ThreadWriter>,
}

/// What comes back of a round: its queue and its writers, by seat number, and at the place of each
/// writer the pieces that it gave off, in their order.
#[derive(Drop)]
pub struct RoundParts {
    pub queue: DeleteQueue,
    pub writers: Vec<ThreadWriter>,
    pub pieces: Vec<Vec<Piece>>,
}

/// How a round ended.
#[derive(Clone, Copy, Debug, PartialEq, Eq)]
pub enum RoundEnd {
    /// By a commit of this number, which is still to be written.
    Committed(u64),
    /// By a turn: a writer's part of the queue was full.
    Turned,
    /// Without an entry that closes the queue.
    Ran,
}

/// A commit that was written.
#[derive(Clone, Copy, Debug, PartialEq, Eq)]
pub struct CommitInfo {
    pub number: u64,
    /// How many rows it has, or 2^64 - 1 where they are more.
    pub docs: u64,
}
