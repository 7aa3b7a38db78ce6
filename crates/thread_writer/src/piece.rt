//! What a writer gives off.

use delete_queue::Seat;
use delete_slice::Slice;
use frozen_packet::Updates;
use ram_postings::{Frozen, RamPostings};

/// A full buffer that was given off.
#[derive(Drop)]
pub struct Piece {
    /// The seat number of its writer, from 0.
    pub worker: u64,
    /// Its rows, ordered by birth, and the inversion of them.
    pub frozen: Frozen,
    /// The deletes and settings of the part of the queue from the beginning of the buffer to the cut.
    pub updates: Updates,
    /// The sequence number up to which the updates took the queue's entries.
    pub cut: u64,
}

/// The parts of a writer that has ended.
#[derive(Drop)]
pub struct HandedBack {
    pub seat: Seat,
    /// The buffer, with the rows that were in no piece.
    pub rest: RamPostings,
    /// The part of the queue since the buffer was begun: the rows of the buffer were born after it
    /// began. The end of a round doesn't read it: its packet has all of the queue's operations.
    pub(crate) slice: Slice,
}
