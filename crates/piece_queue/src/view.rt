//! What a sender and the receiver know of the queue. No value of these types is made.

use std::collections::LinkedList;
use thread_writer::Piece;

/// What a worker sent that has ended.
pub struct Sent {
    pub worker: u64,
    pub put: LinkedList<Piece>,
}

/// What a sender or the receiver knows.
pub struct Hand {
    /// Whether it is a worker's: then what that worker sent, in order.
    pub puts: bool,
    pub worker: u64,
    pub put: LinkedList<Piece>,
    /// Whether it is the keeper's: then how many senders it made, what it took, in order, and what the
    /// workers sent that have ended.
    pub takes: bool,
    pub made: u64,
    pub taken: LinkedList<Piece>,
    pub ended: LinkedList<Sent>,
}
