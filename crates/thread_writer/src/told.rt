//! What a line is told.

/// What `ThreadWriter::do_line` returns.
#[derive(Clone, Copy, Debug, PartialEq, Eq)]
pub enum Told {
    /// The operation was done, and has this sequence number.
    Numbered(u64),
    /// Its own term, or else the first such term of its documents, in order, has more than 32,766
    /// bytes: this many. It got no number.
    RefusedTerm {
        size: u64,
    },
    /// The encoded query that it deletes by has more than 131,072 bytes: this many; `u64::MAX` stands
    /// for all larger sizes too. It got no number.
    RefusedQuery {
        size: u64,
    },
    /// The queue is closed: its last entry is a commit or a turn. The operation got no number.
    Closed,
    /// The writer's part of the queue has no room for the operation, which got no number.
    Full {
        /// How many words the operation takes.
        need: u64,
        /// How many are left.
        left: u64,
    },
    /// Memory ran out. The operation got no number.
    NoMemory,
}
