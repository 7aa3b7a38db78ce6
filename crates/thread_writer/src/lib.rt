//! The private writer of one caller, as Lucene's DocumentsWriterPerThread.
//!
//! A writer stages documents in a buffer of its own. It links each operation as an entry of the
//! delete queue that all writers share: that gives the operation its sequence number. Of the queue it
//! keeps a slice, the part since its buffer was begun. A full buffer is given off as a piece: its rows,
//! the updates of the slice, and the number up to which the slice was read. All documents of one
//! operation are in one piece.
#![tactic(auto)]

mod laws;
mod line;
mod piece;
mod staging;
mod take;
mod told;
mod writer;

pub use laws::{pieces_are_few, pieces_have_all, pieces_stay};
pub use piece::{HandedBack, Piece};
pub use told::Told;
pub use writer::ThreadWriter;
