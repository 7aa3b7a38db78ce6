//! The private buffer of one writer: documents with their postings, before they are a segment.
//!
//! A document is staged first, and gets its birth later: the number of the operation that adds it, and
//! its place among that operation's documents. One that never gets a birth is void: it keeps its place,
//! and is in no row. A freeze takes the documents that were born out of the buffer, as rows, with the
//! inversion of them.
#![tactic(auto)]

mod buffer;
mod entry;
mod freezing;
mod numbers;
mod placing;
mod renumbering;

pub use buffer::{RamPostings, RowId};
pub use freezing::Frozen;
