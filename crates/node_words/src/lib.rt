//! Operations as words: how an operation is stored in the queue that the writers share.
//!
//! An entry of the queue is a kind with its fields and has no document. It is spelled by one head
//! word, `kind * 2^32 + L`, and its L bytes, eight in a word, the first byte highest and the last
//! word filled with zero bytes. Each entry has one spelling: `encode` returns it, and `decode` reads
//! it and nothing else.
#![tactic(auto)]

mod decoding;
mod encoding;
mod entry;
mod fault;
mod pack;
mod parts;
mod query_check;
mod query_read;
mod query_size;
mod query_write;
mod reader;
mod unpack;
mod write;

/// The most bytes that an operation's own term may have.
const MOST_TERM_BYTES: usize = 32766;
/// The most bytes that the encoded query of a delete may have.
const MOST_QUERY_BYTES: usize = 131072;

pub use decoding::decode;
pub use encoding::encode;
pub use entry::Entry;
