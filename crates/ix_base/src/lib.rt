//! What every layer of the index speaks of: texts, names, documents, rows, queries and operations,
//! the names of a store's files, and how numbers, texts and names stand in bytes.
//!
//! Contracts see each of these types as plain mathematics: a `Text` as its list of bytes, `Fields`
//! as a list of pairs, a list of queries as a tree. So two values are equal in a clause exactly
//! where a user would call them equal.
#![tactic(auto)]

mod birth;
mod block;
mod broken;
pub mod codec;
mod damaged;
mod document;
mod fields;
mod file_name;
mod list;
mod memory;
mod postings;
mod query;
mod refusal;
mod spots;
mod text;

pub use birth::Birth;
pub use block::Block;
pub use damaged::{Damaged, FileFault};
pub use document::{Document, Hit, Operation, Row, Term};
pub use fields::{Fields, Numbers};
pub use file_name::FileName;
pub use list::List;
pub use memory::NoMemory;
pub use postings::{Analysed, Posting, Postings, TermPostings};
pub use query::{Queries, Query};
pub use refusal::{Refusal, Refused};
pub use spots::{Spot, Spots};
pub use text::{Name, PhraseText, Text};
