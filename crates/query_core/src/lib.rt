//! Queries answered from an inverted index, after Lucene's term, phrase and boolean queries, and
//! ranges of numbers.
//!
//! An answer is made of rising lists alone: those of the terms that the query names are
//! intersected, joined and taken from one another, so its cost grows with them. `All`, a query that
//! only excludes, and a range of numbers walk all rows.
#![tactic(auto)]

mod finding;
mod index;
mod inverted;
mod matching;
mod number_search;
mod phrase;
mod row_lists;

pub use index::{holding_from_in, holding_in, places_in};
pub use inverted::Inverted;
pub use matching::{answer, is_within};
pub use row_lists::distinct;
