//! Analysis of documents: their terms, and the postings of them.
//!
//! Words are those of UAX #29 (word boundaries, without pieces that have no letter and no digit),
//! folded by Unicode's default (full) case folding. There are no stop words, and long words aren't
//! split.
#![tactic(auto)]

mod field_lists;
mod inverse;
mod name_key;
mod sizes;
mod term_key;
mod word_key;
mod word_lists;
mod words;

pub use inverse::{analyse, invert};
pub use sizes::long_term;
pub use term_key::{TermKey, compare_terms};
pub use words::phrase_terms;
