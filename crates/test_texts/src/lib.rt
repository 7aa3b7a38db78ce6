//! Queries and postings as short texts, for tests that compare them with what was worked out by hand.
#![tactic(auto)]

mod postings;
mod queries;

pub use postings::shown_postings;
pub use queries::{show_query, show_term};
