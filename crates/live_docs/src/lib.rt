//! Which rows of a segment are live, and the numbers that were set in them since they were added.
#![tactic(auto)]

mod comparing;
mod laws;
mod live_docs;
mod row_numbers;
mod set_numbers;
mod shared_numbers;

pub use laws::set_numbers_are_a_map;
pub use live_docs::{LiveDocs, Mark, value_in};
