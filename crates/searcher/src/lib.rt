//! Questions answered on a commit.
#![tactic(auto)]

mod found;
mod numbers;
mod searcher;
mod shown;

pub use searcher::Searcher;
