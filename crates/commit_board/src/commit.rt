//! What is posted.
ghost use Rattle.std.specs.Prelude.{◌≤◌};

use searcher::Searcher;

/// A commit that can be searched, with its number. The number 0 is none: it stands for a board without a
/// commit.
#[derive(Drop)]
pub struct Commit {
    pub number: u64,
    pub searcher: Searcher,
    pub ghost some: { 1 ≤ number },
}
