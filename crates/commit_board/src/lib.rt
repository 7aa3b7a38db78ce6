//! A board of commits: a poster shows them, one after another, and watchers search the newest one that they
//! are shown, without a lock and without waiting.
//!
//! The board's list is all that was posted, in order, with such commits among it as were refused at first
//! and were shown with a later one (`posted_on`). Nobody keeps that list when the program runs: it stands in
//! the rule under which the two copies of the shelf are read and changed (`specs/Rule.antt`), and in what each
//! watcher and the poster know. What a watcher is shown is the last commit of a beginning of that list
//! (`seen_by`), which goes on from all that it was shown since it learnt last, and from all that it learnt then.
//!
//! A searcher doesn't know the number of its commit, so the board's entries are pairs of both (`Commit`).
#![tactic(auto)]

mod board;
mod commit;
mod poster;
mod publisher;
mod rule;
mod shelf;
mod viewer;
mod watcher;

pub use board::Board;
pub use commit::Commit;
pub use poster::Poster;
pub use viewer::Shown;
pub use watcher::Watcher;
