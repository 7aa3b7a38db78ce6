//! Old commits that are given up, so that an index takes no more room than its latest commits do. The
//! commit files go first, and only once the directory knows that they are gone, the files that no
//! other commit lists: a stop at any moment leaves each commit whole or not at all.
#![tactic(auto)]

mod choosing;
mod deleting;
mod fault;
mod named;
mod planning;
mod pruning;
mod reading;

pub use fault::PruningFault;
pub use pruning::prune;
