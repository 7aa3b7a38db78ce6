//! What is answered from a store that is only read: questions about one commit, and the list of the
//! commits.
#![tactic(auto)]

mod asking;
mod finding;
mod listing;
mod own;

pub use asking::{Answered, ask};
pub use listing::{ListFault, list};
pub use own::own_hits;
