//! A check of all commits of a store: each is read whole, in the order of their numbers, and its
//! postings are compared with those that its documents have.
#![tactic(auto)]

mod checking;
mod comparing;
mod earlier;
mod fault;
mod known;
mod next_id;
mod one_commit;
mod sound;

pub use checking::check;
pub use fault::{CheckFault, Difference};
