//! Operations as words of the delete queue, and new queues, for tests.
#![tactic(auto)]

mod queues;
mod words;

pub use queues::new_queue;
pub use words::{add, delete_of_five, delete_of_six};
