//! The tasks of a round's workers, and what they were told: a share is one worker's part of a script, which
//! it goes on with from round to round.
#![tactic(auto)]

mod share;
mod task;

pub use share::Share;
pub use task::{Reply, Task};
