//! The segments of an index, and what a round makes of them: first the pieces that writers gave off
//! become segments, and then the packet of all operations since the last round is applied to all. A
//! merge replaces several segments by one, in steps between the rounds.
#![tactic(auto)]

mod building;
mod laws;
mod log_laws;
mod merging;
mod published;
mod released;

pub use laws::{merges_stand, rounds_meet, rounds_stand};
pub use log_laws::{last_heads, rounds_are_ordered};
pub use merging::MergeTurn;
pub use published::Published;
pub use released::Released;
