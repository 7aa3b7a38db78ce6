//! Packets applied to live segments: what each makes of the live docs of one segment, or of all.
#![tactic(auto)]

mod applying;
mod laws;
mod parallel;

pub use applying::apply;
pub use laws::two_stages;
pub use parallel::apply_all;
