//! Merges of segments, in steps: which segments are merged, the places of their live rows by birth, the
//! rows and the terms that each step copies and merges, and the segment that is made, with what reached
//! the sources meanwhile.
#![tactic(auto)]

mod carrying;
mod copying;
mod laws;
mod merge;
mod next_row;
mod numbering;
mod order;
mod origin;
mod picking;
mod room;

pub use laws::reading_stays;
pub use merge::{Merge, MergeRefused, Step};
pub use picking::pick;
pub use room::is_one_of;
