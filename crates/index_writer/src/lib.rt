//! The writer of an index over rounds: in each round several thread writers share one queue. The end
//! of a round puts what they did into the segments, in memory; a commit puts those on the store.
//! A merge makes one of several segments, in steps that are taken between rounds and commits. Its
//! sources stay until it has ended: a round still changes them, and a commit lists them. A segment whose
//! rows have all died stays too until a merge takes it, and no commit lists it.
#![tactic(auto)]

mod begin;
mod commit;
mod end;
mod ending;
mod fault;
mod laws;
mod merging;
mod pace;
mod pruning;
mod round;
mod searching;
mod state;
mod writer;

pub use fault::{EndRefused, OpenRefused, PruneFault, WriterFault};
pub use flush_control::MergeTurn;
pub use laws::{commits_go_on, commits_hold, opened_go_on, pruned_go_on, segments_stand};
pub use round::{CommitInfo, Round, RoundEnd, RoundParts};
pub use state::State;
pub use writer::IndexWriter;
