//! The outside in memory: a source, a sink and stores that tell all that they hold, and gates that
//! watch a run, for tests.
//!
//! A store in memory is the list of the steps that its calls took. What reads return and what a crash
//! may leave follow from that list. Calls of chosen numbers fail, or all calls from one on.
#![tactic(auto)]

mod failing_calls;
mod fuse_store;
mod gates;
mod history;
mod left;
mod memory_sink;
mod memory_source;
mod memory_store;
mod names;
mod outcome;
mod recorded;
mod settled;
mod steady_source;
mod steady_store;

pub use fuse_store::FuseStore;
pub use gates::{CountingGate, GroupsGate, InOrderGate, MeetingGate, RecordingGate};
pub use memory_sink::MemorySink;
pub use memory_source::MemorySource;
pub use memory_store::MemoryStore;
pub use outcome::{BytesLeft, StepsLeft};
pub use steady_source::SteadySource;
pub use steady_store::SteadyStore;
