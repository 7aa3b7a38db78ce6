//! The linked delete queue: one list of entries that several threads share, without a lock.
//!
//! Each thread has a seat. With it the thread links entries after all that are there, looks for
//! the next entry that it has not seen, and reads the words of those that it has. All seats see
//! one and the same list. What a seat knows of it is said by the words of `specs/Seats.antt`,
//! which the layers above cite and don't look into.
//!
//! The table of words moves through the six functions of `steps.rt` alone, one for each kind of
//! atomic step. No call but `make` and `gather` takes memory, and none waits.
#![tactic(auto)]

mod copy;
mod entry;
mod gather;
mod link;
mod log;
mod make;
mod meet;
mod queue;
mod read;
mod reserve;
mod seat;
mod steps;

pub use gather::GatherRefused;
pub use log::QueueLog;
pub use queue::DeleteQueue;
pub use reserve::Reserve;
pub use seat::{Closing, Found, Linked, Look, Place, Seat};
