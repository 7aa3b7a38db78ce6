//! What a list of operations does to the rows that stand when they come, coalesced: of each term
//! its last delete, the deletes by query, and the settings. Updates grow by one entry at a time
//! and are then frozen into a packet, which segments apply.
#![tactic(auto)]

mod deleted_terms;
mod gathering;
mod laws;
mod packet;
mod updates;

pub use deleted_terms::DeletedTerms;
pub use laws::{stands_for_itself, taking_stands};
pub use packet::{Packet, freeze};
pub use updates::{Change, QueryDelete, Setting, Updates};
