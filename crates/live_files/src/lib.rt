//! The files of a segment that change: which rows are live, and the numbers that were set in rows.
//! Each is written from live docs, and read back: one file spells one value, and of bytes that spell
//! none the first broken place is told.
#![tactic(auto)]

mod join_live;
mod live;
mod marks;
mod read_live;
mod read_values;
mod values;

pub use join_live::live_docs_of;
pub use live::encode_liv;
pub use read_live::decode_liv;
pub use read_values::decode_val;
pub use values::encode_val;
