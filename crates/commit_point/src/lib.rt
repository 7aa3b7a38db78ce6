//! Commits: their files' bytes, how one is written so that a stop at any moment leaves it whole or
//! not at all, and how it is read back.
#![tactic(auto)]

mod decode;
mod encode;
mod fault;
mod heads;
mod listing;
mod load;
mod marks;
mod open;
mod prepare;
mod publishing;
mod write;
mod written;

pub use decode::decode_commit;
pub use encode::encode_commit;
pub use fault::{CommitRefused, OpenFault};
pub use heads::{CommitFormat, Head, HeadSegment};
pub use listing::{list_commits, rising_numbers};
pub use load::{read_live, read_segment};
pub use open::{Opened, head, listed_head, open_commit, read_commit};
pub use prepare::{is_alive, version};
pub use write::write_commit;
pub use written::Written;
