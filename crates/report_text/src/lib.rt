//! The texts that a run writes: a line of the report for each line of the script, or one line that
//! tells a fault. Each is the text that serde_json writes of a JSON object, and a line feed.
#![tactic(auto)]

mod fault;
mod listed;
mod summary;
mod texts;

pub use fault::Fault;
pub use listed::listed_text;
pub use summary::Summary;
pub use texts::{commit_text, refused_text, search_text, summary_text, write_text};
