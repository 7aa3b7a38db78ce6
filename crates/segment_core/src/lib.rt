//! Segments: rows that don't change any more, beside their postings. A live segment also has live
//! docs, which say which of its rows are live and which numbers were set in them since. Queries are
//! answered on the numbers that the rows have now.
#![tactic(auto)]

mod applying;
mod building;
mod column;
mod columns;
mod current;
mod live_segment;
mod segment;

pub use applying::apply_updates;
pub use building::build;
pub use columns::Columns;
pub use current::Current;
pub use live_segment::LiveSegment;
pub use segment::Segment;
