//! What is on the store of a segment.

use live_docs::LiveDocs;

/// What is on the store of a segment that an earlier commit lists: its rows and postings, and the
/// live docs that were written last.
#[derive(Drop)]
pub struct Written {
    /// The number of the commit that wrote these live docs.
    pub v: u64,
    /// These live docs.
    pub live: LiveDocs,
}
