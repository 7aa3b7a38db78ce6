//! Slices of the delete queue. A slice is a part of the list of entries, whose deletes and settings
//! updates take. As in Lucene's IndexWriter, each thread that writes documents keeps a slice of its
//! own and applies it to the documents that it has buffered.
#![tactic(auto)]

mod apply;
mod laws;
mod slice;

pub use laws::{
    logs_are_in_grammar, numbers_end_at_last, parts_are_logged, parts_chain, parts_stay,
    parts_stay_within, slices_stay,
};
pub use slice::Slice;
