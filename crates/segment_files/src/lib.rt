//! The files of a segment that stay as they were first written, as bytes: its rows and its postings.
//! Each is written from values, and read back: one file spells one value, and of bytes that spell none
//! the first broken place is told.
#![tactic(auto)]

mod decode;
mod documents;
mod encode;
mod marks;
mod posts;
mod put_places;
mod read_documents;
mod read_pairs;
mod read_places;
mod read_posts;
mod read_rows;
mod read_terms;
mod sizes;

pub use decode::decode_row;
pub use documents::put_fields;
pub use encode::encode_row;
pub use posts::encode_pst;
pub use read_documents::name_of;
pub use read_pairs::pairs_of;
pub use read_posts::decode_pst;
pub use sizes::{behind_postings, behind_rows};
