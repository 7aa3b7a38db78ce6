//! The postings of a segment from bytes.
ghost use Rattle.std.specs.Prelude.{◌≡◌, Ok, IfOk};
ghost use Rattle.ix_base.specs.Codec.{Gives};
ghost use Rattle.ix_base.specs.FileReading.{GivesFile, placed};
ghost use Rattle.ix_base.specs.declared.file_name.FileName.TheVariants.{Posts};
ghost use Rattle.ix_base.specs.declared.postings.Postings.{Postings};
ghost use Rattle.segment_files.specs.Fits.{PostingsFit};
ghost use Rattle.segment_files.specs.Reading.{posts_in};
ghost use Rattle.segment_files.specs.Spelling.{posts_file};

use crate::marks::posts_mark_at;
use crate::read_terms::entry_list;
use ix_base::codec::{Broken, u32_at, u64_at};
use ix_base::{FileFault, FileName, List, Postings};
use std::alloc::Global;

/// The postings of a whole file of postings.
#[tactic(auto, unfolding(crate::specs::Reading::posts_in))]
fn posts_of(alloc: Global, bytes: &[u8], id: u64, row_count: u32) -> Result<Postings, Broken>
    ensures { Gives (λ x. x) result (posts_in id row_count bytes.now) }
{
    let own = posts_mark_at(bytes)?;
    let (own_id, counted) = u64_at(own)?;
    if own_id != id {
        return Err(Broken::At(own.len()));
    }
    let (own_count, rest) = u32_at(counted)?;
    if own_count != row_count {
        return Err(Broken::At(counted.len()));
    }
    let (term_count, rest) = u64_at(rest)?;
    let (entries, rest) = entry_list(alloc, term_count, rest, row_count)?;
    if !rest.is_empty() {
        return Err(Broken::At(rest.len()));
    }
    Ok(Postings {
        terms: List::from_vec(entries),
    })
}

/// The postings of a whole file of postings. Where it is broken, the place is told from the file's
/// start.
fn placed_posts(alloc: Global, bytes: &[u8], id: u64, row_count: u32) -> Result<Postings, FileFault>
    ensures { GivesFile (λ x. x) result (placed (Posts id) bytes.now
        (posts_in id row_count bytes.now)) }
{
    match posts_of(alloc, bytes, id, row_count) {
        Ok(postings) => Ok(postings),
        Err(broken) => Err(FileFault::of_field(broken, FileName::Posts(id), bytes.len())),
    }
}

/// The postings that the file of a segment spells: the segment has this id and `row_count` rows.
///
/// It returns `Damaged` exactly where the bytes are not in the grammar of such a file, with the
/// first broken place. Memory is taken for what was read, and never for a count before its elements.
pub fn decode_pst(
    alloc: Global,
    bytes: &[u8],
    id: u64,
    row_count: u32,
) -> Result<Postings, FileFault>
    // What is read is spelled so, each byte of it.
    ensures found { IfOk result (λ postings. PostingsFit row_count postings
        × (bytes.now ≡ posts_file id row_count postings)) }
    // What is spelled so is read, unless memory runs out.
    ensures only { (postings : Postings) → PostingsFit row_count postings
        → bytes.now ≡ posts_file id row_count postings → GivesFile (λ x. x) result (Ok postings) }
    // Which place is the first broken one.
    ensures exact { GivesFile (λ x. x) result
        (placed (Posts id) bytes.now (posts_in id row_count bytes.now)) }
{
    placed_posts(alloc, bytes, id, row_count)
}
