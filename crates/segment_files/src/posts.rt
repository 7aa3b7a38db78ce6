//! The postings of a segment as bytes.
ghost use Rattle.std.specs.Prelude.{◌≡◌, ◌<◌, ◌^◌, ◌++◌, length, OnOk, IfOk};
ghost use Rattle.std.specs.List.{AllByRecursion};
ghost use Rattle.ix_base.specs.Inversion.{IsPostings};
ghost use Rattle.segment_files.specs.Fits.{PostingsFit, RowsBelow, TermFits};
ghost use Rattle.segment_files.specs.Spelling.{posts_file, term_postings};

use crate::marks::put_posts_mark;
use crate::put_places::{count_rows, put_places};
use ix_base::codec::{put_name, put_text, put_u32, put_u64};
use ix_base::{NoMemory, Postings, TermPostings};
use std::alloc::Global;

/// Appends a term with its rows.
fn put_entry(out: &mut Vec<u8>, entry: &TermPostings) -> Result<(), NoMemory>
    requires few { length entry.now.rows < 2 ^ 32 }
    ensures bytes { OnOk result (out.new.items ≡ out.old.items ++ term_postings entry.now) }
    ensures fits { OnOk result (TermFits entry.now) }
{
    put_name(out, &entry.term.field)?;
    put_text(out, entry.term.bytes.as_str())?;
    let spots = entry.rows.as_slice();
    put_u32(out, count_rows(spots) as u32)?;
    put_places(out, spots)
}

/// Appends a file of postings. After an error a prefix of it may stand there.
fn put_posts(
    out: &mut Vec<u8>,
    id: u64,
    row_count: u32,
    postings: &Postings,
) -> Result<(), NoMemory>
    requires ordered { IsPostings postings.now.terms }
    requires below { RowsBelow row_count postings.now }
    ensures bytes { OnOk result (out.new.items
        ≡ out.old.items ++ posts_file id row_count postings.now) }
    ensures fits { OnOk result (AllByRecursion TermFits postings.now.terms) }
    ensures count { length postings.now.terms < 2 ^ 64 }
{
    let entries = postings.terms.as_slice();
    put_posts_mark(out)?;
    put_u64(out, id)?;
    put_u32(out, row_count)?;
    put_u64(out, entries.len() as u64)?;
    for entry in entries {
        put_entry(out, entry)?;
    }
    Ok(())
}

/// How many bytes a term with its rows takes.
fn entry_len(entry: &TermPostings) -> usize {
    let spots = entry.rows.as_slice();
    let field = entry.term.field.as_str().len();
    let bytes = entry.term.bytes.as_str().len();
    let rows = count_rows(spots).saturating_mul(8);
    let positions = spots.len().saturating_mul(4);
    (12 + field + bytes)
        .saturating_add(rows)
        .saturating_add(positions)
}

/// How many bytes a file of postings takes, so that its memory is taken once.
fn file_len(postings: &Postings) -> usize {
    let mut len: usize = 28;
    for entry in postings.terms.as_slice() {
        len = len.saturating_add(entry_len(entry));
    }
    len
}

/// The file of the postings of a segment with this id and `row_count` rows.
pub fn encode_pst(
    alloc: Global,
    id: u64,
    row_count: u32,
    postings: &Postings,
) -> Result<Vec<u8>, NoMemory>
    requires ordered { IsPostings postings.now.terms }
    requires below { RowsBelow row_count postings.now }
    ensures file { IfOk result (λ bytes. bytes.items ≡ posts_file id row_count postings.now) }
    ensures fits { OnOk result (PostingsFit row_count postings.now) }
{
    let mut out = Vec::with_capacity(alloc, file_len(postings))?;
    put_posts(&mut out, id, row_count, postings)?;
    Ok(out)
}
