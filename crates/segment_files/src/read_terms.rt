//! Terms with their places from bytes.
ghost use Rattle.std.specs.Prelude.{◌≡◌};
ghost use Rattle.ix_base.specs.Codec.{Gives};
ghost use Rattle.segment_files.specs.ReadLists.{terms_at, last_term};
ghost use Rattle.segment_files.specs.Reading.{field_comes, term_comes, term_name_at, term_at};

use crate::read_documents::{name_of, text_of};
use crate::read_places::places_of;
use ix_base::codec::{Broken, u32_at};
use ix_base::{Name, Term, TermPostings, Text};
use std::alloc::Global;

/// Whether the field isn't before that of the last of these terms.
fn field_may_come(entries: &[TermPostings], field: &Name) -> bool
    ensures { result ≡ field_comes (last_term entries.now) field.now }
{
    match entries.last() {
        Some(entry) => !(field.as_str() < entry.term.field.as_str()),
        None => true,
    }
}

/// Whether the term comes after the last of these, where its field isn't before that one's.
fn term_may_come(entries: &[TermPostings], field: &Name, bytes: &Text) -> bool
    ensures { result ≡ term_comes (last_term entries.now) field.now bytes.now }
{
    match entries.last() {
        Some(entry) => {
            entry.term.field.as_str() < field.as_str() || entry.term.bytes.as_str() < bytes.as_str()
        }
        None => true,
    }
}

/// The term at the start of the bytes, which comes after the last of these.
#[tactic(auto, unfolding(crate::specs::Reading::term_name_at))]
fn term_name_of<'a>(
    alloc: Global,
    bytes: &'a [u8],
    entries: &[TermPostings],
) -> Result<(Term, &'a [u8]), Broken>
    ensures { Gives (λ x. (x.0, x.1.now)) result (term_name_at (last_term entries.now) bytes.now) }
{
    let (field, rest) = name_of(alloc, bytes)?;
    if !field_may_come(entries, &field) {
        return Err(Broken::At(bytes.len()));
    }
    let (text, rest) = text_of(alloc, rest)?;
    if !term_may_come(entries, &field, &text) {
        return Err(Broken::At(bytes.len()));
    }
    Ok((Term { field, bytes: text }, rest))
}

/// A term with its places, which comes after the last of these.
#[tactic(auto, unfolding(crate::specs::Reading::term_at))]
fn entry_of<'a>(
    alloc: Global,
    bytes: &'a [u8],
    row_count: u32,
    entries: &[TermPostings],
) -> Result<(TermPostings, &'a [u8]), Broken>
    ensures { Gives (λ x. (x.0, x.1.now)) result
        (term_at row_count (last_term entries.now) bytes.now) }
{
    let (term, counted) = term_name_of(alloc, bytes, entries)?;
    let (count, rest) = u32_at(counted)?;
    if count == 0 {
        return Err(Broken::At(counted.len()));
    }
    let (rows, rest) = places_of(alloc, count, rest, row_count)?;
    Ok((TermPostings { term, rows }, rest))
}

/// So many terms with their places, and the bytes after them.
pub(crate) fn entry_list(
    alloc: Global,
    count: u64,
    bytes: &[u8],
    row_count: u32,
) -> Result<(Vec<TermPostings>, &[u8]), Broken>
    ensures { Gives (λ x. (x.0.items, x.1.now)) result (terms_at row_count count bytes.now) }
{
    let mut entries = Vec::new(alloc);
    let mut rest = bytes;
    for _ in 0..count {
        let (entry, after) = entry_of(alloc, rest, row_count, &entries)?;
        entries.push(entry)?;
        rest = after;
    }
    Ok((entries, rest))
}
