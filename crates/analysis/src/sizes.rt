//! The sizes of terms.
ghost use Rattle.std.specs.Prelude.{◌≡◌, [], ◌∷◌, map, length, nat_lt, Some, None, if◌then◌else◌, IfOk};
ghost use Rattle.std.specs.List.{flat_map, list_any};
ghost use Rattle.ix_base.specs.Inversion.{IsInversion};
ghost use Rattle.ix_base.specs.Terms.{terms, long_term, folded_words, placed_from, whole, text_places};

use crate::words::fold_into;
use ix_base::{Document, Name, NoMemory, Postings, TermPostings, Text};
use std::alloc::Global;
use unicode_segmentation::UnicodeSegmentation;

/// The most bytes that a term of an index may have.
const MOST_TERM_BYTES: usize = 32_766;

/// The size of a term that is too long.
fn long_size(text: &str) -> Option<u64>
    ensures { result ≡ (if nat_lt 32766 (length text.now) then Some (length text.now) else None) }
{
    let size = text.len();
    if size > MOST_TERM_BYTES {
        Some(size as u64)
    } else {
        None
    }
}

fn long_whole(fields: &[(Name, Text)]) -> Option<u64>
    ensures { result ≡ long_term (map whole fields.now) }
{
    for (_, text) in fields {
        if let Some(size) = long_size(text.as_str()) {
            return Some(size);
        }
    }
    None
}

fn long_word(alloc: Global, text: &str) -> Result<Option<u64>, NoMemory>
    ensures { IfOk result (λ size. size ≡ long_term (placed_from 0 [] (folded_words text.now))) }
{
    let mut scratch = String::new(alloc);
    for word in text.unicode_words() {
        fold_into(&mut scratch, word)?;
        if let Some(size) = long_size(scratch.as_str()) {
            return Ok(Some(size));
        }
    }
    Ok(None)
}

fn long_text(alloc: Global, fields: &[(Name, Text)]) -> Result<Option<u64>, NoMemory>
    ensures { IfOk result (λ size. size ≡ long_term (flat_map text_places fields.now)) }
{
    for (_, text) in fields {
        if let Some(size) = long_word(alloc, text.as_str())? {
            return Ok(Some(size));
        }
    }
    Ok(None)
}

/// The size in bytes of the first term of a document that has more than 32,766 bytes: of its key,
/// then of its exact fields by name, then of the folded words of its text fields by name. `None`
/// exactly where there is no such term. It refuses for memory only.
pub fn long_term(alloc: Global, doc: &Document) -> Result<Option<u64>, NoMemory>
    ensures { IfOk result (λ size. size ≡ long_term (terms doc.now)) }
{
    if let Some(size) = long_size(doc.key.as_str()) {
        return Ok(Some(size));
    }
    if let Some(size) = long_whole(doc.exact.as_slice()) {
        return Ok(Some(size));
    }
    long_text(alloc, doc.text.as_slice())
}

/// Whether a term of postings is too long.
fn has_long_term(entries: &[TermPostings]) -> bool
    ensures { result ≡ list_any (λ entry. nat_lt 32766 (length entry.term.bytes)) entries.now }
{
    for entry in entries {
        if entry.term.bytes.as_str().len() > MOST_TERM_BYTES {
            return true;
        }
    }
    false
}

/// What `long_term` returns, for a document and its postings. The document's text is cut again only
/// where one of its terms is too long.
pub fn long_term_of(
    alloc: Global,
    doc: &Document,
    postings: &Postings,
) -> Result<Option<u64>, NoMemory>
    requires { IsInversion (doc.now ∷ []) postings.now }
    ensures { IfOk result (λ size. size ≡ long_term (terms doc.now)) }
{
    if !has_long_term(postings.terms.as_slice()) {
        return Ok(None);
    }
    long_term(alloc, doc)
}
