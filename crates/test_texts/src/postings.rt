//! Postings as texts.
use ix_base::{Postings, Spots, TermPostings};
use std::alloc::Global;
use std::fmt::Write;
use std::test::Fail;

fn show_positions(out: &mut String, positions: &[u32]) -> Result<(), Fail> {
    for position in positions {
        write!(out, "{position},")?;
    }
    Ok(())
}

fn show_row(alloc: Global, out: &mut String, places: &Spots, row: u32) -> Result<(), Fail> {
    write!(out, " {row}@")?;
    let positions = places.positions(alloc, row)?;
    show_positions(out, positions.as_slice())
}

fn show_entry(alloc: Global, out: &mut String, entry: &TermPostings) -> Result<(), Fail> {
    let field = entry.term.field.as_str();
    let bytes = entry.term.bytes.as_str();
    write!(out, "{field}:{bytes}")?;
    let rows = entry.rows.rows(alloc)?;
    for row in rows.as_slice() {
        show_row(alloc, out, &entry.rows, *row)?;
    }
    write!(out, ";")?;
    Ok(())
}

/// The terms in their order, each with the rows that hold it, and each row with its positions there:
/// `body:fox 0@0,2, 1@4,;`.
pub fn shown_postings(alloc: Global, postings: &Postings) -> Result<String, Fail> {
    let mut joined = String::new(alloc);
    for entry in postings.terms.as_slice() {
        show_entry(alloc, &mut joined, entry)?;
    }
    Ok(joined)
}
