//! Layouts: for each row, rising by birth, the source that has it and whether it gets a number.
use crate::parts::{Part, inverted, merged};
use crate::rising::Rising;
use ix_base::{Birth, Document, Numbers, Row};
use std::alloc::Global;
use std::fmt::Write;
use std::test::Fail;
use test_texts::shown_postings;
use test_values::{field_of, text_of};

/// Of a row: which source has it, and whether it gets a number. Numbers rise with rows.
pub(crate) type Place = (usize, bool);

/// A word of two to four letters, or of seven to nine: many of these begin with the same seven.
fn add_word(body: &mut String, word: u32) -> Result<(), Fail> {
    if word % 3 == 0 {
        write!(body, "longer{word} ")?;
    } else {
        write!(body, "w{word} ")?;
    }
    Ok(())
}

/// Words of which some come in many rows and some in few: six, and in some rows six hundred.
fn body_of(alloc: Global, row: usize) -> Result<String, Fail> {
    let mut body = String::new(alloc);
    let mut drawn = u32::try_from(row).unwrap_or(0);
    let words = if row % 500 == 17 { 600 } else { 6 };
    for _ in 0..words {
        drawn = drawn.wrapping_mul(1_664_525).wrapping_add(1_013_904_223);
        let word = (drawn >> 24) * (drawn >> 24) % 400;
        add_word(&mut body, word)?;
    }
    Ok(body)
}

fn document_of(alloc: Global, row: usize) -> Result<Document, Fail> {
    let mut key = String::new(alloc);
    write!(key, "k{row}")?;
    let text = field_of(alloc, "body", body_of(alloc, row)?.as_str())?;
    let exact = field_of(alloc, "tag", "red")?;
    let doc = Document::new(
        text_of(alloc, key.as_str())?,
        text,
        exact,
        Numbers::none(alloc),
    );
    Ok(doc.ok_or("names aren't apart")?)
}

/// Adds the row of this place of a layout.
fn add_row(alloc: Global, rows: &mut Vec<Row>, place: usize) -> Result<(), Fail> {
    let doc = document_of(alloc, place)?;
    rows.push(Row {
        birth: Birth::first(place as u64),
        doc,
    })?;
    Ok(())
}

/// The rows of a source.
fn rows_of(alloc: Global, layout: &[Place], source: usize) -> Result<Vec<Row>, Fail> {
    let mut rows = Vec::new(alloc);
    for place in 0..layout.len() {
        if layout[place].0 == source {
            add_row(alloc, &mut rows, place)?;
        }
    }
    Ok(rows)
}

/// The numbers of the rows of a source.
fn numbers_of(alloc: Global, layout: &[Place], source: usize) -> Result<Rising, Fail> {
    let mut numbers = Rising::new(alloc);
    let mut number = 0u32;
    for (from, kept) in layout {
        if *from == source {
            numbers.add(kept.then_some(number))?;
        }
        number = number.wrapping_add(u32::from(*kept));
    }
    Ok(numbers)
}

fn part_of(alloc: Global, layout: &[Place], source: usize) -> Result<Part, Fail> {
    let rows = rows_of(alloc, layout, source)?;
    Part::new(alloc, rows.as_slice(), numbers_of(alloc, layout, source)?)
}

/// So many sources of the layout.
fn parts_of(alloc: Global, layout: &[Place], sources: usize) -> Result<Vec<Part>, Fail> {
    let mut parts = Vec::new(alloc);
    for source in 0..sources {
        parts.push(part_of(alloc, layout, source)?)?;
    }
    Ok(parts)
}

/// The rows that get a number.
fn kept_rows(alloc: Global, layout: &[Place]) -> Result<Vec<Row>, Fail> {
    let mut rows = Vec::new(alloc);
    for place in 0..layout.len() {
        if layout[place].1 {
            add_row(alloc, &mut rows, place)?;
        }
    }
    Ok(rows)
}

fn shown_inverted(alloc: Global, layout: &[Place]) -> Result<String, Fail> {
    let rows = kept_rows(alloc, layout)?;
    shown_postings(alloc, &inverted(alloc, rows.as_slice())?)
}

fn shown_merged(alloc: Global, layout: &[Place], sources: usize) -> Result<String, Fail> {
    let parts = parts_of(alloc, layout, sources)?;
    shown_postings(alloc, &merged(alloc, parts.as_slice())?)
}

/// Whether the merged postings of so many sources are the inversion of the rows that get a number.
pub(crate) fn is_inversion(alloc: Global, layout: &[Place], sources: usize) -> Result<bool, Fail> {
    let expected = shown_inverted(alloc, layout)?;
    Ok(shown_merged(alloc, layout, sources)?.as_str() == expected.as_str())
}
