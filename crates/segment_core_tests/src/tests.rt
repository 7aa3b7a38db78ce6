//! A segment of two rows, asked by hand.
use analysis::invert;
use ix_base::{Birth, Document, Fields, List, Numbers, Row};
use query_core::Inverted;
use segment_core::Segment;
use std::alloc::Global;
use std::test::*;
use test_values::{field_of, term_of, text_of};

/// A row whose document has this key and these words.
pub(crate) fn row_of(alloc: Global, birth: Birth, key: &str, words: &str) -> Result<Row, Fail> {
    let text = field_of(alloc, "body", words)?;
    let (exact, num) = (Fields::none(alloc), Numbers::none(alloc));
    let doc = Document::new(text_of(alloc, key)?, text, exact, num);
    let doc = doc.ok_or("names that stand twice")?;
    Ok(Row { birth, doc })
}

/// The segment of two rows.
fn two_rows(alloc: Global) -> Result<Segment, Fail> {
    let mut rows = Vec::new(alloc);
    rows.push(row_of(alloc, Birth::first(3), "k1", "the fox, the Fox")?)?;
    rows.push(row_of(alloc, Birth::first(5), "k2", "a fox")?)?;
    let postings = invert(alloc, rows.as_slice()).ok().ok_or("memory")?;
    Ok(Segment {
        id: 7,
        rows: List::from_vec(rows),
        postings,
    })
}

/// Whether these rows hold the term.
fn holds(
    alloc: Global,
    segment: &Segment,
    (field, bytes): (&str, &str),
    rows: &[u32],
) -> Result<bool, Fail> {
    let term = term_of(alloc, field, bytes)?;
    let found = segment.holding(alloc, &term).ok().ok_or("memory")?;
    Ok(found.as_slice() == rows)
}

/// Whether the term `body:fox` stands at these places of a row.
fn is_at(alloc: Global, segment: &Segment, row: u32, places: &[u32]) -> Result<bool, Fail> {
    let fox = term_of(alloc, "body", "fox")?;
    let found = segment.places(alloc, &fox, row).ok().ok_or("memory")?;
    Ok(found.as_slice() == places)
}

#[test]
fn a_segment_answers(rt: HostRuntime) -> Result<(), Fail> {
    let segment = two_rows(rt.alloc())?;
    assert!(rt; segment.rows() == 2);
    let cases: [((&str, &str), &[u32]); 3] = [
        (("body", "fox"), &[0, 1]),
        (("key", "k2"), &[1]),
        (("key", "fox"), &[]),
    ];
    for (term, rows) in cases {
        assert!(rt; holds(rt.alloc(), &segment, term, rows)?);
    }
    Ok(())
}

#[test]
fn places_in_a_segment(rt: HostRuntime) -> Result<(), Fail> {
    let segment = two_rows(rt.alloc())?;
    let cases: [(u32, &[u32]); 3] = [(0, &[1, 3]), (1, &[1]), (2, &[])];
    for (row, places) in cases {
        assert!(rt; is_at(rt.alloc(), &segment, row, places)?);
    }
    Ok(())
}
