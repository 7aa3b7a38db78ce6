//! A few rows of a few sources.
use crate::layouts::{Place, is_inversion};
use crate::parts::{Part, merged};
use crate::rising::Rising;
use ix_base::{Birth, Document, Fields, Numbers, Row};
use std::alloc::Global;
use std::test::*;
use test_texts::shown_postings;
use test_values::{field_of, text_of};

/// Each layout with its sources: no source; a source without rows; one source; births in blocks; births
/// in turn; rows without a number at the beginning, between and at the end; all rows of one source
/// without, all rows of all; three sources mixed.
#[test]
fn small_layouts(rt: HostRuntime) -> Result<(), Fail> {
    let layouts: [(usize, &[Place]); 11] = [
        (0, &[]),
        (1, &[]),
        (1, &[(0, true), (0, true), (0, true)]),
        (2, &[(0, true), (0, true), (1, true), (1, true)]),
        (2, &[(1, true), (1, true), (0, true), (0, true)]),
        (2, &[(0, true), (1, true), (0, true), (1, true)]),
        (2, &[(0, false), (1, true), (0, true), (1, false)]),
        (
            2,
            &[
                (0, true),
                (0, false),
                (1, true),
                (0, false),
                (1, true),
                (0, true),
            ],
        ),
        (
            3,
            &[(0, true), (1, false), (2, true), (1, false), (0, true)],
        ),
        (2, &[(0, false), (1, false), (1, false)]),
        (
            3,
            &[
                (2, true),
                (0, true),
                (1, true),
                (0, true),
                (0, true),
                (2, true),
                (1, true),
            ],
        ),
    ];
    for (sources, layout) in layouts {
        assert!(rt; is_inversion(rt.alloc(), layout, sources)?);
    }
    Ok(())
}

fn row_of(alloc: Global, key: &str, body: &str) -> Result<Row, Fail> {
    let text = field_of(alloc, "body", body)?;
    let key = text_of(alloc, key)?;
    let doc = Document::new(key, text, Fields::none(alloc), Numbers::none(alloc));
    let doc = doc.ok_or("names aren't apart")?;
    let birth = Birth::first(1);
    Ok(Row { birth, doc })
}

/// Rows with the keys `a`, `b` and so on and these bodies.
fn rows_of(alloc: Global, bodies: &[&str]) -> Result<Vec<Row>, Fail> {
    let mut rows = Vec::new(alloc);
    let keys = ["a", "b", "c"];
    for (key, body) in keys.iter().zip(bodies) {
        rows.push(row_of(alloc, key, body)?)?;
    }
    Ok(rows)
}

fn numbers_of(alloc: Global, numbers: &[Option<u32>]) -> Result<Rising, Fail> {
    let mut rising = Rising::new(alloc);
    for number in numbers {
        rising.add(*number)?;
    }
    Ok(rising)
}

/// The bodies of the rows of a source, and the numbers that the rows get.
type Given = (&'static [&'static str], &'static [Option<u32>]);

fn part_of(alloc: Global, given: &Given) -> Result<Part, Fail> {
    let rows = rows_of(alloc, given.0)?;
    Part::new(alloc, rows.as_slice(), numbers_of(alloc, given.1)?)
}

fn parts_of(alloc: Global, given: &[Given]) -> Result<Vec<Part>, Fail> {
    let mut parts = Vec::new(alloc);
    for part in given {
        parts.push(part_of(alloc, part)?)?;
    }
    Ok(parts)
}

fn shown(alloc: Global, given: &[Given]) -> Result<String, Fail> {
    let parts = parts_of(alloc, given)?;
    shown_postings(alloc, &merged(alloc, parts.as_slice())?)
}

/// Worked out by hand: rows of two sources in turn, of which one gets no number; a row beyond the list of
/// numbers; the highest number; two sources that give one number, and have one place twice.
#[test]
fn worked_out(rt: HostRuntime) -> Result<(), Fail> {
    let cases: [(&[Given], &str); 4] = [
        (
            &[
                (&["fish dog fish", "owl"], &[Some(0), Some(2)]),
                (&["dog fish", "owl fish"], &[Some(1), None]),
            ],
            "body:dog 0@1, 1@0,;body:fish 0@0,2, 1@1,;body:owl 2@0,;key:a 0@0, 1@0,;key:b 2@0,;",
        ),
        (
            &[(&["fish", "owl fish", "dog"], &[None, Some(0)])],
            "body:fish 0@1,;body:owl 0@0,;key:b 0@0,;",
        ),
        (
            &[(&["fish"], &[Some(4_294_967_295)]), (&["fish"], &[Some(7)])],
            "body:fish 7@0, 4294967295@0,;key:a 7@0, 4294967295@0,;",
        ),
        (
            &[
                (&["fish dog"], &[Some(3)]),
                (&["fish owl fish"], &[Some(3)]),
            ],
            "body:dog 3@1,;body:fish 3@0,2,;body:owl 3@1,;key:a 3@0,;",
        ),
    ];
    for (given, expected) in cases {
        assert!(rt; shown(rt.alloc(), given)?.as_str() == expected);
    }
    Ok(())
}
