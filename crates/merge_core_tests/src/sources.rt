//! Three segments to which the documents of blocks were dealt in turn: each operation adds four documents,
//! and of all documents, counted from 1 on, the first segment has the rows of 1, 4, 7 and so on, the
//! second one those of 2, 5, 8, and the third one those of 3, 6, 9.
ghost use Rattle.std.specs.Prelude.{◌≡◌, ◌≤◌, ◌<◌, length, IfOk};
ghost use Rattle.std.specs.List.{AllByRecursion};
ghost use Rattle.frozen_packet.specs.Updates.{as_operations, NumberedUpTo};
ghost use Rattle.ix_base.specs.Births.{first_birth, last_birth};
ghost use Rattle.segment_files.specs.Fits.{BirthsRise};
ghost use Rattle.merge_core_tests.specs.Reading.{AreSources};
ghost use Rattle.merge_core_tests.specs.Sources.{IsThird, IsBornFrom, birth_at};

use analysis::invert;
use frozen_packet::Updates;
use ix_base::{Birth, Document, Fields, Numbers, Row};
use node_words::Entry;
use ram_postings::Frozen;
use segment_core::{LiveSegment, build};
use std::alloc::Global;
use std::fmt::Write;
use std::test::Fail;
use test_values::{field_of, term_of, text_of};

/// A document with a word that all have, one that every seventh has, and one of its own.
fn document_of(alloc: Global, at: u64) -> Result<Document, Fail> {
    let mut body = String::new(alloc);
    write!(body, "all w{} own{at} all", at % 7)?;
    let text = field_of(alloc, "body", body.as_str())?;
    let key = text_of(alloc, "k")?;
    let doc = Document::new(key, text, Fields::none(alloc), Numbers::none(alloc));
    Ok(doc.ok_or("names aren't apart")?)
}

/// The row of this document.
fn born(alloc: Global, at: u64) -> Result<Row, Fail>
    requires { at ≤ 30000 }
    ensures { IfOk result (λ row. row.birth ≡ birth_at at) }
{
    let doc = document_of(alloc, at)?;
    let birth = Birth::new((at + 3) / 4, ((at + 3) % 4) as u32);
    Ok(Row { birth, doc })
}

/// So many rows: those of every third document from this one on.
fn rows_from(alloc: Global, first: u64, count: u64) -> Result<Vec<Row>, Fail>
    requires one { 1 ≤ first }
    requires three { first ≤ 3 }
    requires few { count ≤ 10000 }
    ensures rise { IfOk result (λ rows. BirthsRise (first_birth 1) (last_birth 30000) rows.items) }
    ensures born { IfOk result (λ rows. AllByRecursion (IsBornFrom first) rows.items) }
    ensures few { IfOk result (λ rows. length rows.items ≤ 10000) }
{
    let mut rows = Vec::new(alloc);
    for at in 0..count {
        rows.push(born(alloc, first + 3 * at)?)?;
    }
    Ok(rows)
}

/// Every seventh row is deleted: that of the third document, and so on.
fn deletes(alloc: Global) -> Result<Updates, Fail> {
    let mut updates = Updates::new(alloc);
    updates.take(40_000, Entry::DeleteTerm(term_of(alloc, "body", "w3")?))?;
    Ok(updates)
}

/// The segment of so many rows: those of every third document from this one on.
fn third(alloc: Global, first: u64, count: u64) -> Result<LiveSegment, Fail>
    requires one { 1 ≤ first }
    requires three { first ≤ 3 }
    requires few { count ≤ 10000 }
    ensures { IfOk result (IsThird first) }
{
    let rows = rows_from(alloc, first, count)?;
    let postings = invert(alloc, rows.as_slice())?;
    let frozen = Frozen { rows, postings };
    match build(alloc, first, frozen, &deletes(alloc)?, 40_000)? {
        Some(segment) => Ok(segment),
        None => Err("no row is live")?,
    }
}

/// The three segments: the first two of so many rows, the third of half as many.
pub(crate) fn three_sources(alloc: Global, count: u64) -> Result<Vec<LiveSegment>, Fail>
    requires { count ≤ 10000 }
    ensures { IfOk result (λ segments. AreSources segments.items) }
{
    let first = third(alloc, 1, count)?;
    let second = third(alloc, 2, count)?;
    let last = third(alloc, 3, count / 2)?;
    let segments = vec![in alloc; first, second, last]?;
    Ok(segments)
}
