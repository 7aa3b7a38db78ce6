//! Some thousand documents, void ones among them, against the inversion of their rows.
ghost use Rattle.std.specs.Prelude.{◌<◌, ◌+◌, ◌∷◌, [], All, length, OnOk};
ghost use Rattle.ix_base.specs.Births.{first_birth};
ghost use Rattle.ix_base.specs.Inversion.{IsInversion};
ghost use Rattle.ram_postings.specs.Buffer.{born_rows};

use crate::tests::{document_of, inverted};
use analysis::analyse;
use ix_base::{Analysed, Document};
use ram_postings::{Frozen, RamPostings};
use std::alloc::Global;
use std::fmt::Write;
use std::test::Fail;
use test_texts::shown_postings;

/// A document of twelve words of four hundred; some of them come in many documents, some in few.
fn drawn_document(alloc: Global, number: u32) -> Result<Document, Fail> {
    let mut body = String::new(alloc);
    let mut drawn = number;
    for _ in 0..12 {
        drawn = drawn.wrapping_mul(1_664_525).wrapping_add(1_013_904_223);
        let word = (drawn >> 24) * (drawn >> 24) % 400;
        write!(body, "w{word} ")?;
    }
    let mut key = String::new(alloc);
    write!(key, "{number}")?;
    document_of(alloc, key.as_str(), body.as_str(), "w7")
}

/// Stages a document, which the operation of the number after its place adds alone unless it is to be
/// void.
pub(crate) fn add(buffer: &mut RamPostings, analysed: Analysed, void: bool) -> Result<(), Fail>
    requires inversion { IsInversion (analysed.doc ∷ []) analysed.postings }
    requires births { All (λ row. row.birth < first_birth (length buffer.old + 1))
        (born_rows buffer.old) }
    ensures { OnOk result (All (λ row. row.birth < first_birth (length buffer.new + 1))
        (born_rows buffer.new)) }
{
    if buffer.rows() > 1_000_000 {
        return Ok(());
    }
    let row = buffer.stage(analysed)?;
    if !void {
        buffer.born_block(row, 1, row.0 as u64 + 1);
    }
    Ok(())
}

/// So many documents, every seventh of them void.
fn drawn_buffer(alloc: Global, count: u32) -> Result<RamPostings, Fail> {
    let mut buffer = RamPostings::new(alloc);
    for number in 0..count {
        let analysed = analyse(alloc, drawn_document(alloc, number)?)?;
        add(&mut buffer, analysed, number % 7 == 3)?;
    }
    Ok(buffer)
}

/// What is taken out of a buffer of so many documents.
fn taken(alloc: Global, count: u32) -> Result<Frozen, Fail> {
    let mut buffer = drawn_buffer(alloc, count)?;
    if buffer.rows() != count {
        Err("another count of documents")?;
    }
    Ok(buffer.take_frozen()?)
}

/// Whether the postings are the inversion of the rows.
fn is_inversion(alloc: Global, frozen: &Frozen) -> Result<bool, Fail> {
    if frozen.rows.len() > 6_000 {
        Err("rows of no document")?;
    }
    let expected = inverted(alloc, frozen.rows.as_slice())?;
    Ok(shown_postings(alloc, &frozen.postings)?.as_str() == expected.as_str())
}

/// Of 6,000 documents 857 are void.
#[test]
fn thousands_of_documents(rt: HostRuntime) -> Result<(), Fail> {
    let frozen = taken(rt.alloc(), 6_000)?;
    assert!(rt; frozen.rows.len() == 5_143);
    assert!(rt; is_inversion(rt.alloc(), &frozen)?);
    Ok(())
}
