//! Three documents, the second of them void, and the rows and places of the other two.
ghost use Rattle.std.specs.Prelude.{◌<◌, ◌^◌, length};

use crate::tests_large::add;
use analysis::{analyse, invert};
use ix_base::{Document, Numbers, Row};
use ram_postings::{Frozen, RamPostings};
use std::alloc::Global;
use std::fmt::Write;
use std::test::Fail;
use test_texts::shown_postings;
use test_values::{field_of, text_of};

pub(crate) fn document_of(
    alloc: Global,
    key: &str,
    body: &str,
    tag: &str,
) -> Result<Document, Fail> {
    let text = field_of(alloc, "body", body)?;
    let exact = field_of(alloc, "tag", tag)?;
    let doc = Document::new(text_of(alloc, key)?, text, exact, Numbers::none(alloc));
    Ok(doc.ok_or("names aren't apart")?)
}

pub fn inverted(alloc: Global, rows: &[Row]) -> Result<String, Fail>
    requires { length rows.now < 2 ^ 32 }
{
    shown_postings(alloc, &invert(alloc, rows)?)
}

/// The rows with their births, each a number and a place, and then the places of the terms in them.
pub fn shown_frozen(alloc: Global, frozen: &Frozen) -> Result<String, Fail> {
    let mut out = String::new(alloc);
    for row in frozen.rows.as_slice() {
        let (key, birth) = (row.doc.key.as_str(), row.birth);
        write!(out, "{key}{}.{} ", birth.number(), birth.place())?;
    }
    out.push_str(shown_postings(alloc, &frozen.postings)?.as_str())?;
    Ok(out)
}

/// What is taken out of a buffer, which is empty then.
fn shown_taken(alloc: Global, buffer: RamPostings) -> Result<String, Fail> {
    let mut buffer = buffer;
    let frozen = buffer.take_frozen()?;
    if buffer.rows() != 0 {
        Err("rows are left")?;
    }
    shown_frozen(alloc, &frozen)
}

/// No document: nothing is there, and nothing is in the postings.
#[test]
fn nothing_staged(rt: HostRuntime) -> Result<(), Fail> {
    let buffer = RamPostings::new(rt.alloc());
    assert!(rt; buffer.rows() == 0);
    assert!(rt; shown_taken(rt.alloc(), buffer)?.as_str() == "");
    Ok(())
}

/// Two documents, of which neither was born yet.
fn two_waiting(alloc: Global) -> Result<RamPostings, Fail> {
    let mut buffer = RamPostings::new(alloc);
    buffer.stage(analyse(alloc, document_of(alloc, "a", "fish", "red")?)?)?;
    buffer.stage(analyse(alloc, document_of(alloc, "b", "owl", "blue")?)?)?;
    Ok(buffer)
}

/// Documents may wait side by side. They are in no row, and their terms are in no postings.
#[test]
fn waiting_documents(rt: HostRuntime) -> Result<(), Fail> {
    let buffer = two_waiting(rt.alloc())?;
    assert!(rt; buffer.rows() == 2);
    assert!(rt; shown_taken(rt.alloc(), buffer)?.as_str() == "");
    Ok(())
}

/// Three documents, of which the second one isn't born.
fn with_void_between(alloc: Global) -> Result<RamPostings, Fail> {
    let mut buffer = RamPostings::new(alloc);
    for (key, body, tag, void) in [
        ("a", "fish dog fish", "red", false),
        ("b", "fish owl", "blue", true),
        ("c", "the dog saw the fish", "red", false),
    ] {
        let analysed = analyse(alloc, document_of(alloc, key, body, tag)?)?;
        add(&mut buffer, analysed, void)?;
    }
    Ok(buffer)
}

/// A void document keeps its place and is in no row; its own terms are in no postings.
#[test]
fn void_document_between(rt: HostRuntime) -> Result<(), Fail> {
    let buffer = with_void_between(rt.alloc())?;
    assert!(rt; buffer.rows() == 3);
    let expected =
        "a1.0 c3.0 body:dog 0@1, 1@1,;body:fish 0@0,2, 1@4,;body:saw 1@2,;body:the 1@0,3,;key:a 0@0,;key:c 1@0,;tag:red 0@0, 1@0,;";
    assert!(rt; shown_taken(rt.alloc(), buffer)?.as_str() == expected);
    Ok(())
}

/// That buffer, taken out and filled again with one document.
fn filled_again(alloc: Global) -> Result<RamPostings, Fail> {
    let mut buffer = with_void_between(alloc)?;
    let earlier = buffer.take_frozen()?;
    if earlier.rows.len() != 2 {
        Err("other rows")?;
    }
    let analysed = analyse(alloc, document_of(alloc, "d", "an owl", "blue")?)?;
    add(&mut buffer, analysed, false)?;
    Ok(buffer)
}

/// A buffer whose rows were taken out takes documents again: nothing of the earlier ones is left in it.
#[test]
fn taken_and_filled_again(rt: HostRuntime) -> Result<(), Fail> {
    let buffer = filled_again(rt.alloc())?;
    let expected = "d1.0 body:an 0@0,;body:owl 0@1,;key:d 0@0,;tag:blue 0@0,;";
    assert!(rt; shown_taken(rt.alloc(), buffer)?.as_str() == expected);
    Ok(())
}

/// A void document, one that operation 6 adds alone, and three that operation 7 adds together.
fn with_block(alloc: Global) -> Result<RamPostings, Fail> {
    let mut buffer = RamPostings::new(alloc);
    buffer.stage(analyse(alloc, document_of(alloc, "a", "fish", "red")?)?)?;
    let alone = buffer.stage(analyse(alloc, document_of(alloc, "b", "dog", "red")?)?)?;
    buffer.born_block(alone, 1, 6);
    let first = buffer.stage(analyse(alloc, document_of(alloc, "c", "dog", "blue")?)?)?;
    buffer.stage(analyse(alloc, document_of(alloc, "d", "owl", "red")?)?)?;
    buffer.stage(analyse(alloc, document_of(alloc, "e", "owl", "blue")?)?)?;
    buffer.born_block(first, 3, 7);
    Ok(buffer)
}

/// The documents of a block have one number, and their places in the block, wherever they are in the
/// buffer.
#[test]
fn block_of_three(rt: HostRuntime) -> Result<(), Fail> {
    let buffer = with_block(rt.alloc())?;
    assert!(rt; buffer.rows() == 5);
    let expected =
        "b6.0 c7.0 d7.1 e7.2 body:dog 0@0, 1@0,;body:owl 2@0, 3@0,;key:b 0@0,;key:c 1@0,;key:d 2@0,;key:e 3@0,;tag:blue 1@0, 3@0,;tag:red 0@0, 2@0,;";
    assert!(rt; shown_taken(rt.alloc(), buffer)?.as_str() == expected);
    Ok(())
}
