//! Texts, names, terms, documents and rows for tests, made of plain strings, and a way to show what a
//! line is told.
#![tactic(auto)]

use ix_base::{Birth, Block, Document, Fields, Name, Numbers, Row, Term, Text};
use std::alloc::Global;
use std::fmt::Write;
use std::test::Fail;

/// A text of these bytes. It fails where they are too many, or memory runs out.
pub fn text_of(alloc: Global, text: &str) -> Result<Text, Fail> {
    Ok(Text::new(String::from_str(alloc, text)?).ok_or("too long")?)
}

/// A name of these bytes. It fails where they are none, or above 255.
pub fn name_of(alloc: Global, text: &str) -> Result<Name, Fail> {
    Ok(Name::new(text_of(alloc, text)?).ok_or("no name")?)
}

/// The term of these bytes in this field.
pub fn term_of(alloc: Global, field: &str, bytes: &str) -> Result<Term, Fail> {
    let field = name_of(alloc, field)?;
    let bytes = text_of(alloc, bytes)?;
    Ok(Term { field, bytes })
}

/// The term of this key.
pub fn key_term(alloc: Global, key: &str) -> Result<Term, Fail> {
    term_of(alloc, "key", key)
}

/// One field of this name with this text.
pub fn field_of(alloc: Global, name: &str, text: &str) -> Result<Fields, Fail> {
    let pair = (name_of(alloc, name)?, text_of(alloc, text)?);
    Ok(Fields::from_vec(vec![in alloc; pair]?))
}

/// One number of this name.
pub fn number_of(alloc: Global, name: &str, value: i64) -> Result<Numbers, Fail> {
    let pair = (name_of(alloc, name)?, value);
    Ok(Numbers::from_vec(vec![in alloc; pair]?))
}

/// The document of this key, with nothing else in it.
pub fn document_of(alloc: Global, key: &str) -> Result<Document, Fail> {
    Ok(Document::of_key(alloc, text_of(alloc, key)?))
}

/// The block of documents of these keys, with nothing else in them. It fails where they are none, or
/// above 64.
pub fn block_of(alloc: Global, keys: &[&str]) -> Result<Block, Fail> {
    let mut docs = Vec::new(alloc);
    for key in keys {
        docs.push(document_of(alloc, key)?)?;
    }
    Ok(Block::new(docs).ok_or("no block")?)
}

/// The row that the operation of this number adds alone, whose document has this key and nothing else.
pub fn row_of(alloc: Global, number: u64, key: &str) -> Result<Row, Fail> {
    let doc = document_of(alloc, key)?;
    Ok(Row {
        birth: Birth::first(number),
        doc,
    })
}

/// Appends a word and these numbers, each behind a blank.
pub fn show_told(out: &mut String, word: &str, numbers: &[u64]) -> Result<(), Fail> {
    out.push_str(word)?;
    for number in numbers {
        write!(out, " {number}")?;
    }
    Ok(())
}
