//! A tool of the tests: the lines of a script, and the operations that they are.

use ix_base::{Block, Fields, Operation, Queries, Query, Term};
use std::alloc::Global;
use std::test::*;
use test_values::{block_of, document_of, key_term, name_of};

/// What a line of a script does.
#[derive(Clone, Copy)]
pub(crate) enum Act {
    /// Adds a document with the line's key.
    Add,
    /// Adds a block of documents with the line's keys, which are the words of it.
    AddBlock,
    /// Deletes the documents with the key, and adds one with it.
    Update,
    /// Deletes the documents with the first of the keys, and adds a block of documents with them.
    UpdateBlock,
    /// Deletes the documents with the key.
    Delete,
    /// Deletes by a query the documents without the key.
    DeleteOthers,
    /// Sets the number `n` in the documents with the key.
    Set(i64),
    Commit,
}

/// A line of a script: the seat number of its writer, what it does, and a key, or keys.
pub(crate) type Line<'a> = (usize, Act, &'a str);

pub(crate) type Script<'a> = &'a [Line<'a>];

fn alone(alloc: Global, query: Query) -> Result<Queries, Fail> {
    let mut queries = Vec::new(alloc);
    queries.push(query)?;
    Ok(Queries::from_vec(queries))
}

/// The documents without the key.
fn others_than(alloc: Global, key: &str) -> Result<Query, Fail> {
    Ok(Query::Bool {
        must: alone(alloc, Query::All)?,
        should: Queries::from_vec(Vec::new(alloc)),
        must_not: alone(alloc, Query::Term(key_term(alloc, key)?))?,
    })
}

/// The block of documents with these keys.
fn block_in(alloc: Global, keys: &str) -> Result<Block, Fail> {
    let mut words = Vec::new(alloc);
    for key in keys.split(' ') {
        words.push(key)?;
    }
    block_of(alloc, words.as_slice())
}

/// The update of the documents with the first of these keys.
fn update_block(alloc: Global, keys: &str) -> Result<Operation, Fail> {
    let first = keys.split(' ').next().unwrap_or("");
    let term = key_term(alloc, first)?;
    Ok(Operation::UpdateBlock(term, block_in(alloc, keys)?))
}

pub(crate) fn operation_of(alloc: Global, act: Act, key: &str) -> Result<Operation, Fail> {
    match act {
        Act::Add => Ok(Operation::Add(document_of(alloc, key)?)),
        Act::AddBlock => Ok(Operation::AddBlock(block_in(alloc, key)?)),
        Act::UpdateBlock => update_block(alloc, key),
        Act::Update => {
            let term = key_term(alloc, key)?;
            Ok(Operation::Update(term, document_of(alloc, key)?))
        }
        Act::Delete => Ok(Operation::DeleteTerm(key_term(alloc, key)?)),
        Act::DeleteOthers => Ok(Operation::DeleteQuery(others_than(alloc, key)?)),
        Act::Set(value) => Ok(Operation::SetNumber {
            term: key_term(alloc, key)?,
            num: name_of(alloc, "n")?,
            value,
        }),
        Act::Commit => Ok(Operation::Commit(Fields::none(alloc))),
    }
}
