use crate::tests::{outcome, words_in};
use ix_base::{NoMemory, Operation, Queries, Query, Refused};
use node_words::{Entry, decode, encode};
use std::alloc::Global;
use std::test::*;

fn no_queries(alloc: Global) -> Queries {
    Queries::from_vec(Vec::new(alloc))
}

fn alone(alloc: Global, query: Query) -> Result<Queries, NoMemory> {
    let mut queries = Vec::new(alloc);
    queries.push(query)?;
    Ok(Queries::from_vec(queries))
}

/// So many queries, each `All`.
fn many(alloc: Global, count: usize) -> Result<Queries, NoMemory> {
    let mut queries = Vec::new(alloc);
    for _ in 0..count {
        queries.push(Query::All)?;
    }
    Ok(Queries::from_vec(queries))
}

fn bool_of(must: Queries, should: Queries, must_not: Queries) -> Query {
    Query::Bool {
        must,
        should,
        must_not,
    }
}

fn wrapped(alloc: Global, query: Query) -> Result<Query, NoMemory> {
    let must = alone(alloc, query)?;
    Ok(bool_of(must, no_queries(alloc), no_queries(alloc)))
}

/// So many bools, each the one element of the next, round `All`.
fn nested(alloc: Global, depth: usize) -> Result<Query, NoMemory> {
    let mut query = Query::All;
    for _ in 0..depth {
        query = wrapped(alloc, query)?;
    }
    Ok(query)
}

/// A bool of so many queries.
fn wide(alloc: Global, count: usize) -> Result<Query, NoMemory> {
    let should = many(alloc, count)?;
    Ok(bool_of(no_queries(alloc), should, no_queries(alloc)))
}

/// The words of a delete by the query.
fn delete_words(alloc: Global, query: Query) -> Result<Vec<u64>, Refused> {
    encode(alloc, &Operation::DeleteQuery(query))
}

fn query_in(entry: Option<Entry>) -> Option<Query> {
    match entry {
        Some(Entry::DeleteQuery(query)) => Some(query),
        _ => None,
    }
}

/// The query by which the entry deletes that these words spell.
fn query_at(alloc: Global, words: &[u64]) -> Option<Query> {
    match decode(alloc, words) {
        Ok(entry) => query_in(entry),
        Err(NoMemory) => None,
    }
}

/// Whether these words spell a delete by a query that has these words.
fn are_kept(alloc: Global, words: &[u64]) -> bool {
    let Some(query) = query_at(alloc, words) else {
        return false;
    };
    match delete_words(alloc, query) {
        Ok(same) => words == same.as_slice(),
        Err(_) => false,
    }
}

/// Whether a delete by the query has so many words, and is read back from them to the same words.
fn keeps_words(alloc: Global, query: Query, count: usize) -> bool {
    match delete_words(alloc, query) {
        Ok(words) => words.len() == count && are_kept(alloc, &words),
        Err(_) => false,
    }
}

fn words_are_kept(alloc: Global, text: &str) -> Result<bool, NoMemory> {
    let words = words_in(alloc, text)?;
    Ok(are_kept(alloc, &words))
}

/// The words of a query that are written by hand.
#[test]
fn query_by_hand(rt: HostRuntime) {
    let text =
        "0000000400000025 0300000001010000 0001660000000161 0000000000000001 0200000001660000 0003622063000000";
    assert!(rt; words_are_kept(rt.alloc(), text) == Ok(true));
    let range = "0000000400000016 04000000016effff fffffffffffe0000 0000000000090000";
    assert!(rt; words_are_kept(rt.alloc(), range) == Ok(true));
}

/// A query of 1,000 bools, each in the next.
#[test]
fn deep_query(rt: HostRuntime) {
    let Ok(query) = nested(rt.alloc(), 1000) else {
        panic!(rt; "memory");
    };
    assert!(rt; keeps_words(rt.alloc(), query, 1627));
}

/// The largest query that has words.
#[test]
fn wide_query(rt: HostRuntime) {
    let Ok(query) = wide(rt.alloc(), 131_059) else {
        panic!(rt; "memory");
    };
    assert!(rt; keeps_words(rt.alloc(), query, 16385));
}

/// A query of a byte more.
#[test]
fn wider_query(rt: HostRuntime) {
    let Ok(query) = wide(rt.alloc(), 131_060) else {
        panic!(rt; "memory");
    };
    assert!(rt; outcome(delete_words(rt.alloc(), query)) == (2, 131_073));
}
