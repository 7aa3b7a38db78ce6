//! Copying queries out of values.
ghost use Rattle.std.specs.Prelude.{◌≡◌, true, is_some, Some, IfOk, option_map, option_and_then};
ghost use Rattle.serde_json.specs.View.{view, members_view, items_view};
ghost use Rattle.ix_base.specs.Query.{trees_of};
ghost use Rattle.op_script.specs.Queries.{query_of, member_query, leaf_query, bool_query, queries_at, list_query, queries_of, term_by, phrase_by, range_by};
ghost use Rattle.op_script.specs.Values.{text_pair, range_parts};

use crate::members::{has_only, range_parts, text_from, text_pair};
use ix_base::{Name, NoMemory, PhraseText, Queries, Query, Term};
use serde_json::{Map, Value};
use std::alloc::Global;

/// The query that a value is.
pub fn query_from(alloc: Global, value: &Value) -> Result<Query, NoMemory>
    requires { is_some (query_of (view value.now)) ≡ true }
    ensures { IfOk result (λ query. query_of (view value.now) ≡ Some query) }
{
    match read_query(alloc, value)? {
        Some(query) => Ok(query),
        None => unreachable!(),
    }
}

/// The query that a value is, if it is one.
#[cycle(reading)]
fn read_query(alloc: Global, value: &Value) -> Result<Option<Query>, NoMemory>
    ensures { IfOk result (λ found. found ≡ query_of (view value.now)) }
{
    match value {
        Value::String(text) => {
            if text.as_str() == "all" {
                Ok(Some(Query::All))
            } else {
                Ok(None)
            }
        }
        Value::Object(members) => read_member(alloc, members),
        _ => Ok(None),
    }
}

#[cycle(reading)]
fn read_member(alloc: Global, members: &Map<String, Value>) -> Result<Option<Query>, NoMemory>
    ensures { IfOk result (λ found. found ≡ member_query (members_view members.now.entries)) }
{
    let mut rest = members.iter();
    let Some((name, value)) = rest.next() else {
        return Ok(None);
    };
    if rest.next().is_some() {
        return Ok(None);
    }
    if name.as_str() == "bool" {
        read_bool(alloc, value)
    } else {
        read_leaf(alloc, name.as_str(), value)
    }
}

#[cycle(reading)]
fn read_bool(alloc: Global, value: &Value) -> Result<Option<Query>, NoMemory>
    ensures { IfOk result (λ found. found ≡ bool_query (view value.now)) }
{
    let Value::Object(members) = value else {
        return Ok(None);
    };
    if !has_only(value, &["must", "should", "not"]) {
        return Ok(None);
    }
    let Some(must) = read_list_at(alloc, members, "must")? else {
        return Ok(None);
    };
    let Some(should) = read_list_at(alloc, members, "should")? else {
        return Ok(None);
    };
    let Some(must_not) = read_list_at(alloc, members, "not")? else {
        return Ok(None);
    };
    Ok(Some(Query::Bool {
        must,
        should,
        must_not,
    }))
}

/// The list of queries at a member, which may be absent.
#[cycle(reading)]
fn read_list_at(
    alloc: Global,
    members: &Map<String, Value>,
    at: &str,
) -> Result<Option<Queries>, NoMemory>
    ensures { IfOk result (λ found. found ≡ queries_at at.now (members_view members.now.entries)) }
{
    for (name, value) in members {
        if name.as_str() == at {
            return read_list(alloc, value);
        }
    }
    Ok(Some(Queries::from_vec(Vec::new(alloc))))
}

#[cycle(reading)]
fn read_list(alloc: Global, value: &Value) -> Result<Option<Queries>, NoMemory>
    ensures { IfOk result (λ found. found ≡ list_query (view value.now)) }
{
    let Value::Array(items) = value else {
        return Ok(None);
    };
    match read_queries(alloc, items)? {
        Some(queries) => Ok(Some(Queries::from_vec(queries))),
        None => Ok(None),
    }
}

#[cycle(reading)]
fn read_queries(alloc: Global, items: &Vec<Value>) -> Result<Option<Vec<Query>>, NoMemory>
    ensures { IfOk result (λ found. option_map (λ queries. trees_of queries.items) found
        ≡ queries_of (items_view items.now.items)) }
{
    let mut queries = Vec::new(alloc);
    for item in items {
        match read_query(alloc, item)? {
            Some(query) => queries.push(query)?,
            None => return Ok(None),
        }
    }
    Ok(Some(queries))
}

/// A query that holds no other.
fn read_leaf(alloc: Global, name: &str, value: &Value) -> Result<Option<Query>, NoMemory>
    ensures { IfOk result (λ found. found ≡ leaf_query name.now (view value.now)) }
{
    if name == "term" {
        read_term(alloc, value)
    } else if name == "phrase" {
        read_phrase(alloc, value)
    } else if name == "range" {
        read_range(alloc, value)
    } else {
        Ok(None)
    }
}

fn read_term(alloc: Global, value: &Value) -> Result<Option<Query>, NoMemory>
    ensures { IfOk result (λ found. found ≡ option_and_then term_by (text_pair (view value.now))) }
{
    let Some((field, bytes)) = text_pair(value) else {
        return Ok(None);
    };
    let Some(field) = Name::new(text_from(alloc, field)?) else {
        return Ok(None);
    };
    let bytes = text_from(alloc, bytes)?;
    Ok(Some(Query::Term(Term { field, bytes })))
}

fn read_phrase(alloc: Global, value: &Value) -> Result<Option<Query>, NoMemory>
    ensures { IfOk result (λ found. found
        ≡ option_and_then phrase_by (text_pair (view value.now))) }
{
    let Some((field, text)) = text_pair(value) else {
        return Ok(None);
    };
    let Some(field) = Name::new(text_from(alloc, field)?) else {
        return Ok(None);
    };
    // No input is so long that a phrase of it doesn't fit.
    match PhraseText::new(text_from(alloc, text)?) {
        Some(text) => Ok(Some(Query::Phrase(field, text))),
        None => Err(NoMemory),
    }
}

fn read_range(alloc: Global, value: &Value) -> Result<Option<Query>, NoMemory>
    ensures { IfOk result (λ found. found
        ≡ option_and_then range_by (range_parts (view value.now))) }
{
    let Some((name, low, high)) = range_parts(value) else {
        return Ok(None);
    };
    let Some(name) = Name::new(text_from(alloc, name)?) else {
        return Ok(None);
    };
    Ok(Some(Query::Range(name, low, high)))
}
