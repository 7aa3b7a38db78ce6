//! Whether a value is a query. It takes no memory.
ghost use Rattle.std.specs.Prelude.{◌≡◌, is_some, option_and_then};
ghost use Rattle.serde_json.specs.View.{view, members_view, items_view};
ghost use Rattle.op_script.specs.Queries.{query_of, member_query, leaf_query, bool_query, queries_at, list_query, queries_of, term_by, range_by};
ghost use Rattle.op_script.specs.Values.{text_pair, range_parts};

use crate::members::{has_only, is_name, range_parts, text_pair};
use serde_json::{Map, Value};

/// Whether a value is a query.
#[cycle(checking)]
pub fn is_query(value: &Value) -> bool
    ensures { result ≡ is_some (query_of (view value.now)) }
{
    match value {
        Value::String(text) => text.as_str() == "all",
        Value::Object(members) => is_member(members),
        _ => false,
    }
}

#[cycle(checking)]
fn is_member(members: &Map<String, Value>) -> bool
    ensures { result ≡ is_some (member_query (members_view members.now.entries)) }
{
    let mut rest = members.iter();
    let Some((name, value)) = rest.next() else {
        return false;
    };
    if rest.next().is_some() {
        return false;
    }
    if name.as_str() == "bool" {
        is_bool(value)
    } else {
        is_leaf(name.as_str(), value)
    }
}

#[cycle(checking)]
fn is_bool(value: &Value) -> bool
    ensures { result ≡ is_some (bool_query (view value.now)) }
{
    let Value::Object(members) = value else {
        return false;
    };
    if !has_only(value, &["must", "should", "not"]) {
        return false;
    }
    is_list_at(members, "must") && is_list_at(members, "should") && is_list_at(members, "not")
}

/// Whether a member is a list of queries, or absent.
#[cycle(checking)]
fn is_list_at(members: &Map<String, Value>, at: &str) -> bool
    ensures { result ≡ is_some (queries_at at.now (members_view members.now.entries)) }
{
    for (name, value) in members {
        if name.as_str() == at {
            return is_list(value);
        }
    }
    true
}

#[cycle(checking)]
fn is_list(value: &Value) -> bool
    ensures { result ≡ is_some (list_query (view value.now)) }
{
    match value {
        Value::Array(items) => are_queries(items),
        _ => false,
    }
}

#[cycle(checking)]
fn are_queries(items: &Vec<Value>) -> bool
    ensures { result ≡ is_some (queries_of (items_view items.now.items)) }
{
    for item in items {
        if !is_query(item) {
            return false;
        }
    }
    true
}

/// Whether this is a query that holds no other.
fn is_leaf(name: &str, value: &Value) -> bool
    ensures { result ≡ is_some (leaf_query name.now (view value.now)) }
{
    if name == "range" {
        return is_range(value);
    }
    (name == "term" || name == "phrase") && is_name_first(value)
}

/// Whether a value is an array of a name and two numbers that fit an i64.
fn is_range(value: &Value) -> bool
    ensures { result ≡ is_some (option_and_then range_by (range_parts (view value.now))) }
{
    match range_parts(value) {
        Some((name, _, _)) => is_name(name),
        None => false,
    }
}

/// Whether a value is an array of two texts, the first a name.
fn is_name_first(value: &Value) -> bool
    ensures { result ≡ is_some (option_and_then term_by (text_pair (view value.now))) }
{
    match text_pair(value) {
        Some((field, _)) => is_name(field),
        None => false,
    }
}
