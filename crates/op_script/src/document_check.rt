//! Whether a value is a document. It takes no memory.
ghost use Rattle.std.specs.Prelude.{◌≡◌, is_some, codes};
ghost use Rattle.serde_json.specs.Data.{object};
ghost use Rattle.serde_json.specs.View.{view, members_view};
ghost use Rattle.ix_base.specs.Limits.{is_among, share_name};
ghost use Rattle.op_script.specs.Documents.{document_of, are_apart, names_at, texts_at, numbers_at, texts_of, numbers_of, few_by, named_text, named_number};

use crate::members::{has_member, has_only, is_name};
use serde_json::{Map, Value};

/// A document has at most this many texts, as many exact texts and as many numbers.
pub const MOST_MEMBERS: usize = 65_535;

/// Whether a value is a document.
pub fn is_document(value: &Value) -> bool
    ensures { result ≡ is_some (document_of (view value.now)) }
{
    if !has_only(value, &["key", "text", "exact", "num"]) || !are_apart(value) {
        return false;
    }
    if value.get("key").and_then(Value::as_str).is_none() {
        return false;
    }
    are_texts_at(value, "text") && are_texts_at(value, "exact") && are_numbers_at(value)
}

/// Whether no text or exact text is named `key`, and no name stands in both.
fn are_apart(value: &Value) -> bool
    ensures { result ≡ are_apart (view value.now) }
{
    !has_name(value, "text", "key") && !has_name(value, "exact", "key") && !share_name(value)
}

/// Whether the object at this member has a member of this name.
fn has_name(value: &Value, at: &str, name: &str) -> bool
    ensures { result ≡ is_among (names_at at.now (view value.now)) name.now }
{
    match value.get(at) {
        Some(inner) => has_member(inner, name),
        None => false,
    }
}

/// Whether a name of `text` stands in `exact` too.
fn share_name(value: &Value) -> bool
    ensures { result ≡ share_name (names_at (codes "text") (view value.now))
        (names_at (codes "exact") (view value.now)) }
{
    match value.get("text").and_then(Value::as_object) {
        Some(members) => members
            .keys()
            .any(|name| has_name(value, "exact", name.as_str())),
        None => false,
    }
}

/// Whether a member holds texts by name, as those of a document, or is absent.
pub fn are_texts_at(value: &Value, at: &str) -> bool
    ensures { result ≡ is_some (texts_at at.now (view value.now)) }
{
    let Some(inner) = value.get(at) else {
        return true;
    };
    match inner.as_object() {
        Some(members) => are_few_texts(members),
        None => false,
    }
}

fn are_few_texts(members: &Map<String, Value>) -> bool
    ensures { result ≡ is_some (few_by texts_of (object (members_view members.now.entries))) }
{
    if members.len() > MOST_MEMBERS {
        return false;
    }
    are_texts(members)
}

fn are_texts(members: &Map<String, Value>) -> bool
    ensures { result ≡ is_some (texts_of (members_view members.now.entries)) }
{
    for (name, value) in members {
        if !is_text(name.as_str(), value) {
            return false;
        }
    }
    true
}

fn is_text(name: &str, value: &Value) -> bool
    ensures { result ≡ is_some (named_text name.now (view value.now)) }
{
    is_name(name) && value.as_str().is_some()
}

/// Whether the member `num` holds the numbers of a document, or is absent.
fn are_numbers_at(value: &Value) -> bool
    ensures { result ≡ is_some (numbers_at (codes "num") (view value.now)) }
{
    let Some(inner) = value.get("num") else {
        return true;
    };
    match inner.as_object() {
        Some(members) => are_few_numbers(members),
        None => false,
    }
}

fn are_few_numbers(members: &Map<String, Value>) -> bool
    ensures { result ≡ is_some (few_by numbers_of (object (members_view members.now.entries))) }
{
    if members.len() > MOST_MEMBERS {
        return false;
    }
    are_numbers(members)
}

fn are_numbers(members: &Map<String, Value>) -> bool
    ensures { result ≡ is_some (numbers_of (members_view members.now.entries)) }
{
    for (name, value) in members {
        if !is_number(name.as_str(), value) {
            return false;
        }
    }
    true
}

fn is_number(name: &str, value: &Value) -> bool
    ensures { result ≡ is_some (named_number name.now (view value.now)) }
{
    is_name(name) && value.as_i64().is_some()
}
