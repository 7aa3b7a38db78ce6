//! Copying documents out of values.
ghost use Rattle.std.specs.Prelude.{◌≡◌, IfOk, IfSome, map, option_map, is_some, Some, true, codes, ◌&&◌};
ghost use Rattle.serde_json.specs.Data.{object};
ghost use Rattle.serde_json.specs.View.{view, members_view};
ghost use Rattle.ix_base.specs.Limits.{names_rise};
ghost use Rattle.op_script.specs.Values.{has_only};
ghost use Rattle.op_script.specs.Documents.{document_of, document_names, are_apart, texts_at, numbers_at, texts_of, numbers_of, few_by, named_text, named_number};

use crate::document_check::MOST_MEMBERS;
use crate::members::text_from;
use ix_base::{Document, Fields, Name, NoMemory, Numbers, Text};
use serde_json::{Map, Value};
use std::alloc::Global;

/// The document that a value is.
pub fn document_from(alloc: Global, value: &Value) -> Result<Document, NoMemory>
    requires { is_some (document_of (view value.now)) ≡ true }
    ensures { IfOk result (λ doc. document_of (view value.now) ≡ Some doc) }
{
    match read_document(alloc, value)? {
        Some(doc) => Ok(doc),
        None => unreachable!(),
    }
}

fn read_document(alloc: Global, value: &Value) -> Result<Option<Document>, NoMemory>
    requires { has_only document_names (view value.now) && are_apart (view value.now) ≡ true }
    ensures { IfOk result (λ found. found ≡ document_of (view value.now)) }
{
    let Some(key) = value.get("key").and_then(Value::as_str) else {
        return Ok(None);
    };
    let Some(text) = read_texts(alloc, value, "text")? else {
        return Ok(None);
    };
    let Some(exact) = read_texts(alloc, value, "exact")? else {
        return Ok(None);
    };
    let Some(num) = read_numbers(alloc, value)? else {
        return Ok(None);
    };
    let key = text_from(alloc, key)?;
    Ok(Some(Document {
        key,
        text,
        exact,
        num,
    }))
}

/// The data of a commit.
pub fn data_from(alloc: Global, value: &Value) -> Result<Fields, NoMemory>
    requires { is_some (texts_at (codes "data") (view value.now)) ≡ true }
    ensures { IfOk result (λ pairs. texts_at (codes "data") (view value.now) ≡ Some pairs) }
{
    match read_texts(alloc, value, "data")? {
        Some(data) => Ok(data),
        None => unreachable!(),
    }
}

fn read_texts(alloc: Global, value: &Value, at: &str) -> Result<Option<Fields>, NoMemory>
    ensures { IfOk result (λ found. found ≡ texts_at at.now (view value.now)) }
{
    let Some(inner) = value.get(at) else {
        return Ok(Some(Fields::none(alloc)));
    };
    match inner.as_object() {
        Some(members) => texts_in(alloc, members),
        None => Ok(None),
    }
}

fn texts_in(alloc: Global, members: &Map<String, Value>) -> Result<Option<Fields>, NoMemory>
    ensures { IfOk result (λ found. found
        ≡ few_by texts_of (object (members_view members.now.entries))) }
{
    if members.len() > MOST_MEMBERS {
        return Ok(None);
    }
    match text_pairs(alloc, members)? {
        Some(pairs) => Ok(Some(Fields::from_vec(pairs))),
        None => Ok(None),
    }
}

fn text_pairs(
    alloc: Global,
    members: &Map<String, Value>,
) -> Result<Option<Vec<(Name, Text)>>, NoMemory>
    ensures pairs { IfOk result (λ found. option_map (λ pairs. pairs.items) found
        ≡ texts_of (members_view members.now.entries)) }
    ensures rise { IfOk result (λ found. IfSome found
        (λ pairs. names_rise (map (λ pair. pair.0) pairs.items) ≡ true)) }
{
    let mut pairs = Vec::new(alloc);
    for (name, value) in members {
        match text_pair(alloc, name.as_str(), value)? {
            Some(pair) => pairs.push(pair)?,
            None => return Ok(None),
        }
    }
    Ok(Some(pairs))
}

fn text_pair(alloc: Global, name: &str, value: &Value) -> Result<Option<(Name, Text)>, NoMemory>
    ensures { IfOk result (λ found. found
        ≡ option_map (λ text. (name.now, text)) (named_text name.now (view value.now))) }
{
    let Some(name) = Name::new(text_from(alloc, name)?) else {
        return Ok(None);
    };
    let Some(text) = value.as_str() else {
        return Ok(None);
    };
    Ok(Some((name, text_from(alloc, text)?)))
}

fn read_numbers(alloc: Global, value: &Value) -> Result<Option<Numbers>, NoMemory>
    ensures { IfOk result (λ found. found ≡ numbers_at (codes "num") (view value.now)) }
{
    let Some(inner) = value.get("num") else {
        return Ok(Some(Numbers::none(alloc)));
    };
    match inner.as_object() {
        Some(members) => numbers_in(alloc, members),
        None => Ok(None),
    }
}

fn numbers_in(alloc: Global, members: &Map<String, Value>) -> Result<Option<Numbers>, NoMemory>
    ensures { IfOk result (λ found. found
        ≡ few_by numbers_of (object (members_view members.now.entries))) }
{
    if members.len() > MOST_MEMBERS {
        return Ok(None);
    }
    match number_pairs(alloc, members)? {
        Some(pairs) => Ok(Some(Numbers::from_vec(pairs))),
        None => Ok(None),
    }
}

fn number_pairs(
    alloc: Global,
    members: &Map<String, Value>,
) -> Result<Option<Vec<(Name, i64)>>, NoMemory>
    ensures pairs { IfOk result (λ found. option_map (λ pairs. pairs.items) found
        ≡ numbers_of (members_view members.now.entries)) }
    ensures rise { IfOk result (λ found. IfSome found
        (λ pairs. names_rise (map (λ pair. pair.0) pairs.items) ≡ true)) }
{
    let mut pairs = Vec::new(alloc);
    for (name, value) in members {
        match number_pair(alloc, name.as_str(), value)? {
            Some(pair) => pairs.push(pair)?,
            None => return Ok(None),
        }
    }
    Ok(Some(pairs))
}

fn number_pair(alloc: Global, name: &str, value: &Value) -> Result<Option<(Name, i64)>, NoMemory>
    ensures { IfOk result (λ found. found
        ≡ option_map (λ number. (name.now, number)) (named_number name.now (view value.now))) }
{
    let Some(name) = Name::new(text_from(alloc, name)?) else {
        return Ok(None);
    };
    let Some(number) = value.as_i64() else {
        return Ok(None);
    };
    Ok(Some((name, number)))
}
