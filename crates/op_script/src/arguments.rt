//! What the members of a line give its operation, each with the reason of a bad line. They are
//! tested before anything is copied: it takes no memory.
ghost use Rattle.std.specs.Prelude.{◌≡◌, true, is_some, codes, IfErr, IfOk, OnOk, Some, None};
ghost use Rattle.serde_json.specs.View.{view};
ghost use Rattle.ix_base.specs.Limits.{is_name};
ghost use Rattle.op_script.specs.Arguments.{text_at, name_at, number_at, query_at, document_at, block_at};
ghost use Rattle.op_script.specs.Documents.{document_of, block_of, texts_at};
ghost use Rattle.op_script.specs.Queries.{query_of};
ghost use Rattle.op_script.specs.declared.script.Why.{Why};

use crate::blocks::is_block;
use crate::document_check::{are_texts_at, is_document};
use crate::members::is_name;
use crate::query_check::is_query;
use crate::script::Why;
use serde_json::Value;

/// The name at a member.
pub fn name_at<'a>(value: &'a Value, at: &str) -> Result<&'a str, Why>
    ensures ok { IfOk result (λ found. name_at at.now (view value.now) ≡ Some found.now) }
    ensures name { IfOk result (λ found. is_name found.now ≡ true) }
    ensures bad { IfErr result (λ why. (why ≡ Why.Name)
        × (name_at at.now (view value.now) ≡ None)) }
{
    let Some(name) = value.get(at).and_then(Value::as_str) else {
        return Err(Why::Name);
    };
    if is_name(name) {
        Ok(name)
    } else {
        Err(Why::Name)
    }
}

/// The text at a member.
pub fn text_at<'a>(value: &'a Value, at: &str) -> Result<&'a str, Why>
    ensures ok { IfOk result (λ found. text_at at.now (view value.now) ≡ Some found.now) }
    ensures bad { IfErr result (λ why. (why ≡ Why.Text)
        × (text_at at.now (view value.now) ≡ None)) }
{
    match value.get(at).and_then(Value::as_str) {
        Some(text) => Ok(text),
        None => Err(Why::Text),
    }
}

/// The whole number at a member, where it fits an `i64`.
pub fn number_at(value: &Value, at: &str) -> Result<i64, Why>
    ensures ok { IfOk result (λ found. number_at at.now (view value.now) ≡ Some found) }
    ensures bad { IfErr result (λ why. (why ≡ Why.Number)
        × (number_at at.now (view value.now) ≡ None)) }
{
    match value.get(at).and_then(Value::as_i64) {
        Some(number) => Ok(number),
        None => Err(Why::Number),
    }
}

/// The value at a member, where it is a query.
pub fn query_at<'a>(value: &'a Value, at: &str) -> Result<&'a Value, Why>
    ensures ok { IfOk result (λ found. query_at at.now (view value.now)
        ≡ query_of (view found.now)) }
    ensures query { IfOk result (λ found. is_some (query_of (view found.now)) ≡ true) }
    ensures bad { IfErr result (λ why. (why ≡ Why.Query)
        × (query_at at.now (view value.now) ≡ None)) }
{
    let Some(found) = value.get(at) else {
        return Err(Why::Query);
    };
    if is_query(found) {
        Ok(found)
    } else {
        Err(Why::Query)
    }
}

/// The value at a member, where it is a document.
pub fn document_at<'a>(value: &'a Value, at: &str) -> Result<&'a Value, Why>
    ensures ok { IfOk result (λ found. document_at at.now (view value.now)
        ≡ document_of (view found.now)) }
    ensures document { IfOk result (λ found. is_some (document_of (view found.now)) ≡ true) }
    ensures bad { IfErr result (λ why. (why ≡ Why.Doc)
        × (document_at at.now (view value.now) ≡ None)) }
{
    let Some(found) = value.get(at) else {
        return Err(Why::Doc);
    };
    if is_document(found) {
        Ok(found)
    } else {
        Err(Why::Doc)
    }
}

/// The value at a member, where it is a block of documents.
pub fn block_at<'a>(value: &'a Value, at: &str) -> Result<&'a Value, Why>
    ensures ok { IfOk result (λ found. block_at at.now (view value.now)
        ≡ block_of (view found.now)) }
    ensures block { IfOk result (λ found. is_some (block_of (view found.now)) ≡ true) }
    ensures bad { IfErr result (λ why. (why ≡ Why.Doc)
        × (block_at at.now (view value.now) ≡ None)) }
{
    let Some(found) = value.get(at) else {
        return Err(Why::Doc);
    };
    if is_block(found) {
        Ok(found)
    } else {
        Err(Why::Doc)
    }
}

/// Tests the data of a commit, which may be absent.
pub fn data_at(value: &Value) -> Result<(), Why>
    ensures ok { OnOk result (is_some (texts_at (codes "data") (view value.now)) ≡ true) }
    ensures bad { IfErr result (λ why. (why ≡ Why.Data)
        × (texts_at (codes "data") (view value.now) ≡ None)) }
{
    if are_texts_at(value, "data") {
        Ok(())
    } else {
        Err(Why::Data)
    }
}
