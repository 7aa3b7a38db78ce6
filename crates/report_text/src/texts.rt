//! The texts of the report's lines, written by serde_json.
ghost use Rattle.std.specs.Prelude.{◌≡◌, ◌∷◌, [], false, fold, map, IfOk};
ghost use Rattle.serde_json.specs.Data.{no_members};
ghost use Rattle.serde_json.specs.View.{view, members_view};
ghost use Rattle.serde_json.specs.Written.{has_float};
ghost use Rattle.report_text.specs.Lines.{text_line, write_value, commit_value, refused_value, search_value, hit_value, with_number};
ghost use Rattle.report_text.specs.Lines.{summary_value};
ghost use Rattle.report_text.specs.Lines.{shown_refusal};

use crate::summary::Summary;
use ix_base::{Hit, Name, NoMemory, Refusal};
use serde_json::{Map, Value, json};
use std::alloc::{AllocError, Global};

/// A value's text, and a line feed.
pub(crate) fn text_of(alloc: Global, value: &Value) -> Result<Vec<u8>, NoMemory>
    requires { has_float (view value.now) ≡ false }
    ensures { IfOk result (λ text. text.items ≡ text_line (view value.now)) }
{
    let mut text = value.to_vec(alloc)?;
    text.push(b'\n')?;
    Ok(text)
}

/// The value of a line that got a number.
fn write_data(alloc: Global, line: u32, number: u64) -> Result<Value, AllocError>
    ensures { IfOk result (λ value. view value ≡ write_value line number) }
{
    json!(in alloc; {"line": line, "seq": number})
}

/// The text of a line that got a number, as `{"line":1,"seq":3}`, and a line feed. `NoMemory` is all
/// that an error means, here and in the calls below.
pub fn write_text(alloc: Global, line: u32, number: u64) -> Result<Vec<u8>, NoMemory>
    ensures { IfOk result (λ text. text.items ≡ text_line (write_value line number)) }
{
    let value = write_data(alloc, line, number)?;
    text_of(alloc, &value)
}

/// The value of a commit line.
fn commit_data(alloc: Global, docs: u64, line: u32, number: u64) -> Result<Value, AllocError>
    ensures { IfOk result (λ value. view value ≡ commit_value docs line number) }
{
    json!(in alloc; {"docs": docs, "line": line, "seq": number})
}

/// The text of a commit line, as `{"docs":1,"line":2,"seq":4}`, and a line feed: the commit of this
/// number has so many documents.
pub fn commit_text(alloc: Global, docs: u64, line: u32, number: u64) -> Result<Vec<u8>, NoMemory>
    ensures { IfOk result (λ text. text.items ≡ text_line (commit_value docs line number)) }
{
    let value = commit_data(alloc, docs, line, number)?;
    text_of(alloc, &value)
}

/// The value of a line that was refused for what is too long.
fn long_data(alloc: Global, line: u32, what: &str, size: u64) -> Result<Value, AllocError>
    ensures { IfOk result (λ value. view value ≡ shown_refusal line what.now size) }
{
    json!(in alloc; {"line": line, "refused": what, "size": size})
}

/// The value of a line that was refused.
fn refused_data(alloc: Global, line: u32, refusal: Refusal) -> Result<Value, AllocError>
    ensures { IfOk result (λ value. view value ≡ refused_value line refusal) }
{
    match refusal {
        Refusal::Term { size } => long_data(alloc, line, "term", size),
        Refusal::Query { size } => long_data(alloc, line, "query", size),
    }
}

/// The text of a line that was refused, as `{"line":2,"refused":"term","size":32767}` or with
/// `query`, and a line feed. The size is in bytes.
pub fn refused_text(alloc: Global, line: u32, refusal: Refusal) -> Result<Vec<u8>, NoMemory>
    ensures { IfOk result (λ text. text.items ≡ text_line (refused_value line refusal)) }
{
    let value = refused_data(alloc, line, refusal)?;
    text_of(alloc, &value)
}

/// The numbers of a hit, by name.
fn number_members(alloc: Global, num: &[(Name, i64)]) -> Result<Map<String, Value>, AllocError>
    ensures { IfOk result (λ found. members_view found.entries
        ≡ fold with_number no_members num.now) }
{
    let mut found = Map::new(alloc);
    for (name, value) in num {
        serde_json::put(&mut found, alloc, name.as_str(), Value::from(*value))?;
    }
    Ok(found)
}

/// What a report shows of a hit: its key, and its numbers by name.
fn hit_data(alloc: Global, hit: &Hit) -> Result<Value, AllocError>
    ensures { IfOk result (λ value. view value ≡ hit_value hit.now) }
{
    let num = Value::Object(number_members(alloc, hit.num.as_slice())?);
    json!(in alloc; {"key": hit.key.as_str(), "num": num})
}

/// What a report shows of hits, in their order.
fn hit_list(alloc: Global, hits: &[Hit]) -> Result<Vec<Value>, AllocError>
    ensures { IfOk result (λ values. map view values.items ≡ map hit_value hits.now) }
{
    let mut values = Vec::new(alloc);
    for hit in hits {
        values.push(hit_data(alloc, hit)?)?;
    }
    Ok(values)
}

/// The value of a search line.
fn search_data(alloc: Global, commit: u64, hits: &[Hit], line: u32) -> Result<Value, AllocError>
    ensures { IfOk result (λ value. view value ≡ search_value commit hits.now line) }
{
    let hits = Value::Array(hit_list(alloc, hits)?);
    json!(in alloc; {"commit": commit, "hits": hits, "line": line})
}

/// The text of a search line, as `{"commit":2,"hits":[{"key":"a1","num":{}}],"line":3}`, and a line
/// feed. The hits stand in their order; each shows its key and its numbers by name.
pub fn search_text(alloc: Global, commit: u64, hits: &[Hit], line: u32) -> Result<Vec<u8>, NoMemory>
    ensures { IfOk result (λ text. text.items ≡ text_line (search_value commit hits.now line)) }
{
    let value = search_data(alloc, commit, hits, line)?;
    text_of(alloc, &value)
}

/// The value of a summary.
fn summary_data(alloc: Global, summary: Summary) -> Result<Value, AllocError>
    ensures { IfOk result (λ value. view value ≡ summary_value summary) }
{
    json!(in alloc; {
        "commits": summary.commits,
        "docs": summary.docs,
        "lines": summary.lines,
        "sum": summary.sum
    })
}

/// The text of a summary, as `{"commits":1,"docs":7,"lines":11,"sum":12350}`, and a line feed.
pub fn summary_text(alloc: Global, summary: Summary) -> Result<Vec<u8>, NoMemory>
    ensures { IfOk result (λ text. text.items ≡ text_line (summary_value summary)) }
{
    let value = summary_data(alloc, summary)?;
    text_of(alloc, &value)
}
