//! The text of a commit in a list of commits.
ghost use Rattle.std.specs.Prelude.{◌≡◌, fold, IfOk};
ghost use Rattle.serde_json.specs.Data.{no_members};
ghost use Rattle.serde_json.specs.View.{view, members_view};
ghost use Rattle.report_text.specs.Lines.{listed_value, text_line, with_text};

use crate::texts::text_of;
use ix_base::{Fields, Name, NoMemory, Text};
use serde_json::{Map, Value, json};
use std::alloc::{AllocError, Global};

/// Texts by name.
fn text_members(alloc: Global, pairs: &[(Name, Text)]) -> Result<Map<String, Value>, AllocError>
    ensures { IfOk result (λ found. members_view found.entries
        ≡ fold with_text no_members pairs.now) }
{
    let mut found = Map::new(alloc);
    for (name, text) in pairs {
        let value = Value::try_from_str(alloc, text.as_str())?;
        serde_json::put(&mut found, alloc, name.as_str(), value)?;
    }
    Ok(found)
}

/// The value of a commit in a list of commits.
fn listed_data(
    alloc: Global,
    commit: u64,
    pairs: &[(Name, Text)],
    docs: u64,
) -> Result<Value, AllocError>
    ensures { IfOk result (λ value. view value ≡ listed_value commit pairs.now docs) }
{
    if pairs.is_empty() {
        return json!(in alloc; {"commit": commit, "docs": docs});
    }
    let data = Value::Object(text_members(alloc, pairs)?);
    json!(in alloc; {"commit": commit, "data": data, "docs": docs})
}

/// The text of a commit in a list of commits, as `{"commit":2,"docs":1}`, or with the texts that stand
/// beside it, as `{"commit":2,"data":{"src":"x"},"docs":1}`, and a line feed: the commit of this number
/// has so many documents.
pub fn listed_text(
    alloc: Global,
    commit: u64,
    pairs: &Fields,
    docs: u64,
) -> Result<Vec<u8>, NoMemory>
    ensures { IfOk result (λ text. text.items ≡ text_line (listed_value commit pairs.now docs)) }
{
    let value = listed_data(alloc, commit, pairs.as_slice(), docs)?;
    text_of(alloc, &value)
}
