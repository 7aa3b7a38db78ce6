//! JSON values and the members of objects.
ghost use Rattle.std.specs.Prelude.{◌≡◌, ◌<◌, true, length, IfOk, IfErr, map, option_map};
ghost use Rattle.std.specs.Str.{IsUtf8};
ghost use Rattle.serde_json.specs.View.{view};
ghost use Rattle.ix_base.specs.Limits.{is_among, is_name};
ghost use Rattle.op_script.specs.Values.{value_of, member_names, has_only, has_exactly, text_pair, range_parts};

use ix_base::{Name, NoMemory, Text};
use serde_json::Value;
use std::alloc::Global;

/// The JSON value that the bytes are, if they are one. Memory is taken only for a text that has bytes.
pub fn read_value(alloc: Global, bytes: &[u8]) -> Result<Option<Value>, NoMemory>
    ensures value { IfOk result (λ found. option_map view found ≡ value_of bytes.now) }
    ensures text { IfErr result (λ _. IsUtf8 bytes.now) }
    ensures some { IfErr result (λ _. 0 < length bytes.now) }
{
    let Ok(text) = str::from_utf8(bytes) else {
        return Ok(None);
    };
    match Value::from_str(alloc, text) {
        Ok(value) => Ok(Some(value)),
        Err(error) => {
            if error.is_memory() {
                Err(NoMemory)
            } else {
                Ok(None)
            }
        }
    }
}

/// Whether a value is an object with a member of this name.
pub fn has_member(value: &Value, name: &str) -> bool
    ensures { result ≡ is_among (member_names (view value.now)) name.now }
{
    value.get(name).is_some()
}

/// Whether each member of a value has one of these names.
pub fn has_only(value: &Value, names: &[&str]) -> bool
    ensures { result ≡ has_only (map (λ name. name.now) names.now) (view value.now) }
{
    match value.as_object() {
        Some(members) => members.keys().all(|key| is_among(names, key.as_str())),
        None => true,
    }
}

/// Whether a value's members are those of these names, no more and no fewer.
pub fn has_exactly(value: &Value, names: &[&str]) -> bool
    ensures { result ≡ has_exactly (map (λ name. name.now) names.now) (view value.now) }
{
    names.iter().all(|name| has_member(value, *name)) && has_only(value, names)
}

fn is_among(names: &[&str], key: &str) -> bool
    ensures { result ≡ is_among (map (λ name. name.now) names.now) key.now }
{
    names.iter().any(|name| *name == key)
}

/// The two texts of an array of two texts.
pub fn text_pair(value: &Value) -> Option<(&str, &str)>
    ensures { option_map (λ pair. (pair.0.now, pair.1.now)) result ≡ text_pair (view value.now) }
{
    let items = value.as_array()?;
    if items.len() != 2 {
        return None;
    }
    let first = items[0].as_str()?;
    let second = items[1].as_str()?;
    Some((first, second))
}

/// The text and the two whole numbers of an array of a text and two numbers that fit an i64.
pub fn range_parts(value: &Value) -> Option<(&str, i64, i64)>
    ensures { option_map (λ parts. (parts.0.now, (parts.1, parts.2))) result
        ≡ range_parts (view value.now) }
{
    let items = value.as_array()?;
    if items.len() != 3 {
        return None;
    }
    let name = items[0].as_str()?;
    let low = items[1].as_i64()?;
    let high = items[2].as_i64()?;
    Some((name, low, high))
}

/// Whether a text is a name: it has 1 to 255 bytes.
pub fn is_name(text: &str) -> bool
    ensures { result ≡ is_name text.now }
{
    0 < text.len() && text.len() < 256
}

/// A name of these bytes.
pub fn name_from(alloc: Global, name: &str) -> Result<Name, NoMemory>
    requires { is_name name.now ≡ true }
    ensures { IfOk result (λ copy. copy ≡ name.now) }
{
    match Name::new(text_from(alloc, name)?) {
        Some(name) => Ok(name),
        None => unreachable!(),
    }
}

/// A text of these bytes.
pub fn text_from(alloc: Global, text: &str) -> Result<Text, NoMemory>
    ensures { IfOk result (λ copy. copy ≡ text.now) }
{
    // No input is so long that a text of it doesn't fit.
    if text.len() < 1 << 32 {
        Text::copy_of(alloc, text)
    } else {
        Err(NoMemory)
    }
}
