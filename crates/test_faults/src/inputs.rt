//! Inputs with a bad line.
use ix_base::NoMemory;
use std::alloc::Global;
use std::fmt::Write;

/// An input with a bad line, and the line that tells it.
#[derive(Drop)]
pub struct BadInput {
    pub bytes: Vec<u8>,
    pub told: String,
}

/// An input whose first line is bad for this reason.
fn bad(alloc: Global, bytes: &[u8], why: &str) -> Result<BadInput, NoMemory> {
    Ok(BadInput {
        bytes: bytes.to_vec(alloc)?,
        told: format!(in alloc; "{{\"line\":1,\"status\":3,\"why\":\"{why}\"}}\n")?,
    })
}

/// A search for arrays nested 200 deep.
fn nested(alloc: Global) -> Result<String, NoMemory> {
    let (open, close) = ("[".repeat(alloc, 200)?, "]".repeat(alloc, 200)?);
    Ok(format!(in alloc; "{{\"c\":0,\"op\":\"search\",\"query\":{open}{close}}}")?)
}

/// An add of a document with 65,536 numbers.
fn numbered(alloc: Global) -> Result<String, NoMemory> {
    let mut text = String::from_str(
        alloc,
        "{\"c\":0,\"op\":\"add\",\"doc\":{\"key\":\"a1\",\"num\":{\"n\":0",
    )?;
    for number in 1..65_536u32 {
        write!(text, ",\"{number}\":0")?;
    }
    text.push_str("}}}")?;
    Ok(text)
}

/// Scripts of one line that is bad.
pub fn bad_scripts(alloc: Global) -> Result<Vec<BadInput>, NoMemory> {
    let cases = [
        ("[]", "json"),
        ("{\"op\":\"commit\"}", "caller"),
        ("{\"c\":256,\"op\":\"flush\"}", "caller"),
        ("{\"c\":0,\"op\":\"flush\"}", "op"),
        ("{\"c\":0,\"op\":\"commit\",\"x\":0}", "members"),
        (
            "{\"c\":0,\"op\":\"delete\",\"field\":\"\",\"term\":\"a\"}",
            "name",
        ),
        (
            "{\"c\":0,\"op\":\"delete\",\"field\":\"key\",\"term\":1}",
            "text",
        ),
        (
            "{\"c\":0,\"op\":\"set\",\"field\":\"key\",\"term\":\"a\",\"num\":\"n\",\"value\":9223372036854775808}",
            "number",
        ),
        ("{\"c\":0,\"op\":\"search\",\"query\":{}}", "query"),
        ("{\"c\":0,\"op\":\"add\",\"doc\":{}}", "doc"),
    ];
    let mut inputs = Vec::new(alloc);
    for (text, why) in cases {
        inputs.push(bad(alloc, text.as_bytes(), why)?)?;
    }
    inputs.push(bad(alloc, b"\xff", "json")?)?;
    inputs.push(bad(alloc, nested(alloc)?.as_bytes(), "json")?)?;
    inputs.push(bad(alloc, numbered(alloc)?.as_bytes(), "doc")?)?;
    Ok(inputs)
}

/// Scripts of the first bytes of this line, which ends with a line feed: of one byte, and so on up to
/// all that come before its last brace.
pub fn cut_scripts(alloc: Global, line: &str) -> Result<Vec<BadInput>, NoMemory> {
    let mut inputs = Vec::new(alloc);
    let bytes = line.as_bytes();
    for len in 1..bytes.len().saturating_sub(1) {
        inputs.push(bad(alloc, &bytes[..len], "json")?)?;
    }
    Ok(inputs)
}

/// An input of a byte more than it may have, all of them spaces.
pub fn long_input(alloc: Global) -> Result<BadInput, NoMemory> {
    Ok(BadInput {
        bytes: vec![in alloc; b' '; 67_108_865]?,
        told: String::from_str(alloc, "{\"line\":0,\"status\":3,\"why\":\"long\"}\n")?,
    })
}
