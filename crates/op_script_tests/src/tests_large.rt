//! A document with a long key, a long text, and many members of each kind; and a script of many lines.
use ix_base::{Document, Operation};
use op_script::{Act, Line, read_script};
use std::alloc::Global;
use std::fmt::Write;
use std::test::Fail;

/// Members of 1,200 names, each with this value.
fn members(alloc: Global, letter: &str, value: &str) -> Result<String, Fail> {
    let mut list = String::new(alloc);
    for number in 1_000..2_200u32 {
        if !list.is_empty() {
            list.push_str(",")?;
        }
        write!(list, "\"{letter}{number}\":{value}")?;
    }
    Ok(list)
}

/// A script of one line, which adds the document.
fn script(alloc: Global) -> Result<String, Fail> {
    let long = "v".repeat(alloc, 300_000)?;
    let text = members(alloc, "t", "\"a b\"")?;
    let exact = members(alloc, "e", "\"x\"")?;
    let num = members(alloc, "n", "-5")?;
    Ok(format!(in alloc;
        "{{\"c\":0,\"op\":\"add\",\"doc\":{{\"key\":\"{long}\",\"text\":{{\"body\":\"{long}\",{text}}},\"exact\":{{{exact}}},\"num\":{{{num}}}}}}}"
    )?)
}

/// How many bytes the key and the first text have, and how many texts, exact texts and numbers there
/// are.
fn sizes(doc: &Document) -> [usize; 5] {
    let first = match doc.text.as_slice().first() {
        Some(pair) => pair.1.as_str().len(),
        None => 0,
    };
    [
        doc.key.as_str().len(),
        first,
        doc.text.as_slice().len(),
        doc.exact.as_slice().len(),
        doc.num.as_slice().len(),
    ]
}

/// The sizes of the document that a line adds.
fn added(line: Option<&Line>) -> [usize; 5] {
    match line {
        Some(line) => match &line.act {
            Act::Do(Operation::Add(doc)) => sizes(doc),
            _ => [0; 5],
        },
        None => [0; 5],
    }
}

/// What is read of it.
fn read_sizes(alloc: Global) -> Result<[usize; 5], Fail> {
    let bytes = script(alloc)?;
    let script = read_script(alloc, bytes.as_bytes()).ok().ok_or("refused")?;
    Ok(added(script.lines.as_slice().first()))
}

#[test]
fn a_large_document(rt: HostRuntime) -> Result<(), Fail> {
    assert!(rt; read_sizes(rt.alloc())? == [300_000, 300_000, 1_201, 1_200, 1_200]);
    Ok(())
}

/// A script of 5,000 lines, by all callers in turn.
#[test]
fn many_lines(rt: HostRuntime) -> Result<(), Fail> {
    let mut text = String::new(rt.alloc());
    for number in 0..5_000u32 {
        writeln!(text, r#"{{"c":{},"op":"commit"}}"#, number % 256)?;
    }
    let script = read_script(rt.alloc(), text.as_bytes())
        .ok()
        .ok_or("refused")?;
    assert!(rt; script.lines.len() == 5_000);
    Ok(())
}
