//! Large scripts, and their reports as they follow from the numbers of the lines.
//!
//! One has two rounds of 1,004 lines. A round adds 1,000 documents, numbered on from those of the round
//! before, deletes the first of them, makes a commit, and searches it for all documents and for those
//! whose number ends in 7.
use ix_base::NoMemory;
use std::alloc::Global;
use std::fmt::Write;
use std::test::Fail;

/// Appends the line at this place of the script, counted from 0.
fn put_script_line(out: &mut String, index: u32, long: &str) -> Result<(), NoMemory> {
    match index % 1004 {
        0..1000 => put_add(out, index / 1004 * 1000 + index % 1004, long)?,
        1000 => put_delete(out, index / 1004 * 1000)?,
        1001 => out.push_str("{\"c\":0,\"op\":\"commit\"}\n")?,
        1002 => out.push_str("{\"c\":0,\"op\":\"search\",\"query\":\"all\"}\n")?,
        _ => out.push_str("{\"c\":0,\"op\":\"search\",\"query\":{\"term\":[\"body\",\"w7\"]}}\n")?,
    }
    Ok(())
}

/// Appends the line that adds the document of this number.
fn put_add(out: &mut String, number: u32, long: &str) -> Result<(), NoMemory> {
    let word = number % 10;
    writeln!(
        out,
        "{{\"c\":0,\"op\":\"add\",\"doc\":{{\"key\":\"k{number}\",\"text\":{{\"body\":\"Number w{word}\"}},\"exact\":{{\"long\":\"{long}\"}},\"num\":{{\"n\":{number}}}}}}}"
    )?;
    Ok(())
}

/// Appends the line that deletes the document of this number.
fn put_delete(out: &mut String, number: u32) -> Result<(), NoMemory> {
    writeln!(
        out,
        "{{\"c\":0,\"op\":\"delete\",\"field\":\"key\",\"term\":\"k{number}\"}}"
    )?;
    Ok(())
}

/// Appends what a search shows of those of the first documents that are there, or of these the ones whose
/// number ends in 7.
fn put_hits(out: &mut String, documents: u32, all: bool) -> Result<(), NoMemory> {
    let mut comma = "";
    for number in 0..documents {
        if number % 1000 != 0 && (all || number % 10 == 7) {
            write!(
                out,
                "{comma}{{\"key\":\"k{number}\",\"num\":{{\"n\":{number}}}}}"
            )?;
            comma = ",";
        }
    }
    Ok(())
}

/// Appends what a search of this commit shows of the documents up to there, at this line.
fn put_answer(
    out: &mut String,
    commit: u32,
    documents: u32,
    all: bool,
    line: u64,
) -> Result<(), NoMemory> {
    write!(out, "{{\"commit\":{commit},\"hits\":[")?;
    put_hits(out, documents, all)?;
    writeln!(out, "],\"line\":{line}}}")?;
    Ok(())
}

/// Appends the report's line for the line at this place of the script, counted from 0.
fn put_report_line(out: &mut String, index: u32) -> Result<(), NoMemory> {
    let round = index / 1004;
    let line = u64::from(index) + 1;
    let commit = round * 1002 + 1002;
    match index % 1004 {
        0..1001 => {
            let number = round * 1002 + index % 1004 + 1;
            writeln!(out, "{{\"line\":{line},\"seq\":{number}}}")?;
        }
        1001 => {
            let docs = round * 999 + 999;
            writeln!(out, "{{\"docs\":{docs},\"line\":{line},\"seq\":{commit}}}")?;
        }
        place => put_answer(out, commit, round * 1000 + 1000, place == 1002, line)?,
    }
    Ok(())
}

/// The script.
fn large_script(alloc: Global) -> Result<String, NoMemory> {
    let long = "x".repeat(alloc, 1000)?;
    let mut script = String::new(alloc);
    for index in 0..2008u32 {
        put_script_line(&mut script, index, long.as_str())?;
    }
    Ok(script)
}

/// Its report.
fn large_report(alloc: Global) -> Result<String, NoMemory> {
    let mut report = String::new(alloc);
    for index in 0..2008u32 {
        put_report_line(&mut report, index)?;
    }
    Ok(report)
}

/// The script and its report.
pub fn script_and_report(alloc: Global) -> Result<(String, String), NoMemory> {
    let script = large_script(alloc)?;
    Ok((script, large_report(alloc)?))
}

/// The answers to four questions for all documents of the last commit.
fn four_answers(alloc: Global) -> Result<String, NoMemory> {
    let mut answers = String::new(alloc);
    for line in 1..5u64 {
        put_answer(&mut answers, 2004, 2000, true, line)?;
    }
    Ok(answers)
}

/// Four questions for all documents of the last commit, one a line, and their answers.
pub fn asked_four_times(alloc: Global) -> Result<(String, String), NoMemory> {
    let answers = four_answers(alloc)?;
    Ok(("\"all\"\n".repeat(alloc, 4)?, answers))
}

/// Members of 1,200 names, each with this value.
pub fn members(alloc: Global, letter: &str, value: &str) -> Result<String, Fail> {
    let mut list = String::new(alloc);
    for number in 1_000..2_200u32 {
        if number > 1_000 {
            list.push_str(",")?;
        }
        write!(list, "\"{letter}{number}\":{value}")?;
    }
    Ok(list)
}

/// A script that adds a document with 1,200 names of each kind, of which these are the numbers.
pub fn script_of_names(alloc: Global, num: &str) -> Result<String, Fail> {
    let text = members(alloc, "t", "\"a b\"")?;
    let exact = members(alloc, "e", "\"x\"")?;
    Ok(format!(in alloc;
        "{{\"c\":0,\"op\":\"add\",\"doc\":{{\"key\":\"m\",\"text\":{{{text}}},\"exact\":{{{exact}}},\"num\":{{{num}}}}}}}\n"
    )?)
}

/// A script of 4,161 deletes and a commit.
fn deletes(alloc: Global) -> Result<String, NoMemory> {
    let mut script = "{\"c\":0,\"op\":\"delete\",\"field\":\"key\",\"term\":\"aaaaa\"}\n".repeat(
        alloc, 4161,
    )?;
    script.push_str("{\"c\":0,\"op\":\"commit\"}\n")?;
    Ok(script)
}

/// A script of 4,161 deletes and a commit, and its report.
pub fn deletes_and_report(alloc: Global) -> Result<(String, String), NoMemory> {
    let mut report = String::new(alloc);
    for line in 1..4162 {
        writeln!(report, "{{\"line\":{line},\"seq\":{line}}}")?;
    }
    report.push_str("{\"docs\":0,\"line\":4162,\"seq\":4162}\n")?;
    Ok((deletes(alloc)?, report))
}
