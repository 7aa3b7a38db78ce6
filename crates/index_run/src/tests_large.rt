//! Large runs. One has 2,000 documents and two files of a megabyte; its report is computed from the
//! numbers of its lines, and is the same where all documents are merged into one segment. One has a
//! document of 3,600 names, one 300 segments, and one 10,000 documents, of which
//! 300 queries delete 3,000.
use crate::tests::{EVERYTHING, FIRST, Outside, ended, run};
use commit_point::head;
use ix_base::FileName;
use ix_memory::MemoryStore;
use ix_outside::Store;
use plain_fold::{
    TwoRuns, asked_four_times, members, script_and_report, script_of_names, ten_thousand,
    three_hundred,
};
use std::test::*;

/// The report, a file of more than a megabyte, and answers of more than 200,000 bytes.
#[test]
fn many_documents(rt: HostRuntime) -> Result<(), Fail> {
    let (script, report) = script_and_report(rt.alloc())?;
    let store = MemoryStore::new(rt.alloc());
    let done = run(&rt, "run --threads 1", script.as_bytes(), store)?;
    let mut store = ended(&rt, done, 0, report.as_str());
    let rows = store
        .read(rt.alloc(), FileName::Rows(2))?
        .ok_or("an absent file")?;
    assert!(rt; rows.len() > 1_000_000, "a small file");
    let (questions, answers) = asked_four_times(rt.alloc())?;
    let asked = run(&rt, "ask", questions.as_bytes(), store)?;
    let _store = ended(&rt, asked, 0, answers.as_str());
    Ok(())
}

/// How many segments the commit of this number has, and how many rows.
fn sizes<R: Outside>(rt: &R, store: &mut MemoryStore, number: u64) -> Result<(usize, u64), Fail> {
    let commit = head(rt.alloc(), store, number).ok().ok_or("a fault")?;
    Ok((commit.segments.len(), commit.docs))
}

/// The same script with `--merge 2` and steps of up to 2,000 rows: the report is the same, and the later
/// commit has one segment, which was merged of the 999 rows of the earlier one and the 999 of its own
/// round.
#[test]
fn many_documents_merged(rt: HostRuntime) -> Result<(), Fail> {
    let (script, report) = script_and_report(rt.alloc())?;
    let words = "run --threads 1 --buffer 2000 --merge 2";
    let done = run(&rt, words, script.as_bytes(), MemoryStore::new(rt.alloc()))?;
    let mut store = ended(&rt, done, 0, report.as_str());
    assert!(rt; sizes(&rt, &mut store, 2004)? == (1, 1998));
    Ok(())
}

/// A document with 1,200 names of each kind; the next run begins on its commit.
#[test]
fn many_names(rt: HostRuntime) -> Result<(), Fail> {
    let alloc = rt.alloc();
    let num = members(alloc, "n", "-5")?;
    let mut script = script_of_names(alloc, num.as_str())?;
    script.push_str("{\"c\":0,\"op\":\"commit\"}\n")?;
    let first = run(&rt, "run", script.as_bytes(), MemoryStore::new(alloc))?;
    let second = run(&rt, "run", BY_NAMES.as_bytes(), first.store)?;
    let found = format!(in alloc;
        "{{\"commit\":2,\"hits\":[{{\"key\":\"m\",\"num\":{{{num}}}}}],\"line\":1}}\n"
    )?;
    let _store = ended(&rt, second, 0, found.as_str());
    Ok(())
}

/// A search by the last names.
const BY_NAMES: &str =
    r#"{"c":0,"op":"search","query":{"bool":{"must":[{"phrase":["t2199","a b"]},{"term":["e2199","x"]}]}}}
"#;

/// Both runs of a script with these words, and a question for all documents, against what they are to
/// write. Returns how many segments the commit of this number has, which the first run made.
fn two_runs<R: Outside>(
    rt: &R,
    first: &str,
    second: &str,
    runs: &TwoRuns,
    number: u64,
) -> Result<usize, Fail> {
    let done = run(
        rt,
        first,
        runs.script.as_bytes(),
        MemoryStore::new(rt.alloc()),
    )?;
    let mut store = ended(rt, done, 0, runs.first.as_str());
    let (segments, _) = sizes(rt, &mut store, number)?;
    let done = run(rt, second, FIRST.as_bytes(), store)?;
    let store = ended(rt, done, 0, runs.second.as_str());
    let done = run(rt, "ask", EVERYTHING.as_bytes(), store)?;
    let _store = ended(rt, done, 0, runs.answer.as_str());
    Ok(segments)
}

/// 300 buffers of one document in one round, after which a merge of 64 of them reads one row: the commit
/// has 300 segments, and the next run begins on them.
#[test]
fn many_segments(rt: HostRuntime) -> Result<(), Fail> {
    let runs = three_hundred(rt.alloc())?;
    let first = "run --threads 1 --buffer 1 --merge 64";
    assert!(rt; two_runs(&rt, first, "run --threads 1", &runs, 301)? == 300);
    Ok(())
}

/// Three segments, the first of 6,000 rows, which 300 deletes by queries and 41 settings in one round
/// meet. The next run begins a merge of them with one more, and adds to the 7,002 rows that are left.
#[test]
fn many_operations(rt: HostRuntime) -> Result<(), Fail> {
    let runs = ten_thousand(rt.alloc())?;
    let (first, second) = ("run --threads 1 --buffer 6000", "run --threads 1 --merge 4");
    assert!(rt; two_runs(&rt, first, second, &runs, 10_345)? == 3);
    Ok(())
}
