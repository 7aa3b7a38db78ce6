//! Stores whose files stand here field by field, and stores that lack some.

use commit_point::OpenFault;
use ix_base::{FileName, Hit, Query};
use ix_memory::{FuseStore, MemoryStore};
use ix_outside::Store;
use op_script::Question;
use std::alloc::Global;
use std::fmt::Write;
use std::mem;
use std::test::*;
use store_answers::{ask, list, own_hits};
use test_values::key_term;

/// A store of commit 2.
const FIRST: &str = "\
# Segment 1 has a document whose key is `a1`, of birth 1. Commit 2 has one document, the next id 2, and that
# segment.
file seg_1.row 4958524f57303031 0000000000000001 00000001 0000000000000001 000000026131 00000000 \
    00000000 0000000000000000
file seg_1.pst 4958505354303031 0000000000000001 00000001 0000000000000001 000000036b6579 \
    000000026131 00000001 00000000 00000001 00000000
file seg_1_2.liv 49584c4956303031 0000000000000001 0000000000000002 00000001 01
file seg_1_2.val 495856414c303031 0000000000000001 0000000000000002 00000001 0000000000000000
file segments_2 4958434f4d303031 0000000000000002 0000000000000001 0000000000000002 0000000000000001 \
    0000000000000001 00000001 0000000000000002
";

/// What makes it a store of the commits 2 and 4.
const SECOND: &str = "\
# Segment 2 has a document whose key is `a2`, of birth 3. Commit 4 has two documents, the next id 3, and both
# segments.
file seg_2.row 4958524f57303031 0000000000000002 00000001 0000000000000003 000000026132 00000000 \
    00000000 0000000000000000
file seg_2.pst 4958505354303031 0000000000000002 00000001 0000000000000001 000000036b6579 \
    000000026132 00000001 00000000 00000001 00000000
file seg_2_4.liv 49584c4956303031 0000000000000002 0000000000000004 00000001 01
file seg_2_4.val 495856414c303031 0000000000000002 0000000000000004 00000001 0000000000000000
file segments_4 4958434f4d303031 0000000000000004 0000000000000002 0000000000000003 0000000000000002 \
    0000000000000001 00000001 0000000000000002 0000000000000002 00000001 0000000000000004
";

/// The commit files of the commits 4 and 2, and no other file.
const HEADS: &str = "\
file segments_4 4958434f4d303031 0000000000000004 0000000000000002 0000000000000003 0000000000000002 \
    0000000000000001 00000001 0000000000000002 0000000000000002 00000001 0000000000000004
file segments_2 4958434f4d303031 0000000000000002 0000000000000001 0000000000000002 0000000000000001 \
    0000000000000001 00000001 0000000000000002
";

/// A store of the commits 4 and 9.
const OWN: &str = "\
# Segment 1 has documents whose keys are `a1`, `a2` and `a3`, of the births 1, 2 and 3. In commit 4, which has
# three documents and the next id 2, all are live.
file seg_1.row 4958524f57303031 0000000000000001 00000003 0000000000000001 000000026131 00000000 \
    00000000 0000000000000000 0000000000000002 000000026132 00000000 00000000 0000000000000000 \
    0000000000000003 000000026133 00000000 00000000 0000000000000000
file seg_1.pst 4958505354303031 0000000000000001 00000003 0000000000000003 000000036b6579 \
    000000026131 00000001 00000000 00000001 00000000 000000036b6579 000000026132 00000001 00000001 \
    00000001 00000000 000000036b6579 000000026133 00000001 00000002 00000001 00000000
file seg_1_4.liv 49584c4956303031 0000000000000001 0000000000000004 00000003 07
file seg_1_4.val 495856414c303031 0000000000000001 0000000000000004 00000003 0000000000000000
file segments_4 4958434f4d303031 0000000000000004 0000000000000003 0000000000000002 0000000000000001 \
    0000000000000001 00000003 0000000000000004
# Segment 2 has the documents of the block 7, whose keys are `b1` and `b2`, and the second one's number `n` is -2.
# In commit 9, which has four documents, the next id 3 and both segments, the second one of segment 1 is
# dead, and the number `n` of the third is 7.
file seg_2.row 4958524f57303032 0000000000000002 00000002 0000000000000007 00000000 000000026231 \
    00000000 00000000 0000000000000000 0000000000000007 00000001 000000026232 00000000 00000000 \
    0000000000000001 000000016e fffffffffffffffe
file seg_2.pst 4958505354303031 0000000000000002 00000002 0000000000000002 000000036b6579 \
    000000026231 00000001 00000000 00000001 00000000 000000036b6579 000000026232 00000001 00000001 \
    00000001 00000000
file seg_1_9.liv 49584c4956303031 0000000000000001 0000000000000009 00000003 05
file seg_1_9.val 495856414c303031 0000000000000001 0000000000000009 00000003 0000000000000001 \
    00000002 000000016e 0000000000000007
file seg_2_9.liv 49584c4956303031 0000000000000002 0000000000000009 00000002 03
file seg_2_9.val 495856414c303031 0000000000000002 0000000000000009 00000002 0000000000000000
file segments_9 4958434f4d303031 0000000000000009 0000000000000004 0000000000000003 0000000000000002 \
    0000000000000001 00000003 0000000000000009 0000000000000002 00000002 0000000000000009
";

/// Stores, and what comes of what they are asked: `ask` has a commit, and questions with the numbers of their
/// lines, and `own` a commit and a number.
const SCRIPT: &str = r#"# Nothing is there.
new
ask last
= NoSuch { number: 0 }
list
# A commit that is not there.
first
ask 99 1:all
= NoSuch { number: 99 }
# Several questions read the commit once: the store's calls before its seventh one are the list of its files
# and the reads of the commit's five.
fails 7
ask last 1:all 2:all 3:all
{"commit":2,"hits":[{"key":"a1","num":{}}],"line":1}
{"commit":2,"hits":[{"key":"a1","num":{}}],"line":2}
{"commit":2,"hits":[{"key":"a1","num":{}}],"line":3}
files
= Failed
# A list that fails and a file that can't be read are told as the store's fault, by both calls.
fails 1 3 5 6
list
= Store
list
= Store
ask last 1:all
= Store
ask last 1:all
= Store
# Damage is told where it is read.
cut 52 seg_1.pst
ask last 1:all
= Damaged(Damaged { file: Posts(1), at: 49 })
list
{"commit":2,"docs":1}
cut 30 segments_2
list
= Damaged(Damaged { file: Commit(2), at: 24 })
# Each question is answered, in the last commit or in a named one.
first
second
ask last 1:all 3:all
{"commit":4,"hits":[{"key":"a1","num":{}},{"key":"a2","num":{}}],"line":1}
{"commit":4,"hits":[{"key":"a1","num":{}},{"key":"a2","num":{}}],"line":3}
ask 2 1:all
{"commit":2,"hits":[{"key":"a1","num":{}}],"line":1}
ask last
# What matches is shown.
ask 4 2:a2 5:a9
{"commit":4,"hits":[{"key":"a2","num":{}}],"line":2}
{"commit":4,"hits":[],"line":5}
# Commits are listed.
list
{"commit":2,"docs":1}
{"commit":4,"docs":2}
# A list reads commit files alone: the store's calls before its fourth one are the list of its files and the
# reads of the two commit files; it has no other file.
new
heads
fails 4
list
{"commit":2,"docs":1}
{"commit":4,"docs":2}
files
= Failed
# The rows since a commit.
new
both
own 9 4
= b1; b2 n -2;
own 9 6
= b1; b2 n -2;
own 9 7
=
own 9 0
= a1; a3 n 7; b1; b2 n -2;
own 4 0
= a1; a2; a3;
own 9 9
=
own 5 4
= Damaged(Damaged { file: Commit(5), at: 0 })
"#;

/// The value of a hexadecimal digit.
fn digit_of(digit: u8) -> u8 {
    if digit.is_ascii_digit() {
        digit.wrapping_sub(b'0')
    } else {
        digit.wrapping_sub(b'a').wrapping_add(10)
    }
}

/// The bytes that the fields spell.
fn bytes_of(alloc: Global, fields: &str) -> Result<Vec<u8>, Fail> {
    let mut bytes = Vec::new(alloc);
    let mut high = None;
    for digit in fields.as_bytes() {
        if *digit == b' ' {
            continue;
        }
        let value = digit_of(*digit);
        match high {
            None => high = Some(value),
            Some(first) => {
                bytes.push(u8::wrapping_mul(first, 16).wrapping_add(value))?;
                high = None;
            }
        }
    }
    Ok(bytes)
}

/// Writes a file: its name, and the fields that it has.
fn put(alloc: Global, store: &mut MemoryStore, words: &str) -> Result<(), Fail> {
    let (name, fields) = words.split_once(' ').ok_or("no fields")?;
    let Some(name) = FileName::parse(name) else {
        return Err(Fail::from("no name"));
    };
    Ok(store.write(name, bytes_of(alloc, fields)?.as_slice())?)
}

/// Writes the files of a text.
fn put_all(alloc: Global, store: &mut MemoryStore, files: &str) -> Result<(), Fail> {
    for line in files.lines() {
        if let Some(words) = line.strip_prefix("file ") {
            put(alloc, store, words)?;
        }
    }
    Ok(())
}

/// Leaves so many bytes of a file.
fn cut(alloc: Global, store: &mut MemoryStore, words: &str) -> Result<(), Fail> {
    let (most, name) = words.split_once(' ').ok_or("no name")?;
    let Some(name) = FileName::parse(name) else {
        return Err(Fail::from("no name"));
    };
    let mut bytes = store.read(alloc, name)?.ok_or("no file")?;
    bytes.truncate(most.parse::<usize>()?);
    Ok(store.write(name, bytes.as_slice())?)
}

/// From now on the store's calls of these numbers fail.
fn fail(alloc: Global, store: &mut MemoryStore, words: &str) -> Result<(), Fail> {
    let mut calls = Vec::new(alloc);
    for call in words.split(' ') {
        calls.push(call.parse::<u64>()?)?;
    }
    let whole = mem::replace(store, MemoryStore::new(alloc));
    *store = whole.failing(calls);
    Ok(())
}

/// A question, as `3:all` for all documents or `3:a1` for those of a key.
fn question_of(alloc: Global, words: &str) -> Result<Question, Fail> {
    let (line, key) = words.split_once(':').ok_or("no line")?;
    let line = line.parse::<u32>()?;
    let query = match key {
        "all" => Query::All,
        _ => Query::Term(key_term(alloc, key)?),
    };
    Ok(Question { line, query })
}

/// Asks questions about a commit, or about the last one.
fn put_answers(
    alloc: Global,
    store: &mut MemoryStore,
    words: &str,
    out: &mut String,
) -> Result<(), Fail> {
    let (commit, asked) = words.split_once(' ').unwrap_or((words, ""));
    let mut questions = Vec::new(alloc);
    for question in asked.split_whitespace() {
        questions.push(question_of(alloc, question)?)?;
    }
    match ask(
        alloc,
        store,
        commit.parse::<u64>().ok(),
        questions.as_slice(),
    ) {
        Ok(answered) => put_text(out, answered.text.as_slice()),
        Err(fault) => Ok(write!(out, "= {fault:?}\n")?),
    }
}

fn put_text(out: &mut String, text: &[u8]) -> Result<(), Fail> {
    for byte in text {
        out.push(*byte as char)?;
    }
    Ok(())
}

fn put_list(alloc: Global, store: &mut MemoryStore, out: &mut String) -> Result<(), Fail> {
    match list(alloc, store) {
        Ok(text) => put_text(out, text.as_slice()),
        Err(fault) => Ok(write!(out, "= {fault:?}\n")?),
    }
}

/// Of each hit its key, and its numbers.
fn put_hits(out: &mut String, hits: &[Hit]) -> Result<(), Fail> {
    for hit in hits {
        write!(out, " {}", hit.key.as_str())?;
        for number in hit.num.as_slice() {
            write!(out, " {} {}", number.0.as_str(), number.1)?;
        }
        out.push(';')?;
    }
    Ok(())
}

/// Of a commit the rows that were born after a number.
fn put_own(
    alloc: Global,
    store: &mut MemoryStore,
    words: &str,
    out: &mut String,
) -> Result<(), Fail> {
    out.push('=')?;
    let (commit, after) = words.split_once(' ').ok_or("no number")?;
    match own_hits(alloc, store, commit.parse::<u64>()?, after.parse::<u64>()?) {
        Ok(hits) => put_hits(out, hits.as_slice())?,
        Err(fault) => write!(out, " {fault:?}")?,
    }
    Ok(out.push('\n')?)
}

/// Why the store's files can't be listed.
fn put_fault(alloc: Global, store: &mut MemoryStore, out: &mut String) -> Result<(), Fail> {
    match store.list(alloc) {
        Ok(_) => Err("the store didn't fail")?,
        Err(fault) => Ok(write!(out, "= {fault:?}\n")?),
    }
}

/// Does a line: it changes the store, or asks something about it.
fn do_line(
    alloc: Global,
    store: &mut MemoryStore,
    line: &str,
    out: &mut String,
) -> Result<(), Fail> {
    let (verb, words) = line.split_once(' ').unwrap_or((line, ""));
    match verb {
        "new" => *store = MemoryStore::new(alloc),
        "file" => put(alloc, store, words)?,
        "first" => put_all(alloc, store, FIRST)?,
        "second" => put_all(alloc, store, SECOND)?,
        "heads" => put_all(alloc, store, HEADS)?,
        "both" => put_all(alloc, store, OWN)?,
        "cut" => cut(alloc, store, words)?,
        "fails" => fail(alloc, store, words)?,
        "ask" => put_answers(alloc, store, words, out)?,
        "list" => put_list(alloc, store, out)?,
        "own" => put_own(alloc, store, words, out)?,
        "files" => put_fault(alloc, store, out)?,
        _ => {}
    }
    Ok(())
}

/// The lines of a script but those that show something, and behind each what comes of it.
fn told(alloc: Global, script: &str) -> Result<String, Fail> {
    let mut store = MemoryStore::new(alloc);
    let mut out = String::new(alloc);
    for line in script.lines() {
        if !line.starts_with('=') && !line.starts_with('{') {
            write!(out, "{line}\n")?;
            do_line(alloc, &mut store, line, &mut out)?;
        }
    }
    Ok(out)
}

#[test]
fn answers_of_stores(rt: HostRuntime) -> Result<(), Fail> {
    let told = told(rt.alloc(), SCRIPT)?;
    assert!(rt; told.as_str() == SCRIPT, "{}", told.as_str());
    Ok(())
}

/// Two thousand commits without a segment, and the list of them.
fn many_commits(alloc: Global) -> Result<String, Fail> {
    let mut script = String::new(alloc);
    for number in 1..2001 {
        write!(
            script,
            "file segments_{number} 4958434f4d303031 {number:016x}"
        )?;
        write!(script, " {:016x} {:016x} {:016x}\n", 0, 1, 0)?;
    }
    script.push_str("list\n")?;
    for number in 1..2001 {
        write!(script, "{{\"commit\":{number},\"docs\":0}}\n")?;
    }
    Ok(script)
}

#[test]
fn two_thousand_commits_are_listed(rt: HostRuntime) -> Result<(), Fail> {
    let script = many_commits(rt.alloc())?;
    assert!(rt; told(rt.alloc(), script.as_str())?.as_str() == script.as_str());
    Ok(())
}

/// How many calls of the store pass where the rows of commit 9 are found. With fewer the store is told
/// to have failed.
fn calls_of_own(alloc: Global) -> Result<u64, Fail> {
    for passes in 0..20u64 {
        let mut whole = MemoryStore::new(alloc);
        put_all(alloc, &mut whole, OWN)?;
        let mut store = FuseStore::new(whole, passes);
        match own_hits(alloc, &mut store, 9, 4) {
            Ok(_) => return Ok(passes),
            Err(OpenFault::Store) => {}
            Err(_) => Err("another fault")?,
        }
    }
    Ok(20)
}

/// Its calls are the reads of the commit file and of the four files of each of its two segments.
#[test]
fn each_call_fails(rt: HostRuntime) -> Result<(), Fail> {
    assert!(rt; calls_of_own(rt.alloc())? == 9);
    Ok(())
}
