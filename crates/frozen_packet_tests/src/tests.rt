//! Updates taken one by one, and what they then are, worked out by hand.

use frozen_packet::{Change, Updates};
use ix_base::Query;
use node_words::Entry;
use std::alloc::Global;
use std::fmt::Write;
use std::test::*;
use test_values::{key_term, name_of};

/// A setting as `n=4`, in the documents of the key.
fn setting_of(alloc: Global, verb: &str, key: &str) -> Result<Entry, Fail> {
    let (name, value) = verb.split_once('=').ok_or("no such entry")?;
    let value = value.parse::<i64>()?;
    let term = key_term(alloc, key)?;
    let num = name_of(alloc, name)?;
    Ok(Entry::SetNumber { term, num, value })
}

/// The entry of these words. `all` deletes all documents by a query, and `range` those by a range of `n`.
fn entry_of(alloc: Global, verb: &str, key: &str) -> Result<Entry, Fail> {
    match verb {
        "add" => Ok(Entry::Add),
        "update" => Ok(Entry::Update(key_term(alloc, key)?)),
        "delete" => Ok(Entry::DeleteTerm(key_term(alloc, key)?)),
        "all" => Ok(Entry::DeleteQuery(Query::All)),
        "range" => Ok(Entry::DeleteQuery(Query::Range(name_of(alloc, "n")?, 2, 2))),
        "commit" => Ok(Entry::Commit),
        "turn" => Ok(Entry::Turn),
        _ => setting_of(alloc, verb, key),
    }
}

/// The updates that took these entries, each given by its number, what it does, and a key.
fn taken(alloc: Global, entries: &str) -> Result<Updates, Fail> {
    let mut updates = Updates::new(alloc);
    let mut last = 0;
    for entry in entries.split_terminator(',') {
        let (number, words) = entry.trim().split_once(' ').ok_or("no number")?;
        let (verb, key) = words.split_once(' ').unwrap_or((words, ""));
        let number = number.parse::<u64>()?;
        if number < last {
            Err("numbers don't rise")?;
        }
        last = number;
        updates.take(last, entry_of(alloc, verb, key)?)?;
    }
    Ok(updates)
}

/// The updates as entries: the deletes by term, those by a query, and then the settings and the deletes by
/// a range.
fn show(out: &mut String, updates: &Updates) -> Result<(), Fail> {
    out.push('=')?;
    for (key, number) in updates.deletes().as_map() {
        write!(out, " {number} delete {},", key.term().bytes.as_str())?;
    }
    for query in updates.queries() {
        write!(out, " {} all,", query.number)?;
    }
    for change in updates.changes() {
        show_change(out, change)?;
    }
    Ok(out.push('\n')?)
}

fn show_change(out: &mut String, change: &Change) -> Result<(), Fail> {
    match change {
        Change::Set(setting) => {
            let (name, key) = (setting.num.as_str(), setting.term.bytes.as_str());
            Ok(write!(out, " {} {name}={} {key},", setting.number, setting.value)?)
        }
        Change::Delete(delete) => Ok(write!(out, " {} range,", delete.number)?),
    }
}

/// A line of entries, and what the updates are that took them, before they are gathered and after.
fn put_line(alloc: Global, line: &str, out: &mut String) -> Result<(), Fail> {
    let mut updates = taken(alloc, line)?;
    write!(out, "{line}\n")?;
    show(out, &updates)?;
    updates.gather(alloc)?;
    show(out, &updates)
}

/// The lines of entries of a text, each with what its updates are.
fn told(alloc: Global, text: &str) -> Result<String, Fail> {
    let mut out = String::new(alloc);
    for line in text.lines() {
        if !line.starts_with('=') {
            put_line(alloc, line, &mut out)?;
        }
    }
    Ok(out)
}

/// Entries of each kind: of the deletes by one term the last one is kept. Then settings between deletes by a
/// range: one that such a delete reads is kept beside a later one.
const ENTRIES: &str = "\
1 update b, 2 delete a, 3 all, 4 n=-7 a, 5 add, 6 delete a, 7 commit, 8 turn,
= 6 delete a, 1 delete b, 3 all, 4 n=-7 a,
= 6 delete a, 1 delete b, 3 all, 4 n=-7 a,
8 n=1 a, 8 n=2 a, 8 range, 8 n=3 a, 8 range, 8 range, 8 n=4 a, 8 n=5 a,
= 8 n=1 a, 8 n=2 a, 8 range, 8 n=3 a, 8 range, 8 range, 8 n=4 a, 8 n=5 a,
= 8 n=2 a, 8 range, 8 n=3 a, 8 range, 8 range, 8 n=5 a,
";

#[test]
fn entries_taken(rt: HostRuntime) -> Result<(), Fail> {
    let told = told(rt.alloc(), ENTRIES)?;
    assert!(rt; told.as_str() == ENTRIES, "{}", told.as_str());
    Ok(())
}

/// Appends settings of a name to the values from one up to another one, of fifty terms by turns.
fn put_settings(out: &mut String, name: &str, from: u32, to: u32) -> Result<(), Fail> {
    for value in from..to {
        write!(out, " 8 {name}={value} {},", value % 50)?;
    }
    Ok(())
}

/// 5,000 settings of fifty terms by turns: of one name, and then of another one. The last fifty of each name
/// are left.
fn many_settings(alloc: Global) -> Result<String, Fail> {
    let mut all = String::new(alloc);
    put_settings(&mut all, "m", 0, 2500)?;
    put_settings(&mut all, "n", 2500, 5000)?;
    let mut text = String::new(alloc);
    write!(text, "{}\n={}\n=", all.as_str(), all.as_str())?;
    put_settings(&mut text, "m", 2450, 2500)?;
    put_settings(&mut text, "n", 4950, 5000)?;
    text.push('\n')?;
    Ok(text)
}

#[test]
fn settings_gathered(rt: HostRuntime) -> Result<(), Fail> {
    let text = many_settings(rt.alloc())?;
    assert!(rt; told(rt.alloc(), text.as_str())?.as_str() == text.as_str());
    Ok(())
}
