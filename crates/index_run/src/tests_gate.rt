//! Whole runs that are watched line by line.
use crate::tests::{ADD_A1, FIRST, Outside, ended, run, run_watched};
use ix_memory::{CountingGate, MemoryStore, RecordingGate};
use plain_fold::deletes_and_report;
use std::test::*;

/// A run that the recorder watches: an add, a term that is too long, a commit, a search and an add
/// of another caller. It goes on from a commit that has the number 100.
fn watched_run<R: Outside>(rt: &R, gate: &RecordingGate) -> Result<u8, Fail> {
    let alloc = rt.alloc();
    let adds = ADD_A1.repeat(alloc, 98)?;
    let script = format!(in alloc; "{adds}{FIRST}")?;
    let first = run(rt, "run", script.as_bytes(), MemoryStore::new(alloc))?;
    let letters = "a".repeat(alloc, 32767)?;
    let script = format!(in alloc;
        r#"{ADD_A1}{{"c":0,"op":"add","doc":{{"key":"a2","text":{{"body":"{letters}"}}}}}}
{{"c":0,"op":"commit"}}
{{"c":0,"op":"search","query":"all"}}
{{"c":1,"op":"add","doc":{{"key":"b1"}}}}
"#
    )?;
    let words = "run --threads 1";
    Ok(run_watched(rt, words, script.as_bytes(), first.store, gate)?.status)
}

/// The gate hears of each write and commit line before it is tried, and of each number once: not of
/// a search, and not of a number where a line is refused.
#[test]
fn the_gate_hears_of_each_line(rt: HostRuntime) -> Result<(), Fail> {
    let gate = RecordingGate::new();
    assert!(rt; watched_run(&rt, &gate)? == 0);
    assert!(rt; gate.count() == 7);
    let heard = [
        (1, 0),
        (1, 101),
        (2, 0),
        (3, 0),
        (3, 102),
        (5, 0),
        (5, 103),
        (0, 0),
    ];
    for (place, wanted) in heard.iter().enumerate() {
        assert!(rt; gate.heard(place) == *wanted);
    }
    Ok(())
}

/// More deletes than one writer's part of a queue holds: the numbers run on without a gap, and the gate
/// hears twice of the line that found no room before it is tried, and of each other line once.
#[test]
fn more_than_one_round_holds(rt: HostRuntime) -> Result<(), Fail> {
    let gate = CountingGate::new(4161);
    let (script, report) = deletes_and_report(rt.alloc())?;
    let store = MemoryStore::new(rt.alloc());
    let done = run_watched(&rt, "run --threads 4", script.as_bytes(), store, &gate)?;
    let _store = ended(&rt, done, 0, report.as_str());
    assert!(rt; gate.counts() == (2, 1) && gate.all() == 4163);
    Ok(())
}
