//! Runs that stop at a call of the store, and what calls make of each image that a crash then leaves:
//! which commits it has, what each of them holds, and how a further run goes on from the last.
use crate::tests::{ADD_A1, ALL, EVERYTHING, Outside, ended, one_document, run};
use ix_base::FileName;
use ix_memory::{FuseStore, MemoryStore};
use ix_outside::Store;
use std::test::*;
use test_faults::{Stage, add_and_commit, how_many, report_on, told_of};

/// A second run with a commit.
const ONE_MORE: &str = r#"{"c":0,"op":"add","doc":{"key":"a2"}}
{"c":0,"op":"commit"}
"#;

/// The list, and the reads of the five files of the commit that is there.
const READING_CALLS: u64 = 6;

/// Write and sync of the four files of the new segment and of the pending file, rename, sync of the
/// directory.
const WRITING_CALLS: u64 = 12;

/// The first run's commit, and that of a second one.
const TWO: [Stage; 2] = [
    Stage {
        number: 2,
        docs: 1,
        hits: "{\"key\":\"a1\",\"num\":{}}",
    },
    Stage {
        number: 4,
        docs: 2,
        hits: "{\"key\":\"a1\",\"num\":{}},{\"key\":\"a2\",\"num\":{}}",
    },
];

/// A second run with three commits: a document with a number, another one and a delete, and a number.
const THREE_MORE: &str = r#"{"c":0,"op":"add","doc":{"key":"a2","num":{"n":1}}}
{"c":0,"op":"commit"}
{"c":0,"op":"delete","field":"key","term":"a1"}
{"c":0,"op":"add","doc":{"key":"a3"}}
{"c":0,"op":"commit"}
{"c":0,"op":"set","field":"key","term":"a2","num":"n","value":9}
{"c":0,"op":"commit"}
"#;

/// The first run's commit, and the three.
const FOUR: [Stage; 4] = [
    Stage {
        number: 2,
        docs: 1,
        hits: "{\"key\":\"a1\",\"num\":{}}",
    },
    Stage {
        number: 4,
        docs: 2,
        hits: "{\"key\":\"a1\",\"num\":{}},{\"key\":\"a2\",\"num\":{\"n\":1}}",
    },
    Stage {
        number: 7,
        docs: 2,
        hits: "{\"key\":\"a2\",\"num\":{\"n\":1}},{\"key\":\"a3\",\"num\":{}}",
    },
    Stage {
        number: 9,
        docs: 2,
        hits: "{\"key\":\"a2\",\"num\":{\"n\":9}},{\"key\":\"a3\",\"num\":{}}",
    },
];

/// What is asked of each commit, the first ones of which are there, so many: what it holds, or that
/// it isn't there.
fn asked<R: Outside>(
    rt: &R,
    stages: &[Stage],
    there: usize,
    image: MemoryStore,
) -> Result<MemoryStore, Fail> {
    let mut image = image;
    for (at, stage) in stages.iter().enumerate() {
        let words = format!(in rt.alloc(); "ask --commit {}", stage.number)?;
        let told = told_of(rt.alloc(), *stage, at < there)?;
        let done = run(rt, words.as_str(), EVERYTHING.as_bytes(), image)?;
        image = ended(rt, done, told.status, told.text.as_str());
    }
    Ok(image)
}

/// How many of the commits an image has: the first ones, each whole, and no other. A further run goes on
/// from the last of them, whatever files of no commit stand in the place of its own.
fn found<R: Outside>(rt: &R, stages: &[Stage], image: MemoryStore) -> Result<usize, Fail> {
    let done = run(rt, "list", b"", image)?;
    let there = how_many(rt.alloc(), stages, done.written.as_slice())?.ok_or("another list")?;
    let last = stages.get(there.saturating_sub(1)).ok_or("no commit")?;
    let image = asked(rt, stages, there, done.store)?;
    let done = run(rt, "run --threads 1", add_and_commit().as_bytes(), image)?;
    let _store = ended(rt, done, 0, report_on(rt.alloc(), *last)?.as_str());
    Ok(there)
}

/// How many commits the images have that a crash leaves: the fewest, and the most.
fn left<R: Outside>(rt: &R, stages: &[Stage], store: &MemoryStore) -> Result<(usize, usize), Fail> {
    let (mut fewest, mut most) = (stages.len(), 0);
    for choice in 0..16u32 {
        let there = found(rt, stages, store.crash(rt.alloc(), choice)?)?;
        fewest = fewest.min(there);
        most = most.max(there);
    }
    Ok((fewest, most))
}

/// A second run of one commit, with this line behind it or with none, over a store that passes so many
/// calls on, and fails each later one: its status, and how many commits the images have.
fn stopped<R: Outside>(rt: &R, behind: &str, passes: u64) -> Result<(u8, (usize, usize)), Fail> {
    let fuse = FuseStore::new(one_document(rt)?, passes);
    let script = format!(in rt.alloc(); "{ONE_MORE}{behind}")?;
    let done = run(rt, "run --threads 1", script.as_bytes(), fuse)?;
    let store = done.store.into_inner();
    Ok((done.status, left(rt, &TWO, &store)?))
}

/// Up to the rename the first commit is there alone, once the directory is synced both are, and
/// between them one or both.
fn stops_with<R: Outside>(rt: &R, behind: &str) -> Result<(), Fail> {
    let last = READING_CALLS + WRITING_CALLS;
    for passes in 0..=last {
        let wanted = if passes == last {
            (0, (2, 2))
        } else if passes + 1 == last {
            (7, (1, 2))
        } else {
            (7, (1, 1))
        };
        assert!(*rt; stopped(rt, behind, passes)? == wanted, "passes {passes}");
    }
    Ok(())
}

#[test]
fn stops_at_each_call_of_a_commit(rt: HostRuntime) -> Result<(), Fail> {
    stops_with(&rt, "")
}

/// A line behind the commit, told while it is written, changes nothing; and a search of the last commit is
/// answered without a call.
#[test]
fn stops_at_each_call_beside_a_round_and_a_search(rt: HostRuntime) -> Result<(), Fail> {
    stops_with(&rt, ADD_A1)?;
    stops_with(&rt, ALL)
}

/// Whichever call fails of a second run of three commits, the images have the first of the commits: at most
/// one of them may be there or not, and what each image has is in each that a failure at a later call leaves.
/// Returns what the run leaves that makes fewer calls.
fn rises<R: Outside>(rt: &R, words: &str) -> Result<MemoryStore, Fail> {
    let mut least = 1;
    for number in 1..200u64 {
        let store = one_document(rt)?.failing(vec![in rt.alloc(); number]?);
        let done = run(rt, words, THREE_MORE.as_bytes(), store)?;
        let (fewest, most) = left(rt, &FOUR, &done.store)?;
        assert!(*rt;
            least <= fewest && most <= fewest.saturating_add(1),
            "call {number}"
        );
        if done.status == 0 {
            assert!(*rt; least >= 3 && fewest == 4, "call {number}");
            return Ok(done.store);
        }
        assert!(*rt; done.status == 7, "call {number}");
        least = fewest;
    }
    Err("a run of many calls")?
}

/// A second run of three commits that stops at each of its calls. After the first run's segment come those of
/// two rounds; one that is merged of two is the fourth.
fn stops_at_each_call<R: Outside>(rt: &R, words: &str, has_merged: bool) -> Result<(), Fail> {
    let mut image = rises(rt, words)?.crash(rt.alloc(), 0)?;
    let merged = image.read(rt.alloc(), FileName::Rows(4))?;
    assert!(*rt; merged.is_some() == has_merged, "{words}");
    Ok(())
}

#[test]
fn stops_at_each_call_of_a_run_that_merges(rt: HostRuntime) -> Result<(), Fail> {
    stops_at_each_call(&rt, "run --threads 1 --buffer 1 --merge 2", true)
}

#[test]
fn stops_at_each_call_of_a_run_that_keeps_its_segments(rt: HostRuntime) -> Result<(), Fail> {
    stops_at_each_call(&rt, "run --threads 1 --buffer 1 --merge 8", false)
}
