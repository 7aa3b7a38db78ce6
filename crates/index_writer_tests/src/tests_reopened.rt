//! Writers on commits that were read back, against what was worked out by hand.
ghost use Rattle.std.specs.Prelude.{IfOk};
ghost use Rattle.index_writer.specs.Ready.{IsSound};

use crate::script_lines::Act::{Add, Commit, Delete};
use crate::stories::{Step, history, with_commits};
use commit_point::open_commit;
use index_writer::{IndexWriter, opened_go_on};
use ix_memory::MemoryStore;
use std::alloc::Global;
use std::test::*;
use std::thread::Threads;

/// The commit 3, of two rows.
const TWO_ROWS: &[Step] = &[
    Step::Round(&[(0, Add, "a"), (1, Add, "b"), (1, Commit, "")]),
    Step::Commit,
];

/// A store with the commit 3, of two rows.
fn store_of_two<R: Threads + Sync>(rt: &R, alloc: Global) -> Result<MemoryStore, Fail> {
    let mut writer = IndexWriter::none(alloc, MemoryStore::new(alloc), 65536, 8);
    history(rt, alloc, &mut writer, TWO_ROWS)?;
    Ok(writer.into_store())
}

/// The commit 5, of two segments of two rows each, of which three were read by a merge.
const AMID_A_MERGE: &[Step] = &[
    Step::Round(&[
        (0, Add, "a"),
        (0, Add, "b"),
        (0, Add, "c"),
        (0, Add, "d"),
        (0, Commit, ""),
    ]),
    Step::Merge(3),
    Step::Commit,
];

/// A store with the commit 5, of two segments of two rows each. Three rows of them were read then by the
/// merge of the writer that made it.
fn store_amid_a_merge<R: Threads + Sync>(rt: &R, alloc: Global) -> Result<MemoryStore, Fail> {
    let mut writer = IndexWriter::none(alloc, MemoryStore::new(alloc), 2, 2);
    let told = history(rt, alloc, &mut writer, AMID_A_MERGE)?;
    if told.as_str()
        != "committed 5, 5 pending; stepped; 4 rows in 5; 5, last commit 5, next id 3"
    {
        Err("another history")?;
    }
    Ok(writer.into_store())
}

/// The history of a writer on a commit of this store, whose merges are of two segments, and then the
/// rows of each of these commits.
fn story_after<R: Threads + Sync>(
    rt: &R,
    alloc: Global,
    store: MemoryStore,
    number: u64,
    steps: &[Step<'_>],
    commits: &[u64],
) -> Result<String, Fail> {
    let mut writer = opened_on(alloc, store, number)?;
    let told = history(rt, alloc, &mut writer, steps)?;
    with_commits(alloc, told, writer.into_store(), commits)
}

/// What follows on the commit 3.
const AFTER_THREE: &[Step] = &[
    Step::Round(&[(1, Delete, "a"), (0, Add, "c"), (0, Commit, "")]),
    Step::Commit,
];

/// A writer on a commit that was read back goes on from it.
#[test]
fn reopened(rt: HostRuntime) -> Result<(), Fail> {
    let store = store_of_two(&rt, rt.alloc())?;
    let told = story_after(&rt, rt.alloc(), store, 3, AFTER_THREE, &[6, 3])?;
    assert!(rt;
        told.as_str()
            == "committed 6, 6 pending; 2 rows in 6; 6, last commit 6, next id 4 / 4: 2 b2 3 c5 / 3: 1 a1 2 b2"
    );
    Ok(())
}

/// What follows on the commit 5.
const AFTER_FIVE: &[Step] = &[
    Step::Merge(3),
    Step::Merge(3),
    Step::Round(&[(0, Commit, "")]),
    Step::Commit,
];

/// A writer that is opened on a commit which was made amid a merge begins a merge afresh: three of the
/// four rows are read again.
#[test]
fn merge_begun_afresh(rt: HostRuntime) -> Result<(), Fail> {
    let store = store_amid_a_merge(&rt, rt.alloc())?;
    let told = story_after(&rt, rt.alloc(), store, 5, AFTER_FIVE, &[5, 6])?;
    assert!(rt;
        told.as_str()
            == "stepped; merged; committed 6, 6 pending; 4 rows in 6; 6, last commit 6, next id 4 / 3: 1 a1 b2 2 c3 d4 / 4: 3 a1 b2 c3 d4"
    );
    Ok(())
}

/// A writer on the commit of this number.
pub(crate) fn opened_on(
    alloc: Global,
    store: MemoryStore,
    number: u64,
) -> Result<IndexWriter<MemoryStore>, Fail>
    ensures { IfOk result (λ writer. IsSound writer.state) }
{
    opened_go_on();
    let mut store = store;
    let opened = open_commit(alloc, &mut store, number)?;
    match IndexWriter::open(alloc, store, opened, 1, 2) {
        Ok(writer) => Ok(writer),
        Err(_) => Err("out of memory")?,
    }
}
