//! Old commits that a writer gives up.
ghost use Rattle.std.specs.Prelude.{IfOk};
ghost use Rattle.index_writer.specs.Ready.{IsSound};

use crate::script_lines::Act;
use crate::stories::{Step, history, with_commits};
use crate::tests_reopened::opened_on;
use commit_point::OpenFault;
use index_writer::{IndexWriter, PruneFault};
use ix_memory::MemoryStore;
use ix_outside::Store;
use std::alloc::Global;
use std::test::*;
use std::thread::Threads;

/// A writer that has made the commits 2, 4 and 7. The first segment has no live row in the last one.
fn three_commits<R: Threads + Sync>(rt: &R, alloc: Global) -> Result<IndexWriter<MemoryStore>, Fail>
    ensures { IfOk result (λ writer. IsSound writer.state) }
{
    use Act::*;
    let mut writer = IndexWriter::none(alloc, MemoryStore::new(alloc), 65536, 8);
    let steps = [
        Step::Round(&[(0, Add, "a"), (0, Commit, "")]),
        Step::Commit,
        Step::Round(&[(0, Add, "b"), (0, Commit, "")]),
        Step::Commit,
        Step::Round(&[(0, Delete, "a"), (0, Add, "c"), (0, Commit, "")]),
        Step::Commit,
    ];
    history(rt, alloc, &mut writer, &steps)?;
    Ok(writer)
}

/// How many files the store has.
fn files_of(alloc: Global, writer: IndexWriter<MemoryStore>) -> Result<usize, Fail> {
    let mut store = writer.into_store();
    Ok(store.list(alloc)?.len())
}

/// A commit file, and four files of each of the two segments that it lists.
#[test]
fn the_last_commit_stays_alone(rt: HostRuntime) -> Result<(), Fail> {
    let alloc = rt.alloc();
    let mut writer = three_commits(&rt, alloc)?;
    assert!(rt; writer.prune(1) == Ok(2));
    assert!(rt; (writer.upto(), writer.last(), writer.next_id()) == (7, 7, 4));
    assert!(rt; !writer.is_closed());
    assert!(rt; files_of(alloc, writer)? == 9);
    Ok(())
}

/// A writer goes on after a prune, and a later commit writes only what is new.
#[test]
fn goes_on_after_a_prune(rt: HostRuntime) -> Result<(), Fail> {
    use Act::*;
    let alloc = rt.alloc();
    let mut writer = three_commits(&rt, alloc)?;
    assert!(rt; writer.prune(1) == Ok(2));
    let steps = [Step::Round(&[(1, Add, "d"), (0, Commit, "")]), Step::Commit];
    let told = history(&rt, alloc, &mut writer, &steps)?;
    assert!(rt; writer.prune(2) == Ok(0));
    let told = with_commits(alloc, told, writer.into_store(), &[7, 9])?;
    assert!(rt;
        told.as_str()
            == "committed 9, 9 pending; 3 rows in 9; 9, last commit 9, next id 5 / 4: 2 b3 3 c6 / 5: 2 b3 3 c6 4 d8"
    );
    Ok(())
}

/// Commits are opened beside the writer, those that were given up aren't there.
#[test]
fn commits_are_opened(rt: HostRuntime) -> Result<(), Fail> {
    let alloc = rt.alloc();
    let mut writer = three_commits(&rt, alloc)?;
    let opened = writer.opened(4).ok().ok_or("the commit is there")?;
    assert!(rt; opened.segments.len() == 2);
    assert!(rt; writer.prune(1) == Ok(2));
    assert!(rt; writer.opened(4).err() == Some(OpenFault::NoSuch { number: 4 }));
    assert!(rt; writer.opened(7).is_ok());
    Ok(())
}

/// A writer whose store fails in a prune is closed then. Ten calls open the commit, and the fourth of the
/// prune is the first delete.
#[test]
fn closed_after_a_failed_prune(rt: HostRuntime) -> Result<(), Fail> {
    let alloc = rt.alloc();
    let store = three_commits(&rt, alloc)?.into_store();
    let mut writer = opened_on(alloc, store.failing(vec![in alloc; 14u64]?), 7)?;
    assert!(rt; writer.prune(1) == Err(PruneFault::Store));
    assert!(rt; writer.is_closed());
    assert!(rt; writer.prune(1) == Err(PruneFault::Closed));
    Ok(())
}
