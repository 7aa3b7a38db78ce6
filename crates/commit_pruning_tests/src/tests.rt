//! Which files stay.
use crate::tests_stores::{LATEST, commit_file, names, put, store};
use commit_pruning::{PruningFault, prune};
use ix_base::{Damaged, FileName};
use ix_memory::MemoryStore;
use std::alloc::Global;
use std::test::*;

/// The files of the commits 4 and 6.
const LAST_TWO: [FileName; 16] = [
    FileName::Commit(4),
    FileName::Commit(6),
    FileName::Rows(1),
    FileName::Rows(2),
    FileName::Rows(3),
    FileName::Posts(1),
    FileName::Posts(2),
    FileName::Posts(3),
    FileName::Live(1, 2),
    FileName::Live(2, 4),
    FileName::Live(2, 6),
    FileName::Live(3, 6),
    FileName::Values(1, 2),
    FileName::Values(2, 4),
    FileName::Values(2, 6),
    FileName::Values(3, 6),
];

/// How many commits are given up where so many are kept, and the names of the files that are left.
fn pruned(alloc: Global, keep: u32) -> Result<(u64, Vec<FileName>), Fail> {
    let mut store = store(alloc)?;
    let count = prune(alloc, &mut store, keep).map_err(|_| "a fault")?;
    Ok((count, names(alloc, &mut store)?))
}

#[test]
fn the_latest_stay_with_their_files(rt: HostRuntime) -> Result<(), Fail> {
    let alloc = rt.alloc();
    let (count, left) = pruned(alloc, 1)?;
    assert!(rt; count == 2);
    assert!(rt; left.as_slice() == LATEST.as_slice());
    let (count, left) = pruned(alloc, 2)?;
    assert!(rt; count == 1);
    assert!(rt; left.as_slice() == LAST_TWO.as_slice());
    Ok(())
}

/// Where no commit is given up, files of no commit go all the same.
#[test]
fn files_of_no_commit_go(rt: HostRuntime) -> Result<(), Fail> {
    let alloc = rt.alloc();
    for keep in 3..5u32 {
        let (count, left) = pruned(alloc, keep)?;
        assert!(rt; count == 0);
        assert!(rt; left.len() == LAST_TWO.len() + 1);
        assert!(rt; left[0] == FileName::Commit(2));
        assert!(rt; &left[1..] == LAST_TWO.as_slice());
    }
    Ok(())
}

#[test]
fn an_empty_store_stays_empty(rt: HostRuntime) -> Result<(), Fail> {
    let alloc = rt.alloc();
    let mut store = MemoryStore::new(alloc);
    assert!(rt; prune(alloc, &mut store, 1) == Ok(0));
    assert!(rt; names(alloc, &mut store)?.is_empty());
    Ok(())
}

/// The store with one more byte behind a commit file.
fn with_longer(alloc: Global, number: u64) -> Result<MemoryStore, Fail> {
    let mut store = store(alloc)?;
    let mut bytes = commit_file(alloc, 4, &[])?;
    bytes.push(0)?;
    match number {
        4 => put(&mut store, FileName::Commit(4), &bytes)?,
        _ => put(&mut store, FileName::Commit(6), &bytes)?,
    }
    Ok(store)
}

/// A damaged commit that is given up is no fault; one that stays is, and nothing is deleted.
#[test]
fn only_commits_that_stay_are_read(rt: HostRuntime) -> Result<(), Fail> {
    let alloc = rt.alloc();
    let mut store = with_longer(alloc, 4)?;
    let all = names(alloc, &mut store)?;
    let damaged = Damaged {
        file: FileName::Commit(4),
        at: 44,
    };
    assert!(rt; prune(alloc, &mut store, 2) == Err(PruningFault::Damaged(damaged)));
    assert!(rt; names(alloc, &mut store)?.as_slice() == all.as_slice());
    assert!(rt; prune(alloc, &mut store, 1) == Ok(2));
    assert!(rt; names(alloc, &mut store)?.as_slice() == LATEST.as_slice());
    Ok(())
}

/// A commit file of another number is damaged at its number.
#[test]
fn a_commit_file_names_its_number(rt: HostRuntime) -> Result<(), Fail> {
    let alloc = rt.alloc();
    let mut store = with_longer(alloc, 6)?;
    let damaged = Damaged {
        file: FileName::Commit(6),
        at: 8,
    };
    assert!(rt; prune(alloc, &mut store, 1) == Err(PruningFault::Damaged(damaged)));
    Ok(())
}

/// Many commits without a segment.
#[test]
fn many_commits_are_given_up(rt: HostRuntime) -> Result<(), Fail> {
    let alloc = rt.alloc();
    let mut store = MemoryStore::new(alloc);
    for number in 1..301u64 {
        let bytes = commit_file(alloc, number, &[])?;
        put(&mut store, FileName::Commit(number), &bytes)?;
    }
    assert!(rt; prune(alloc, &mut store, 7) == Ok(293));
    let left = names(alloc, &mut store)?;
    assert!(rt; left.len() == 7);
    assert!(rt; left.first() == Some(&FileName::Commit(294)));
    Ok(())
}
