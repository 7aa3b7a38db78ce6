//! What stops leave, at each call of a prune.
use crate::tests_stores::{FIRST, LATEST, MIDDLE, names, store};
use commit_pruning::{PruningFault, prune};
use ix_base::FileName;
use ix_memory::{FuseStore, MemoryStore};
use std::alloc::Global;
use std::test::*;

/// Whether a commit has all of its files, the first of which is its commit file; `None` where it has
/// its commit file and not all others.
fn is_there(names: &[FileName], files: &[FileName]) -> Option<bool> {
    match files.first() {
        Some(commit) if names.contains(commit) => {}
        _ => return Some(false),
    }
    for file in files {
        if !names.contains(file) {
            return None;
        }
    }
    Some(true)
}

/// How many of the commits that are given up an image has, each of them whole. The latest commit has
/// to be there.
fn older_in(alloc: Global, image: &mut MemoryStore) -> Result<u64, Fail> {
    let names = names(alloc, image)?;
    if is_there(&names, &LATEST) != Some(true) {
        Err("the latest commit is gone")?;
    }
    let first = is_there(&names, &FIRST).ok_or("the first one is there in part")?;
    let middle = is_there(&names, &MIDDLE).ok_or("the second one is there in part")?;
    Ok(u64::from(first) + u64::from(middle))
}

/// The fewest and the most of the commits that are given up that images have.
fn older_left(alloc: Global, store: &MemoryStore) -> Result<(u64, u64), Fail> {
    let (mut fewest, mut most) = (2, 0);
    for choice in 0..16u32 {
        let older = older_in(alloc, &mut store.crash(alloc, choice)?)?;
        fewest = older.min(fewest);
        most = older.max(most);
    }
    Ok((fewest, most))
}

/// What images have where so many calls pass and each later one fails, and whether the prune was done.
fn stopped(alloc: Global, passes: u64) -> Result<(bool, (u64, u64)), Fail> {
    let mut fuse = FuseStore::new(store(alloc)?, passes);
    let done = match prune(alloc, &mut fuse, 1) {
        Ok(_) => true,
        Err(PruningFault::Store) => false,
        Err(_) => Err("another fault")?,
    };
    Ok((done, older_left(alloc, &fuse.into_inner())?))
}

/// A prune lists the directory, reads one commit file, deletes two, syncs the directory, deletes
/// nine other files, and syncs the directory again.
#[test]
fn each_stop_leaves_commits_whole(rt: HostRuntime) -> Result<(), Fail> {
    let alloc = rt.alloc();
    for passes in 0..15u64 {
        let (done, left) = stopped(alloc, passes)?;
        assert!(rt; !done);
        let wanted = match passes {
            0..=2 => (2, 2),
            3 => (1, 2),
            4 => (0, 2),
            _ => (0, 0),
        };
        assert!(rt; left == wanted);
    }
    let (done, left) = stopped(alloc, 15)?;
    assert!(rt; done);
    assert!(rt; left == (0, 0));
    Ok(())
}

/// A prune that goes on from an image finishes.
#[test]
fn the_next_prune_cleans_up(rt: HostRuntime) -> Result<(), Fail> {
    let alloc = rt.alloc();
    for passes in 0..15u64 {
        let mut fuse = FuseStore::new(store(alloc)?, passes);
        if prune(alloc, &mut fuse, 1).is_ok() {
            Err("a prune with fewer calls")?;
        }
        let mut image = fuse.into_inner().crash(alloc, (passes % 4) as u32)?;
        if prune(alloc, &mut image, 1).is_err() {
            Err("a fault")?;
        }
        assert!(rt; names(alloc, &mut image)?.as_slice() == LATEST.as_slice());
    }
    Ok(())
}
