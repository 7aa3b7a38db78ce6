//! Stores that fail while a commit is read.
use crate::tests_files::{COMMIT, FULL, store_of};
use commit_point::{OpenFault, head, open_commit};
use ix_memory::FuseStore;
use std::alloc::Global;
use std::test::Fail;

/// How many calls pass where the commit file is read, or the whole commit. With fewer the store is told to
/// have failed.
fn calls_of(alloc: Global, whole: bool) -> Result<u64, Fail> {
    for passes in 0..20u64 {
        let mut store = FuseStore::new(store_of(alloc, [COMMIT, FULL])?, passes);
        let fault = if whole {
            open_commit(alloc, &mut store, 2).err()
        } else {
            head(alloc, &mut store, 2).err()
        };
        match fault {
            None => return Ok(passes),
            Some(OpenFault::Store) => {}
            Some(_) => Err("another fault")?,
        }
    }
    Ok(20)
}

/// A commit file takes the list of the files and its own read, and the commit those of the segment's
/// four files too.
#[test]
fn each_call_fails(rt: HostRuntime) -> Result<(), Fail> {
    assert!(rt; calls_of(rt.alloc(), false)? == 2);
    assert!(rt; calls_of(rt.alloc(), true)? == 6);
    Ok(())
}
