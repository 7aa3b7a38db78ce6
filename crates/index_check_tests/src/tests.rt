//! Small stores, each with one thing changed.
use crate::tests_stores::{
    COMMIT, EMPTY_COMMIT, OLD_ROWS, POSTS, ROWS, store, write_changed, write_file,
};
use index_check::{CheckFault, Difference, check};
use ix_base::{Damaged, FileName};
use ix_memory::MemoryStore;
use ix_outside::Store;
use std::alloc::Global;
use std::test::*;

/// What is told of a store.
fn told(alloc: Global, store: &mut MemoryStore) -> Option<CheckFault> {
    check(alloc, store).err()
}

/// What is told of the store where one byte of a file is changed.
fn told_of(
    alloc: Global,
    file: FileName,
    bytes: &[u8],
    change: (usize, u8),
) -> Result<Option<CheckFault>, Fail> {
    let mut store = store(alloc)?;
    write_changed(alloc, &mut store, file, bytes, change)?;
    Ok(told(alloc, &mut store))
}

/// A commit's next id was found, and another one wanted.
fn next_id(number: u64, found: u64, wanted: u64) -> Option<CheckFault> {
    Some(CheckFault::Differs(Difference {
        file: FileName::Commit(number),
        at: 24,
        found,
        wanted,
    }))
}

/// A byte of `seg_1.pst` was found, and another one wanted.
fn posts(at: u64, found: u64, wanted: u64) -> Option<CheckFault> {
    Some(CheckFault::Differs(Difference {
        file: FileName::Posts(1),
        at,
        found,
        wanted,
    }))
}

#[test]
fn an_empty_store_is_sound(rt: HostRuntime) -> Result<(), Fail> {
    let alloc = rt.alloc();
    let mut store = MemoryStore::new(alloc);
    assert!(rt; check(alloc, &mut store)?.is_empty());
    Ok(())
}

/// Two commits that list one segment.
#[test]
fn sound_commits_are_told(rt: HostRuntime) -> Result<(), Fail> {
    let alloc = rt.alloc();
    let mut store = store(alloc)?;
    write_changed(alloc, &mut store, FileName::Commit(3), &COMMIT, (15, 3))?;
    let heads = check(alloc, &mut store)?;
    assert!(rt; heads.len() == 2);
    for (i, head) in heads.iter().enumerate() {
        assert!(rt; head.number == i as u64 + 2);
        assert!(rt; head.docs == 1);
        assert!(rt; head.next_id == 2);
        assert!(rt; head.segments.len() == 1);
    }
    Ok(())
}

/// A file of rows in the first form is as sound as one in the second.
#[test]
fn rows_of_the_first_form_are_sound(rt: HostRuntime) -> Result<(), Fail> {
    let alloc = rt.alloc();
    let mut store = store(alloc)?;
    write_file(&mut store, FileName::Rows(1), &OLD_ROWS)?;
    assert!(rt; told(alloc, &mut store) == None);
    Ok(())
}

#[test]
fn other_postings_are_told(rt: HostRuntime) -> Result<(), Fail> {
    let alloc = rt.alloc();
    let file = FileName::Posts(1);
    // Another position, another term, and another field.
    for (change, place) in [
        ((56, 1), posts(56, 1, 0)),
        ((40, 0x32), posts(40, 50, 49)),
        ((34, 0x7a), posts(34, 122, 121)),
    ] {
        assert!(rt; told_of(alloc, file, &POSTS, change)? == place);
    }
    Ok(())
}

/// A file of postings that has no term, or one more than the rows have.
#[test]
fn other_counts_of_terms_are_told(rt: HostRuntime) -> Result<(), Fail> {
    let alloc = rt.alloc();
    let mut store = store(alloc)?;
    write_changed(alloc, &mut store, FileName::Posts(1), &POSTS[..28], (27, 0))?;
    assert!(rt; told(alloc, &mut store) == posts(27, 0, 1));
    let mut longer = Vec::from_slice(alloc, &POSTS)?;
    longer.extend_from_slice(&POSTS[28..])?;
    longer[27] = 2;
    write_changed(alloc, &mut store, FileName::Posts(1), &longer, (69, 0x32))?;
    assert!(rt; told(alloc, &mut store) == posts(27, 2, 1));
    Ok(())
}

#[test]
fn other_next_ids_are_told(rt: HostRuntime) -> Result<(), Fail> {
    let alloc = rt.alloc();
    let file = FileName::Commit(2);
    let most = 2_305_843_009_213_693_952;
    assert!(rt; told_of(alloc, file, &COMMIT, (24, 0x20))? == next_id(2, most + 2, most));
    let mut high = COMMIT;
    high[24] = 0x20;
    assert!(rt; told_of(alloc, file, &high, (31, 1))? == next_id(2, most + 1, most));
    assert!(rt; told_of(alloc, file, &high, (31, 0))? == None);
    Ok(())
}

/// The next id of a commit has to be above the ids that the commits before it list.
#[test]
fn earlier_ids_are_kept(rt: HostRuntime) -> Result<(), Fail> {
    let alloc = rt.alloc();
    let third = FileName::Commit(3);
    assert!(rt; told_of(alloc, third, &EMPTY_COMMIT, (31, 1))? == next_id(3, 1, 2));
    assert!(rt; told_of(alloc, third, &EMPTY_COMMIT, (31, 2))? == None);
    let mut store = store(alloc)?;
    write_changed(alloc, &mut store, third, &EMPTY_COMMIT, (31, 9))?;
    let fourth = FileName::Commit(4);
    let mut later = EMPTY_COMMIT;
    later[15] = 4;
    write_changed(alloc, &mut store, fourth, &later, (31, 1))?;
    assert!(rt; told(alloc, &mut store) == next_id(4, 1, 2));
    Ok(())
}

#[test]
fn damage_is_told(rt: HostRuntime) -> Result<(), Fail> {
    let alloc = rt.alloc();
    // A mark, a row that isn't there, a number of documents that isn't that of the live rows, and a place and
    // an operation that there aren't.
    for (file, bytes, change, at) in [
        (FileName::Posts(1), POSTS.as_slice(), (0, 0), 0),
        (FileName::Posts(1), POSTS.as_slice(), (48, 1), 45),
        (FileName::Commit(2), COMMIT.as_slice(), (23, 2), 16),
        (FileName::Rows(1), ROWS.as_slice(), (31, 64), 28),
        (FileName::Rows(1), ROWS.as_slice(), (27, 3), 20),
    ] {
        let damaged = Damaged { file, at };
        assert!(rt; told_of(alloc, file, bytes, change)? == Some(CheckFault::Damaged(damaged)));
    }
    let mut store = store(alloc)?;
    store.delete(FileName::Rows(1))?;
    let absent = Damaged {
        file: FileName::Rows(1),
        at: 0,
    };
    assert!(rt; told(alloc, &mut store) == Some(CheckFault::Damaged(absent)));
    Ok(())
}

/// What is wrong in an earlier commit is told, and what is wrong in a later one is not.
#[test]
fn the_first_commit_is_told(rt: HostRuntime) -> Result<(), Fail> {
    let alloc = rt.alloc();
    let mut broken = store(alloc)?;
    write_changed(alloc, &mut broken, FileName::Posts(1), &POSTS, (56, 1))?;
    write_changed(alloc, &mut broken, FileName::Commit(3), &COMMIT, (15, 4))?;
    assert!(rt; told(alloc, &mut broken) == posts(56, 1, 0));
    let mut sound = store(alloc)?;
    write_changed(alloc, &mut sound, FileName::Commit(3), &COMMIT, (15, 4))?;
    let damaged = Damaged {
        file: FileName::Commit(3),
        at: 8,
    };
    assert!(rt; told(alloc, &mut sound) == Some(CheckFault::Damaged(damaged)));
    Ok(())
}
