//! A store of three commits, with files of none.
ghost use Rattle.ix_base.specs.FileNames.{IsFileName};

use commit_point::{CommitFormat, Head, HeadSegment, encode_commit};
use ix_base::{Fields, FileName, List};
use ix_memory::MemoryStore;
use ix_outside::Store;
use std::alloc::Global;
use std::test::*;

/// A segment as a commit file names it.
fn entry(id: u64, written: u64) -> HeadSegment {
    HeadSegment {
        id,
        rows: 1,
        written,
    }
}

/// The commit file of this number, which names these segments.
pub(crate) fn commit_file(
    alloc: Global,
    number: u64,
    entries: &[HeadSegment],
) -> Result<Vec<u8>, Fail> {
    let head = Head {
        number,
        docs: 1,
        next_id: 10,
        segments: List::from_vec(Vec::from_slice(alloc, entries)?),
        format: CommitFormat::Second,
        pairs: Fields::none(alloc),
    };
    Ok(encode_commit(alloc, &head)?)
}

/// Puts a file on the disk.
pub(crate) fn put(store: &mut MemoryStore, name: FileName, bytes: &[u8]) -> Result<(), Fail>
    requires { IsFileName name }
{
    store.write(name, bytes)?;
    store.sync(name)?;
    Ok(())
}

/// The files of three segments, and files that no commit lists.
fn put_segments(store: &mut MemoryStore) -> Result<(), Fail> {
    put(store, FileName::Rows(1), b"r1")?;
    put(store, FileName::Posts(1), b"p1")?;
    put(store, FileName::Live(1, 2), b"l1")?;
    put(store, FileName::Values(1, 2), b"v1")?;
    put(store, FileName::Rows(2), b"r2")?;
    put(store, FileName::Posts(2), b"p2")?;
    put(store, FileName::Live(2, 4), b"l2")?;
    put(store, FileName::Values(2, 4), b"v2")?;
    put(store, FileName::Live(2, 6), b"l3")?;
    put(store, FileName::Values(2, 6), b"v3")?;
    put(store, FileName::Rows(3), b"r3")?;
    put(store, FileName::Posts(3), b"p3")?;
    put(store, FileName::Live(3, 6), b"l4")?;
    put(store, FileName::Values(3, 6), b"v4")?;
    Ok(())
}

/// A pending file, rows of no commit, and live bits of a listed segment that no commit lists.
fn put_others(store: &mut MemoryStore) -> Result<(), Fail> {
    put(store, FileName::Pending(5), b"x")?;
    put(store, FileName::Rows(9), b"x")?;
    put(store, FileName::Live(2, 5), b"x")?;
    Ok(())
}

/// The commit 2 of the first segment, 4 of the first two, and 6 of the last two.
pub(crate) fn store(alloc: Global) -> Result<MemoryStore, Fail> {
    let mut store = MemoryStore::new(alloc);
    put_segments(&mut store)?;
    put_others(&mut store)?;
    let first = commit_file(alloc, 2, &[entry(1, 2)])?;
    put(&mut store, FileName::Commit(2), &first)?;
    let second = commit_file(alloc, 4, &[entry(1, 2), entry(2, 4)])?;
    put(&mut store, FileName::Commit(4), &second)?;
    let third = commit_file(alloc, 6, &[entry(2, 6), entry(3, 6)])?;
    put(&mut store, FileName::Commit(6), &third)?;
    Ok(store)
}

/// The names of the store's files, in order.
pub(crate) fn names(alloc: Global, store: &mut MemoryStore) -> Result<Vec<FileName>, Fail> {
    let mut names = store.list(alloc)?;
    names.sort_unstable();
    Ok(names)
}

/// The names of the files of the commit 6.
pub(crate) const LATEST: [FileName; 9] = [
    FileName::Commit(6),
    FileName::Rows(2),
    FileName::Rows(3),
    FileName::Posts(2),
    FileName::Posts(3),
    FileName::Live(2, 6),
    FileName::Live(3, 6),
    FileName::Values(2, 6),
    FileName::Values(3, 6),
];

/// The names of the files of the commit 4.
pub(crate) const MIDDLE: [FileName; 9] = [
    FileName::Commit(4),
    FileName::Rows(1),
    FileName::Rows(2),
    FileName::Posts(1),
    FileName::Posts(2),
    FileName::Live(1, 2),
    FileName::Live(2, 4),
    FileName::Values(1, 2),
    FileName::Values(2, 4),
];

/// The names of the files of the commit 2.
pub(crate) const FIRST: [FileName; 5] = [
    FileName::Commit(2),
    FileName::Rows(1),
    FileName::Posts(1),
    FileName::Live(1, 2),
    FileName::Values(1, 2),
];
