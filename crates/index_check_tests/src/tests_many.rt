//! A store of many rows and some commits.
use index_check::{CheckFault, Difference, check};
use ix_base::FileName;
use ix_base::codec::{put_text, put_u32, put_u64};
use ix_memory::MemoryStore;
use ix_outside::Store;
use std::alloc::Global;
use std::test::*;

/// How many rows the segment has.
const ROWS: u32 = 3000;

/// The number of the first commit, which is not below that of an operation that added rows.
const FIRST: u64 = 3000;

/// How many commits list the segment.
const COMMITS: u64 = 20;

/// Puts the key of a row, of six bytes. Keys rise.
fn put_key(alloc: Global, out: &mut Vec<u8>, row: u32) -> Result<(), Fail> {
    let number = u64::from(row) + 10_000;
    let key = format!(in alloc; "k{number}")?;
    put_u32(out, 6)?;
    out.extend_from_slice(key.as_bytes())?;
    Ok(())
}

/// The rows, of which 64 were added together at a time.
fn rows_file(alloc: Global) -> Result<Vec<u8>, Fail> {
    let mut out = Vec::from_slice(alloc, b"IXROW002")?;
    put_u64(&mut out, 1)?;
    put_u32(&mut out, ROWS)?;
    for row in 0..ROWS {
        put_u64(&mut out, u64::from(row / 64) + 1)?;
        put_u32(&mut out, row % 64)?;
        put_key(alloc, &mut out, row)?;
        // No texts, no exact texts and no numbers.
        put_u32(&mut out, 0)?;
        put_u32(&mut out, 0)?;
        put_u64(&mut out, 0)?;
    }
    Ok(out)
}

fn posts_file(alloc: Global) -> Result<Vec<u8>, Fail> {
    let mut out = Vec::from_slice(alloc, b"IXPST001")?;
    put_u64(&mut out, 1)?;
    put_u32(&mut out, ROWS)?;
    put_u64(&mut out, u64::from(ROWS))?;
    for row in 0..ROWS {
        put_text(&mut out, "key")?;
        put_key(alloc, &mut out, row)?;
        // One row, and in it one position, which is 0.
        put_u32(&mut out, 1)?;
        put_u32(&mut out, row)?;
        put_u32(&mut out, 1)?;
        put_u32(&mut out, 0)?;
    }
    Ok(out)
}

fn live_file(alloc: Global) -> Result<Vec<u8>, Fail> {
    let mut out = Vec::from_slice(alloc, b"IXLIV001")?;
    put_u64(&mut out, 1)?;
    put_u64(&mut out, FIRST)?;
    put_u32(&mut out, ROWS)?;
    for _eight in 0..ROWS / 8 {
        out.push(0xff)?;
    }
    Ok(out)
}

fn values_file(alloc: Global) -> Result<Vec<u8>, Fail> {
    let mut out = Vec::from_slice(alloc, b"IXVAL001")?;
    put_u64(&mut out, 1)?;
    put_u64(&mut out, FIRST)?;
    put_u32(&mut out, ROWS)?;
    put_u64(&mut out, 0)?;
    Ok(out)
}

fn commit_file(alloc: Global, number: u64) -> Result<Vec<u8>, Fail> {
    let mut out = Vec::from_slice(alloc, b"IXCOM001")?;
    put_u64(&mut out, number)?;
    put_u64(&mut out, u64::from(ROWS))?;
    put_u64(&mut out, 2)?;
    put_u64(&mut out, 1)?;
    put_u64(&mut out, 1)?;
    put_u32(&mut out, ROWS)?;
    put_u64(&mut out, FIRST)?;
    Ok(out)
}

/// The store of commits that all list one segment.
fn store(alloc: Global) -> Result<MemoryStore, Fail> {
    let mut store = MemoryStore::new(alloc);
    store.write(FileName::Rows(1), rows_file(alloc)?.as_slice())?;
    store.write(FileName::Posts(1), posts_file(alloc)?.as_slice())?;
    store.write(FileName::Live(1, FIRST), live_file(alloc)?.as_slice())?;
    store.write(FileName::Values(1, FIRST), values_file(alloc)?.as_slice())?;
    for number in FIRST..FIRST + COMMITS {
        store.write(
            FileName::Commit(number),
            commit_file(alloc, number)?.as_slice(),
        )?;
    }
    Ok(store)
}

#[test]
fn many_rows_are_sound(rt: HostRuntime) -> Result<(), Fail> {
    let alloc = rt.alloc();
    let mut store = store(alloc)?;
    let heads = check(alloc, &mut store)?;
    assert!(rt; heads.len() as u64 == COMMITS);
    for head in &heads {
        assert!(rt; head.docs == u64::from(ROWS));
    }
    Ok(())
}

/// The last position of the last term is another one.
#[test]
fn the_last_of_many_is_told(rt: HostRuntime) -> Result<(), Fail> {
    let alloc = rt.alloc();
    let mut store = store(alloc)?;
    let mut posts = posts_file(alloc)?;
    let at = (posts.len() as u64).saturating_sub(1);
    if let Some(byte) = posts.last_mut() {
        *byte = 7;
    }
    store.write(FileName::Posts(1), posts.as_slice())?;
    let other = Difference {
        file: FileName::Posts(1),
        at,
        found: 7,
        wanted: 0,
    };
    assert!(rt; check(alloc, &mut store).err() == Some(CheckFault::Differs(other)));
    Ok(())
}
