//! What no clause says: what the store of a directory asks of the system, in which order, who may use a
//! directory beside whom, and how large files are written and read.
use crate::opened::{reader_at, recorded_at, store_at};
use crate::recorded_system::Journal;
use crate::script::compare;
use ix_base::FileName;
use ix_outside::Store;
use std::alloc::Global;
use std::fs;
use std::test::Fail;

/// What is asked of the system, and who may use a directory beside whom.
const ORDER: &str = "\
# What a store of the first commits asks of the system.
watch:
write seg_1.row old: ok
  open ix_outside_order
  lock ix_outside_order
  make seg_1.row
  write seg_1.row
write seg_1.row one: ok
  make seg_1.row
  remove seg_1.row
  make seg_1.row
  write seg_1.row
sync seg_1.row: ok
  sync seg_1.row
  open ix_outside_order
  sync ix_outside_order
  open ..
  sync ..
sync seg_1.row: ok
  open seg_1.row
  sync seg_1.row
write pending_segments_1 two: ok
  make pending_segments_1
  write pending_segments_1
rename pending_segments_1 segments_1: ok
  rename pending_segments_1
sync segments_1: ok
  sync pending_segments_1
  open ix_outside_order
  sync ix_outside_order
sync_all: ok
  open ix_outside_order
  sync ix_outside_order
read segments_1: = two
  open segments_1
  read segments_1
read pending_segments_1: absent
delete seg_1.row: ok
  remove seg_1.row
delete seg_1.row: ok
read seg_1.row: absent
faults: 0
sync seg_1.row: failed
rename seg_1.row pending_segments_1: failed
faults: 2

# After 64 files that were not synced a write syncs.
watch sync:
fill: ok
watch:
write seg_65.row x: ok
  make seg_65.row
  write seg_65.row
  sync seg_65.row

# A read takes the length that is told.
write seg_1.row longer: ok
length 4:
read seg_1.row: = long
length 7:
read seg_1.row: failed

# Reads tell that they are out of memory, and after a failed sync each later one fails.
write seg_1.row one: ok
fail OutOfMemory open:
read seg_1.row: no memory
faults: 0
fail Other sync:
sync seg_1.row: failed
fail Other:
sync seg_1.row: failed
sync_all: failed
faults: 3
read seg_1.row: = one

# One store at a time changes a directory: a second one may not read, and then not change anything.
store:
list:
other:
list: failed
read seg_1.row: failed
other:
write seg_1.row one: ok
sync seg_1.row: ok
other:
write seg_1.row two: failed
sync seg_1.row: failed
rename seg_1.row seg_2.row: failed
delete seg_1.row: failed
sync_all: failed
faults: 7
other:
read seg_1.row: = one
faults: 0
close:
read seg_1.row: = one
write seg_1.row two: ok
faults: 7

# A store that only reads takes no lock, so it reads beside one that writes, and it changes nothing.
write seg_1.row one: ok
sync seg_1.row: ok
reader:
watch:
list: seg_1.row
read seg_1.row: = one
  open seg_1.row
  read seg_1.row
faults: 0
write seg_1.row two: failed
sync seg_1.row: failed
rename seg_1.row seg_2.row: failed
delete seg_1.row: failed
sync_all: failed
faults: 5
other:
watch none:
read seg_1.row: = one

# Without its lock a store asks for the lock alone, at each call, and with it for nothing more.
watch:
fail Unsupported lock:
write seg_1.row two: failed
  open ix_outside_order
  lock ix_outside_order
sync seg_1.row: failed
  open ix_outside_order
  lock ix_outside_order
rename seg_1.row seg_2.row: failed
  open ix_outside_order
  lock ix_outside_order
delete seg_1.row: failed
  open ix_outside_order
  lock ix_outside_order
sync_all: failed
  open ix_outside_order
  lock ix_outside_order
list: failed
  open ix_outside_order
  lock ix_outside_order
read seg_1.row: failed
  open ix_outside_order
  lock ix_outside_order
fail Other:
list:
  open ix_outside_order
  lock ix_outside_order
list:
";

#[test]
fn calls_in_their_order_and_beside_another_store(rt: HostRuntime) -> Result<(), Fail> {
    compare(&rt, "ix_outside_order", ORDER)
}

/// The bytes of a file of three megabytes.
fn large(alloc: Global) -> Result<Vec<u8>, Fail> {
    let mut bytes = Vec::new(alloc);
    for place in 0..3_000_000u32 {
        bytes.push((place % 251) as u8)?;
    }
    Ok(bytes)
}

/// Whether the file has these bytes.
fn has<S: Store>(alloc: Global, store: &mut S, name: FileName, want: &[u8]) -> bool {
    match store.read(alloc, name) {
        Ok(Some(bytes)) => bytes.as_slice() == want,
        _ => false,
    }
}

/// Whether the store has these bytes in both large files.
fn has_both<S: Store>(alloc: Global, store: &mut S, bytes: &[u8]) -> bool {
    has(alloc, store, FileName::Rows(1), bytes) && has(alloc, store, FileName::Pending(2), bytes)
}

/// Whether a store whose steps are short writes the first large file, and reads it.
fn writes_in_short_steps(rt: &HostRuntime, journal: &Journal, bytes: &[u8]) -> Result<bool, Fail> {
    let mut store = recorded_at(rt, LARGE, journal)?;
    store.write(FileName::Rows(1), bytes)?;
    store.sync(FileName::Rows(1))?;
    Ok(has(rt.alloc(), &mut store, FileName::Rows(1), bytes))
}

/// Whether a store whose steps are not short writes the second large file, and reads both, and the files of
/// the store are these two.
fn writes_in_long_steps(rt: &HostRuntime, bytes: &[u8]) -> Result<bool, Fail> {
    let mut store = store_at(rt, LARGE)?;
    store.write(FileName::Pending(2), bytes)?;
    store.sync(FileName::Pending(2))?;
    Ok(has_both(rt.alloc(), &mut store, bytes) && lists_both(rt.alloc(), &mut store))
}

fn lists_both<S: Store>(alloc: Global, store: &mut S) -> bool {
    match store.list(alloc) {
        Ok(mut names) => {
            names.sort_unstable();
            names.as_slice() == [FileName::Pending(2), FileName::Rows(1)].as_slice()
        }
        Err(_) => false,
    }
}

/// Whether a store whose steps are short reads both large files.
fn reads_in_short_steps(rt: &HostRuntime, journal: &Journal, bytes: &[u8]) -> Result<bool, Fail> {
    let mut store = reader_at(rt, LARGE, journal)?;
    Ok(has_both(rt.alloc(), &mut store, bytes))
}

/// The directory of the large files.
const LARGE: &str = "ix_outside_large";

#[test]
fn large_files_in_short_steps(rt: HostRuntime) -> Result<(), Fail> {
    let _ = fs::remove_dir_all(&rt, LARGE);
    fs::create_dir(&rt, LARGE)?;
    let bytes = large(rt.alloc())?;
    let journal = Journal::new(rt.alloc());
    assert!(rt; writes_in_short_steps(&rt, &journal, &bytes)?);
    assert!(rt; writes_in_long_steps(&rt, &bytes)?);
    assert!(rt; reads_in_short_steps(&rt, &journal, &bytes)?);
    fs::remove_dir_all(&rt, LARGE)?;
    Ok(())
}
