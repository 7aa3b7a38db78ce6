//! Stores whose files are those that the formats show.
use ix_base::FileName;
use ix_memory::MemoryStore;
use ix_outside::{Store, StoreFault};
use std::alloc::Global;

/// `segments_2`: one segment of one row, and the next id 2.
pub(crate) const COMMIT: [u8; 60] = [
    0x49, 0x58, 0x43, 0x4f, 0x4d, 0x30, 0x30, 0x31, 0, 0, 0, 0, 0, 0, 0, 2, 0, 0, 0, 0, 0, 0, 0, 1,
    0, 0, 0, 0, 0, 0, 0, 2, 0, 0, 0, 0, 0, 0, 0, 1, 0, 0, 0, 0, 0, 0, 0, 1, 0, 0, 0, 1, 0, 0, 0, 0,
    0, 0, 0, 2,
];

/// `segments_3` without a segment, and the next id 1.
pub(crate) const EMPTY_COMMIT: [u8; 40] = [
    0x49, 0x58, 0x43, 0x4f, 0x4d, 0x30, 0x30, 0x31, 0, 0, 0, 0, 0, 0, 0, 3, 0, 0, 0, 0, 0, 0, 0, 0,
    0, 0, 0, 0, 0, 0, 0, 1, 0, 0, 0, 0, 0, 0, 0, 0,
];

/// `seg_1.row`: the key `a1` and nothing else.
pub(crate) const ROWS: [u8; 54] = [
    0x49, 0x58, 0x52, 0x4f, 0x57, 0x30, 0x30, 0x32, 0, 0, 0, 0, 0, 0, 0, 1, 0, 0, 0, 1, 0, 0, 0, 0,
    0, 0, 0, 1, 0, 0, 0, 0, 0, 0, 0, 2, 0x61, 0x31, 0, 0, 0, 0, 0, 0, 0, 0, 0, 0, 0, 0, 0, 0, 0, 0,
];

/// The same in the first form.
pub(crate) const OLD_ROWS: [u8; 50] = [
    0x49, 0x58, 0x52, 0x4f, 0x57, 0x30, 0x30, 0x31, 0, 0, 0, 0, 0, 0, 0, 1, 0, 0, 0, 1, 0, 0, 0, 0,
    0, 0, 0, 1, 0, 0, 0, 2, 0x61, 0x31, 0, 0, 0, 0, 0, 0, 0, 0, 0, 0, 0, 0, 0, 0, 0, 0,
];

/// `seg_1.pst`: the term of the key.
pub(crate) const POSTS: [u8; 57] = [
    0x49, 0x58, 0x50, 0x53, 0x54, 0x30, 0x30, 0x31, 0, 0, 0, 0, 0, 0, 0, 1, 0, 0, 0, 1, 0, 0, 0, 0,
    0, 0, 0, 1, 0, 0, 0, 3, 0x6b, 0x65, 0x79, 0, 0, 0, 2, 0x61, 0x31, 0, 0, 0, 1, 0, 0, 0, 0, 0, 0,
    0, 1, 0, 0, 0, 0,
];

/// `seg_1_2.liv`: one live row.
const LIVE: [u8; 29] = [
    0x49, 0x58, 0x4c, 0x49, 0x56, 0x30, 0x30, 0x31, 0, 0, 0, 0, 0, 0, 0, 1, 0, 0, 0, 0, 0, 0, 0, 2,
    0, 0, 0, 1, 1,
];

/// `seg_1_2.val`: no number was set.
const VALUES: [u8; 36] = [
    0x49, 0x58, 0x56, 0x41, 0x4c, 0x30, 0x30, 0x31, 0, 0, 0, 0, 0, 0, 0, 1, 0, 0, 0, 0, 0, 0, 0, 2,
    0, 0, 0, 1, 0, 0, 0, 0, 0, 0, 0, 0,
];

/// The store of the commit 2, which has one segment of one row.
pub(crate) fn store(alloc: Global) -> Result<MemoryStore, StoreFault> {
    let mut store = MemoryStore::new(alloc);
    store.write(FileName::Rows(1), &ROWS)?;
    store.write(FileName::Posts(1), &POSTS)?;
    store.write(FileName::Live(1, 2), &LIVE)?;
    store.write(FileName::Values(1, 2), &VALUES)?;
    store.write(FileName::Commit(2), &COMMIT)?;
    Ok(store)
}

/// Writes a file of the store with one of these bytes changed.
pub(crate) fn write_changed(
    alloc: Global,
    store: &mut MemoryStore,
    file: FileName,
    bytes: &[u8],
    change: (usize, u8),
) -> Result<(), StoreFault> {
    let mut changed = bytes.to_vec(alloc)?;
    if let Some(byte) = changed.get_mut(change.0) {
        *byte = change.1;
    }
    write_file(store, file, changed.as_slice())
}

/// Writes a file of the store, if its name has no number 0.
pub(crate) fn write_file(
    store: &mut MemoryStore,
    file: FileName,
    bytes: &[u8],
) -> Result<(), StoreFault> {
    match file {
        FileName::Commit(number) if number > 0 => store.write(FileName::Commit(number), bytes),
        FileName::Rows(id) if id > 0 => store.write(FileName::Rows(id), bytes),
        FileName::Posts(id) if id > 0 => store.write(FileName::Posts(id), bytes),
        _ => Ok(()),
    }
}
