//! Stores one of whose files is damaged, and the line that tells it.
use crate::part::Part;
use ix_memory::MemoryStore;
use ix_outside::{Store, StoreFault};
use std::alloc::Global;
use std::test::Fail;

/// A store one of whose files is damaged, and the line that a call which reads it has to write.
#[derive(Drop)]
pub struct Damage {
    pub store: MemoryStore,
    pub told: String,
}

/// The bytes of a file, or none where it is absent.
fn bytes_of(alloc: Global, store: &mut MemoryStore, part: Part) -> Result<Vec<u8>, StoreFault> {
    match store.read(alloc, part.name())? {
        Some(bytes) => Ok(bytes),
        None => Ok(Vec::new(alloc)),
    }
}

/// The store with other bytes in the place of a file, or without it, and the line that says that it is
/// damaged at this place of this file.
fn damaged(
    alloc: Global,
    whole: &MemoryStore,
    part: Part,
    bytes: Option<&[u8]>,
    found: Part,
    at: u64,
) -> Result<Damage, Fail> {
    let mut store = whole.crash(alloc, 0)?;
    match bytes {
        Some(bytes) => store.write(part.name(), bytes)?,
        None => store.delete(part.name())?,
    }
    let file = found.text();
    let told = format!(in alloc; "{{\"at\":{at},\"file\":\"{file}\",\"status\":8}}\n")?;
    Ok(Damage { store, told })
}

/// The greatest of the offsets that isn't above the length.
fn field_at(fields: &[u64], len: u64) -> u64 {
    let mut at = 0;
    for field in fields {
        if *field <= len {
            at = *field;
        }
    }
    at
}

/// The store with one file cut to each shorter length: the field that it ends in is cut short.
fn cuts_of(
    alloc: Global,
    whole: &MemoryStore,
    part: Part,
    stores: &mut Vec<Damage>,
) -> Result<(), Fail> {
    let mut copy = whole.crash(alloc, 0)?;
    let bytes = bytes_of(alloc, &mut copy, part)?;
    for len in 0..bytes.len() {
        let at = field_at(part.fields(), len as u64);
        let cut = Some(&bytes.as_slice()[..len]);
        stores.push(damaged(alloc, whole, part, cut, part, at)?)?;
    }
    Ok(())
}

/// The store with each of its files cut to each shorter length.
pub fn cuts(alloc: Global, whole: &MemoryStore) -> Result<Vec<Damage>, Fail> {
    use Part::*;
    let mut stores = Vec::new(alloc);
    for part in [Commit, Rows, Posts, Live, Values] {
        cuts_of(alloc, whole, part, &mut stores)?;
    }
    Ok(stores)
}

/// These bytes with others from this place on, which may go past the end.
fn overwritten(alloc: Global, bytes: &[u8], from: usize, others: &[u8]) -> Result<Vec<u8>, Fail> {
    let mut changed = Vec::new(alloc);
    for (at, byte) in bytes.iter().enumerate() {
        if at < from || at - from >= others.len() {
            changed.push(*byte)?;
        } else {
            changed.push(others[at - from])?;
        }
    }
    if from == bytes.len() {
        changed.extend_from_slice(others)?;
    }
    Ok(changed)
}

/// A change of a file: which bytes stand from which place on, and which file is then damaged where.
type Change = (Part, usize, &'static [u8], Part, u64);

/// The store with each of these changes.
fn changed(alloc: Global, whole: &MemoryStore, cases: &[Change]) -> Result<Vec<Damage>, Fail> {
    let mut stores = Vec::new(alloc);
    for (part, from, others, found, at) in cases {
        let mut copy = whole.crash(alloc, 0)?;
        let bytes = bytes_of(alloc, &mut copy, *part)?;
        let bytes = overwritten(alloc, bytes.as_slice(), *from, others)?;
        let other = Some(bytes.as_slice());
        stores.push(damaged(alloc, whole, *part, other, *found, *at)?)?;
    }
    Ok(stores)
}

/// The store with one field changed, a byte more at the end of a file, or a file of its segment gone.
pub fn changes(alloc: Global, whole: &MemoryStore) -> Result<Vec<Damage>, Fail> {
    use Part::*;
    let cases: [Change; 20] = [
        // The count of documents, the next id (that of the segment, and above 2^62), and the commit that
        // wrote the segment's live bits.
        (Commit, 16, &[0, 0, 0, 0, 0, 0, 0, 2], Commit, 16),
        (Commit, 24, &[0, 0, 0, 0, 0, 0, 0, 1], Commit, 40),
        (Commit, 24, &[0x40, 0, 0, 0, 0, 0, 0, 1], Commit, 24),
        (Commit, 52, &[0, 0, 0, 0, 0, 0, 0, 3], Commit, 52),
        // A birth of 0, and one above the number of the commit.
        (Rows, 20, &[0, 0, 0, 0, 0, 0, 0, 0], Rows, 20),
        (Rows, 20, &[0, 0, 0, 0, 0, 0, 0, 3], Rows, 20),
        // A place that no document of a block has.
        (Rows, 28, &[0, 0, 0, 64], Rows, 28),
        // A name without bytes, and one of 256.
        (Posts, 28, &[0, 0, 0, 0], Posts, 28),
        (Posts, 28, &[0, 0, 1, 0], Posts, 28),
        // No live row, and a live row past the last.
        (Live, 28, &[0], Live, 28),
        (Live, 28, &[3], Live, 28),
        // One number is counted, and none is there.
        (Values, 28, &[0, 0, 0, 0, 0, 0, 0, 1], Values, 36),
        // Marks of other files.
        (Commit, 0, b"IXROW001", Commit, 0),
        (Posts, 0, b"IXPST002", Posts, 0),
        // A byte more.
        (Commit, 64, &[0], Commit, 64),
        (Rows, 54, &[0], Rows, 54),
        (Posts, 57, &[0], Posts, 57),
        (Live, 29, &[0], Live, 29),
        (Values, 36, &[0], Values, 36),
        // No UTF-8 in the key.
        (Rows, 36, &[0xff], Rows, 32),
    ];
    let mut stores = changed(alloc, whole, &cases)?;
    for part in [Rows, Posts, Live, Values] {
        stores.push(damaged(alloc, whole, part, None, part, 0)?)?;
    }
    Ok(stores)
}

/// The store with each count and each length as high as its field can have it: of documents, segments,
/// rows, pairs, terms, positions and numbers, and of the bytes of a text.
pub fn counts(alloc: Global, whole: &MemoryStore) -> Result<Vec<Damage>, Fail> {
    use Part::*;
    let four: &'static [u8] = &[0xff, 0xff, 0xff, 0xff];
    let eight: &'static [u8] = &[0xff, 0xff, 0xff, 0xff, 0xff, 0xff, 0xff, 0xff];
    let cases: [Change; 20] = [
        (Commit, 16, eight, Commit, 16),
        (Commit, 36, four, Commit, 60),
        (Commit, 32, eight, Commit, 60),
        (Commit, 48, four, Rows, 16),
        (Commit, 60, four, Commit, 64),
        (Rows, 16, four, Rows, 16),
        (Rows, 28, four, Rows, 28),
        (Rows, 32, four, Rows, 32),
        (Rows, 38, four, Rows, 42),
        (Rows, 42, four, Rows, 46),
        (Rows, 50, four, Rows, 54),
        (Rows, 46, eight, Rows, 54),
        (Posts, 16, four, Posts, 16),
        (Posts, 20, eight, Posts, 57),
        (Posts, 28, four, Posts, 28),
        (Posts, 35, four, Posts, 35),
        (Posts, 41, four, Posts, 57),
        (Posts, 49, four, Posts, 57),
        (Live, 24, four, Live, 24),
        (Values, 28, eight, Values, 36),
    ];
    changed(alloc, whole, &cases)
}

/// Whether the file has these bytes in both stores.
fn is_same(
    alloc: Global,
    store: &mut MemoryStore,
    other: &mut MemoryStore,
    part: Part,
) -> Result<bool, Fail> {
    let bytes = bytes_of(alloc, store, part)?;
    Ok(bytes.len() == part.len() && bytes_of(alloc, other, part)?.as_slice() == bytes.as_slice())
}

/// How many files a store has, where the files of the commit have the same bytes as in the other one;
/// else `None`.
pub fn is_first(
    alloc: Global,
    store: &mut MemoryStore,
    whole: &MemoryStore,
) -> Result<Option<usize>, Fail> {
    use Part::*;
    let mut whole = whole.crash(alloc, 0)?;
    for part in [Commit, Rows, Posts, Live, Values] {
        if !is_same(alloc, store, &mut whole, part)? {
            return Ok(None);
        }
    }
    Ok(Some(store.list(alloc)?.len()))
}
