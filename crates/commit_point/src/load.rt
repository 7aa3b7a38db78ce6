//! Reading the files of a commit from a store.
ghost use Rattle.std.specs.Prelude.{◌≡◌, ◌≤◌, ◌||◌, ◌++◌, ◌∷◌, [], ℕ, Some, None, Err, IfOk, OnOk};
ghost use Rattle.std.specs.BTreeSet.{contains};
ghost use Rattle.std.specs.Ordering.{nat_cmp};
ghost use Rattle.ix_base.specs.declared.damaged.Damaged.{Damaged};
ghost use Rattle.ix_base.specs.declared.file_name.FileName.TheVariants.{Commit};
ghost use Rattle.ix_outside.specs.Causes.{Rose};
ghost use Rattle.ix_outside.specs.Disk.{told_files};
ghost use Rattle.ix_outside.specs.Files.{Files, Was, Reads};
ghost use Rattle.live_files.specs.LiveSpelling.{live_bits, values_of};
ghost use Rattle.segment_core.specs.Births.{has_number};
ghost use Rattle.commit_point.specs.Fits.{HeadFits};
ghost use Rattle.commit_point.specs.Loading.{IsBroken, AreRead, BreakAt};
ghost use Rattle.commit_point.specs.Reading.{head_in};
ghost use Rattle.commit_point.specs.SegmentReads.{RowsRead, RowsBroken, PostingsRead, PostingsBroken, BitsRead, BitsBroken, ValuesRead, ValuesBroken, LiveBroken, SegmentRead, SegmentBroken};
ghost use Rattle.commit_point.specs.Spelling.{commit_file};

use crate::decode::decode_commit;
use crate::fault::OpenFault;
use crate::heads::{Head, HeadSegment};
use ix_base::{Damaged, FileFault, FileName, List, Name, NoMemory, Postings, Row};
use ix_outside::{Store, StoreFault};
use live_docs::LiveDocs;
use live_files::{decode_liv, decode_val, live_docs_of};
use segment_core::{LiveSegment, Segment};
use segment_files::{decode_pst, decode_row};
use std::alloc::Global;
use std::collections::BTreeSet;

/// The bytes of a file. An absent file is damaged at 0.
fn bytes_of<S: Store>(alloc: Global, store: &mut S, name: FileName) -> Result<Vec<u8>, OpenFault>
    ensures bytes { IfOk result (λ bytes.
        Reads (told_files (S.disk store.old)) name (Some bytes.items)) }
    ensures absent { (damaged : Damaged) → result ≡ Err (OpenFault.Damaged damaged)
        → (damaged ≡ record { file = name; at = 0 })
        × Reads (told_files (S.disk store.old)) name None }
    ensures listed { (other : ℕ) → result ≡ Err (OpenFault.NoSuch other) → ⊥ }
    ensures reads { S.disk store.new ≡ S.disk store.old }
    ensures later { S.fault_count store.old ≤ S.fault_count store.new }
    ensures failed { result ≡ Err OpenFault.Store
        → Rose (S.fault_count store.old) (S.fault_count store.new) }
{
    match store.read(alloc, name) {
        Ok(Some(bytes)) => Ok(bytes),
        Ok(None) => Err(OpenFault::Damaged(Damaged { file: name, at: 0 })),
        Err(StoreFault::Failed) => Err(OpenFault::Store),
        Err(StoreFault::NoMemory) => Err(OpenFault::NoMemory),
    }
}

/// Reads the commit file of this number.
pub(crate) fn read_head<S: Store>(
    alloc: Global,
    store: &mut S,
    number: u64,
) -> Result<Head, OpenFault>
    ensures found { IfOk result (λ head.
        Reads (told_files (S.disk store.old)) (Commit number) (Some (commit_file head))
        × (head.number ≡ number) × HeadFits head) }
    ensures damaged { (damaged : Damaged) → result ≡ Err (OpenFault.Damaged damaged)
        → IsBroken (told_files (S.disk store.old)) (Commit number) (head_in number) damaged }
    ensures listed { (other : ℕ) → result ≡ Err (OpenFault.NoSuch other) → ⊥ }
    ensures reads { S.disk store.new ≡ S.disk store.old }
    ensures later { S.fault_count store.old ≤ S.fault_count store.new }
    ensures failed { result ≡ Err OpenFault.Store
        → Rose (S.fault_count store.old) (S.fault_count store.new) }
{
    let bytes = bytes_of(alloc, store, FileName::Commit(number))?;
    match decode_commit(alloc, &bytes, number) {
        Ok(head) => Ok(head),
        Err(FileFault::Damaged(damaged)) => Err(OpenFault::Damaged(damaged)),
        Err(FileFault::NoMemory) => Err(OpenFault::NoMemory),
    }
}

/// Reads the rows of a segment of the commit of this number.
fn read_rows<S: Store>(
    alloc: Global,
    store: &mut S,
    number: u64,
    entry: HeadSegment,
    earlier: &BTreeSet<u64>,
) -> Result<List<Row>, OpenFault>
    ensures found { IfOk result (λ rows.
        RowsRead (told_files (S.disk store.old)) number (contains nat_cmp earlier.now) entry rows) }
    ensures damaged { (damaged : Damaged) → result ≡ Err (OpenFault.Damaged damaged)
        → RowsBroken (told_files (S.disk store.old)) number
        (contains nat_cmp earlier.now) entry damaged }
    ensures listed { (other : ℕ) → result ≡ Err (OpenFault.NoSuch other) → ⊥ }
    ensures reads { S.disk store.new ≡ S.disk store.old }
    ensures later { S.fault_count store.old ≤ S.fault_count store.new }
    ensures failed { result ≡ Err OpenFault.Store
        → Rose (S.fault_count store.old) (S.fault_count store.new) }
{
    let bytes = bytes_of(alloc, store, FileName::Rows(entry.id))?;
    match decode_row(alloc, &bytes, entry.id, entry.rows, number, earlier) {
        Ok(rows) => Ok(rows),
        Err(FileFault::Damaged(damaged)) => Err(OpenFault::Damaged(damaged)),
        Err(FileFault::NoMemory) => Err(OpenFault::NoMemory),
    }
}

/// Reads the postings of a segment.
fn read_postings<S: Store>(
    alloc: Global,
    store: &mut S,
    entry: HeadSegment,
) -> Result<Postings, OpenFault>
    ensures found { IfOk result (λ postings.
        PostingsRead (told_files (S.disk store.old)) entry postings) }
    ensures damaged { (damaged : Damaged) → result ≡ Err (OpenFault.Damaged damaged)
        → PostingsBroken (told_files (S.disk store.old)) entry damaged }
    ensures listed { (other : ℕ) → result ≡ Err (OpenFault.NoSuch other) → ⊥ }
    ensures reads { S.disk store.new ≡ S.disk store.old }
    ensures later { S.fault_count store.old ≤ S.fault_count store.new }
    ensures failed { result ≡ Err OpenFault.Store
        → Rose (S.fault_count store.old) (S.fault_count store.new) }
{
    let bytes = bytes_of(alloc, store, FileName::Posts(entry.id))?;
    match decode_pst(alloc, &bytes, entry.id, entry.rows) {
        Ok(postings) => Ok(postings),
        Err(FileFault::Damaged(damaged)) => Err(OpenFault::Damaged(damaged)),
        Err(FileFault::NoMemory) => Err(OpenFault::NoMemory),
    }
}

/// Reads the live bits of a segment.
fn read_bits<S: Store>(
    alloc: Global,
    store: &mut S,
    entry: HeadSegment,
) -> Result<Vec<bool>, OpenFault>
    ensures found { IfOk result (λ bits.
        BitsRead (told_files (S.disk store.old)) entry bits.items) }
    ensures damaged { (damaged : Damaged) → result ≡ Err (OpenFault.Damaged damaged)
        → BitsBroken (told_files (S.disk store.old)) entry damaged }
    ensures listed { (other : ℕ) → result ≡ Err (OpenFault.NoSuch other) → ⊥ }
    ensures reads { S.disk store.new ≡ S.disk store.old }
    ensures later { S.fault_count store.old ≤ S.fault_count store.new }
    ensures failed { result ≡ Err OpenFault.Store
        → Rose (S.fault_count store.old) (S.fault_count store.new) }
{
    let bytes = bytes_of(alloc, store, FileName::Live(entry.id, entry.written))?;
    match decode_liv(alloc, &bytes, entry.id, entry.written, entry.rows) {
        Ok(bits) => Ok(bits),
        Err(FileFault::Damaged(damaged)) => Err(OpenFault::Damaged(damaged)),
        Err(FileFault::NoMemory) => Err(OpenFault::NoMemory),
    }
}

/// Reads the numbers that were set in rows of a segment.
fn read_values<S: Store>(
    alloc: Global,
    store: &mut S,
    entry: HeadSegment,
) -> Result<Vec<(u32, Name, i64)>, OpenFault>
    ensures found { IfOk result (λ values.
        ValuesRead (told_files (S.disk store.old)) entry values.items) }
    ensures damaged { (damaged : Damaged) → result ≡ Err (OpenFault.Damaged damaged)
        → ValuesBroken (told_files (S.disk store.old)) entry damaged }
    ensures listed { (other : ℕ) → result ≡ Err (OpenFault.NoSuch other) → ⊥ }
    ensures reads { S.disk store.new ≡ S.disk store.old }
    ensures later { S.fault_count store.old ≤ S.fault_count store.new }
    ensures failed { result ≡ Err OpenFault.Store
        → Rose (S.fault_count store.old) (S.fault_count store.new) }
{
    let bytes = bytes_of(alloc, store, FileName::Values(entry.id, entry.written))?;
    match decode_val(alloc, &bytes, entry.id, entry.written, entry.rows) {
        Ok(values) => Ok(values),
        Err(FileFault::Damaged(damaged)) => Err(OpenFault::Damaged(damaged)),
        Err(FileFault::NoMemory) => Err(OpenFault::NoMemory),
    }
}

/// Reads the live docs of a segment of the commit of this number: its live bits, and then its set
/// numbers. All operations up to the commit's number are in them. `Damaged` names the first broken place
/// of the two files. The store is as before, whatever is returned.
pub fn read_live<S: Store>(
    alloc: Global,
    store: &mut S,
    number: u64,
    entry: HeadSegment,
) -> Result<LiveDocs, OpenFault>
    ensures applied { IfOk result (λ live. live.applied ≡ number) }
    ensures bits { IfOk result (λ live.
        BitsRead (told_files (S.disk store.old)) entry (live_bits live.marks)) }
    ensures values { IfOk result (λ live.
        ValuesRead (told_files (S.disk store.old)) entry (values_of live.marks)) }
    // The live bits are broken, or they were read and the set numbers are.
    ensures damaged { (damaged : Damaged) → result ≡ Err (OpenFault.Damaged damaged)
        → LiveBroken (told_files (S.disk store.old)) entry damaged }
    ensures listed { (other : ℕ) → result ≡ Err (OpenFault.NoSuch other) → ⊥ }
    ensures reads { S.disk store.new ≡ S.disk store.old }
    ensures later { S.fault_count store.old ≤ S.fault_count store.new }
    ensures failed { result ≡ Err OpenFault.Store
        → Rose (S.fault_count store.old) (S.fault_count store.new) }
{
    let bits = read_bits(alloc, store, entry)?;
    let values = read_values(alloc, store, entry)?;
    let live = live_docs_of(alloc, number, &bits, &values)?;
    Ok(live)
}

/// Reads a segment of the commit of this number: its rows, its postings, its live bits, and last its
/// set numbers. The segments before it have rows of the operations of these numbers, of which it may have
/// none. `Damaged` names the first broken place of the four files. The store is as before, whatever is
/// returned.
pub fn read_segment<S: Store>(
    alloc: Global,
    store: &mut S,
    number: u64,
    entry: HeadSegment,
    earlier: &BTreeSet<u64>,
) -> Result<LiveSegment, OpenFault>
    ensures found { IfOk result (λ segment.
        SegmentRead (told_files (S.disk store.old)) number
        (contains nat_cmp earlier.now) entry segment) }
    // The first of the four files that is broken; those before it were read.
    ensures damaged { (damaged : Damaged) → result ≡ Err (OpenFault.Damaged damaged)
        → SegmentBroken (told_files (S.disk store.old)) number
        (contains nat_cmp earlier.now) entry damaged }
    ensures listed { (other : ℕ) → result ≡ Err (OpenFault.NoSuch other) → ⊥ }
    ensures reads { S.disk store.new ≡ S.disk store.old }
    ensures later { S.fault_count store.old ≤ S.fault_count store.new }
    ensures failed { result ≡ Err OpenFault.Store
        → Rose (S.fault_count store.old) (S.fault_count store.new) }
{
    let rows = read_rows(alloc, store, number, entry, earlier)?;
    let postings = read_postings(alloc, store, entry)?;
    let live = read_live(alloc, store, number, entry)?;
    let segment = Segment {
        id: entry.id,
        rows,
        postings,
    };
    Ok(LiveSegment::new(segment, live))
}

/// Adds the numbers of the operations that a segment's rows are of to those of earlier segments. After
/// an error some of them may stand there.
fn add_numbers(earlier: &mut BTreeSet<u64>, rows: &[Row]) -> Result<(), NoMemory>
    ensures { OnOk result ((n : ℕ)
        → contains nat_cmp earlier.new n
        ≡ (contains nat_cmp earlier.old n || has_number rows.now n)) }
{
    for row in rows {
        earlier.insert(row.birth.number())?;
    }
    Ok(())
}

/// Appends a segment, and adds the numbers of the operations that its rows are of to those of earlier
/// segments. After an error some of them may stand there.
fn take_in(
    earlier: &mut BTreeSet<u64>,
    segments: &mut Vec<LiveSegment>,
    segment: LiveSegment,
) -> Result<(), NoMemory>
    ensures numbers { OnOk result ((n : ℕ)
        → contains nat_cmp earlier.new n
        ≡ (contains nat_cmp earlier.old n || has_number segment.segment.rows n)) }
    ensures segments { OnOk result (segments.new.items ≡ segments.old.items ++ segment ∷ []) }
{
    add_numbers(earlier, segment.segment().rows.as_slice())?;
    segments.push(segment)?;
    Ok(())
}

/// Reads all segments of a commit, one by one.
pub(crate) fn read_segments<S: Store>(
    alloc: Global,
    store: &mut S,
    head: &Head,
) -> Result<Vec<LiveSegment>, OpenFault>
    requires { HeadFits head.now }
    ensures found { (before : Files) → Was (told_files (S.disk store.old)) before
        → IfOk result (λ segments.
        AreRead (told_files (S.disk store.old)) head.now before segments.items) }
    ensures damaged { (before : Files) (damaged : Damaged)
        → Was (told_files (S.disk store.old)) before → result ≡ Err (OpenFault.Damaged damaged)
        → BreakAt (told_files (S.disk store.old)) head.now before damaged }
    ensures listed { (other : ℕ) → result ≡ Err (OpenFault.NoSuch other) → ⊥ }
    ensures reads { S.disk store.new ≡ S.disk store.old }
    ensures later { S.fault_count store.old ≤ S.fault_count store.new }
    ensures failed { result ≡ Err OpenFault.Store
        → Rose (S.fault_count store.old) (S.fault_count store.new) }
{
    let number = head.number;
    let entries = head.segments.as_slice();
    let mut earlier = BTreeSet::new(alloc);
    let mut segments = Vec::new(alloc);
    for entry in entries {
        let segment = read_segment(alloc, store, number, *entry, &earlier)?;
        take_in(&mut earlier, &mut segments, segment)?;
    }
    Ok(segments)
}
