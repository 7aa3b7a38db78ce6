//! The check of a commit as long as it is sound: what an earlier commit has is not read again.
ghost use Rattle.std.specs.Prelude.{◌≡◌, ◌≤◌, ◌+◌, None, Some, IfErr, IfOk, IfSome, IsTrue, Ok, Err};
ghost use Rattle.ix_outside.specs.Causes.{Rose};
ghost use Rattle.ix_outside.specs.Disk.{told_files};
ghost use Rattle.ix_outside.specs.Files.{Files};
ghost use Rattle.commit_point.specs.Fits.{HeadFits};
ghost use Rattle.index_check.specs.Known.{AreSound, IsBefore, IsKnown, IsSoundHead, IsSoundNow, IsSoundSegment, count_of, owner_of};
ghost use Rattle.index_check.specs.Sound.{IsOutside};

use crate::comparing::other_in;
use crate::earlier::Earlier;
use crate::fault::CheckFault;
use crate::known::Known;
use crate::next_id::next_id_difference;
use commit_point::{Head, HeadSegment, OpenFault, listed_head, read_live, read_segment};
use ix_outside::Store;
use std::alloc::Global;
use std::collections::BTreeSet;

/// Checks the commit of this number, which a list has shown, and gives what its commit file says; or
/// `None` where it isn't sound, or that isn't seen here. The rows and postings of segments that are
/// known are not read. One segment is held at a time.
///
/// `earlier` tells of the commits before it, which are sound, and then of this one too. With `None` only
/// its least id stays.
pub fn sound_commit<S: Store>(
    alloc: Global,
    store: &mut S,
    number: u64,
    earlier: &mut Earlier,
) -> Result<Option<Head>, CheckFault>
    requires { (files : Files) → told_files (S.disk store.old) ≡ Some files
        → IsBefore files number earlier.old }
    ensures sound { (files : Files) → told_files (S.disk store.old) ≡ Some files
        → IfOk result (λ found. IfSome found (λ head. IsSoundHead files number head earlier.new)) }
    ensures least { IfOk result (λ found. found ≡ None
        → earlier.new.least_id ≡ earlier.old.least_id) }
    ensures outside { IfErr result IsOutside }
    ensures reads { S.disk store.new ≡ S.disk store.old }
    ensures later { S.fault_count store.old ≤ S.fault_count store.new }
    ensures failed { result ≡ Err CheckFault.Store
        → Rose (S.fault_count store.old) (S.fault_count store.new) }
{
    let Some(head) = unless_damaged(listed_head(alloc, store, number))? else {
        return Ok(None);
    };
    if next_id_difference(number, head.next_id, earlier.least_id).is_some() {
        return Ok(None);
    }
    if !are_sound(alloc, store, &head, &mut earlier.known)? {
        return Ok(None);
    }
    earlier.add_ids(head.segments.as_slice());
    Ok(Some(head))
}

/// What was read, or `None` where a file is damaged.
fn unless_damaged<T: Drop>(read: Result<T, OpenFault>) -> Result<Option<T>, CheckFault>
    ensures found { IfOk result (λ found. IfSome found (λ value. read ≡ Ok value)) }
    ensures outside { IfErr result IsOutside }
    ensures failed { result ≡ Err CheckFault.Store → read ≡ Err OpenFault.Store }
{
    match read {
        Ok(value) => Ok(Some(value)),
        Err(OpenFault::Store) => Err(CheckFault::Store),
        Err(OpenFault::Damaged(_)) => Ok(None),
        Err(OpenFault::NoSuch { number: _ } | OpenFault::NoMemory) => Err(CheckFault::NoMemory),
    }
}

/// Whether the segments of a commit are sound, and have as many live rows as its file says. They are
/// known then; where they aren't sound, or after an error, what is known is not told.
fn are_sound<S: Store>(
    alloc: Global,
    store: &mut S,
    head: &Head,
    known: &mut Known,
) -> Result<bool, CheckFault>
    requires fits { HeadFits head.now }
    requires known { (files : Files) → told_files (S.disk store.old) ≡ Some files
        → IsKnown files head.now.number known.old }
    ensures sound { (files : Files) → told_files (S.disk store.old) ≡ Some files
        → IfOk result (λ sound. IsTrue sound
        → AreSound files head.now.number head.now.segments known.new head.now.docs) }
    ensures outside { IfErr result IsOutside }
    ensures reads { S.disk store.new ≡ S.disk store.old }
    ensures later { S.fault_count store.old ≤ S.fault_count store.new }
    ensures failed { result ≡ Err CheckFault.Store
        → Rose (S.fault_count store.old) (S.fault_count store.new) }
{
    let entries = head.segments.as_slice();
    known.keep(alloc, entries)?;
    let mut docs = 0u64;
    for entry in entries {
        match sound_segment(alloc, store, head.number, *entry, known)? {
            Some(live) => docs = docs.saturating_add(u64::from(live)),
            None => return Ok(false),
        }
    }
    Ok(docs == head.docs)
}

/// How many rows of this segment of the commit of this number are live; or `None` where it isn't
/// sound, or that isn't seen here. It is known then.
fn sound_segment<S: Store>(
    alloc: Global,
    store: &mut S,
    number: u64,
    entry: HeadSegment,
    known: &mut Known,
) -> Result<Option<u32>, CheckFault>
    requires { (files : Files) → told_files (S.disk store.old) ≡ Some files
        → IsKnown files (number + 1) known.old }
    ensures sound { (files : Files) → told_files (S.disk store.old) ≡ Some files
        → IfOk result (λ found. IfSome found
        (IsSoundNow files number entry known.old known.new)) }
    ensures outside { IfErr result IsOutside }
    ensures reads { S.disk store.new ≡ S.disk store.old }
    ensures later { S.fault_count store.old ≤ S.fault_count store.new }
    ensures failed { result ≡ Err CheckFault.Store
        → Rose (S.fault_count store.old) (S.fault_count store.new) }
{
    if known.has(entry) {
        live_of_known(alloc, store, number, entry, known)
    } else {
        live_of_new(alloc, store, number, entry, known)
    }
}

/// The same of a segment that is known: only its live bits and set numbers are read.
fn live_of_known<S: Store>(
    alloc: Global,
    store: &mut S,
    number: u64,
    entry: HeadSegment,
    known: &Known,
) -> Result<Option<u32>, CheckFault>
    requires here { count_of known.now entry.id ≡ Some entry.rows }
    requires known { (files : Files) → told_files (S.disk store.old) ≡ Some files
        → IsKnown files (number + 1) known.now }
    ensures sound { (files : Files) → told_files (S.disk store.old) ≡ Some files
        → IfOk result (λ found. IfSome found
        (IsSoundSegment files number (owner_of known.now) entry)) }
    ensures outside { IfErr result IsOutside }
    ensures reads { S.disk store.new ≡ S.disk store.old }
    ensures later { S.fault_count store.old ≤ S.fault_count store.new }
    ensures failed { result ≡ Err CheckFault.Store
        → Rose (S.fault_count store.old) (S.fault_count store.new) }
{
    match unless_damaged(read_live(alloc, store, number, entry))? {
        Some(live) => Ok(Some(live.live_count())),
        None => Ok(None),
    }
}

/// The same of a segment that isn't known: its four files are read, and its postings are compared
/// with the inversion of its rows.
fn live_of_new<S: Store>(
    alloc: Global,
    store: &mut S,
    number: u64,
    entry: HeadSegment,
    known: &mut Known,
) -> Result<Option<u32>, CheckFault>
    requires { (files : Files) → told_files (S.disk store.old) ≡ Some files
        → IsKnown files (number + 1) known.old }
    ensures sound { (files : Files) → told_files (S.disk store.old) ≡ Some files
        → IfOk result (λ found. IfSome found
        (IsSoundNow files number entry known.old known.new)) }
    ensures outside { IfErr result IsOutside }
    ensures reads { S.disk store.new ≡ S.disk store.old }
    ensures later { S.fault_count store.old ≤ S.fault_count store.new }
    ensures failed { result ≡ Err CheckFault.Store
        → Rose (S.fault_count store.old) (S.fault_count store.new) }
{
    let none = BTreeSet::new(alloc);
    let Some(read) = unless_damaged(read_segment(alloc, store, number, entry, &none))? else {
        return Ok(None);
    };
    let segment = read.segment();
    if other_in(alloc, segment)?.is_some() || !known.take(entry.id, segment.rows.as_slice())? {
        return Ok(None);
    }
    Ok(Some(read.live().live_count()))
}
