//! Reading a commit back.
ghost use Rattle.std.specs.Prelude.{◌≡◌, ◌≤◌, ◌↔◌, ◌==◌, ℕ, List, IfOk, IfErr, IsSome, IsTrue, Some, None, Err};
ghost use Rattle.ix_base.specs.Counts.{doc_count};
ghost use Rattle.ix_base.specs.declared.file_name.FileName.TheVariants.{Commit};
ghost use Rattle.ix_outside.specs.Disk.{told_files};
ghost use Rattle.ix_outside.specs.Causes.{Rose};
ghost use Rattle.ix_outside.specs.Files.{Files, Was};
ghost use Rattle.segment_core.specs.LiveRows.{Lived, all_live};
ghost use Rattle.commit_point.specs.Holds.{HasHead, HasSegments};
ghost use Rattle.commit_point.specs.Loading.{IsOutside, TellsNone};
ghost use Rattle.commit_point.specs.Reading.{head_from, reading};
ghost use Rattle.ix_base.specs.declared.damaged.Damaged.{Damaged};
ghost use Rattle.commit_point.specs.declared.heads.Head.{Head};
ghost use Rattle.commit_point.specs.declared.heads.HeadSegment.{HeadSegment};

use crate::fault::OpenFault;
use crate::heads::{Head, HeadSegment};
use crate::listing::list_commits;
use crate::load::{read_head, read_segments};
use crate::prepare::live_rows;
use ix_base::{Damaged, FileName, List};
use ix_outside::{Store, StoreFault};
use segment_core::LiveSegment;
use std::alloc::Global;

/// A commit that was read back.
#[derive(Drop)]
pub struct Opened {
    pub number: u64,
    /// The id that the next segment takes.
    pub next_id: u64,
    /// The segments as the commit file names them, by rising id.
    pub entries: List<HeadSegment>,
    /// The segments, at the same places.
    pub segments: List<LiveSegment>,
}

/// Whether a commit of these segments tells that it has so many live rows.
fn have_rows(segments: &[LiveSegment], docs: u64) -> bool
    ensures { result ≡ (docs == doc_count (all_live segments.now)) }
{
    docs == live_rows(segments)
}

/// Reads the commit of this number, whose commit file should be there.
fn read_whole<S: Store>(alloc: Global, store: &mut S, number: u64) -> Result<Opened, OpenFault>
    ensures number { IfOk result (λ opened. opened.number ≡ number) }
    ensures found { IfOk result (λ opened. (files : Files)
        × Was (told_files (S.disk store.old)) files
        × HasSegments files number opened.next_id opened.entries opened.segments) }
    ensures damaged { (damaged : Damaged) → result ≡ Err (OpenFault.Damaged damaged)
        → (files : Files) × Was (told_files (S.disk store.old)) files
        × (reading files number ≡ Err damaged) }
    ensures listed { (other : ℕ) → result ≡ Err (OpenFault.NoSuch other) → ⊥ }
    ensures reads { S.disk store.new ≡ S.disk store.old }
    ensures later { S.fault_count store.old ≤ S.fault_count store.new }
    ensures failed { result ≡ Err OpenFault.Store
        → Rose (S.fault_count store.old) (S.fault_count store.new) }
{
    let head = read_head(alloc, store, number)?;
    let segments = read_segments(alloc, store, &head)?;
    if !have_rows(segments.as_slice(), head.docs) {
        return Err(OpenFault::Damaged(Damaged {
            file: FileName::Commit(number),
            at: 16,
        }));
    }
    Ok(Opened {
        number,
        next_id: head.next_id,
        entries: head.segments,
        segments: List::from_vec(segments),
    })
}

/// Reads the commit of this number, which a list has shown. A commit file that is gone since then is
/// damaged at 0.
pub fn read_commit<S: Store>(alloc: Global, store: &mut S, number: u64) -> Result<Opened, OpenFault>
    ensures number { IfOk result (λ opened. opened.number ≡ number) }
    // What is read is what the files spell.
    ensures found { IfOk result (λ opened. (files : Files)
        × Was (told_files (S.disk store.old)) files
        × HasSegments files number opened.next_id opened.entries opened.segments) }
    // What the files spell is read, unless the store fails or memory runs out.
    ensures only { (files : Files) (next : ℕ) (entries : List HeadSegment) (segments : List Lived)
        → told_files (S.disk store.old) ≡ Some files
        → HasSegments files number next entries segments
        → IfOk result (λ opened.
        opened ≡ record {
          number = number;
          next_id = next;
          entries = entries;
          segments = segments;
        }) }
    ensures whole { (files : Files) (next : ℕ) (entries : List HeadSegment) (segments : List Lived)
        → told_files (S.disk store.old) ≡ Some files
        → HasSegments files number next entries segments → IfErr result IsOutside }
    // Which place is the first broken one.
    ensures damaged { (damaged : Damaged) → result ≡ Err (OpenFault.Damaged damaged)
        → (files : Files) × Was (told_files (S.disk store.old)) files
        × (reading files number ≡ Err damaged) }
    ensures listed { (other : ℕ) → result ≡ Err (OpenFault.NoSuch other) → ⊥ }
    ensures reads { S.disk store.new ≡ S.disk store.old }
    ensures later { S.fault_count store.old ≤ S.fault_count store.new }
    ensures failed { result ≡ Err OpenFault.Store
        → Rose (S.fault_count store.old) (S.fault_count store.new) }
{
    read_whole(alloc, store, number)
}

/// Whether the store's list has the commit of this number.
fn is_listed<S: Store>(alloc: Global, store: &mut S, number: u64) -> Result<bool, OpenFault>
    ensures told { IfOk result (λ listed. (files : Files)
        → told_files (S.disk store.old) ≡ Some files
        → (IsTrue listed ↔ IsSome (files (Commit number)))) }
    ensures fault { IfErr result IsOutside }
    ensures reads { S.disk store.new ≡ S.disk store.old }
    ensures later { S.fault_count store.old ≤ S.fault_count store.new }
    ensures failed { result ≡ Err OpenFault.Store
        → Rose (S.fault_count store.old) (S.fault_count store.new) }
{
    match list_commits(alloc, store) {
        Ok(numbers) => Ok(numbers.as_slice().contains(&number)),
        Err(StoreFault::Failed) => Err(OpenFault::Store),
        Err(StoreFault::NoMemory) => Err(OpenFault::NoMemory),
    }
}

/// Reads the commit file of this number, which a list has shown. One that is gone since then is damaged
/// at 0.
pub fn listed_head<S: Store>(alloc: Global, store: &mut S, number: u64) -> Result<Head, OpenFault>
    // What is read is what the file spells.
    ensures found { IfOk result (λ head. (files : Files) × Was (told_files (S.disk store.old)) files
        × HasHead files number head) }
    // What the file spells is read, unless the store fails or memory runs out.
    ensures only { (files : Files) (head : Head) → told_files (S.disk store.old) ≡ Some files
        → HasHead files number head → IfOk result (λ read. read ≡ head) }
    ensures whole { (files : Files) (head : Head) → told_files (S.disk store.old) ≡ Some files
        → HasHead files number head → IfErr result IsOutside }
    // Which place is the first broken one.
    ensures damaged { (damaged : Damaged) → result ≡ Err (OpenFault.Damaged damaged)
        → (files : Files) × Was (told_files (S.disk store.old)) files
        × (head_from files number ≡ Err damaged) }
    ensures listed { (other : ℕ) → result ≡ Err (OpenFault.NoSuch other) → ⊥ }
    ensures reads { S.disk store.new ≡ S.disk store.old }
    ensures later { S.fault_count store.old ≤ S.fault_count store.new }
    ensures failed { result ≡ Err OpenFault.Store
        → Rose (S.fault_count store.old) (S.fault_count store.new) }
{
    read_head(alloc, store, number)
}

/// Reads the commit file of this number. It returns `NoSuch` where the store's list lacks the
/// number.
pub fn head<S: Store>(alloc: Global, store: &mut S, number: u64) -> Result<Head, OpenFault>
    // What is read is what the file spells.
    ensures found { IfOk result (λ head. (files : Files) × Was (told_files (S.disk store.old)) files
        × HasHead files number head) }
    // What the file spells is read, unless the store fails or memory runs out.
    ensures only { (files : Files) (head : Head) → told_files (S.disk store.old) ≡ Some files
        → HasHead files number head → IfOk result (λ read. read ≡ head) }
    ensures whole { (files : Files) (head : Head) → told_files (S.disk store.old) ≡ Some files
        → HasHead files number head → IfErr result IsOutside }
    // Which place is the first broken one.
    ensures damaged { (damaged : Damaged) → result ≡ Err (OpenFault.Damaged damaged)
        → (files : Files) × Was (told_files (S.disk store.old)) files
        × (head_from files number ≡ Err damaged) }
    // Where there is no such commit, this is said, and nowhere else.
    ensures no_such { TellsNone (told_files (S.disk store.old)) number result }
    ensures reads { S.disk store.new ≡ S.disk store.old }
    ensures later { S.fault_count store.old ≤ S.fault_count store.new }
    ensures failed { result ≡ Err OpenFault.Store
        → Rose (S.fault_count store.old) (S.fault_count store.new) }
{
    if !is_listed(alloc, store, number)? {
        return Err(OpenFault::NoSuch { number });
    }
    read_head(alloc, store, number)
}

/// Reads the commit of this number. It returns `NoSuch` where the store's list lacks the
/// number.
pub fn open_commit<S: Store>(alloc: Global, store: &mut S, number: u64) -> Result<Opened, OpenFault>
    ensures number { IfOk result (λ opened. opened.number ≡ number) }
    // What is read is what the files spell.
    ensures found { IfOk result (λ opened. (files : Files)
        × Was (told_files (S.disk store.old)) files
        × HasSegments files number opened.next_id opened.entries opened.segments) }
    // What the files spell is read, unless the store fails or memory runs out.
    ensures only { (files : Files) (next : ℕ) (entries : List HeadSegment) (segments : List Lived)
        → told_files (S.disk store.old) ≡ Some files
        → HasSegments files number next entries segments
        → IfOk result (λ opened.
        opened ≡ record {
          number = number;
          next_id = next;
          entries = entries;
          segments = segments;
        }) }
    ensures whole { (files : Files) (next : ℕ) (entries : List HeadSegment) (segments : List Lived)
        → told_files (S.disk store.old) ≡ Some files
        → HasSegments files number next entries segments → IfErr result IsOutside }
    // Which place is the first broken one.
    ensures damaged { (damaged : Damaged) → result ≡ Err (OpenFault.Damaged damaged)
        → (files : Files) × Was (told_files (S.disk store.old)) files
        × (reading files number ≡ Err damaged) }
    // Where there is no such commit, this is said, and nowhere else.
    ensures no_such { TellsNone (told_files (S.disk store.old)) number result }
    ensures reads { S.disk store.new ≡ S.disk store.old }
    ensures later { S.fault_count store.old ≤ S.fault_count store.new }
    ensures failed { result ≡ Err OpenFault.Store
        → Rose (S.fault_count store.old) (S.fault_count store.new) }
{
    if !is_listed(alloc, store, number)? {
        return Err(OpenFault::NoSuch { number });
    }
    read_commit(alloc, store, number)
}
