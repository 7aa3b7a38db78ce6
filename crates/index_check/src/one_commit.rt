//! The check of one commit.
ghost use Rattle.std.specs.Prelude.{◌≡◌, ◌≤◌, ◌<◌, ◌+◌, ◌^◌, ℕ, length, Err, IfOk, IfErr, MatchOption, Some};
ghost use Rattle.std.specs.List.{AllByRecursion};
ghost use Rattle.ix_base.specs.declared.damaged.Damaged.{Damaged};
ghost use Rattle.ix_outside.specs.Causes.{Rose};
ghost use Rattle.ix_outside.specs.Disk.{told_files};
ghost use Rattle.ix_outside.specs.Files.{Files, Was};
ghost use Rattle.commit_point.specs.Holds.{HasHead, HasSegments};
ghost use Rattle.commit_point.specs.Reading.{head_from, reading};
ghost use Rattle.index_check.specs.Difference.{DiffersAt};
ghost use Rattle.index_check.specs.Earlier.{CanSpell, IsLeastId};
ghost use Rattle.index_check.specs.Known.{IsBefore, IsOther, IsSame};
ghost use Rattle.index_check.specs.Sound.{IsLawfulCommit};
ghost use Rattle.index_check.specs.declared.fault.Difference.{Difference};

use crate::comparing::other_postings;
use crate::earlier::Earlier;
use crate::fault::{CheckFault, Difference};
use crate::next_id::next_id_difference;
use crate::sound::sound_commit;
use commit_point::{Head, OpenFault, Opened, listed_head, read_commit};
use ix_base::NoMemory;
use ix_outside::Store;
use std::alloc::Global;

/// Checks the commit of this number, which a list has shown, and gives what its commit file says.
/// `earlier` tells of the commits before it, which are sound, and then of this one too.
///
/// As long as the commit is sound, rows and postings that an earlier commit has are not read again, and
/// one segment is held at a time. Where it isn't, it is read whole, and its first wrong place is told.
pub fn check_commit<S: Store>(
    alloc: Global,
    store: &mut S,
    number: u64,
    earlier: &mut Earlier,
) -> Result<Head, CheckFault>
    requires { (files : Files) → told_files (S.disk store.old) ≡ Some files
        → IsBefore files number earlier.old }
    ensures head { (files : Files) → told_files (S.disk store.old) ≡ Some files
        → IfOk result (HasHead files number) }
    ensures sound { (files : Files) → told_files (S.disk store.old) ≡ Some files
        → IfOk result (λ _. IsLawfulCommit files number) }
    ensures earlier { (files : Files) → told_files (S.disk store.old) ≡ Some files
        → IfOk result (λ _. IsBefore files (number + 1) earlier.new) }
    ensures damaged { (damaged : Damaged) → result ≡ Err (CheckFault.Damaged damaged)
        → (files : Files) × Was (told_files (S.disk store.old)) files
        × (reading files number ≡ Err damaged) }
    ensures differs { (files : Files) (d : Difference) → told_files (S.disk store.old) ≡ Some files
        → result ≡ Err (CheckFault.Differs d) → DiffersAt files number d }
    ensures reads { S.disk store.new ≡ S.disk store.old }
    ensures later { S.fault_count store.old ≤ S.fault_count store.new }
    ensures failed { result ≡ Err CheckFault.Store
        → Rose (S.fault_count store.old) (S.fault_count store.new) }
{
    if let Some(head) = sound_commit(alloc, store, number, earlier)? {
        return Ok(head);
    }
    check_whole(alloc, store, number, earlier)
}

/// The same, of a commit that is read whole. Nothing is known of segments then.
fn check_whole<S: Store>(
    alloc: Global,
    store: &mut S,
    number: u64,
    earlier: &mut Earlier,
) -> Result<Head, CheckFault>
    requires { (files : Files) → told_files (S.disk store.old) ≡ Some files
        → IsLeastId files number earlier.old.least_id }
    ensures head { (files : Files) → told_files (S.disk store.old) ≡ Some files
        → IfOk result (HasHead files number) }
    ensures sound { (files : Files) → told_files (S.disk store.old) ≡ Some files
        → IfOk result (λ _. IsLawfulCommit files number) }
    ensures earlier { (files : Files) → told_files (S.disk store.old) ≡ Some files
        → IfOk result (λ _. IsBefore files (number + 1) earlier.new) }
    ensures damaged { (damaged : Damaged) → result ≡ Err (CheckFault.Damaged damaged)
        → (files : Files) × Was (told_files (S.disk store.old)) files
        × (reading files number ≡ Err damaged) }
    ensures differs { (files : Files) (d : Difference) → told_files (S.disk store.old) ≡ Some files
        → result ≡ Err (CheckFault.Differs d) → DiffersAt files number d }
    ensures reads { S.disk store.new ≡ S.disk store.old }
    ensures later { S.fault_count store.old ≤ S.fault_count store.new }
    ensures failed { result ≡ Err CheckFault.Store
        → Rose (S.fault_count store.old) (S.fault_count store.new) }
{
    let opened = read(alloc, store, number)?;
    if let Some(difference) = difference_in(alloc, &opened, earlier.least_id)? {
        return Err(CheckFault::Differs(difference));
    }
    earlier.forget(alloc);
    earlier.add_ids(opened.entries.as_slice());
    head_of(alloc, store, number)
}

/// Reads the commit of this number.
fn read<S: Store>(alloc: Global, store: &mut S, number: u64) -> Result<Opened, CheckFault>
    ensures number { IfOk result (λ opened. opened.number ≡ number) }
    ensures found { IfOk result (λ opened. (files : Files)
        × Was (told_files (S.disk store.old)) files
        × HasSegments files number opened.next_id opened.entries opened.segments) }
    ensures damaged { (damaged : Damaged) → result ≡ Err (CheckFault.Damaged damaged)
        → (files : Files) × Was (told_files (S.disk store.old)) files
        × (reading files number ≡ Err damaged) }
    ensures differs { (d : Difference) → result ≡ Err (CheckFault.Differs d) → ⊥ }
    ensures reads { S.disk store.new ≡ S.disk store.old }
    ensures later { S.fault_count store.old ≤ S.fault_count store.new }
    ensures failed { result ≡ Err CheckFault.Store
        → Rose (S.fault_count store.old) (S.fault_count store.new) }
{
    match read_commit(alloc, store, number) {
        Ok(opened) => Ok(opened),
        Err(OpenFault::Store) => Err(CheckFault::Store),
        Err(OpenFault::Damaged(damaged)) => Err(CheckFault::Damaged(damaged)),
        Err(OpenFault::NoSuch { number: _ } | OpenFault::NoMemory) => Err(CheckFault::NoMemory),
    }
}

/// Where a commit that was read first isn't as it has to be.
fn difference_in(
    alloc: Global,
    opened: &Opened,
    least_id: u64,
) -> Result<Option<Difference>, NoMemory>
    requires { AllByRecursion CanSpell opened.now.segments }
    ensures { IfOk result (λ found. MatchOption found
        (IsSame opened.now least_id) (IsOther opened.now least_id)) }
{
    let next = next_id_difference(opened.number, opened.next_id, least_id);
    if next.is_some() {
        return Ok(next);
    }
    other_postings(alloc, opened.segments.as_slice())
}

/// What the commit file of this number says.
fn head_of<S: Store>(alloc: Global, store: &mut S, number: u64) -> Result<Head, CheckFault>
    ensures found { IfOk result (λ head. (files : Files) × Was (told_files (S.disk store.old)) files
        × HasHead files number head) }
    ensures damaged { (damaged : Damaged) → result ≡ Err (CheckFault.Damaged damaged)
        → (files : Files) × Was (told_files (S.disk store.old)) files
        × (head_from files number ≡ Err damaged) }
    ensures differs { (d : Difference) → result ≡ Err (CheckFault.Differs d) → ⊥ }
    ensures reads { S.disk store.new ≡ S.disk store.old }
    ensures later { S.fault_count store.old ≤ S.fault_count store.new }
    ensures failed { result ≡ Err CheckFault.Store
        → Rose (S.fault_count store.old) (S.fault_count store.new) }
{
    match listed_head(alloc, store, number) {
        Ok(head) => Ok(head),
        Err(OpenFault::Store) => Err(CheckFault::Store),
        Err(OpenFault::Damaged(damaged)) => Err(CheckFault::Damaged(damaged)),
        Err(OpenFault::NoSuch { number: _ } | OpenFault::NoMemory) => Err(CheckFault::NoMemory),
    }
}
