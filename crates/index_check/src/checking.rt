//! The check of all commits.
ghost use Rattle.std.specs.Prelude.{◌≡◌, ◌≤◌, ◌<◌, ◌↔◌, ◌⊎◌, ℕ, AllPairs, Contains, Err, IfErr, IfOk, IsErrAnd, IsSome, Some};
ghost use Rattle.ix_base.specs.declared.file_name.FileName.TheVariants.{Commit};
ghost use Rattle.ix_base.specs.declared.damaged.Damaged.{Damaged};
ghost use Rattle.ix_outside.specs.Causes.{Rose};
ghost use Rattle.ix_outside.specs.Disk.{told_files};
ghost use Rattle.ix_outside.specs.Files.{Files};
ghost use Rattle.index_check.specs.Difference.{DiffersIn};
ghost use Rattle.index_check.specs.Sound.{AreHeads, AreLawful, IsDamagedAt, IsOutside};
ghost use Rattle.index_check.specs.declared.fault.Difference.{Difference};

use crate::earlier::Earlier;
use crate::fault::CheckFault;
use crate::one_commit::check_commit;
use commit_point::{Head, list_commits};
use ix_outside::{Store, StoreFault};
use std::alloc::Global;

/// Checks all commits of a store, by rising number, and gives what their commit files say. Of each
/// commit all files are tested, then its next id, and then the postings of each segment are compared
/// with the inversion of its rows. The first place that is wrong is told. The store is as before,
/// whatever is returned.
///
/// Rows and postings that a commit shares with the one before it are read for the first of them alone. As
/// long as commits are sound, one segment is held at a time, and two numbers for each operation of
/// which a segment has a row. A commit that isn't sound is read whole, to tell its first wrong place.
///
/// - `Damaged` names the first broken place of the first commit that isn't lawful, where that one
///   isn't in the grammar.
/// - `Differs` comes where it is in the grammar: its next id is above 2^61 or not above an id that
///   an earlier commit lists, or the postings of a segment aren't the inversion of its rows.
/// - `Store` comes only where the store's count of faults rose.
pub fn check<S: Store>(alloc: Global, store: &mut S) -> Result<Vec<Head>, CheckFault>
    // Each commit is lawful, and what is returned are the heads of all.
    ensures heads { (files : Files) → told_files (S.disk store.old) ≡ Some files
        → IfOk result (λ heads. AreHeads files heads.items) }
    ensures sound { (files : Files) → told_files (S.disk store.old) ≡ Some files
        → IfOk result (λ _. AreLawful files) }
    // Where each commit is lawful, this is found, unless the store fails or memory runs out.
    ensures whole { (files : Files) → told_files (S.disk store.old) ≡ Some files
        → AreLawful files → IfErr result IsOutside }
    // The first place that is wrong is told, unless the store fails or memory runs out.
    ensures broken { (files : Files) (damaged : Damaged)
        → told_files (S.disk store.old) ≡ Some files → IsDamagedAt (Some files) damaged
        → IsErrAnd result (λ fault. (fault ≡ CheckFault.Damaged damaged) ⊎ IsOutside fault) }
    ensures other { (files : Files) (d : Difference) → told_files (S.disk store.old) ≡ Some files
        → DiffersIn files d
        → IsErrAnd result (λ fault. (fault ≡ CheckFault.Differs d) ⊎ IsOutside fault) }
    // No other place is told.
    ensures damaged { (damaged : Damaged) → result ≡ Err (CheckFault.Damaged damaged)
        → IsDamagedAt (told_files (S.disk store.old)) damaged }
    ensures differs { (files : Files) (d : Difference) → told_files (S.disk store.old) ≡ Some files
        → result ≡ Err (CheckFault.Differs d) → DiffersIn files d }
    ensures reads { S.disk store.new ≡ S.disk store.old }
    ensures later { S.fault_count store.old ≤ S.fault_count store.new }
    ensures failed { result ≡ Err CheckFault.Store
        → Rose (S.fault_count store.old) (S.fault_count store.new) }
{
    match list_commits(alloc, store) {
        Ok(numbers) => check_commits(alloc, store, numbers.as_slice()),
        Err(StoreFault::Failed) => Err(CheckFault::Store),
        Err(StoreFault::NoMemory) => Err(CheckFault::NoMemory),
    }
}

/// Checks the commits of these numbers, which are all, rising.
fn check_commits<S: Store>(
    alloc: Global,
    store: &mut S,
    numbers: &[u64],
) -> Result<Vec<Head>, CheckFault>
    requires all { (files : Files) → told_files (S.disk store.old) ≡ Some files
        → (s : ℕ) → Contains numbers.now s ↔ IsSome (files (Commit s)) }
    requires rise { AllPairs ◌<◌ numbers.now }
    ensures heads { (files : Files) → told_files (S.disk store.old) ≡ Some files
        → IfOk result (λ heads. AreHeads files heads.items) }
    ensures sound { (files : Files) → told_files (S.disk store.old) ≡ Some files
        → IfOk result (λ _. AreLawful files) }
    ensures damaged { (damaged : Damaged) → result ≡ Err (CheckFault.Damaged damaged)
        → IsDamagedAt (told_files (S.disk store.old)) damaged }
    ensures differs { (files : Files) (d : Difference) → told_files (S.disk store.old) ≡ Some files
        → result ≡ Err (CheckFault.Differs d) → DiffersIn files d }
    ensures reads { S.disk store.new ≡ S.disk store.old }
    ensures later { S.fault_count store.old ≤ S.fault_count store.new }
    ensures failed { result ≡ Err CheckFault.Store
        → Rose (S.fault_count store.old) (S.fault_count store.new) }
{
    let mut heads = Vec::new(alloc);
    let mut earlier = Earlier::new(alloc);
    for number in numbers {
        match check_commit(alloc, store, *number, &mut earlier) {
            Ok(head) => heads.push(head)?,
            Err(fault) => return Err(fault),
        }
    }
    Ok(heads)
}
