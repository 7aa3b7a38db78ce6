//! Giving old commits up.
ghost use Rattle.std.specs.Prelude.{◌≡◌, ◌≤◌, ℕ, length, Some, None, IsSome, Err, IfOk, IfErr, OnOk};
ghost use Rattle.ix_base.specs.declared.file_name.FileName.TheVariants.{Commit};
ghost use Rattle.ix_base.specs.declared.damaged.Damaged.{Damaged};
ghost use Rattle.ix_outside.specs.Calls.{LeavesOnly};
ghost use Rattle.ix_outside.specs.Causes.{Rose};
ghost use Rattle.ix_outside.specs.Crash.{MayHold};
ghost use Rattle.ix_outside.specs.Disk.{Stops, Told, taken, told_files};
ghost use Rattle.ix_outside.specs.Files.{Files};
ghost use Rattle.commit_point.specs.Holds.{AreKept};
ghost use Rattle.commit_pruning.specs.Deleting.{Pauses, prune_steps};
ghost use Rattle.commit_pruning.specs.Pruning.{AreKeptBut, AreWhole, BreaksStaying, IsBrokenCommit, IsGivenUp, IsGoneFrom, IsKeptIn, IsOutside, IsPruned, IsWholeOrGivenUp, MayBePruned, OnlyDeletes};

use crate::deleting::prune_files;
use crate::fault::PruningFault;
use crate::planning::{Plan, make_plan};
use ix_outside::{Store, StoreFault};
use std::alloc::Global;

/// Deletes what was planned, and returns how many commits were given up.
fn carry_out<S: Store>(store: &mut S, plan: &Plan) -> Result<u64, PruningFault>
    ensures count { IfOk result (λ count. count ≡ length plan.now.gone) }
    ensures done { OnOk result (Told (λ old new.
        new ≡ taken (prune_steps plan.now.gone plan.now.rest) old)
        (S.disk store.old) (S.disk store.new)) }
    ensures stops { Told (Stops (prune_steps plan.now.gone plan.now.rest))
        (S.disk store.old) (S.disk store.new) }
    ensures pauses { result ≡ Err PruningFault.NoMemory
        → Told (Pauses (prune_steps plan.now.gone plan.now.rest))
        (S.disk store.old) (S.disk store.new) }
    ensures outside { IfErr result IsOutside }
    ensures later { S.fault_count store.old ≤ S.fault_count store.new }
    ensures failed { result ≡ Err PruningFault.Store
        → Rose (S.fault_count store.old) (S.fault_count store.new) }
{
    let gone = plan.gone.as_slice();
    match prune_files(store, gone, plan.rest.as_slice()) {
        Ok(()) => Ok(gone.len() as u64),
        Err(StoreFault::Failed) => Err(PruningFault::Store),
        Err(StoreFault::NoMemory) => Err(PruningFault::NoMemory),
    }
}

/// Gives up all commits but so many of the latest, and returns how many it gave up: it deletes their
/// commit files and syncs the directory, and then deletes each pending file and each file of a segment
/// that no commit left lists, and syncs the directory again. So what a stopped run has left goes too.
/// It reads the commit files of the commits that stay, and no others.
///
/// After an error some of these files may be deleted. The commits that stay are as they were, and each
/// other one is whole or has no commit file.
///
/// - `Damaged` names the first broken place of the commit file of a commit that stays. Nothing was
///   deleted then.
/// - `Store` comes only where the store's count of faults rose.
pub fn prune<S: Store>(alloc: Global, store: &mut S, keep: u32) -> Result<u64, PruningFault>
    ensures pruned { (files : Files) (now : Files) → told_files (S.disk store.old) ≡ Some files
        → told_files (S.disk store.new) ≡ Some now
        → IfOk result (λ count. IsPruned keep count files now) }
    // What reads give, success and error alike.
    ensures left { (files : Files) (now : Files) → told_files (S.disk store.old) ≡ Some files
        → told_files (S.disk store.new) ≡ Some now → MayBePruned keep files now }
    // Nothing is written or renamed.
    ensures only { Told OnlyDeletes (S.disk store.old) (S.disk store.new) }
    // What a crash leaves at any moment of the call.
    ensures crash { (files : Files) → told_files (S.disk store.old) ≡ Some files
        → AreKept files (MayHold (S.disk store.old))
        → LeavesOnly (S.disk store.old) (S.disk store.new) (MayBePruned keep files) }
    // Once it is acknowledged no image has a commit that was given up.
    ensures kept { (files : Files) (now : Files) → told_files (S.disk store.old) ≡ Some files
        → told_files (S.disk store.new) ≡ Some now → AreKept files (MayHold (S.disk store.old))
        → OnOk result (AreKept now (MayHold (S.disk store.new))) }
    // Where memory ran out an image may still have some of them.
    ensures paused { (files : Files) (now : Files) → told_files (S.disk store.old) ≡ Some files
        → told_files (S.disk store.new) ≡ Some now → AreKept files (MayHold (S.disk store.old))
        → result ≡ Err PruningFault.NoMemory
        → AreKeptBut keep files now (MayHold (S.disk store.new)) }
    // A commit by itself, whatever became of the others: what reads give of it, and, where it is
    // kept, what a crash leaves of it at any moment of the call.
    ensures found { (files : Files) (now : Files) (s : ℕ)
        → told_files (S.disk store.old) ≡ Some files → told_files (S.disk store.new) ≡ Some now
        → IsSome (files (Commit s)) → IsWholeOrGivenUp keep s files now }
    ensures each { (files : Files) (s : ℕ) → told_files (S.disk store.old) ≡ Some files
        → IsSome (files (Commit s)) → IsKeptIn s files (MayHold (S.disk store.old))
        → LeavesOnly (S.disk store.old) (S.disk store.new) (IsWholeOrGivenUp keep s files) }
    // Once it is acknowledged no image has one that was given up, and none that is gone comes back.
    ensures gone { (files : Files) (s : ℕ) → told_files (S.disk store.old) ≡ Some files
        → IsSome (files (Commit s)) → IsGivenUp keep files s
        → OnOk result (IsGoneFrom s (MayHold (S.disk store.new))) }
    ensures none { (s : ℕ) → IsGoneFrom s (MayHold (S.disk store.old))
        → LeavesOnly (S.disk store.old) (S.disk store.new) (λ d. d (Commit s) ≡ None) }
    ensures damaged { (damaged : Damaged) → result ≡ Err (PruningFault.Damaged damaged)
        → (s : ℕ) × IsBrokenCommit (told_files (S.disk store.old)) s damaged }
    ensures staying { (files : Files) (damaged : Damaged)
        → told_files (S.disk store.old) ≡ Some files
        → result ≡ Err (PruningFault.Damaged damaged) → BreaksStaying keep files damaged }
    ensures untouched { (damaged : Damaged) → result ≡ Err (PruningFault.Damaged damaged)
        → S.disk store.new ≡ S.disk store.old }
    ensures whole { (files : Files) → told_files (S.disk store.old) ≡ Some files
        → AreWhole keep files → IfErr result IsOutside }
    ensures later { S.fault_count store.old ≤ S.fault_count store.new }
    ensures failed { result ≡ Err PruningFault.Store
        → Rose (S.fault_count store.old) (S.fault_count store.new) }
{
    match make_plan(alloc, store, keep) {
        Ok(plan) => carry_out(store, &plan),
        Err(fault) => Err(fault),
    }
}
