//! Which commits are given up, and which files are deleted with them.
ghost use Rattle.std.specs.Prelude.{◌≡◌, ◌<◌, ◌≤◌, ℕ, List as ListOf, AllPairs, Contains, Some, Err, IfOk, map};
ghost use Rattle.std.specs.List.{AllZip};
ghost use Rattle.ix_base.specs.declared.damaged.Damaged.{Damaged};
ghost use Rattle.ix_base.specs.declared.file_name.FileName.TheVariants.{Commit};
ghost use Rattle.ix_outside.specs.Causes.{Rose};
ghost use Rattle.ix_outside.specs.Disk.{told_files};
ghost use Rattle.ix_outside.specs.Files.{Files, Lists};
ghost use Rattle.commit_point.specs.Holds.{HasHead};
ghost use Rattle.commit_point.specs.declared.heads.Head.{Head};
ghost use Rattle.commit_pruning.specs.Choosing.{AreNumbers, IsPlan, entries_of};
ghost use Rattle.commit_pruning.specs.Pruning.{BreaksStaying, IsBrokenCommit};

use crate::choosing::unlisted;
use crate::fault::PruningFault;
use crate::reading::head_of;
use commit_point::{HeadSegment, rising_numbers};
use ix_base::{FileName, List, NoMemory};
use ix_outside::{Store, StoreFault};
use std::alloc::Global;

/// What is to be deleted: the commit files of earlier commits, and then the files that none of the
/// other commits lists.
#[derive(Drop)]
pub(crate) struct Plan {
    pub gone: List<FileName>,
    pub rest: List<FileName>,
}

/// The segments that the commit files of these numbers name.
fn entries_of<S: Store>(
    alloc: Global,
    store: &mut S,
    numbers: &[u64],
) -> Result<Vec<HeadSegment>, PruningFault>
    ensures entries { (files : Files) → told_files (S.disk store.old) ≡ Some files
        → IfOk result (λ entries. (heads : ListOf Head) × AllZip (HasHead files) numbers.now heads
        × (entries.items ≡ entries_of heads)) }
    ensures damaged { (damaged : Damaged) → result ≡ Err (PruningFault.Damaged damaged)
        → (s : ℕ) × Contains numbers.now s
        × IsBrokenCommit (told_files (S.disk store.old)) s damaged }
    ensures reads { S.disk store.new ≡ S.disk store.old }
    ensures later { S.fault_count store.old ≤ S.fault_count store.new }
    ensures failed { result ≡ Err PruningFault.Store
        → Rose (S.fault_count store.old) (S.fault_count store.new) }
{
    let mut entries = Vec::new(alloc);
    for number in numbers {
        match head_of(alloc, store, *number) {
            Ok(head) => entries.extend_from_slice(head.segments.as_slice())?,
            Err(fault) => return Err(fault),
        }
    }
    Ok(entries)
}

/// The names of the commit files of these numbers.
fn commit_names(alloc: Global, numbers: &[u64]) -> Result<Vec<FileName>, NoMemory>
    ensures { IfOk result (λ names. names.items ≡ map Commit numbers.now) }
{
    let mut names = Vec::new(alloc);
    for number in numbers {
        names.push(FileName::Commit(*number))?;
    }
    Ok(names)
}

/// What is to be deleted of the files with these names, where these are the numbers of all commits.
fn plan_for<S: Store>(
    alloc: Global,
    store: &mut S,
    keep: u32,
    numbers: &[u64],
    names: &[FileName],
) -> Result<Plan, PruningFault>
    requires { AllPairs ◌<◌ numbers.now }
    ensures plan { (files : Files) → told_files (S.disk store.old) ≡ Some files
        → Lists files names.now → AreNumbers files numbers.now
        → IfOk result (λ plan. IsPlan keep files plan.gone plan.rest) }
    ensures damaged { (damaged : Damaged) → result ≡ Err (PruningFault.Damaged damaged)
        → (s : ℕ) × IsBrokenCommit (told_files (S.disk store.old)) s damaged }
    ensures staying { (files : Files) (damaged : Damaged)
        → told_files (S.disk store.old) ≡ Some files → AreNumbers files numbers.now
        → result ≡ Err (PruningFault.Damaged damaged) → BreaksStaying keep files damaged }
    ensures reads { S.disk store.new ≡ S.disk store.old }
    ensures later { S.fault_count store.old ≤ S.fault_count store.new }
    ensures failed { result ≡ Err PruningFault.Store
        → Rose (S.fault_count store.old) (S.fault_count store.new) }
{
    let (earlier, latest) = numbers.split_at(numbers.len().saturating_sub(keep as usize));
    let entries = entries_of(alloc, store, latest)?;
    let gone = commit_names(alloc, earlier)?;
    let rest = unlisted(alloc, &entries, names)?;
    Ok(Plan {
        gone: List::from_vec(gone),
        rest: List::from_vec(rest),
    })
}

/// What is to be deleted of the files with these names, which are all, where so many commits are kept.
fn plan_of<S: Store>(
    alloc: Global,
    store: &mut S,
    keep: u32,
    names: &[FileName],
) -> Result<Plan, PruningFault>
    ensures plan { (files : Files) → told_files (S.disk store.old) ≡ Some files
        → Lists files names.now
        → IfOk result (λ plan. IsPlan keep files plan.gone plan.rest) }
    ensures damaged { (damaged : Damaged) → result ≡ Err (PruningFault.Damaged damaged)
        → (s : ℕ) × IsBrokenCommit (told_files (S.disk store.old)) s damaged }
    ensures staying { (files : Files) (damaged : Damaged)
        → told_files (S.disk store.old) ≡ Some files → Lists files names.now
        → result ≡ Err (PruningFault.Damaged damaged) → BreaksStaying keep files damaged }
    ensures reads { S.disk store.new ≡ S.disk store.old }
    ensures later { S.fault_count store.old ≤ S.fault_count store.new }
    ensures failed { result ≡ Err PruningFault.Store
        → Rose (S.fault_count store.old) (S.fault_count store.new) }
{
    let numbers = rising_numbers(alloc, names)?;
    plan_for(alloc, store, keep, numbers.as_slice(), names)
}

/// What is to be deleted where so many commits are kept. The directory is listed once. The commit files
/// of those that stay are read, and no others.
pub(crate) fn make_plan<S: Store>(
    alloc: Global,
    store: &mut S,
    keep: u32,
) -> Result<Plan, PruningFault>
    ensures plan { (files : Files) → told_files (S.disk store.old) ≡ Some files
        → IfOk result (λ plan. IsPlan keep files plan.gone plan.rest) }
    ensures damaged { (damaged : Damaged) → result ≡ Err (PruningFault.Damaged damaged)
        → (s : ℕ) × IsBrokenCommit (told_files (S.disk store.old)) s damaged }
    ensures staying { (files : Files) (damaged : Damaged)
        → told_files (S.disk store.old) ≡ Some files
        → result ≡ Err (PruningFault.Damaged damaged) → BreaksStaying keep files damaged }
    ensures reads { S.disk store.new ≡ S.disk store.old }
    ensures later { S.fault_count store.old ≤ S.fault_count store.new }
    ensures failed { result ≡ Err PruningFault.Store
        → Rose (S.fault_count store.old) (S.fault_count store.new) }
{
    match store.list(alloc) {
        Ok(names) => plan_of(alloc, store, keep, names.as_slice()),
        Err(StoreFault::Failed) => Err(PruningFault::Store),
        Err(StoreFault::NoMemory) => Err(PruningFault::NoMemory),
    }
}
