//! The commits of a store.
ghost use Rattle.std.specs.Prelude.{◌≡◌, ◌<◌, ◌≤◌, ◌↔◌, ◌||◌, ℕ, Contains, AllPairs, IfOk, OnOk, IsSome, IfSome, Err};
ghost use Rattle.ix_outside.specs.Disk.{told_files};
ghost use Rattle.std.specs.BTreeSet.{contains};
ghost use Rattle.std.specs.List.{list_any};
ghost use Rattle.std.specs.Ordering.{nat_cmp};
ghost use Rattle.ix_base.specs.FileNames.{IsCounted};
ghost use Rattle.ix_base.specs.declared.file_name.FileName.TheVariants.{Commit};
ghost use Rattle.ix_outside.specs.Causes.{Rose};
ghost use Rattle.commit_point.specs.Loading.{names_commit};

use ix_base::{FileName, List, NoMemory};
use ix_outside::{Store, StoreFault};
use std::alloc::Global;
use std::collections::BTreeSet;

/// Adds the number of a commit, where the name is that of a commit file.
fn add_commit(numbers: &mut BTreeSet<u64>, name: &FileName) -> Result<(), NoMemory>
    ensures { OnOk result ((s : ℕ)
        → contains nat_cmp numbers.new s
        ≡ (contains nat_cmp numbers.old s || names_commit s name.now)) }
{
    if let FileName::Commit(number) = name {
        numbers.insert(*number)?;
    }
    Ok(())
}

/// The numbers of the commits among these names.
fn commits_among(alloc: Global, names: &[FileName]) -> Result<BTreeSet<u64>, NoMemory>
    ensures { IfOk result (λ numbers. (s : ℕ)
        → contains nat_cmp numbers s ≡ list_any (names_commit s) names.now) }
{
    let mut numbers = BTreeSet::new(alloc);
    for name in names {
        add_commit(&mut numbers, name)?;
    }
    Ok(numbers)
}

/// The numbers of the commits among these names of files, rising. The only error is out of memory.
pub fn rising_numbers(alloc: Global, names: &[FileName]) -> Result<List<u64>, NoMemory>
    ensures commits { IfOk result (λ numbers. (s : ℕ)
        → Contains numbers s ↔ Contains names.now (Commit s)) }
    ensures rise { IfOk result (λ numbers. AllPairs ◌<◌ numbers) }
{
    let numbers = commits_among(alloc, names)?;
    let items: Vec<u64> = numbers.into_iter().collect(alloc)?;
    Ok(List::from_vec(items))
}

/// The numbers of the store's commits, rising.
pub fn list_commits<S: Store>(alloc: Global, store: &mut S) -> Result<List<u64>, StoreFault>
    ensures commits { IfOk result (λ numbers.
        IfSome (told_files (S.disk store.old)) (λ files. (s : ℕ)
        → Contains numbers s ↔ IsSome (files (Commit s)))) }
    ensures rise { IfOk result (λ numbers. AllPairs ◌<◌ numbers) }
    ensures counted { IfOk result (λ numbers. (s : ℕ) → Contains numbers s → IsCounted s) }
    ensures reads { S.disk store.new ≡ S.disk store.old }
    ensures later { S.fault_count store.old ≤ S.fault_count store.new }
    ensures failed { result ≡ Err StoreFault.Failed
        → Rose (S.fault_count store.old) (S.fault_count store.new) }
{
    let names = store.list(alloc)?;
    match rising_numbers(alloc, &names) {
        Ok(numbers) => Ok(numbers),
        Err(_) => Err(StoreFault::NoMemory),
    }
}
