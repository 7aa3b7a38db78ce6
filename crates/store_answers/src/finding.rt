//! The commit that questions are about.
ghost use Rattle.std.specs.Prelude.{◌≡◌, ◌<◌, ◌≤◌, ◌-◌, length, slice_get};
ghost use Rattle.std.specs.Prelude.{AllPairs, Err, IfErr, IfNone, IfOk, IfSome, Some};
ghost use Rattle.ix_outside.specs.Causes.{Rose};
ghost use Rattle.ix_outside.specs.Disk.{told_files};
ghost use Rattle.commit_point.specs.Loading.{IsOutside};
ghost use Rattle.store_answers.specs.Asking.{IsAmong, IsAskedIn, IsNoSuchOr, LacksAmong, TellsLack, missing};

use commit_point::{OpenFault, list_commits};
use ix_outside::{Store, StoreFault};
use std::alloc::Global;

/// The number that is asked for, among rising numbers: the one that is named or, where none is, the
/// last. `None` where it isn't among them.
fn asked_among(numbers: &[u64], named: Option<u64>) -> Option<u64>
    requires rise { AllPairs ◌<◌ numbers.now }
    ensures among { IfSome result (IsAmong numbers.now named) }
    ensures none { IfNone result (LacksAmong numbers.now named) }
{
    match named {
        Some(number) => number_among(numbers, number),
        None => last_of(numbers),
    }
}

/// The last of the numbers.
fn last_of(numbers: &[u64]) -> Option<u64>
    ensures { result ≡ slice_get numbers.now (length numbers.now - 1) }
{
    numbers.last().copied()
}

/// The number, where it is among these.
fn number_among(numbers: &[u64], number: u64) -> Option<u64>
    ensures among { IfSome result (IsAmong numbers.now (Some number)) }
    ensures none { IfNone result (LacksAmong numbers.now (Some number)) }
{
    if numbers.contains(&number) {
        Some(number)
    } else {
        None
    }
}

/// The number that is asked for, among rising numbers, or `NoSuch` where it isn't among them.
fn asked_in(numbers: &[u64], named: Option<u64>) -> Result<u64, OpenFault>
    requires rise { AllPairs ◌<◌ numbers.now }
    ensures among { IfOk result (IsAmong numbers.now named) }
    ensures none { IfErr result (λ fault. (fault ≡ missing named) × LacksAmong numbers.now named) }
{
    match asked_among(numbers, named) {
        Some(number) => Ok(number),
        None => Err(OpenFault::NoSuch {
            number: named.unwrap_or(0),
        }),
    }
}

/// The number of the commit that is asked for: the one that is named, or the last where none is.
/// `NoSuch` comes exactly where the store's list lacks the one that is named or, where none is, has no
/// commit; its number is then the one that is named, or 0. The store is as before.
pub fn asked_commit<S: Store>(
    alloc: Global,
    store: &mut S,
    named: Option<u64>,
) -> Result<u64, OpenFault>
    ensures asked { IfOk result (IsAskedIn (told_files (S.disk store.old)) named) }
    ensures no_such { TellsLack (told_files (S.disk store.old)) named result }
    ensures others { IfErr result (IsNoSuchOr named IsOutside) }
    ensures reads { S.disk store.new ≡ S.disk store.old }
    ensures later { S.fault_count store.old ≤ S.fault_count store.new }
    ensures failed { result ≡ Err OpenFault.Store
        → Rose (S.fault_count store.old) (S.fault_count store.new) }
{
    match list_commits(alloc, store) {
        Ok(numbers) => asked_in(numbers.as_slice(), named),
        Err(StoreFault::Failed) => Err(OpenFault::Store),
        Err(StoreFault::NoMemory) => Err(OpenFault::NoMemory),
    }
}
