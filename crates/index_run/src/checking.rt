//! The command that checks the commits.
ghost use Rattle.std.specs.Prelude.{◌≡◌, ◌∷◌, [], ℕ, List, IfOk, IfErr, IsErrAnd, Err, Some};
ghost use Rattle.std.specs.List.{flat_map};
ghost use Rattle.commit_point.specs.declared.heads.Head.{Head};
ghost use Rattle.ix_base.specs.declared.damaged.Damaged.{Damaged};
ghost use Rattle.ix_base.specs.declared.file_name.FileName.{FileName};
ghost use Rattle.ix_outside.specs.Causes.{Rose};
ghost use Rattle.ix_outside.specs.Disk.{told_files};
ghost use Rattle.ix_outside.specs.Files.{Files};
ghost use Rattle.index_check.specs.Difference.{DiffersIn};
ghost use Rattle.index_check.specs.Sound.{AreLawful, IsDamagedAt};
ghost use Rattle.index_check.specs.declared.fault.Difference.{Difference};
ghost use Rattle.store_answers.specs.Listing.{line_text};
ghost use Rattle.index_run.specs.Causes.{IsOneOf, stop_by_check, stop_status};
ghost use Rattle.index_run.specs.Damage.{ChecksDifferent};
ghost use Rattle.index_run.specs.Promises.{IsCheckOf};

use crate::doing::Done;
use crate::stop::Stop;
use commit_point::Head;
use index_check::{CheckFault, check};
use ix_base::NoMemory;
use ix_outside::Store;
use report_text::{Fault, listed_text};
use std::alloc::Global;

/// Why `check` stops.
fn stop_by_check(fault: CheckFault) -> Stop
    ensures { result ≡ stop_by_check fault }
{
    match fault {
        CheckFault::Store => Stop::Fault(Fault::Store),
        CheckFault::Damaged(damaged) => Stop::Fault(Fault::Damaged(damaged)),
        CheckFault::Differs(difference) => Stop::Fault(Fault::Differs {
            file: difference.file,
            at: difference.at,
            found: difference.found,
            wanted: difference.wanted,
        }),
        CheckFault::NoMemory => Stop::NoMemory,
    }
}

/// The lines of these commits, as `list` writes them.
fn lines_of(alloc: Global, heads: &[Head]) -> Result<Vec<u8>, NoMemory>
    ensures { IfOk result (λ text. text.items ≡ flat_map line_text heads.now) }
{
    let mut text = Vec::new(alloc);
    for head in heads {
        let line = listed_text(alloc, head.number, &head.pairs, head.docs)?;
        text.extend_from_slice(line.as_slice())?;
    }
    Ok(text)
}

/// What a check of the store's commits comes to: their lines, or why it stops.
fn checked<S: Store>(alloc: Global, store: &mut S) -> Result<Vec<u8>, Stop>
    ensures text { (files : Files) → told_files (S.disk store.old) ≡ Some files
        → IfOk result (λ text. IsCheckOf files text.items) }
    ensures whole { (files : Files) → told_files (S.disk store.old) ≡ Some files → AreLawful files
        → IfErr result (λ stop. IsOneOf (stop_status stop) (4 ∷ 7 ∷ [])) }
    ensures other { (files : Files) (d : Difference) → told_files (S.disk store.old) ≡ Some files
        → DiffersIn files d
        → IsErrAnd result (λ stop. IsOneOf (stop_status stop) (4 ∷ 7 ∷ 11 ∷ [])) }
    ensures damaged { (damaged : Damaged) → result ≡ Err (Stop.Fault (Fault.Damaged damaged))
        → IsDamagedAt (told_files (S.disk store.old)) damaged }
    ensures differs { (file : FileName) (at found wanted : ℕ)
        → result ≡ Err (Stop.Fault (Fault.Differs file at found wanted))
        → ChecksDifferent (told_files (S.disk store.old)) file at found wanted }
    ensures same { S.disk store.new ≡ S.disk store.old }
    ensures failed { result ≡ Err (Stop.Fault Fault.Store)
        → Rose (S.fault_count store.old) (S.fault_count store.new) }
    ensures others { IfErr result (λ stop. IsOneOf (stop_status stop) (4 ∷ 7 ∷ 8 ∷ 11 ∷ [])) }
{
    match check(alloc, store) {
        Ok(heads) => match lines_of(alloc, heads.as_slice()) {
            Ok(text) => Ok(text),
            Err(NoMemory) => Err(Stop::NoMemory),
        },
        Err(fault) => Err(stop_by_check(fault)),
    }
}

/// Checks the store's commits, and lists them where each is sound. The store is only read.
pub fn check_commits<S: Store>(alloc: Global, store: S) -> Done<S>
    ensures text { (files : Files) → told_files (S.disk store) ≡ Some files
        → IfOk result.text (λ text. IsCheckOf files text.items) }
    ensures whole { (files : Files) → told_files (S.disk store) ≡ Some files → AreLawful files
        → IfErr result.text (λ stop. IsOneOf (stop_status stop) (4 ∷ 7 ∷ [])) }
    ensures other { (files : Files) (d : Difference) → told_files (S.disk store) ≡ Some files
        → DiffersIn files d
        → IsErrAnd result.text (λ stop. IsOneOf (stop_status stop) (4 ∷ 7 ∷ 11 ∷ [])) }
    ensures damaged { (damaged : Damaged) → result.text ≡ Err (Stop.Fault (Fault.Damaged damaged))
        → IsDamagedAt (told_files (S.disk store)) damaged }
    ensures differs { (file : FileName) (at found wanted : ℕ)
        → result.text ≡ Err (Stop.Fault (Fault.Differs file at found wanted))
        → ChecksDifferent (told_files (S.disk store)) file at found wanted }
    ensures same { S.disk result.store ≡ S.disk store }
    ensures failed { result.text ≡ Err (Stop.Fault Fault.Store)
        → Rose (S.fault_count store) (S.fault_count result.store) }
    ensures others { IfErr result.text (λ stop.
        IsOneOf (stop_status stop) (4 ∷ 7 ∷ 8 ∷ 11 ∷ [])) }
{
    let mut store = store;
    let text = checked(alloc, &mut store);
    Done { text, store }
}
