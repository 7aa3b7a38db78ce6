//! The commands that only read the store: questions answered, and the commits listed.
ghost use Rattle.std.specs.Prelude.{◌≡◌, ◌∷◌, [], ℕ, List, IfOk, IfErr, IsErrAnd, Err, Some, unwrap_or};
ghost use Rattle.commit_point.specs.Holds.{Holds, HoldsInverted};
ghost use Rattle.commit_point.specs.declared.heads.Head.{Head};
ghost use Rattle.ix_base.specs.declared.damaged.Damaged.{Damaged};
ghost use Rattle.ix_base.specs.declared.document.Row.{Row};
ghost use Rattle.ix_outside.specs.Causes.{Rose};
ghost use Rattle.ix_outside.specs.Disk.{told_files};
ghost use Rattle.ix_outside.specs.Files.{Files};
ghost use Rattle.store_answers.specs.Answers.{answers_text};
ghost use Rattle.store_answers.specs.Asking.{IsAsked, IsDamagedAsked, LacksAsked};
ghost use Rattle.store_answers.specs.Listing.{AreListed};
ghost use Rattle.index_run.specs.Damage.{ListsDamaged};
ghost use Rattle.index_run.specs.Causes.{IsOneOf, stop_by_list, stop_status, stop_to_ask};
ghost use Rattle.index_run.specs.Promises.{IsListOf};

use crate::doing::Done;
use crate::standing::let_stand;
use crate::stop::Stop;
use commit_point::OpenFault;
use ix_base::List;
use ix_outside::Store;
use op_script::Question;
use report_text::Fault;
use std::alloc::Global;
use store_answers::{Answered, ListFault, ask, list};

/// Why `ask` stops.
fn stop_to_ask(fault: OpenFault) -> Stop
    ensures { result ≡ stop_to_ask fault }
{
    match fault {
        OpenFault::Store => Stop::Fault(Fault::Store),
        OpenFault::Damaged(damaged) => Stop::Fault(Fault::Damaged(damaged)),
        OpenFault::NoSuch { number } => Stop::Fault(Fault::NoSuch(number)),
        OpenFault::NoMemory => Stop::NoMemory,
    }
}

/// Why `list` stops.
fn stop_by_list(fault: ListFault) -> Stop
    ensures { result ≡ stop_by_list fault }
{
    match fault {
        ListFault::Store => Stop::Fault(Fault::Store),
        ListFault::Damaged(damaged) => Stop::Fault(Fault::Damaged(damaged)),
        ListFault::NoMemory => Stop::NoMemory,
    }
}

/// Answers the questions from the commit that is named or, where none is, from the last one. The store
/// is only read.
pub fn answer<S: Store>(
    alloc: Global,
    store: S,
    commit: Option<u64>,
    asked: List<Question>,
) -> Done<S>
    ensures text { (files : Files) (s next : ℕ) (rows : List Row)
        → told_files (S.disk store) ≡ Some files → IsAsked files commit s
        → HoldsInverted files s next rows
        → IfOk result.text (λ text. text.items ≡ answers_text s rows asked) }
    ensures whole { (files : Files) (s next : ℕ) (rows : List Row)
        → told_files (S.disk store) ≡ Some files → IsAsked files commit s
        → Holds files s next rows
        → IfErr result.text (λ stop. IsOneOf (stop_status stop) (4 ∷ 7 ∷ [])) }
    ensures missing { (files : Files) → told_files (S.disk store) ≡ Some files
        → LacksAsked files commit
        → IsErrAnd result.text (λ stop. IsOneOf (stop_status stop) (4 ∷ 7 ∷ 9 ∷ [])) }
    ensures damaged { (damaged : Damaged) → result.text ≡ Err (Stop.Fault (Fault.Damaged damaged))
        → IsDamagedAsked (told_files (S.disk store)) commit damaged }
    ensures no_such { (number : ℕ) → result.text ≡ Err (Stop.Fault (Fault.NoSuch number))
        → (number ≡ unwrap_or commit 0) × ((files : Files)
        → told_files (S.disk store) ≡ Some files → LacksAsked files commit) }
    ensures same { S.disk result.store ≡ S.disk store }
    ensures failed { result.text ≡ Err (Stop.Fault Fault.Store)
        → Rose (S.fault_count store) (S.fault_count result.store) }
    ensures others { IfErr result.text (λ stop. IsOneOf (stop_status stop) (4 ∷ 7 ∷ 8 ∷ 9 ∷ [])) }
{
    let mut store = store;
    match ask(alloc, &mut store, commit, asked.as_slice()) {
        Ok(answered) => {
            let Answered { text, searcher } = answered;
            let_stand(searcher);
            Done {
                text: Ok(text),
                store,
            }
        }
        Err(fault) => Done {
            text: Err(stop_to_ask(fault)),
            store,
        },
    }
}

/// Lists the store's commits. The store is only read.
pub fn show<S: Store>(alloc: Global, store: S) -> Done<S>
    ensures text { (files : Files) → told_files (S.disk store) ≡ Some files
        → IfOk result.text (λ text. IsListOf files text.items) }
    ensures whole { (files : Files) (heads : List Head) → told_files (S.disk store) ≡ Some files
        → AreListed files heads
        → IfErr result.text (λ stop. IsOneOf (stop_status stop) (4 ∷ 7 ∷ [])) }
    ensures damaged { (damaged : Damaged) → result.text ≡ Err (Stop.Fault (Fault.Damaged damaged))
        → ListsDamaged (told_files (S.disk store)) damaged }
    ensures same { S.disk result.store ≡ S.disk store }
    ensures failed { result.text ≡ Err (Stop.Fault Fault.Store)
        → Rose (S.fault_count store) (S.fault_count result.store) }
    ensures others { IfErr result.text (λ stop. IsOneOf (stop_status stop) (4 ∷ 7 ∷ 8 ∷ [])) }
{
    let mut store = store;
    match list(alloc, &mut store) {
        Ok(text) => Done {
            text: Ok(text),
            store,
        },
        Err(fault) => Done {
            text: Err(stop_by_list(fault)),
            store,
        },
    }
}
