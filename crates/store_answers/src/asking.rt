//! Questions, answered from one commit of a store.
ghost use Rattle.std.specs.Prelude.{◌≡◌, ◌≤◌, ◌⊎◌, ℕ, List, Err, IfErr, IfOk, IsErrAnd, Some};
ghost use Rattle.ix_base.specs.declared.damaged.Damaged.{Damaged};
ghost use Rattle.ix_base.specs.declared.document.Row.{Row};
ghost use Rattle.ix_outside.specs.Causes.{Rose};
ghost use Rattle.ix_outside.specs.Disk.{told_files};
ghost use Rattle.ix_outside.specs.Files.{Files};
ghost use Rattle.commit_point.specs.Holds.{Holds, HoldsInverted};
ghost use Rattle.commit_point.specs.Loading.{IsOutside};
ghost use Rattle.commit_point.specs.Reading.{reading};
ghost use Rattle.searcher.specs.Searching.{IsDamagedIn, Searches};
ghost use Rattle.store_answers.specs.Asking.{IsAsked, IsDamagedAsked, TellsLack};
ghost use Rattle.store_answers.specs.Answers.{answer_text, answers_text};

use crate::finding::asked_commit;
use commit_point::{OpenFault, read_commit};
use ix_base::NoMemory;
use ix_outside::Store;
use op_script::Question;
use report_text::search_text;
use searcher::Searcher;
use std::alloc::Global;

/// The texts of questions, and the commit that answered them, still in memory.
#[derive(Drop)]
pub struct Answered {
    pub text: Vec<u8>,
    pub searcher: Searcher,
}

/// The text of a question: that of a search of this commit.
fn answer(
    alloc: Global,
    commit: u64,
    searcher: &mut Searcher,
    question: &Question,
) -> Result<Vec<u8>, NoMemory>
    ensures text { (rows : List Row) → Searches searcher.old.segments rows
        → IfOk result (λ text. text.items ≡ answer_text commit rows question.now) }
    ensures same { searcher.new ≡ searcher.old }
{
    searcher.prepare(alloc, &question.query)?;
    let found = searcher.hits(alloc, &question.query)?;
    search_text(alloc, commit, found.as_slice(), question.line)
}

/// The texts of the questions, in their order.
fn answers(
    alloc: Global,
    commit: u64,
    searcher: &mut Searcher,
    questions: &[Question],
) -> Result<Vec<u8>, NoMemory>
    ensures { (rows : List Row) → Searches searcher.old.segments rows
        → IfOk result (λ text. text.items ≡ answers_text commit rows questions.now) }
{
    let mut text = Vec::new(alloc);
    for question in questions {
        let one = answer(alloc, commit, searcher, question)?;
        text.extend_from_slice(one.as_slice())?;
    }
    Ok(text)
}

/// The texts of the questions, answered from the commit of this number, which a list has shown.
fn answers_from<S: Store>(
    alloc: Global,
    store: &mut S,
    commit: u64,
    questions: &[Question],
) -> Result<Answered, OpenFault>
    ensures text { (files : Files) (next : ℕ) (rows : List Row)
        → told_files (S.disk store.old) ≡ Some files → HoldsInverted files commit next rows
        → IfOk result (λ answered. answered.text.items ≡ answers_text commit rows questions.now) }
    ensures whole { (files : Files) (next : ℕ) (rows : List Row)
        → told_files (S.disk store.old) ≡ Some files → Holds files commit next rows
        → IfErr result IsOutside }
    ensures damaged { (damaged : Damaged) → result ≡ Err (OpenFault.Damaged damaged)
        → IsDamagedIn (told_files (S.disk store.old)) commit damaged }
    ensures broken { (files : Files) (damaged : Damaged)
        → told_files (S.disk store.old) ≡ Some files → reading files commit ≡ Err damaged
        → IsErrAnd result (λ fault. (fault ≡ OpenFault.Damaged damaged) ⊎ IsOutside fault) }
    ensures listed { (other : ℕ) → result ≡ Err (OpenFault.NoSuch other) → ⊥ }
    ensures reads { S.disk store.new ≡ S.disk store.old }
    ensures later { S.fault_count store.old ≤ S.fault_count store.new }
    ensures failed { result ≡ Err OpenFault.Store
        → Rose (S.fault_count store.old) (S.fault_count store.new) }
{
    match read_commit(alloc, store, commit) {
        Ok(opened) => {
            let mut searcher = Searcher {
                segments: opened.segments,
            };
            match answers(alloc, commit, &mut searcher, questions) {
                Ok(text) => Ok(Answered { text, searcher }),
                Err(NoMemory) => Err(OpenFault::NoMemory),
            }
        }
        Err(fault) => Err(fault),
    }
}

/// Answers questions, in their order, from the commit that is named or, where none is, from the
/// store's last one: for each question the text of a search of that commit. The commit is read once,
/// also where there is no question, and handed back: to let a large one go takes time. The store is as
/// before, whatever is returned.
///
/// - `NoSuch` comes exactly where the store's list lacks the number that is named or, where none is,
///   has no commit. Its number is the one that is named, or 0.
/// - `Damaged` names the first broken place of the commit. A commit file that is gone since it was
///   listed is damaged at 0.
/// - `Store` comes only where the store's count of faults rose.
pub fn ask<S: Store>(
    alloc: Global,
    store: &mut S,
    named: Option<u64>,
    questions: &[Question],
) -> Result<Answered, OpenFault>
    // What is answered is what matches among the commit's rows.
    ensures text { (files : Files) (s next : ℕ) (rows : List Row)
        → told_files (S.disk store.old) ≡ Some files → IsAsked files named s
        → HoldsInverted files s next rows
        → IfOk result (λ answered. answered.text.items ≡ answers_text s rows questions.now) }
    ensures whole { (files : Files) (s next : ℕ) (rows : List Row)
        → told_files (S.disk store.old) ≡ Some files → IsAsked files named s
        → Holds files s next rows → IfErr result IsOutside }
    // A damaged commit is said to be, by its first broken place, and no other is.
    ensures damaged { (damaged : Damaged) → result ≡ Err (OpenFault.Damaged damaged)
        → IsDamagedAsked (told_files (S.disk store.old)) named damaged }
    ensures broken { (files : Files) (s : ℕ) (damaged : Damaged)
        → told_files (S.disk store.old) ≡ Some files → IsAsked files named s
        → reading files s ≡ Err damaged
        → IsErrAnd result (λ fault. (fault ≡ OpenFault.Damaged damaged) ⊎ IsOutside fault) }
    // Where there is no such commit, this is said, and nowhere else.
    ensures no_such { TellsLack (told_files (S.disk store.old)) named result }
    ensures reads { S.disk store.new ≡ S.disk store.old }
    ensures later { S.fault_count store.old ≤ S.fault_count store.new }
    ensures failed { result ≡ Err OpenFault.Store
        → Rose (S.fault_count store.old) (S.fault_count store.new) }
{
    match asked_commit(alloc, store, named) {
        Ok(commit) => answers_from(alloc, store, commit, questions),
        Err(fault) => Err(fault),
    }
}
