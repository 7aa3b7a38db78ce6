//! The text that tells of a run whose lines are done: its report, or its summary.
ghost use Rattle.std.specs.Prelude.{◌≡◌, ◌⊎◌, ◌≤◌, ◌-◌, ℕ, List, IfOk, IfErr, Err, Some, map, count_by};
ghost use Rattle.ix_base.specs.Hits.{hit_of};
ghost use Rattle.ix_base.specs.declared.damaged.Damaged.{Damaged};
ghost use Rattle.ix_base.specs.declared.document.Row.{Row};
ghost use Rattle.ix_outside.specs.Causes.{Rose};
ghost use Rattle.ix_outside.specs.Disk.{told_files};
ghost use Rattle.ix_outside.specs.Files.{Files};
ghost use Rattle.commit_point.specs.Holds.{HoldsInverted};
ghost use Rattle.report_text.specs.Born.{born_after};
ghost use Rattle.report_text.specs.Lines.{summary_value, text_line};
ghost use Rattle.report_text.specs.Summaries.{summary_of};
ghost use Rattle.run_report.specs.Texts.{texts};
ghost use Rattle.searcher.specs.Searching.{IsDamagedIn};
ghost use Rattle.index_run.specs.Telling.{CanTell, ReadsCommit, is_committed};

use crate::stop::Stop;
use ix_base::NoMemory;
use ix_outside::Store;
use report_text::{Fault, Summary, summary_text};
use run_report::{Answer, Outcome, report};
use std::alloc::Global;
use store_answers::own_hits;

/// Which text tells of a run.
#[derive(Clone, Copy, Debug, PartialEq, Eq)]
pub enum Form {
    /// A line for each line of the script.
    Report,
    /// One line for all.
    Summary,
}

/// The text of this form, of a run from the commit `base` to the number `upto` in which this became of the lines. A
/// report is made from that alone. A summary asks the store for the last commit.
pub fn text_of<S: Store>(
    alloc: Global,
    store: &mut S,
    form: Form,
    base: u64,
    upto: u64,
    outcomes: &[Outcome],
) -> Result<Vec<u8>, Stop>
    requires order { base ≤ upto }
    ensures report { form ≡ Form.Report → IfOk result (λ bytes. bytes.items ≡ texts outcomes.now) }
    ensures summary { (files : Files) (next : ℕ) (rows : List Row) → form ≡ Form.Summary
        → told_files (S.disk store.old) ≡ Some files → HoldsInverted files upto next rows
        → IfOk result (λ bytes. bytes.items ≡ text_line (summary_value (summary_of
        (count_by is_committed outcomes.now) (upto - base) (map hit_of (born_after base rows))))) }
    ensures whole { (files : Files) → told_files (S.disk store.old) ≡ Some files
        → CanTell form upto files
        → IfErr result (λ stop. (stop ≡ Stop.Fault Fault.Store) ⊎ (stop ≡ Stop.NoMemory)) }
    ensures damaged { (damaged : Damaged) → result ≡ Err (Stop.Fault (Fault.Damaged damaged))
        → (form ≡ Form.Summary) × IsDamagedIn (told_files (S.disk store.old)) upto damaged }
    ensures reads { S.disk store.new ≡ S.disk store.old }
    ensures later { S.fault_count store.old ≤ S.fault_count store.new }
    ensures failed { result ≡ Err (Stop.Fault Fault.Store)
        → Rose (S.fault_count store.old) (S.fault_count store.new) }
    ensures others { IfErr result (λ stop. (stop ≡ Stop.Fault Fault.Store) ⊎ ((stop ≡ Stop.NoMemory)
        ⊎ ((damaged : Damaged) × (stop ≡ Stop.Fault (Fault.Damaged damaged))))) }
{
    match form {
        Form::Report => match report(alloc, outcomes) {
            Ok(text) => Ok(text),
            Err(NoMemory) => Err(Stop::NoMemory),
        },
        Form::Summary => summary(alloc, store, base, upto, outcomes),
    }
}

/// Whether a commit became of the line.
fn is_committed(outcome: &Outcome) -> bool
    ensures { result ≡ is_committed outcome.now }
{
    matches!(outcome.answer, Answer::Committed(_, _))
}

/// How many commits there were.
fn commits_among(outcomes: &[Outcome]) -> u64
    ensures { result ≡ count_by is_committed outcomes.now }
{
    outcomes
        .iter()
        .filter(|outcome| is_committed(outcome))
        .count() as u64
}

/// The text of a summary, or why the run stops.
fn text_or_stop(alloc: Global, summary: Summary) -> Result<Vec<u8>, Stop>
    ensures text { IfOk result (λ bytes. bytes.items ≡ text_line (summary_value summary)) }
    ensures others { IfErr result (λ stop. stop ≡ Stop.NoMemory) }
{
    match summary_text(alloc, summary) {
        Ok(text) => Ok(text),
        Err(NoMemory) => Err(Stop::NoMemory),
    }
}

/// The summary of a run, from its last commit, or why the run stops.
fn summary<S: Store>(
    alloc: Global,
    store: &mut S,
    base: u64,
    upto: u64,
    outcomes: &[Outcome],
) -> Result<Vec<u8>, Stop>
    requires order { base ≤ upto }
    ensures text { (files : Files) (next : ℕ) (rows : List Row)
        → told_files (S.disk store.old) ≡ Some files → HoldsInverted files upto next rows
        → IfOk result (λ bytes. bytes.items ≡ text_line (summary_value (summary_of
        (count_by is_committed outcomes.now) (upto - base) (map hit_of (born_after base rows))))) }
    ensures whole { (files : Files) → told_files (S.disk store.old) ≡ Some files
        → ReadsCommit files upto
        → IfErr result (λ stop. (stop ≡ Stop.Fault Fault.Store) ⊎ (stop ≡ Stop.NoMemory)) }
    ensures damaged { (damaged : Damaged) → result ≡ Err (Stop.Fault (Fault.Damaged damaged))
        → IsDamagedIn (told_files (S.disk store.old)) upto damaged }
    ensures reads { S.disk store.new ≡ S.disk store.old }
    ensures later { S.fault_count store.old ≤ S.fault_count store.new }
    ensures failed { result ≡ Err (Stop.Fault Fault.Store)
        → Rose (S.fault_count store.old) (S.fault_count store.new) }
    ensures others { IfErr result (λ stop. (stop ≡ Stop.Fault Fault.Store) ⊎ ((stop ≡ Stop.NoMemory)
        ⊎ ((damaged : Damaged) × (stop ≡ Stop.Fault (Fault.Damaged damaged))))) }
{
    match own_hits(alloc, store, upto, base) {
        Ok(hits) => {
            let commits = commits_among(outcomes);
            text_or_stop(
                alloc,
                Summary::of_run(commits, upto - base, hits.as_slice()),
            )
        }
        Err(fault) => Err(Stop::from(fault)),
    }
}
