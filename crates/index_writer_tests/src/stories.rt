//! Histories of a writer of two thread writers: its rounds, merge steps and commits, and what is told of them.
ghost use Rattle.std.specs.Prelude.{◌≡◌, ◌≤◌, ℕ, None, false, true, IfOk, OnOk};
ghost use Rattle.index_writer.specs.Ready.{IsSound};
ghost use Rattle.index_writer_tests.specs.Trials.{IsUnderWay};

use crate::script_lines::{Line, Script, operation_of};
use crate::working::{Answer, do_line, into_parts};
use commit_point::open_commit;
use index_writer::{IndexWriter, MergeTurn, RoundEnd, RoundParts};
use ix_base::Fields;
use ix_memory::MemoryStore;
use std::alloc::Global;
use std::fmt::Write;
use std::test::*;
use std::thread::Threads;
use test_segments::show_live_row;

/// Does a line of a script.
pub(crate) fn told(alloc: Global, parts: &mut RoundParts, line: Line) -> Result<Answer, Fail>
    requires { (base : ℕ) × IsUnderWay base parts.old }
    ensures { OnOk result ((base : ℕ) → IsUnderWay base parts.old → IsUnderWay base parts.new) }
{
    let (worker, act, key) = line;
    if worker >= parts.writers.len() {
        Err("a writer")?;
    }
    let operation = operation_of(alloc, act, key)?;
    Ok(do_line(parts, worker, &operation))
}

/// Does the lines of a script.
pub(crate) fn work(alloc: Global, parts: &mut RoundParts, script: Script) -> Result<(), Fail>
    requires { (base : ℕ) × IsUnderWay base parts.old }
    ensures { OnOk result ((base : ℕ) → IsUnderWay base parts.old → IsUnderWay base parts.new) }
{
    for line in script {
        told(alloc, parts, *line)?;
    }
    Ok(())
}

/// A round that begins.
pub(crate) fn begun(
    alloc: Global,
    writer: &mut IndexWriter<MemoryStore>,
    writers: u32,
) -> Result<RoundParts, Fail>
    requires sound { IsSound writer.old.state }
    requires writers { (1 ≤ writers) × (writers ≤ 16) }
    requires out { writer.old.state.out ≡ false }
    requires few { (writer.old.state.published.upto ≤ 1000)
        × (writer.old.state.published.next_id ≤ 1000) }
    ensures parts { IfOk result (IsUnderWay writer.new.state.published.upto) }
    ensures sound { IsSound writer.new.state }
    ensures out { OnOk result (writer.new.state.out ≡ true) }
    ensures pending { writer.new.state.pending ≡ writer.old.state.pending }
{
    Ok(into_parts(alloc, writer.begin_round(writers)?)?)
}

/// A round of two writers that do the lines of a script.
fn round<R: Threads + Sync>(
    rt: &R,
    alloc: Global,
    writer: &mut IndexWriter<MemoryStore>,
    script: Script,
) -> Result<RoundEnd, Fail>
    requires { IsSound writer.old.state }
    ensures { OnOk result (IsSound writer.new.state) }
{
    if writer.in_round() || writer.pending_commit().is_some() {
        Err("a round or a commit before")?;
    }
    if writer.upto() > 1000 || writer.next_id() > 1000 {
        Err("many operations")?;
    }
    let mut parts = begun(alloc, writer, 2)?;
    work(alloc, &mut parts, script)?;
    ended(rt, writer, parts)
}

/// How a round ends.
pub(crate) fn ended<R: Threads + Sync>(
    rt: &R,
    writer: &mut IndexWriter<MemoryStore>,
    parts: RoundParts,
) -> Result<RoundEnd, Fail>
    requires sound { IsSound writer.old.state }
    requires out { writer.old.state.out ≡ true }
    requires pending { writer.old.state.pending ≡ None }
    requires parts { IsUnderWay writer.old.state.published.upto parts }
    ensures { OnOk result (IsSound writer.new.state) }
{
    match writer.end_round(rt, parts) {
        Ok(end) => Ok(end),
        Err(refused) => Err(refused.fault)?,
    }
}

/// The live rows of the commit of this number, of each segment its id and then its rows with their
/// births, and the number `n` where it was set.
pub(crate) fn shown(alloc: Global, store: &mut MemoryStore, number: u64) -> Result<String, Fail> {
    let mut out = String::new(alloc);
    let opened = open_commit(alloc, store, number)?;
    write!(out, "{}:", opened.next_id)?;
    for segment in opened.segments.as_slice() {
        write!(out, " {}", segment.segment().id)?;
        for at in 0..8 {
            show_live_row(alloc, &mut out, segment, at)?;
        }
    }
    Ok(out)
}

/// Commits, and returns the number of the commit and how many rows it has.
fn committed(alloc: Global, writer: &mut IndexWriter<MemoryStore>) -> Result<(u64, u64), Fail>
    requires { IsSound writer.old.state }
    ensures { OnOk result (IsSound writer.new.state) }
{
    if writer.pending_commit().is_none() {
        Err("no commit to be written")?;
    }
    let info = writer.commit(&Fields::none(alloc))?;
    Ok((info.number, info.docs))
}

/// What a merge step of so many rows did.
fn merged(writer: &mut IndexWriter<MemoryStore>, rows: u32) -> Result<MergeTurn, Fail>
    requires { IsSound writer.old.state }
    ensures { OnOk result (IsSound writer.new.state) }
{
    if rows == 0 || writer.next_id() > 1000 {
        Err("no row, or many segments")?;
    }
    Ok(writer.merge_step(rows)?)
}

/// A step in the history of a writer.
#[derive(Clone, Copy)]
pub(crate) enum Step<'a> {
    /// A round of two writers that do the lines of a script.
    Round(Script<'a>),
    /// A merge step of so many rows.
    Merge(u32),
    /// The commit that is still to be written.
    Commit,
}

/// How a round ended, and the commit that is to be written then.
fn show_end(out: &mut String, end: RoundEnd, pending: Option<u64>) -> Result<(), Fail> {
    match end {
        RoundEnd::Committed(number) => write!(out, "committed {number}")?,
        RoundEnd::Turned => out.push_str("turned")?,
        RoundEnd::Ran => out.push_str("ran")?,
    }
    if let Some(number) = pending {
        write!(out, ", {number} pending")?;
    }
    Ok(out.push_str("; ")?)
}

fn show_merge(out: &mut String, turn: MergeTurn) -> Result<(), Fail> {
    match turn {
        MergeTurn::Idle => out.push_str("idle; ")?,
        MergeTurn::Stepped => out.push_str("stepped; ")?,
        MergeTurn::Merged => out.push_str("merged; ")?,
    }
    Ok(())
}

/// Goes a step, and shows what came of it.
fn go_on<R: Threads + Sync>(
    rt: &R,
    alloc: Global,
    out: &mut String,
    writer: &mut IndexWriter<MemoryStore>,
    step: Step<'_>,
) -> Result<(), Fail>
    requires { IsSound writer.old.state }
    ensures { OnOk result (IsSound writer.new.state) }
{
    match step {
        Step::Round(script) => {
            let end = round(rt, alloc, writer, script)?;
            show_end(out, end, writer.pending_commit())
        }
        Step::Merge(rows) => show_merge(out, merged(writer, rows)?),
        Step::Commit => {
            let (number, docs) = committed(alloc, writer)?;
            Ok(write!(out, "{docs} rows in {number}; ")?)
        }
    }
}

fn show_numbers(out: &mut String, writer: &IndexWriter<MemoryStore>) -> Result<(), Fail> {
    let (upto, last, next) = (writer.upto(), writer.last(), writer.next_id());
    Ok(write!(out, "{upto}, last commit {last}, next id {next}")?)
}

/// Goes these steps, and shows what came of each, with the last number, the last commit and the next
/// id then.
pub(crate) fn history<R: Threads + Sync>(
    rt: &R,
    alloc: Global,
    writer: &mut IndexWriter<MemoryStore>,
    steps: &[Step<'_>],
) -> Result<String, Fail>
    requires { IsSound writer.old.state }
    ensures { OnOk result (IsSound writer.new.state) }
{
    let mut out = String::new(alloc);
    for step in steps {
        go_on(rt, alloc, &mut out, writer, *step)?;
    }
    show_numbers(&mut out, writer)?;
    Ok(out)
}

/// Behind what was told, the rows of each of these commits.
pub(crate) fn with_commits(
    alloc: Global,
    told: String,
    store: MemoryStore,
    commits: &[u64],
) -> Result<String, Fail> {
    let (mut told, mut store) = (told, store);
    for number in commits {
        told.push_str(" / ")?;
        told.push_str(shown(alloc, &mut store, *number)?.as_str())?;
    }
    Ok(told)
}

/// The history of a new writer: how many documents its buffers hold, its merge factor, its steps, and
/// the commits whose rows are shown. What is told of all that.
#[derive(Clone, Copy)]
pub(crate) struct Story {
    pub buffer: u32,
    pub merge: u32,
    pub steps: &'static [Step<'static>],
    pub commits: &'static [u64],
    pub told: &'static str,
}

/// What comes of the steps, and then the rows of each of the commits.
fn told_of<R: Threads + Sync>(rt: &R, alloc: Global, story: &Story) -> Result<String, Fail> {
    let (buffer, merge) = (story.buffer, story.merge);
    if buffer == 0 || buffer > 65536 || merge < 2 || merge > 64 {
        Err("other limits")?;
    }
    let mut writer = IndexWriter::none(alloc, MemoryStore::new(alloc), buffer, merge);
    let told = history(rt, alloc, &mut writer, story.steps)?;
    with_commits(alloc, told, writer.into_store(), story.commits)
}

/// Whether a story is told as it should be.
pub(crate) fn is_right<R: Threads + Sync>(
    rt: &R,
    alloc: Global,
    story: &Story,
) -> Result<bool, Fail> {
    Ok(told_of(rt, alloc, story)?.as_str() == story.told)
}
