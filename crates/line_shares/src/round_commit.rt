//! The commit with which a round ended, found among the tasks of its workers.
ghost use Rattle.std.specs.Prelude.{◌≡◌, ◌≤◌, ◌↔◌, IsTrue, List as ListOf, ℕ, length, map, drop, IfOk, MatchOption, IfSome, None, Some};
ghost use Rattle.std.specs.List.{AllByRecursion};
ghost use Rattle.commit_point.specs.Holds.{Pairs};
ghost use Rattle.line_shares.specs.Committed.{IsToldPast, WasTold, commit_among, commit_in, commit_of, commit_task};
ghost use Rattle.line_shares.specs.Committed.{no_commit, told_count, told_past};
ghost use Rattle.worker_tasks.specs.Replies.{told_in};

use ix_base::{Fields, NoMemory, Operation};
use std::alloc::Global;
use worker_tasks::{Reply, Share, Task};

/// How many tasks of each share were told something. The only error is out of memory.
pub fn told_counts(alloc: Global, shares: &[Share]) -> Result<Vec<usize>, NoMemory>
    ensures { IfOk result (λ counts. counts.items ≡ map told_count shares.now) }
{
    let mut counts = Vec::with_capacity(alloc, shares.len())?;
    for share in shares {
        counts.push(share.replies().len())?;
    }
    Ok(counts)
}

/// A commit line: its place in the script, and a copy of its pairs.
#[derive(Drop)]
pub struct CommitLine {
    pub line: u32,
    pub pairs: Fields,
}

impl CommitLine {
    /// No commit line: its place is 0.
    pub fn none(alloc: Global) -> CommitLine
        ensures { result ≡ no_commit }
    {
        let pairs = Fields::none(alloc);
        CommitLine { line: 0, pairs }
    }
}

/// The commit that got this number, among the tasks that were told something since so many of each share
/// were: its line and a copy of its pairs. It is asked for one that is among them. The only error is out of
/// memory. It takes time as the number of those tasks.
pub fn committed(
    alloc: Global,
    counts: &[usize],
    shares: &[Share],
    number: u64,
) -> Result<CommitLine, NoMemory>
    requires count { length counts.now ≡ length shares.now }
    requires few { AllByRecursion (λ share. length share.replies ≤ length share.tasks) shares.now }
    ensures pairs { (pairs : Pairs) → commit_among number (told_past counts.now shares.now) ≡ Some pairs
        → IfOk result (λ found. found.pairs ≡ pairs) }
    // One of the tasks of these workers is a commit of this line and these pairs, and was told the number.
    ensures told { (pairs : Pairs) → commit_among number (told_past counts.now shares.now) ≡ Some pairs
        → IfOk result (λ found.
        IsToldPast (commit_task found.line pairs) (Reply.Numbered number) counts.now shares.now) }
{
    for (at, share) in shares.iter().enumerate() {
        if let Some((line, pairs)) = commit_past(share, counts[at], number) {
            let pairs = pairs.clone_in(alloc)?;
            return Ok(CommitLine { line, pairs });
        }
    }
    Ok(CommitLine::none(alloc))
}

/// The line and the pairs of the commit that got this number, among the tasks of a share that were told
/// something since so many were.
fn commit_past(share: &Share, count: usize, number: u64) -> Option<(u32, &Fields)>
    requires few { length share.now.replies ≤ length share.now.tasks }
    ensures pairs { MatchOption result
        (commit_in number (told_in (drop count share.now.tasks) (drop count share.now.replies)) ≡ None)
        (λ found. commit_in number (told_in (drop count share.now.tasks) (drop count share.now.replies))
        ≡ Some found.1.now) }
    ensures told { IfSome result (λ found. WasTold (commit_task found.0 found.1.now)
        (Reply.Numbered number) (drop count share.now.tasks) (drop count share.now.replies)) }
{
    let tasks = share.tasks();
    let replies = share.replies();
    let mut at = count;
    while at < replies.len() {
        if is_number(replies[at], number) {
            return commit_by(&tasks[at]);
        }
        at += 1;
    }
    None
}

/// Whether a task was told this number.
fn is_number(reply: Reply, number: u64) -> bool
    ensures { IsTrue result ↔ (reply ≡ Reply.Numbered number) }
{
    match reply {
        Reply::Numbered(told) => told == number,
        Reply::Refused(_) => false,
    }
}

/// The line and the pairs of a task that is a commit.
fn commit_by(task: &Task) -> Option<(u32, &Fields)>
    ensures pairs { MatchOption result (commit_of task.now.operation ≡ None)
        (λ found. commit_of task.now.operation ≡ Some found.1.now) }
    ensures task { IfSome result (λ found. task.now ≡ commit_task found.0 found.1.now) }
{
    match &task.operation {
        Operation::Commit(pairs) => Some((task.line, pairs)),
        Operation::Add(_)
        | Operation::AddBlock(_)
        | Operation::Update(_, _)
        | Operation::UpdateBlock(_, _)
        | Operation::DeleteTerm(_)
        | Operation::DeleteQuery(_)
        | Operation::SetNumber { .. } => None,
    }
}
