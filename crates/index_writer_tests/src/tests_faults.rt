//! Writers whose store fails, against what was worked out by hand.
ghost use Rattle.std.specs.Prelude.{◌≡◌, None, true, IfOk, OnOk};
ghost use Rattle.index_writer.specs.Ready.{IsSound};
ghost use Rattle.index_writer_tests.specs.Trials.{IsUnderWay};

use crate::script_lines::Act;
use crate::stories::{Step, begun, history, work};
use crate::tests::show_pieces;
use index_writer::{EndRefused, IndexWriter, RoundParts, WriterFault};
use ix_base::Fields;
use ix_memory::MemoryStore;
use ix_outside::Store;
use std::alloc::Global;
use std::test::*;
use std::thread::Threads;

/// A writer whose first write is to fail, after a round that ended with the commit 2.
fn with_failing_write<R: Threads + Sync>(
    rt: &R,
    alloc: Global,
) -> Result<IndexWriter<MemoryStore>, Fail>
    ensures { IfOk result (λ writer. IsSound writer.state) }
{
    use Act::*;
    let store = MemoryStore::new(alloc).failing(vec![in alloc; 1u64]?);
    let mut writer = IndexWriter::none(alloc, store, 2, 8);
    let steps = [Step::Round(&[(0, Add, "a"), (1, Commit, "")])];
    let told = history(rt, alloc, &mut writer, &steps)?;
    if told.as_str() != "committed 2, 2 pending; 2, last commit 0, next id 2" {
        Err("another history")?;
    }
    Ok(writer)
}

/// A writer whose first write fails is closed then, with the number that it had. Its store has no file.
#[test]
fn closed_after_a_fault(rt: HostRuntime) -> Result<(), Fail> {
    let mut writer = with_failing_write(&rt, rt.alloc())?;
    assert!(rt; faults_of(rt.alloc(), &mut writer)? == [WriterFault::Store, WriterFault::Closed]);
    assert!(rt; begin_fault(&mut writer)? == WriterFault::Closed);
    assert!(rt; merge_fault(&mut writer)? == WriterFault::Closed);
    assert!(rt; writer.is_closed());
    assert!(rt; (writer.upto(), writer.pending_commit()) == (2, Some(2)));
    let mut store = writer.into_store();
    assert!(rt; store.list(rt.alloc())?.is_empty());
    Ok(())
}

/// A commit that fails while a round is out: the round can't be ended, and is given back as it was.
#[test]
fn closed_while_a_round_is_out(rt: HostRuntime) -> Result<(), Fail> {
    let mut writer = with_failing_write(&rt, rt.alloc())?;
    assert!(rt; lost_round(&rt, rt.alloc(), &mut writer)?.as_str() == "; [0: b3 c4];");
    assert!(rt; writer.is_closed() && writer.in_round());
    assert!(rt; (writer.upto(), writer.pending_commit()) == (2, Some(2)));
    Ok(())
}

/// Begins a round in which three documents are added, and commits, which fails. Returns what is given back
/// where the round is ended then: what its writers gave off.
fn lost_round<R: Threads + Sync>(
    rt: &R,
    alloc: Global,
    writer: &mut IndexWriter<MemoryStore>,
) -> Result<String, Fail>
    requires { IsSound writer.old.state }
{
    if writer.in_round() || writer.upto() > 1000 || writer.next_id() > 1000 {
        Err("a round before")?;
    }
    let mut parts = begun(alloc, writer, 2)?;
    work(
        alloc,
        &mut parts,
        &[(0, Act::Add, "b"), (0, Act::Add, "c"), (0, Act::Add, "d")],
    )?;
    if fault_of(alloc, writer)? != WriterFault::Store {
        Err("another fault")?;
    }
    given_back(rt, alloc, writer, parts)
}

/// What the writers of a round gave off, which a closed writer gives back.
fn given_back<R: Threads + Sync>(
    rt: &R,
    alloc: Global,
    writer: &mut IndexWriter<MemoryStore>,
    parts: RoundParts,
) -> Result<String, Fail>
    requires sound { IsSound writer.old.state }
    requires out { writer.old.state.out ≡ true }
{
    if !writer.is_closed() {
        Err("an open writer")?;
    }
    let mut out = String::new(alloc);
    if let Err(
        EndRefused {
            parts: Some(parts),
            fault: WriterFault::Closed,
        },
    ) = writer.end_round(rt, parts)
    {
        for pieces in parts.pieces.as_slice() {
            show_pieces(&mut out, pieces.as_slice())?;
        }
    }
    Ok(out)
}

/// Why a commit isn't written, and why it isn't when it is tried again.
fn faults_of(alloc: Global, writer: &mut IndexWriter<MemoryStore>) -> Result<[WriterFault; 2], Fail>
    requires { IsSound writer.old.state }
    ensures { OnOk result (IsSound writer.new.state) }
{
    let first = fault_of(alloc, writer)?;
    let second = fault_of(alloc, writer)?;
    Ok([first, second])
}

/// Why a commit isn't written.
fn fault_of(alloc: Global, writer: &mut IndexWriter<MemoryStore>) -> Result<WriterFault, Fail>
    requires { IsSound writer.old.state }
    ensures sound { OnOk result (IsSound writer.new.state) }
    ensures out { OnOk result (writer.new.state.out ≡ writer.old.state.out) }
{
    if writer.pending_commit().is_none() {
        Err("no commit to be written")?;
    }
    match writer.commit(&Fields::none(alloc)) {
        Ok(_) => Err("a commit")?,
        Err(fault) => Ok(fault),
    }
}

/// Why a round isn't begun.
fn begin_fault(writer: &mut IndexWriter<MemoryStore>) -> Result<WriterFault, Fail>
    requires { IsSound writer.old.state }
    ensures { OnOk result (IsSound writer.new.state) }
{
    if writer.in_round() || writer.upto() > 1000 || writer.next_id() > 1000 {
        Err("a round before")?;
    }
    match writer.begin_round(1) {
        Ok(_) => Err("a round")?,
        Err(fault) => Ok(fault),
    }
}

/// Why a merge step isn't taken.
fn merge_fault(writer: &mut IndexWriter<MemoryStore>) -> Result<WriterFault, Fail>
    requires { IsSound writer.old.state }
    ensures { OnOk result (IsSound writer.new.state) }
{
    if writer.next_id() > 1000 {
        Err("many segments")?;
    }
    match writer.merge_step(1) {
        Ok(_) => Err("a merge step")?,
        Err(fault) => Ok(fault),
    }
}
