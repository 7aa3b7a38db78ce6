//! The commit of what is in the segments.
ghost use Rattle.std.specs.Prelude.{◌≡◌, ◌≤◌, ◌<◌, ◌^◌, ◌↔◌, length, IsSome};
ghost use Rattle.std.specs.Prelude.{IsTrue, Some, None, IfOk, OnOk, OnErr, Err, true, false};
ghost use Rattle.ix_base.specs.Counts.{doc_count};
ghost use Rattle.ix_base.specs.declared.document.Row.{Row};
ghost use Rattle.std.specs.Prelude.{List as ListOf};
ghost use Rattle.ix_base.specs.declared.file_name.FileName.TheVariants.{Commit};
ghost use Rattle.ix_outside.specs.Calls.{LeavesOnly};
ghost use Rattle.ix_outside.specs.Causes.{Rose};
ghost use Rattle.ix_outside.specs.Crash.{MayHold};
ghost use Rattle.ix_outside.specs.Disk.{Told, told_files};
ghost use Rattle.ix_outside.specs.Files.{Files, Changes};
ghost use Rattle.ix_outside.specs.Images.{Follows, Reaches};
ghost use Rattle.commit_point.specs.Steps.{KeepsMade, OnlyCommits};
ghost use Rattle.index_writer.specs.Ready.{HasRows, IsSound};
ghost use Rattle.index_writer.specs.Standing.{Settles};
ghost use Rattle.index_writer.specs.Storing.{Commits, GoesOn, MayCommit, SameBelow, on_commit, renewed};

use crate::fault::WriterFault;
use crate::round::CommitInfo;
use crate::state::State;
use crate::writer::IndexWriter;
use commit_point::{CommitRefused, Written, version, write_commit};
use ix_base::{Fields, List, NoMemory};
use ix_outside::{Store, StoreFault};
use segment_core::LiveSegment;
use std::alloc::Global;

impl<S: Store> IndexWriter<S> {
    /// Writes the commit with which the last round ended, with these pairs in its commit file, and
    /// returns its number and how many rows it has, or 2^64 - 1 where they are more. It asks that there
    /// is one, unless the writer is closed. Only what is new or changed since the last commit is
    /// written. The commit lists the segments with a live row. The writer's segments stay, those without
    /// one too, and a merge that runs goes on after it.
    ///
    /// `Closed` comes exactly where the writer is closed; nothing changes then. After `Store` it is
    /// closed. After `NoMemory` all is as before, and the commit can be tried again; but where the
    /// commit is on the store by then, the writer is closed.
    pub fn commit(&mut self, pairs: &Fields) -> Result<CommitInfo, WriterFault>
        requires sound { IsSound self.old.state }
        requires pending { self.old.state.closed ≡ false → IsSome self.old.state.pending }
        ensures sound { IsSound self.new.state }
        ensures on { OnOk result (self.new.state ≡ on_commit self.old.state) }
        ensures number { IfOk result (λ info. self.old.state.pending ≡ Some info.number) }
        ensures docs { (rows : ListOf Row) → HasRows self.old.state rows
            → IfOk result (λ info. info.docs ≡ doc_count rows) }
        ensures stands { (rows : ListOf Row) → HasRows self.old.state rows
            → OnOk result (HasRows self.new.state rows) }
        ensures made { self.old.state.published.next_id ≤ 2 ^ 62
            → OnOk result (Changes (Commits pairs.now self.old.state self.new.state)
            (told_files (S.disk self.old.store)) (told_files (S.disk self.new.store))) }
        ensures elsewhere { OnErr result (Changes
            (SameBelow self.old.state.published.upto self.old.state.since)
            (told_files (S.disk self.old.store)) (told_files (S.disk self.new.store))) }
        // After an error the files have the commit whole, or its commit file is as before.
        ensures left { self.old.state.published.next_id ≤ 2 ^ 62
            → OnErr result (Changes (MayCommit pairs.now self.old.state)
            (told_files (S.disk self.old.store)) (told_files (S.disk self.new.store))) }
        // Each step is one by which commits are made: none deletes. Where the writer can go on from
        // the files, each commit that stands at some moment of the call stands from then on.
        ensures only { Told OnlyCommits (S.disk self.old.store) (S.disk self.new.store) }
        ensures standing { (files : Files) → told_files (S.disk self.old.store) ≡ Some files
            → GoesOn files self.old.state
            → Told KeepsMade (S.disk self.old.store) (S.disk self.new.store) }
        // Once it is acknowledged every image has the commit whole; a crash meanwhile leaves it whole or not at all.
        ensures acknowledged { self.old.state.published.next_id ≤ 2 ^ 62
            → OnOk result (Follows (Commits pairs.now self.old.state self.new.state)
            (MayHold (S.disk self.old.store)) (MayHold (S.disk self.new.store))) }
        ensures crash { self.old.state.published.next_id ≤ 2 ^ 62
            → LeavesOnly (S.disk self.old.store) (S.disk self.new.store)
            (Reaches (MayCommit pairs.now self.old.state) (MayHold (S.disk self.old.store))) }
        // Commits that were kept before, and the new one, are kept in every image.
        ensures settled { self.old.state.published.next_id ≤ 2 ^ 62
            → OnOk result (Settles self.old.state (S.disk self.old.store) (S.disk self.new.store)) }
        // After an error the state is as before, but that the writer may be closed.
        ensures err { OnErr result (self.new.state
            ≡ record self.old.state { closed = self.new.state.closed }) }
        ensures closed { (result ≡ Err WriterFault.Closed) ↔ IsTrue self.old.state.closed }
        ensures kept { IsTrue self.old.state.closed → self.new ≡ self.old }
        ensures closes { result ≡ Err WriterFault.Store → IsTrue self.new.state.closed }
        ensures renamed { (files : Files) (now : Files)
            → told_files (S.disk self.old.store) ≡ Some files
            → files (Commit self.old.state.published.upto) ≡ None
            → told_files (S.disk self.new.store) ≡ Some now → result ≡ Err WriterFault.NoMemory
            → (IsTrue self.new.state.closed ↔ IsSome (now (Commit self.old.state.published.upto))) }
        ensures later { S.fault_count self.old.store ≤ S.fault_count self.new.store }
        ensures failed { result ≡ Err WriterFault.Store
            → Rose (S.fault_count self.old.store) (S.fault_count self.new.store) }
    {
        if self.state.closed {
            return Err(WriterFault::Closed);
        }
        let alloc = self.alloc;
        let number = self.state.published.upto;
        let segments = self.state.published.segments.as_slice();
        let written = self.state.written.as_slice();
        let renewed = renewed(alloc, number, segments, written)?;
        let next_id = self.state.published.next_id;
        match write_commit(
            alloc,
            &mut self.store,
            number,
            next_id,
            pairs,
            segments,
            written,
        ) {
            Ok(head) => {
                self.state.go_on(renewed);
                Ok(CommitInfo {
                    number,
                    docs: head.docs,
                })
            }
            Err(refused) => Err(self.state.refuse(refused)),
        }
    }
}

impl State {
    /// Goes on from the commit that was written, with what is on the store of its segments.
    fn go_on(&mut self, renewed: List<Option<Written>>)
        ensures { self.new ≡ record self.old {
          written = renewed;
          last = self.old.published.upto;
          since = self.old.published.next_id;
          pending = None;
        } }
    {
        self.written = renewed;
        self.last = self.published.upto;
        self.since = self.published.next_id;
        self.pending = None;
    }

    /// What is said of a commit that was refused. The writer is closed where the store failed, and
    /// where memory ran out once the commit was there.
    fn refuse(&mut self, refused: CommitRefused) -> WriterFault
        requires { self.old.closed ≡ false }
        ensures failed { refused.fault ≡ StoreFault.Failed
            → (result ≡ WriterFault.Store) × (self.new ≡ record self.old { closed = true }) }
        ensures no_memory { refused.fault ≡ StoreFault.NoMemory
            → (result ≡ WriterFault.NoMemory)
            × (self.new ≡ record self.old { closed = refused.renamed }) }
    {
        match refused.fault {
            StoreFault::Failed => {
                self.closed = true;
                WriterFault::Store
            }
            StoreFault::NoMemory => {
                self.closed = refused.renamed;
                WriterFault::NoMemory
            }
        }
    }
}

/// What is on the store of each segment once the commit of this number is there.
fn renewed(
    alloc: Global,
    number: u64,
    segments: &[LiveSegment],
    written: &[Option<Written>],
) -> Result<List<Option<Written>>, NoMemory>
    requires { length segments.now ≡ length written.now }
    ensures { IfOk result (λ made. made ≡ renewed number segments.now written.now) }
{
    let mut made = List::new(alloc);
    for (at, segment) in segments.iter().enumerate() {
        let live = segment.live().clone_in(alloc)?;
        made.push(Some(Written {
            v: version(number, &written[at], segment),
            live,
        }))?;
    }
    Ok(made)
}
