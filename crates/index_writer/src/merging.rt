//! Merges of the writer's segments, in steps.
ghost use Rattle.std.specs.Prelude.{◌≡◌, ◌≤◌, ◌<◌, ◌↔◌, ◌^◌, [], length, vec_capacity, IfOk, IfSome, OnOk, OnErr, Err, IsTrue, false};
ghost use Rattle.flush_control.specs.Merging.{StillRuns};
ghost use Rattle.index_writer.specs.Merging.{Merges, followed, ids_of, is_there, staying, with_merge};
ghost use Rattle.index_writer.specs.Ready.{IsReady, IsSound};

use crate::fault::WriterFault;
use crate::state::State;
use crate::writer::IndexWriter;
use commit_point::Written;
use flush_control::{MergeTurn, merges_stand};
use ix_base::{List, NoMemory};
use segment_core::LiveSegment;
use std::alloc::Global;
use std::mem;

impl<S> IndexWriter<S> {
    /// Takes a step of the merge that runs: it reads `rows` more rows of its sources, or all that are
    /// left. Where none runs, one is begun of the segments with the fewest live rows, as many as the
    /// writer was made for. `Stepped`: some rows are left. `Merged`: the sources are gone, and the
    /// segment that they are merged into has taken the next id; where no row of them is live there is
    /// none. `Idle` comes exactly where no merge runs and there are fewer segments, those have 2^31 live
    /// rows or more together, or one file has no room for the rows, or for the postings, of all of them.
    ///
    /// A merge runs on over rounds, which delete rows of its sources and set numbers in them, and over
    /// commits, which list its sources until it has ended. The rows stay, and a commit that is still to
    /// be written stays so. The store isn't touched: the next commit writes the merged segment.
    ///
    /// `Closed` comes exactly where the writer is closed; nothing changes then. The only other error is
    /// out of memory. All is as before then, but that a merge may have been begun; one that ran runs
    /// on, and may have read some rows more.
    pub fn merge_step(&mut self, rows: u32) -> Result<MergeTurn, WriterFault>
        requires sound { IsSound self.old.state }
        requires rows { 1 ≤ rows }
        requires ids { self.old.state.published.next_id ≤ 2 ^ 63 }
        ensures merged { self.old.state.closed ≡ false
            → IfOk result (λ turn. Merges rows turn self.old.state self.new.state) }
        ensures sound { IsSound self.new.state }
        ensures store { self.new.store ≡ self.old.store }
        // After an error the running merge alone may be another one: that which ran has read more.
        ensures err { OnErr result (self.new ≡ record self.old {
          state = with_merge self.new.state.published.merge self.old.state;
        }) }
        ensures kept { OnErr result (IfSome self.old.state.published.merge
            (λ run. StillRuns rows self.old.state.published run self.new.state.published)) }
        ensures closed { (result ≡ Err WriterFault.Closed) ↔ IsTrue self.old.state.closed }
        ensures unchanged { IsTrue self.old.state.closed → self.new ≡ self.old }
        ensures outside { result ≡ Err WriterFault.Store → ⊥ }
    {
        if self.state.closed {
            return Err(WriterFault::Closed);
        }
        let turn = self.state.merge_turn(self.alloc, rows)?;
        Ok(turn)
    }
}

impl State {
    /// Takes a turn of the merge that runs, or begins one. What can fail is done before: then what is
    /// on the store of the segments follows without memory.
    fn merge_turn(&mut self, alloc: Global, rows: u32) -> Result<MergeTurn, NoMemory>
        requires ready { IsReady self.old }
        requires rows { 1 ≤ rows }
        requires ids { self.old.published.next_id ≤ 2 ^ 63 }
        ensures merged { IfOk result (λ turn. Merges rows turn self.old self.new) }
        ensures ready { IsReady self.new }
        ensures err { OnErr result
            (self.new ≡ with_merge self.new.published.merge self.old) }
        ensures kept { OnErr result (IfSome self.old.published.merge
            (λ run. StillRuns rows self.old.published run self.new.published)) }
    {
        merges_stand();
        let ids = ids_of(alloc, self.published.segments.as_slice())?;
        let written = self.take_written(alloc)?;
        let next_id = self.published.next_id;
        match self.published.merge_turn(alloc, self.merge, rows) {
            Ok(turn) => {
                let came = self.published.next_id > next_id;
                let segments = self.published.segments.as_slice();
                self.written = follow(turn, written, ids.as_slice(), segments, came);
                Ok(turn)
            }
            Err(error) => {
                self.written = List::from_vec(written);
                Err(error)
            }
        }
    }

    /// Takes out what is on the store of the segments, with room for one more. After an error all is as
    /// before.
    fn take_written(&mut self, alloc: Global) -> Result<Vec<Option<Written>>, NoMemory>
        ensures ok { OnOk result (self.new ≡ record self.old { written = [] }) }
        ensures items { IfOk result (λ written. written.items ≡ self.old.written) }
        ensures room { IfOk result (λ written. length written.items < vec_capacity written) }
        ensures err { OnErr result (self.new ≡ self.old) }
    {
        let mut written = mem::replace(&mut self.written, List::new(alloc)).into_vec();
        if written.reserve(1).is_err() {
            self.written = List::from_vec(written);
            return Err(NoMemory);
        }
        Ok(written)
    }
}

/// The ids of the segments.
fn ids_of(alloc: Global, segments: &[LiveSegment]) -> Result<Vec<u64>, NoMemory>
    ensures { IfOk result (λ ids. ids.items ≡ ids_of segments.now) }
{
    let mut ids = Vec::new(alloc);
    for segment in segments {
        ids.push(segment.segment().id)?;
    }
    Ok(ids)
}

/// Whether one of the segments has this id.
fn is_there(segments: &[LiveSegment], id: u64) -> bool
    ensures { result ≡ is_there segments.now id }
{
    segments.iter().any(|segment| segment.segment().id == id)
}

/// What is on the store of the segments after a turn, where this was on the store of segments with
/// these ids before. Where the turn ended a merge, it is the same of those that are still there, and
/// nothing of the merged one, if one came. There is room for that. It takes no memory.
fn follow(
    turn: MergeTurn,
    written: Vec<Option<Written>>,
    ids: &[u64],
    segments: &[LiveSegment],
    came: bool,
) -> List<Option<Written>>
    requires count { length written.items ≡ length ids.now }
    requires room { length written.items < vec_capacity written }
    ensures { result ≡ followed turn segments.now ids.now written.items came }
{
    let mut written = written;
    if turn == MergeTurn::Merged {
        let_go(&mut written, ids, segments);
        if came {
            written.push_reserved(None);
        }
    }
    List::from_vec(written)
}

/// Lets go what was on the store of the segments that are no longer there, of those with these ids.
fn let_go(written: &mut Vec<Option<Written>>, ids: &[u64], segments: &[LiveSegment])
    requires { length written.old.items ≡ length ids.now }
    ensures items { written.new.items ≡ staying segments.now ids.now written.old.items }
    ensures few { length written.new.items ≤ length written.old.items }
    ensures room { vec_capacity written.new ≡ vec_capacity written.old }
{
    let mut at = 0;
    for id in ids {
        if is_there(segments, *id) {
            at += 1;
        } else {
            written.remove(at);
        }
    }
}
