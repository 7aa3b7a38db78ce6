//! The end of a round.
ghost use Rattle.std.specs.Prelude.{◌≡◌, ◌↔◌, ◌≤◌, ◌+◌, ◌-◌, List, length, Some, None};
ghost use Rattle.std.specs.Prelude.{IfOk, IfErr, OnOk, OnErr, Err, IsTrue, true, false};
ghost use Rattle.row_fates.specs.Fate.{Numbered};
ghost use Rattle.index_writer.specs.Rounds.{ArePartsOf, Ends};
ghost use Rattle.index_writer.specs.Ready.{IsReady, IsSound};
ghost use Rattle.index_writer.specs.Ending.{IsGathered, end_of, with_none};
ghost use Rattle.index_writer.specs.Working.{IsStuck, TurnsExactly};

use crate::ending::{Gathered, gather};
use crate::fault::{EndRefused, WriterFault};
use crate::round::{RoundEnd, RoundParts};
use crate::state::State;
use crate::writer::IndexWriter;
use commit_point::Written;
use delete_queue::Reserve;
use flush_control::{rounds_meet, rounds_stand};
use ix_base::{List, NoMemory};
use std::alloc::Global;
use std::thread::Threads;

impl<S> IndexWriter<S> {
    /// Ends the round that was begun: puts what its writers did into the segments, on the threads of
    /// `rt`. The store isn't touched. `Committed` comes exactly where the queue's last entry is a
    /// commit, which is still to be written then; `Turned` where it is a turn; `Ran` where it is
    /// neither or there is none.
    ///
    /// `Closed` comes exactly where the writer is closed: then nothing changes, and the round is given
    /// back. The only other error is out of memory. The round is lost then, and the writer is closed.
    pub fn end_round<R: Threads + Sync>(
        &mut self,
        rt: &R,
        parts: RoundParts,
    ) -> Result<RoundEnd, EndRefused>
        requires sound { IsSound self.old.state }
        requires out { self.old.state.out ≡ true }
        requires pending { self.old.state.closed ≡ false → self.old.state.pending ≡ None }
        requires parts { self.old.state.closed ≡ false
            → (told : List (List Numbered)) × ArePartsOf self.old.state.published.upto told parts }
        ensures ended { self.old.state.closed ≡ false → (told : List (List Numbered))
            → ArePartsOf self.old.state.published.upto told parts
            → IfOk result (λ end. Ends told end self.old.state self.new.state) }
        ensures sound { IsSound self.new.state }
        ensures store { self.new.store ≡ self.old.store }
        // It is closed: the round is given back, and nothing changed.
        ensures closed { IsTrue self.old.state.closed
            → result ≡ Err (record { parts = Some parts; fault = WriterFault.Closed }) }
        ensures kept { IsTrue self.old.state.closed → self.new ≡ self.old }
        // Out of memory: it is closed now.
        ensures err { self.old.state.closed ≡ false
            → IfErr result (λ refused.
            refused ≡ record { parts = None; fault = WriterFault.NoMemory }) }
        ensures closes { OnErr result (IsTrue self.new.state.closed) }
        ensures left { self.old.state.closed ≡ false → OnErr result (self.new.state.out ≡ false) }
        ensures upto { OnErr result (self.new.state.published.upto
            ≡ self.old.state.published.upto) }
        ensures last { OnErr result (self.new.state.last ≡ self.old.state.last) }
        // What closes a queue was linked by one of its writers.
        ensures open { self.old.state.closed ≡ false → OnOk result (IsStuck parts → ⊥) }
        ensures turned { self.old.state.closed ≡ false → IfOk result (TurnsExactly parts) }
    {
        if self.state.closed {
            return Err(EndRefused {
                parts: Some(parts),
                fault: WriterFault::Closed,
            });
        }
        match self
            .state
            .take_parts(rt, self.alloc, &mut self.reserve, parts)
        {
            Ok(end) => Ok(end),
            Err(_) => {
                self.state.closed = true;
                self.state.out = false;
                Err(EndRefused {
                    parts: None,
                    fault: WriterFault::NoMemory,
                })
            }
        }
    }
}

impl State {
    /// Puts a round into the segments. After an error the writer can't go on.
    fn take_parts<R: Threads + Sync>(
        &mut self,
        rt: &R,
        alloc: Global,
        reserve: &mut Reserve,
        parts: RoundParts,
    ) -> Result<RoundEnd, NoMemory>
        requires ready { IsReady self.old }
        requires parts { (told : List (List Numbered))
            × ArePartsOf self.old.published.upto told parts }
        ensures ended { (told : List (List Numbered))
            → ArePartsOf self.old.published.upto told parts
            → IfOk result (λ end. Ends told end self.old self.new) }
        ensures ready { OnOk result (IsReady self.new) }
        ensures upto { OnErr result (self.new.published.upto ≡ self.old.published.upto) }
        ensures last { OnErr result (self.new.last ≡ self.old.last) }
        ensures open { OnOk result (IsStuck parts → ⊥) }
        ensures turned { IfOk result (TurnsExactly parts) }
    {
        let gathered = gather(alloc, self.published.upto, reserve, parts)?;
        self.take(rt, alloc, gathered)
    }

    /// Puts what a round comes to into the segments. After an error the writer can't go on. Ids that
    /// a `u64` can't number are refused as out of memory.
    fn take<R: Threads + Sync>(
        &mut self,
        rt: &R,
        alloc: Global,
        gathered: Gathered,
    ) -> Result<RoundEnd, NoMemory>
        requires ready { IsReady self.old }
        requires gathered { (told : List (List Numbered))
            × IsGathered self.old.published.upto told gathered }
        ensures ended { (told : List (List Numbered))
            → IsGathered self.old.published.upto told gathered
            → IfOk result (λ end. Ends told end self.old self.new) }
        ensures ready { OnOk result (IsReady self.new) }
        ensures upto { OnErr result (self.new.published.upto ≡ self.old.published.upto) }
        ensures last { OnErr result (self.new.last ≡ self.old.last) }
        ensures turned { IfOk result (λ end. (end ≡ RoundEnd.Turned) ↔ (gathered.kind ≡ 7)) }
    {
        rounds_meet();
        rounds_stand();
        let Gathered {
            pieces,
            packet,
            kind,
        } = gathered;
        if self
            .published
            .next_id
            .checked_add(pieces.len() as u64)
            .is_none()
        {
            return Err(NoMemory);
        }
        self.published.take_round(alloc, pieces)?;
        pad(&mut self.written, self.published.segments.len())?;
        self.published.apply_up(rt, alloc, &packet)?;
        Ok(self.end_by(kind))
    }

    /// Ends the round, whose last entry has this kind.
    fn end_by(&mut self, kind: u64) -> RoundEnd
        ensures { (result, self.new) ≡ end_of kind self.old }
    {
        let upto = self.published.upto;
        self.out = false;
        self.pending = None;
        match kind {
            6 => {
                self.pending = Some(upto);
                RoundEnd::Committed(upto)
            }
            7 => RoundEnd::Turned,
            _ => RoundEnd::Ran,
        }
    }
}

/// Says of further segments, up to so many in all, that nothing is on the store of them.
fn pad(written: &mut List<Option<Written>>, count: usize) -> Result<(), NoMemory>
    ensures { OnOk result (written.new ≡ with_none written.old (count - length written.old)) }
{
    let more = count.saturating_sub(written.len());
    for _at in 0..more {
        written.push(None)?;
    }
    Ok(())
}
