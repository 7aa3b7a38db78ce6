//! The segments of an index.
ghost use Rattle.std.specs.Prelude.{◌≡◌, ◌+◌, ◌<◌, ◌^◌, ◌++◌, length, All, OnOk, OnErr};
ghost use Rattle.std.specs.List.{AllByRecursion, AllZip};
ghost use Rattle.packet_apply.specs.Packets.{Meets};
ghost use Rattle.flush_control.specs.Made.{HasMarks, renewed};
ghost use Rattle.flush_control.specs.Published.{AppliesUp, HasInversion, TakesPieces};

use crate::building::{Made, made_of};
use crate::released::Released;
use frozen_packet::Packet;
use ix_base::{List, NoMemory};
use live_docs::LiveDocs;
use merge_core::Merge;
use packet_apply::apply_all;
use segment_core::LiveSegment;
use std::alloc::Global;
use std::mem;
use std::thread::Threads;
use thread_writer::Piece;

/// The segments of an index, by rising id, the id that the next one takes, the number up to which
/// operations are in them, the merge that runs, and what is still to be let go of the segments that
/// merges replaced.
pub struct Published {
    pub segments: List<LiveSegment>,
    pub next_id: u64,
    pub upto: u64,
    /// The merge that runs, if one does: it has read some rows of its sources, which are among the
    /// segments.
    pub merge: Option<Merge>,
    /// What merges replaced, and is still to be let go.
    pub gone: Released,
}

impl Drop for Published {
    fn drop(self) {
        let _segments = self.into_segments();
    }
}

impl Published {
    /// The segments. A merge that runs is dropped.
    pub fn into_segments(self) -> List<LiveSegment>
        ensures { result ≡ self.segments }
    {
        let Published {
            segments,
            next_id: _,
            upto: _,
            merge: _merge,
            gone: _gone,
        } = self;
        segments
    }

    /// Takes the pieces of a round: each becomes a segment, in their order, unless its updates leave
    /// none of its rows, or it has none. Then it is no segment and takes no id. The operations up to
    /// a piece's cut are in its segment; `upto` stays, and a merge runs on. After an error all is as
    /// before.
    pub fn take_round(&mut self, alloc: Global, pieces: Vec<Piece>) -> Result<(), NoMemory>
        requires room { self.old.next_id + length pieces.items < 2 ^ 64 }
        requires can { AllByRecursion HasInversion pieces.items }
        ensures ok { OnOk result (TakesPieces pieces.items self.old self.new) }
        ensures err { OnErr result (self.new ≡ self.old) }
    {
        let Made { segments, next_id } = made_of(alloc, self.next_id, pieces)?;
        append(alloc, &mut self.segments, segments)?;
        self.next_id = next_id;
        Ok(())
    }

    /// Applies a packet to all segments, on the threads of `rt`. Then the operations up to the
    /// packet's last number are in each. A merge runs on: what it has read of its sources is still
    /// what was read. After an error all is as before.
    pub fn apply_up<R: Threads + Sync>(
        &mut self,
        rt: &R,
        alloc: Global,
        packet: &Packet,
    ) -> Result<(), NoMemory>
        requires meets { All (Meets packet.now) self.old.segments }
        ensures ok { OnOk result (AppliesUp packet.now self.old self.new) }
        ensures err { OnErr result (self.new ≡ self.old) }
    {
        let lives = apply_all(rt, alloc, self.segments.as_slice(), packet)?;
        renew(alloc, &mut self.segments, lives);
        self.upto = packet.upto;
        Ok(())
    }
}

/// Puts segments after others. After an error those are as before.
fn append(
    alloc: Global,
    segments: &mut List<LiveSegment>,
    more: List<LiveSegment>,
) -> Result<(), NoMemory>
    ensures ok { OnOk result (segments.new ≡ segments.old ++ more) }
    ensures err { OnErr result (segments.new ≡ segments.old) }
{
    let mut items = mem::replace(segments, List::new(alloc)).into_vec();
    let mut more = more.into_vec();
    let appended = items.append(&mut more);
    *segments = List::from_vec(items);
    appended?;
    Ok(())
}

/// Puts these live docs in place of the segments' own, of each segment one. It takes no memory.
fn renew(alloc: Global, segments: &mut List<LiveSegment>, lives: Vec<LiveDocs>)
    requires { AllZip HasMarks segments.old lives.items }
    ensures { segments.new ≡ renewed segments.old lives.items }
{
    let mut items = mem::replace(segments, List::new(alloc)).into_vec();
    let mut lives = lives.into_iter();
    for segment in items.iter_mut() {
        if let Some(live) = lives.next() {
            segment.set_live(live);
        }
    }
    *segments = List::from_vec(items);
}
