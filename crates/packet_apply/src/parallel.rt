//! A packet applied to all segments at once.
ghost use Rattle.std.specs.Prelude.{All, IfOk};
ghost use Rattle.std.specs.List.{AllZip};
ghost use Rattle.segment_core.specs.LiveRows.{Lived};
ghost use Rattle.packet_apply.specs.Packets.{Meets, Applied};

use crate::applying::apply;
use frozen_packet::Packet;
use ix_base::NoMemory;
use live_docs::LiveDocs;
use rayon::prelude::*;
use segment_core::LiveSegment;
use std::alloc::Global;
use std::thread::Threads;

/// The live docs of each segment with the packet applied, in the order of the segments. The
/// segments are shared out over the threads of `rt`.
pub fn apply_all<R: Threads + Sync>(
    rt: &R,
    alloc: Global,
    segments: &[LiveSegment],
    packet: &Packet,
) -> Result<Vec<LiveDocs>, NoMemory>
    requires { All (Meets packet.now) segments.now }
    ensures { IfOk result (λ all. AllZip (Applied packet.now) segments.now all.items) }
{
    let all: Result<Vec<LiveDocs>, NoMemory> = segments
        .par_iter()
        .with_min_len(1)
        .map(
            |segment: &LiveSegment| -> Result<LiveDocs, NoMemory>
                requires { Meets packet.now segment.now }
                ensures { IfOk result (Applied packet.entry.now segment.now) }
            { apply(alloc, segment, packet) },
        )
        .collect(rt, alloc)?;
    all
}
