//! A packet applied to a segment.
ghost use Rattle.std.specs.Prelude.{IfOk};
ghost use Rattle.segment_core.specs.LiveRows.{Lived};
ghost use Rattle.packet_apply.specs.Packets.{Meets, Applied};

use frozen_packet::Packet;
use ix_base::NoMemory;
use live_docs::LiveDocs;
use segment_core::{LiveSegment, apply_updates};
use std::alloc::Global;

/// The live docs of the segment with the packet applied, up to the packet's last number. Only what
/// is numbered above the segment's applied number is applied, since all up to that is in its live
/// docs. The segment isn't changed.
pub fn apply(alloc: Global, segment: &LiveSegment, packet: &Packet) -> Result<LiveDocs, NoMemory>
    requires { Meets packet.now segment.now }
    ensures { IfOk result (Applied packet.now segment.now) }
{
    let mut live = segment.live().clone_in(alloc)?;
    let low = live.applied();
    apply_updates(alloc, segment.segment(), &packet.updates, low, &mut live)?;
    live.set_applied(packet.upto);
    Ok(live)
}
