//! Segments built of the rows that a buffer froze.
ghost use Rattle.std.specs.Prelude.{IfOk};
ghost use Rattle.segment_core.specs.LiveRows.{CanBuild, Built};

use crate::applying::apply_updates;
use crate::live_segment::LiveSegment;
use crate::segment::Segment;
use frozen_packet::Updates;
use ix_base::{List, NoMemory};
use live_docs::LiveDocs;
use ram_postings::Frozen;
use std::alloc::Global;

/// The segment of these rows, with the updates in it, which are those up to the number `cut`. A row
/// that the updates delete is not live in it, and the numbers that they set are in its live docs.
/// Updates act only on rows that were born before them. `None` where no row is live.
pub fn build(
    alloc: Global,
    id: u64,
    frozen: Frozen,
    updates: &Updates,
    cut: u64,
) -> Result<Option<LiveSegment>, NoMemory>
    requires { CanBuild frozen.rows.items frozen.postings }
    ensures { IfOk result (Built frozen.rows.items updates.now id cut) }
{
    let Frozen { rows, postings } = frozen;
    let rows = List::from_vec(rows);
    let mut live = LiveDocs::new(alloc, rows.len() as u32, cut)?;
    let segment = Segment { id, rows, postings };
    apply_updates(alloc, &segment, updates, 0, &mut live)?;
    if live.live_count() == 0 {
        return Ok(None);
    }
    Ok(Some(LiveSegment::new(segment, live)))
}
