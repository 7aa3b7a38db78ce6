//! A merge of all segments of a list, read in steps.
ghost use Rattle.std.specs.Prelude.{◌≡◌, ℕ, map, IfOk, OnOk};
ghost use Rattle.merge_core.specs.Merging.{row_count};
ghost use Rattle.merge_core_tests.specs.Reading.{AfterStep, AreSources, Reads};

use merge_core::{Merge, Step};
use segment_core::LiveSegment;
use std::alloc::Global;
use std::test::Fail;

/// The ids of the segments.
fn ids_of(alloc: Global, segments: &[LiveSegment]) -> Result<Vec<u64>, Fail>
    ensures { IfOk result (λ ids. ids.items ≡ map (λ s. s.segment.id) segments.now) }
{
    let mut ids = Vec::new(alloc);
    for segment in segments {
        ids.push(segment.segment().id)?;
    }
    Ok(ids)
}

/// A merge that has read nothing of the segments yet.
pub(crate) fn start(alloc: Global, segments: &[LiveSegment]) -> Result<Merge, Fail>
    requires { AreSources segments.now }
    ensures { IfOk result (λ merge. Reads merge segments.now 0) }
{
    let ids = ids_of(alloc, segments)?;
    let merge = Merge::start(alloc, segments, ids)?;
    Ok(merge)
}

/// Reads so many rows of the segments, or all that are left.
pub(crate) fn read(merge: &mut Merge, segments: &[LiveSegment], rows: u32) -> Result<Step, Fail>
    requires { (count : ℕ) × Reads merge.old segments.now count }
    ensures { IfOk result (AfterStep merge.new segments.now) }
{
    let step = merge.step(segments, rows)?;
    Ok(step)
}

/// Reads all rows that are left, so many in each step.
pub(crate) fn read_all(merge: &mut Merge, segments: &[LiveSegment], rows: u32) -> Result<(), Fail>
    requires { (count : ℕ) × Reads merge.old segments.now count }
    ensures { OnOk result (Reads merge.new segments.now (row_count segments.now)) }
{
    for turn in 0..10_000 {
        match read(merge, segments, rows)? {
            Step::Ready => return Ok(()),
            Step::More => {}
        }
    }
    Err("more rows")?
}

/// How many terms are merged before the last of the steps that read so many rows each.
pub(crate) fn terms_before_the_end(
    merge: &mut Merge,
    segments: &[LiveSegment],
    rows: u32,
) -> Result<usize, Fail>
    requires { (count : ℕ) × Reads merge.old segments.now count }
    ensures { OnOk result (Reads merge.new segments.now (row_count segments.now)) }
{
    for turn in 0..10_000 {
        let terms = merge.terms();
        match read(merge, segments, rows)? {
            Step::Ready => return Ok(terms),
            Step::More => {}
        }
    }
    Err("more rows")?
}

/// The segment that the merge makes of the segments, of which all rows were read; `None` where no row
/// of them is live.
pub(crate) fn finished(merge: Merge, segments: &[LiveSegment]) -> Result<Option<LiveSegment>, Fail>
    requires { Reads merge segments.now (row_count segments.now) }
{
    match merge.finish(segments, 9) {
        Ok(merged) => Ok(merged),
        Err(_) => Err("out of memory")?,
    }
}
