//! What a query finds in segments, and its order.
ghost use Rattle.std.specs.Prelude.{◌≡◌, ◌++◌, length, map, OnOk, IfOk};
ghost use Rattle.std.specs.List.{AllByRecursion, filter_map};
ghost use Rattle.segment_core.specs.LiveRows.{Lived, IsWhole, live, all_live};
ghost use Rattle.segment_core.specs.Segments.{IsInverted};
ghost use Rattle.commit_point.specs.Holds.{AreInverted};
ghost use Rattle.searcher.specs.Finding.{AreByBirth, found_among, found_at};

use crate::shown::{Found, shown};
use ix_base::{Hit, NoMemory, Query, Row};
use live_docs::LiveDocs;
use query_core::answer;
use segment_core::LiveSegment;
use std::alloc::Global;

/// Adds the live ones of the rows of these numbers.
fn add_rows(
    alloc: Global,
    found: &mut Vec<Found>,
    rows: &[Row],
    live: &LiveDocs,
    numbers: &[u32],
) -> Result<(), NoMemory>
    requires { length live.now.marks ≡ length rows.now }
    ensures { OnOk result (found.new.items
        ≡ found.old.items ++ found_at rows.now live.now.marks numbers.now) }
{
    for number in numbers {
        if let Some(one) = shown(alloc, rows, live, *number)? {
            found.push(one)?;
        }
    }
    Ok(())
}

/// Adds what matches in a segment, by the numbers that its rows have now.
fn add_matching(
    alloc: Global,
    found: &mut Vec<Found>,
    query: &Query,
    segment: &LiveSegment,
) -> Result<(), NoMemory>
    ensures { OnOk result (IsInverted segment.now.segment
        → found.new.items ≡ found.old.items ++ found_among query.now (live segment.now)) }
{
    let current = segment.current();
    let numbers = answer(alloc, query, &current)?;
    add_rows(alloc, found, current.rows, current.live, numbers.as_slice())
}

/// What matches in segments, one segment after another.
pub fn found_in(
    alloc: Global,
    query: &Query,
    segments: &[LiveSegment],
) -> Result<Vec<Found>, NoMemory>
    ensures { IfOk result (λ found. AreInverted segments.now
        → found.items ≡ found_among query.now (all_live segments.now)) }
{
    let mut found = Vec::new(alloc);
    for segment in segments {
        add_matching(alloc, &mut found, query, segment)?;
    }
    Ok(found)
}

/// The hits of what was found, by the births of their rows.
pub fn hits_by_birth(alloc: Global, mut found: Vec<Found>) -> Result<Vec<Hit>, NoMemory>
    ensures { IfOk result (λ hits. AreByBirth found.items hits.items) }
{
    found.sort_unstable_by_key(|one| one.birth);
    let mut hits = Vec::new(alloc);
    for one in found {
        hits.push(one.hit)?;
    }
    Ok(hits)
}
