//! The rows of sources, copied, and counted.
ghost use Rattle.std.specs.Prelude.{◌≡◌, ◌+◌, ◌<◌, ◌≤◌, ◌⊎◌, List as ListOf, Some, All, map, length, slice_get, IfOk, OnOk};
ghost use Rattle.std.specs.List.{filter_map};
ghost use Rattle.ix_base.specs.declared.document.Row.{Row as RowOf};
ghost use Rattle.merge_core.specs.Merging.{row_count};
ghost use Rattle.merge_core.specs.Reading.{IsCopied, IsNextCopied, row_of};

use crate::next_row::source_at;
use crate::origin::Origin;
use ix_base::{List, NoMemory, Row};
use segment_core::LiveSegment;
use std::alloc::Global;

/// Copies the row that comes next, and returns whether there was one. After an error the copies are as
/// before.
fn copy_next(
    alloc: Global,
    segments: &[LiveSegment],
    places: &[usize],
    origins: &[Origin],
    rows: &mut List<Row>,
) -> Result<bool, NoMemory>
    requires places { All (λ place. place < length segments.now) places.now }
    requires rows { let sources = filter_map (slice_get segments.now) places.now in
        (all : ListOf RowOf) × (map (row_of sources) origins.now ≡ map Some all) }
    requires copied { IsCopied (filter_map (slice_get segments.now) places.now) origins.now rows.old }
    ensures copied { IsCopied (filter_map (slice_get segments.now) places.now) origins.now rows.new }
    ensures longer { length rows.old ≤ length rows.new }
    ensures next { IfOk result (IsNextCopied origins.now rows.old rows.new) }
{
    let at = rows.len();
    if at >= origins.len() {
        return Ok(false);
    }
    let origin = origins[at];
    let from = source_at(segments, places, origin.source).segment();
    let row = from.rows.as_slice()[origin.row as usize].clone_in(alloc)?;
    rows.push(row)?;
    Ok(true)
}

/// Copies so many rows more, or all that are left. After an error some of them may be copied.
pub(crate) fn copy_rows(
    alloc: Global,
    segments: &[LiveSegment],
    places: &[usize],
    origins: &[Origin],
    rows: &mut List<Row>,
    count: u32,
) -> Result<(), NoMemory>
    requires places { All (λ place. place < length segments.now) places.now }
    requires rows { let sources = filter_map (slice_get segments.now) places.now in
        (all : ListOf RowOf) × (map (row_of sources) origins.now ≡ map Some all) }
    requires copied { IsCopied (filter_map (slice_get segments.now) places.now) origins.now rows.old }
    ensures copied { IsCopied (filter_map (slice_get segments.now) places.now) origins.now rows.new }
    ensures longer { length rows.old ≤ length rows.new }
    ensures enough { OnOk result ((length origins.now ≤ length rows.new)
        ⊎ (length rows.old + count ≤ length rows.new)) }
{
    for row in 0..count {
        if !copy_next(alloc, segments, places, origins, rows)? {
            return Ok(());
        }
    }
    Ok(())
}

/// The sum of two numbers of rows. Refused where it takes more than 64 bits, for which no memory is
/// enough.
fn sum(rows: u64, more: usize) -> Result<u64, NoMemory>
    ensures { IfOk result (λ sum. sum ≡ rows + more) }
{
    match rows.checked_add(more as u64) {
        Some(sum) => Ok(sum),
        None => Err(NoMemory),
    }
}

/// How many rows the sources have, dead ones too.
pub(crate) fn rows_in(segments: &[LiveSegment], places: &[usize]) -> Result<u64, NoMemory>
    requires places { All (λ place. place < length segments.now) places.now }
    ensures { IfOk result (λ rows.
        rows ≡ row_count (filter_map (slice_get segments.now) places.now)) }
{
    let mut rows = 0;
    for source in 0..places.len() {
        rows = sum(
            rows,
            source_at(segments, places, source).segment().rows.len(),
        )?;
    }
    Ok(rows)
}

/// How many entries of the sources' postings are merged for so many rows that are read of them: as
/// large a part of all, rounded up.
pub(crate) fn share(segments: &[LiveSegment], places: &[usize], rows: u32) -> usize
    requires places { All (λ place. place < length segments.now) places.now }
{
    let mut entries: usize = 0;
    let mut all: usize = 0;
    for source in 0..places.len() {
        let segment = source_at(segments, places, source).segment();
        entries = entries.saturating_add(segment.postings.terms.len());
        all = all.saturating_add(segment.rows.len());
    }
    if all == 0 {
        return entries;
    }
    (entries / all)
        .saturating_add(1)
        .saturating_mul(rows as usize)
}
