//! Whether the files of a merged segment have room for what its sources have.
ghost use Rattle.std.specs.Prelude.{◌≡◌, ◌+◌, ◌*◌, ◌-◌, ◌≤◌, length, IfSome, MatchBool, sum_by};
ghost use Rattle.std.specs.List.{flat_map};
ghost use Rattle.merge_core.specs.Picking.{HaveRoom, LackRoom, is_among, own_postings, own_rows};
ghost use Rattle.segment_files.specs.Sizes.{Leaves};
ghost use Rattle.segment_files.specs.Spelling.{term_postings};

use ix_base::TermPostings;
use segment_core::LiveSegment;
use segment_files::{behind_postings, behind_rows};

/// The largest file that a directory's store reads back, in bytes.
const LARGEST_FILE: u64 = 2_147_483_648;

/// How many bytes stand before the rows in their file.
const ROWS_HEAD: u64 = 20;

/// How many bytes stand before the postings in their file.
const POSTINGS_HEAD: u64 = 28;

/// Whether the segment has one of these ids.
pub fn is_one_of(ids: &[u64], segment: &LiveSegment) -> bool
    ensures { result ≡ is_among ids.now segment.now }
{
    ids.contains(&segment.segment().id)
}

/// What is left of a room behind the rows of a segment, if it has one of these ids.
fn behind_own_rows(room: u64, ids: &[u64], segment: &LiveSegment) -> Option<u64>
    ensures { Leaves room (own_rows ids.now segment.now) result }
{
    if is_one_of(ids, segment) {
        behind_rows(room, segment.segment().rows.as_slice())
    } else {
        Some(room)
    }
}

/// What is left of a room behind the postings of a segment, if it has one of these ids.
fn behind_own_postings(room: u64, ids: &[u64], segment: &LiveSegment) -> Option<u64>
    ensures { Leaves room (own_postings ids.now segment.now) result }
{
    if is_one_of(ids, segment) {
        behind_postings(room, &segment.segment().postings)
    } else {
        Some(room)
    }
}

/// What is left of a room behind the rows of all segments with these ids.
fn behind_all_rows(room: u64, ids: &[u64], segments: &[LiveSegment]) -> Option<u64>
    ensures { Leaves room (sum_by (own_rows ids.now) segments.now) result }
{
    let mut left = room;
    for segment in segments {
        left = behind_own_rows(left, ids, segment)?;
    }
    Some(left)
}

/// What is left of a room behind the postings of all segments with these ids.
fn behind_all_postings(room: u64, ids: &[u64], segments: &[LiveSegment]) -> Option<u64>
    ensures { Leaves room (sum_by (own_postings ids.now) segments.now) result }
{
    let mut left = room;
    for segment in segments {
        left = behind_own_postings(left, ids, segment)?;
    }
    Some(left)
}

/// What is left of a room behind so many times twelve bytes; `None` where they are more.
fn behind_twelves(room: u64, count: usize) -> Option<u64>
    ensures { IfSome result (λ left. left + 12 * count ≡ room) }
{
    let count = count as u64;
    if count > room / 12 {
        return None;
    }
    Some(room - 12 * count)
}

/// What is left at least of a room behind the postings of a term: a place takes twelve bytes at most,
/// where it is the only one in its row. Where the result is `None` they may have a place all the same.
fn behind_most_of(room: u64, entry: &TermPostings) -> Option<u64>
    ensures { IfSome result (λ left. left + length (term_postings entry.now) ≤ room) }
{
    let left = room.checked_sub(12)?;
    let left = left.checked_sub(entry.term.field.as_str().len() as u64)?;
    let left = left.checked_sub(entry.term.bytes.as_str().len() as u64)?;
    behind_twelves(left, entry.rows.as_slice().len())
}

/// What is left at least of a room behind postings.
fn behind_most(room: u64, entries: &[TermPostings]) -> Option<u64>
    ensures { IfSome result (λ left. left + length (flat_map term_postings entries.now) ≤ room) }
{
    let mut left = room;
    for entry in entries {
        left = behind_most_of(left, entry)?;
    }
    Some(left)
}

/// What is left at least of a room behind the postings of a segment, if it has one of these ids.
fn behind_own_most(room: u64, ids: &[u64], segment: &LiveSegment) -> Option<u64>
    ensures { IfSome result (λ left. left + own_postings ids.now segment.now ≤ room) }
{
    if is_one_of(ids, segment) {
        behind_most(room, segment.segment().postings.terms.as_slice())
    } else {
        Some(room)
    }
}

/// What is left at least of a room behind the postings of all segments with these ids.
fn behind_all_most(room: u64, ids: &[u64], segments: &[LiveSegment]) -> Option<u64>
    ensures { IfSome result (λ left. left + sum_by (own_postings ids.now) segments.now ≤ room) }
{
    let mut left = room;
    for segment in segments {
        left = behind_own_most(left, ids, segment)?;
    }
    Some(left)
}

/// Whether one file has room for the rows of all segments with these ids, and one for their postings.
/// The rows that each term is in are counted only where the postings may lack room as it is.
pub(crate) fn have_room(ids: &[u64], segments: &[LiveSegment]) -> bool
    ensures { MatchBool result (HaveRoom ids.now segments.now) (LackRoom ids.now segments.now) }
{
    if behind_all_rows(LARGEST_FILE - ROWS_HEAD, ids, segments).is_none() {
        return false;
    }
    let room = LARGEST_FILE - POSTINGS_HEAD;
    if behind_all_most(room, ids, segments).is_some() {
        return true;
    }
    behind_all_postings(room, ids, segments).is_some()
}
