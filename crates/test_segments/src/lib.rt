//! Rows of segments as short texts, for tests that compare them with what was worked out by hand.
#![tactic(auto)]

use segment_core::LiveSegment;
use std::alloc::Global;
use std::fmt::Write;
use std::test::Fail;
use test_values::name_of;

/// Appends a row of a segment where it is live: its key and the number that it was born by, and the
/// number `n` where it was set, as ` a4=6`.
pub fn show_live_row(
    alloc: Global,
    out: &mut String,
    segment: &LiveSegment,
    at: u32,
) -> Result<(), Fail> {
    let rows = segment.segment().rows.as_slice();
    if at as usize >= rows.len() || !segment.live().is_live(at) {
        return Ok(());
    }
    let row = &rows[at as usize];
    write!(out, " {}{}", row.doc.key.as_str(), row.birth.number())?;
    match segment.live().value(at, &name_of(alloc, "n")?) {
        Some(value) => write!(out, "={value}")?,
        None => {}
    }
    Ok(())
}

/// Appends whether a row of a segment is live, `+` or `-`, and the number `n` that was set in it, or 0.
/// Where there is no such row nothing is appended.
pub fn show_mark(
    alloc: Global,
    out: &mut String,
    segment: &LiveSegment,
    at: u32,
) -> Result<(), Fail> {
    let name = name_of(alloc, "n")?;
    if (at as usize) < segment.segment().rows.len() {
        let sign = if segment.live().is_live(at) { "+" } else { "-" };
        let value = segment.live().value(at, &name).unwrap_or(0);
        write!(out, "{sign}{value}")?;
    }
    Ok(())
}
