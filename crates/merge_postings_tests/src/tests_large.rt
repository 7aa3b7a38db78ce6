//! Some thousand rows, of which each has a term of its own, from 3 and 64 sources.
use crate::layouts::{Place, is_inversion};
use std::alloc::Global;
use std::test::*;

/// How the rows of sources are born.
#[derive(Clone, Copy)]
enum Births {
    /// All rows of a source, and then those of the next one.
    Blocks,
    /// A row of each source in turn.
    Turns,
    /// As they were drawn.
    Drawn,
}

/// The source that has the row.
fn source_at(births: Births, row: usize, rows: usize, sources: usize) -> usize {
    let drawn = u32::try_from(row).unwrap_or(0).wrapping_mul(2_654_435_761) >> 16;
    let place = match births {
        Births::Blocks => row.wrapping_mul(sources).checked_div(rows),
        Births::Turns => row.checked_rem(sources),
        Births::Drawn => (drawn as usize).checked_rem(sources),
    };
    place.unwrap_or(0)
}

/// So many rows of so many sources. Of each `period` rows one gets no number; where it is 0, all rows get
/// one.
fn layout_of(
    alloc: Global,
    births: Births,
    rows: usize,
    sources: usize,
    period: usize,
) -> Result<Vec<Place>, Fail> {
    let mut layout = Vec::new(alloc);
    for row in 0..rows {
        let kept = row.checked_rem(period) != Some(2);
        layout.push((source_at(births, row, rows, sources), kept))?;
    }
    Ok(layout)
}

/// Whether the merged postings of the rows are the inversion of those that get a number.
fn holds(
    alloc: Global,
    births: Births,
    rows: usize,
    sources: usize,
    period: usize,
) -> Result<bool, Fail> {
    let layout = layout_of(alloc, births, rows, sources, period)?;
    is_inversion(alloc, layout.as_slice(), sources)
}

/// With 3 and with 64 sources, some of which have no row at all.
#[test]
fn many_rows(rt: HostRuntime) -> Result<(), Fail> {
    for (births, rows, sources, period) in [
        (Births::Blocks, 3_000, 3, 0),
        (Births::Turns, 3_000, 3, 7),
        (Births::Drawn, 2_000, 8, 3),
        (Births::Blocks, 2_000, 64, 5),
        (Births::Turns, 4_000, 64, 0),
        (Births::Drawn, 2_000, 64, 4),
        (Births::Turns, 20, 64, 4),
    ] {
        assert!(rt; holds(rt.alloc(), births, rows, sources, period)?);
    }
    Ok(())
}
