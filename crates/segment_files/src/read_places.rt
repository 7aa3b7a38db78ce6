//! The places of a term from bytes: each reader puts what it reads behind the places that are there.
ghost use Rattle.std.specs.Prelude.{◌<◌};
ghost use Rattle.std.specs.List.{AllByRecursion};
ghost use Rattle.ix_base.specs.Codec.{GivesExactly, Gives};
ghost use Rattle.segment_files.specs.Placing.{PutsPositions, PutsPosting};
ghost use Rattle.segment_files.specs.ReadLists.{positions_at, postings_at};
ghost use Rattle.segment_files.specs.Reading.{position_at, posting_at};

use ix_base::Spots;
use ix_base::codec::{Broken, BrokenField, u32_at};
use std::alloc::Global;

/// The position at the start of the bytes, which is `low` or more.
fn position_of(bytes: &[u8], low: u64) -> Result<(u32, &[u8]), BrokenField>
    ensures { GivesExactly (λ x. (x.0, x.1.now)) result (position_at low bytes.now) }
{
    let (position, rest) = u32_at(bytes)?;
    if (position as u64) < low {
        return Err(BrokenField { left: bytes.len() });
    }
    Ok((position, rest))
}

/// Puts so many positions of a row behind the places, which are all of earlier rows. It returns the
/// bytes after them.
fn read_positions<'a>(
    count: u32,
    bytes: &'a [u8],
    row: u32,
    spots: &mut Spots,
) -> Result<&'a [u8], Broken>
    requires { AllByRecursion (λ g. g.row < row) spots.old }
    ensures { PutsPositions (λ rest. rest.now) row spots.old spots.new result
        (positions_at count bytes.now) }
{
    let mut low = 0u64;
    let mut rest = bytes;
    for _ in 0..count {
        let (position, after) = position_of(rest, low)?;
        spots.push(row, position)?;
        low = position as u64 + 1;
        rest = after;
    }
    Ok(rest)
}

/// Puts a row with its positions behind the places. The row is `low` or more, and below `row_count`.
/// It returns the row, and the bytes after its positions.
#[tactic(auto, unfolding(crate::specs::Reading::posting_at))]
fn read_posting<'a>(
    bytes: &'a [u8],
    row_count: u32,
    low: u64,
    spots: &mut Spots,
) -> Result<(u32, &'a [u8]), Broken>
    requires { AllByRecursion (λ g. g.row < low) spots.old }
    ensures { PutsPosting (λ x. x.1.now) (λ x. x.0) spots.old spots.new result
        (posting_at row_count low bytes.now) }
{
    let (row, counted) = u32_at(bytes)?;
    if (row as u64) < low || row_count <= row {
        return Err(Broken::At(bytes.len()));
    }
    let (count, rest) = u32_at(counted)?;
    if count == 0 {
        return Err(Broken::At(counted.len()));
    }
    let rest = read_positions(count, rest, row, spots)?;
    Ok((row, rest))
}

/// The places in so many rows, which rise and are below `row_count`, and the bytes after them.
pub(crate) fn places_of(
    alloc: Global,
    count: u32,
    bytes: &[u8],
    row_count: u32,
) -> Result<(Spots, &[u8]), Broken>
    ensures { Gives (λ x. (x.0, x.1.now)) result (postings_at row_count count bytes.now) }
{
    let mut spots = Spots::new(alloc);
    let mut low = 0u64;
    let mut rest = bytes;
    for _ in 0..count {
        let (row, after) = read_posting(rest, row_count, low, &mut spots)?;
        low = row as u64 + 1;
        rest = after;
    }
    Ok((spots, rest))
}
