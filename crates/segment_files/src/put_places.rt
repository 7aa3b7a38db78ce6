//! The places of a term as bytes, row by row.
ghost use Rattle.std.specs.Prelude.{◌≡◌, ◌≢◌, ◌<◌, ◌≤◌, ◌++◌, [], length, take, get_or};
ghost use Rattle.std.specs.Prelude.{MatchOption, OnOk};
ghost use Rattle.std.specs.List.{flat_map, AllByRecursion};
ghost use Rattle.ix_base.specs.Grouped.{grouped};
ghost use Rattle.segment_files.specs.Fits.{PostingFits};
ghost use Rattle.segment_files.specs.Placing.{posting_in, IsFirstRow};
ghost use Rattle.segment_files.specs.Spelling.{posting};

use ix_base::codec::put_u32;
use ix_base::{NoMemory, Spot};

/// How many of the places, from the first on, are in this row.
fn run_len(spots: &[Spot], row: u32) -> usize
    ensures within { result ≤ length spots.now }
    ensures same { AllByRecursion (λ spot. spot.row ≡ row) (take result spots.now) }
    ensures next { result < length spots.now → (d : Spot) → (get_or spots.now result d).row ≢ row }
{
    for (i, spot) in spots.iter().enumerate() {
        if spot.row != row {
            return i;
        }
    }
    spots.len()
}

/// The row of the first place, the places in it from the first on, and those behind them.
pub(crate) fn first_row(spots: &[Spot]) -> Option<(u32, &[Spot], &[Spot])>
    ensures { MatchOption result (spots.now ≡ []) (λ x. IsFirstRow spots.now x.0 x.1.now x.2.now) }
{
    match spots.first() {
        Some(first) => {
            let row = first.row;
            let (run, behind) = spots.split_at(run_len(spots, row));
            Some((row, run, behind))
        }
        None => None,
    }
}

/// How many rows the places are in.
pub(crate) fn count_rows(spots: &[Spot]) -> usize
    ensures { result ≡ length (grouped spots.now) }
{
    let mut count = 0;
    let mut rest = spots;
    while let Some((_, _, behind)) = first_row(rest) {
        count += 1;
        rest = behind;
    }
    count
}

/// Appends a row and the positions of these places. There are fewer than 2^32, or memory runs out:
/// the bytes of so many would be more than 16 gigabytes.
fn put_posting(out: &mut Vec<u8>, row: u32, run: &[Spot]) -> Result<(), NoMemory>
    ensures bytes { OnOk result (out.new.items
        ≡ out.old.items ++ posting (posting_in row run.now)) }
    ensures fits { OnOk result (PostingFits (posting_in row run.now)) }
{
    if run.len() > u32::MAX as usize {
        return Err(NoMemory);
    }
    put_u32(out, row)?;
    put_u32(out, run.len() as u32)?;
    for spot in run {
        put_u32(out, spot.position)?;
    }
    Ok(())
}

/// Appends the rows that the places are in, each with its positions.
pub(crate) fn put_places(out: &mut Vec<u8>, spots: &[Spot]) -> Result<(), NoMemory>
    ensures bytes { OnOk result (out.new.items
        ≡ out.old.items ++ flat_map posting (grouped spots.now)) }
    ensures fits { OnOk result (AllByRecursion PostingFits (grouped spots.now)) }
{
    let mut rest = spots;
    while let Some((row, run, behind)) = first_row(rest) {
        put_posting(out, row, run)?;
        rest = behind;
    }
    Ok(())
}
