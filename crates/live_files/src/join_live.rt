//! Live docs of the live bits and the set numbers that were read.
ghost use Rattle.std.specs.Prelude.{◌≡◌, ◌==◌, ◌<◌, ◌≤◌, ◌^◌, true, length, map, take, drop, IfOk};
ghost use Rattle.ix_base.specs.Limits.{names_rise};
ghost use Rattle.live_files.specs.LiveFits.{ValuesFit};
ghost use Rattle.live_files.specs.LiveMarks.{unrowed, own_values, other_values, marks_of};

use ix_base::{Name, NoMemory, Numbers};
use live_docs::{LiveDocs, Mark};
use std::alloc::Global;

/// Whether the number was set in this row.
fn is_in_row(row: u32, value: &(u32, Name, i64)) -> bool
    ensures { result ≡ (value.now.0 == row) }
{
    value.0 == row
}

/// How many numbers at the front are in this row.
fn own_count(row: u32, values: &[(u32, Name, i64)]) -> usize
    ensures within { result ≤ length values.now }
    ensures own { unrowed (take result values.now) ≡ own_values row values.now }
    ensures others { drop result values.now ≡ other_values row values.now }
{
    for i in 0..values.len() {
        if !is_in_row(row, &values[i]) {
            return i;
        }
    }
    values.len()
}

/// Copies of these numbers, without their rows.
fn numbers_of(alloc: Global, values: &[(u32, Name, i64)]) -> Result<Numbers, NoMemory>
    requires { names_rise (map (λ number. number.0) (unrowed values.now)) ≡ true }
    ensures { IfOk result (λ own. own ≡ unrowed values.now) }
{
    let mut pairs = Vec::new(alloc);
    for value in values {
        pairs.push((value.1.clone_in(alloc)?, value.2))?;
    }
    Ok(Numbers::from_vec(pairs))
}

/// The live docs of a segment, of its live bits, of which there is one for each row, and of the
/// numbers that were set in its rows, by row and then by name. Names are copied. It takes time as
/// the number of rows and of numbers.
pub fn live_docs_of(
    alloc: Global,
    applied: u64,
    bits: &[bool],
    values: &[(u32, Name, i64)],
) -> Result<LiveDocs, NoMemory>
    requires few { length bits.now < 2 ^ 32 }
    requires fit { ValuesFit (length bits.now) values.now }
    ensures { IfOk result (λ docs. docs
        ≡ record { applied = applied; marks = marks_of bits.now values.now }) }
{
    let mut marks = Vec::new(alloc);
    let mut rest = values;
    for row in 0..bits.len() {
        let (own, others) = rest.split_at(own_count(row as u32, rest));
        marks.push(Mark {
            live: bits[row],
            values: numbers_of(alloc, own)?,
        })?;
        rest = others;
    }
    LiveDocs::from_marks(alloc, applied, marks)
}
