//! The numbers that were set in the rows of a segment from bytes.
ghost use Rattle.std.specs.Prelude.{◌≡◌, List, Some, None, Ok, IfOk};
ghost use Rattle.ix_base.specs.Codec.{Gives, items_at, left_by};
ghost use Rattle.ix_base.specs.FileReading.{GivesFile, placed};
ghost use Rattle.ix_base.specs.declared.file_name.FileName.TheVariants.{Values};
ghost use Rattle.live_files.specs.LiveFits.{ValuesFit};
ghost use Rattle.live_files.specs.LiveReading.{row_comes, value_comes, value_name_at, value_at, values_in};
ghost use Rattle.live_files.specs.LiveSpelling.{SetValue, values_file};

use crate::marks::values_mark_at;
use ix_base::codec::{Broken, i64_at, u32_at, u64_at};
use ix_base::{FileFault, FileName, Name};
use segment_files::name_of;
use std::alloc::Global;

/// Whether the row isn't before that of the last of these.
fn row_may_come(values: &[(u32, Name, i64)], row: u32) -> bool
    ensures { result ≡ row_comes (left_by (λ x. Some x) None values.now) row }
{
    match values.last() {
        Some(last) => last.0 <= row,
        None => true,
    }
}

/// Whether the row and the name come after those of the last of these.
fn value_may_come(values: &[(u32, Name, i64)], row: u32, name: &Name) -> bool
    ensures { result ≡ value_comes (left_by (λ x. Some x) None values.now) row name.now }
{
    match values.last() {
        Some(last) => last.0 < row || (last.0 == row && last.1.as_str() < name.as_str()),
        None => true,
    }
}

/// The row and the name at the start of the bytes, which come after the last of these.
#[tactic(auto, unfolding(crate::specs::LiveReading::value_name_at))]
fn value_name_of<'a>(
    alloc: Global,
    bytes: &'a [u8],
    row_count: u32,
    values: &[(u32, Name, i64)],
) -> Result<(u32, Name, &'a [u8]), Broken>
    ensures { Gives (λ x. ((x.0, x.1), x.2.now)) result
        (value_name_at row_count (left_by (λ x. Some x) None values.now) bytes.now) }
{
    let (row, named) = u32_at(bytes)?;
    if !row_may_come(values, row) || row_count <= row {
        return Err(Broken::At(bytes.len()));
    }
    let (name, rest) = name_of(alloc, named)?;
    if !value_may_come(values, row, &name) {
        return Err(Broken::At(bytes.len()));
    }
    Ok((row, name, rest))
}

/// A number that was set in a row, which comes after the last of these.
#[tactic(auto, unfolding(crate::specs::LiveReading::value_at))]
fn value_of<'a>(
    alloc: Global,
    bytes: &'a [u8],
    row_count: u32,
    values: &[(u32, Name, i64)],
) -> Result<((u32, Name, i64), &'a [u8]), Broken>
    ensures { Gives (λ x. (x.0, x.1.now)) result
        (value_at row_count (left_by (λ x. Some x) None values.now) bytes.now) }
{
    let (row, name, rest) = value_name_of(alloc, bytes, row_count, values)?;
    let (number, rest) = i64_at(rest)?;
    Ok(((row, name, number), rest))
}

/// So many numbers that were set in rows, and the bytes after them.
fn value_list(
    alloc: Global,
    count: u64,
    bytes: &[u8],
    row_count: u32,
) -> Result<(Vec<(u32, Name, i64)>, &[u8]), Broken>
    ensures { Gives (λ x. (x.0.items, x.1.now)) result
        (items_at (value_at row_count) (λ x. Some x) None count bytes.now) }
{
    let mut values = Vec::new(alloc);
    let mut rest = bytes;
    for _ in 0..count {
        let (value, after) = value_of(alloc, rest, row_count, &values)?;
        values.push(value)?;
        rest = after;
    }
    Ok((values, rest))
}

/// The numbers of a whole file of set numbers.
#[tactic(auto, unfolding(crate::specs::LiveReading::values_in))]
fn all_values(
    alloc: Global,
    bytes: &[u8],
    id: u64,
    v: u64,
    row_count: u32,
) -> Result<Vec<(u32, Name, i64)>, Broken>
    ensures { Gives (λ x. x.items) result (values_in id v row_count bytes.now) }
{
    let own = values_mark_at(bytes)?;
    let (own_id, commit) = u64_at(own)?;
    if own_id != id {
        return Err(Broken::At(own.len()));
    }
    let (own_commit, counted) = u64_at(commit)?;
    if own_commit != v {
        return Err(Broken::At(commit.len()));
    }
    let (own_count, rest) = u32_at(counted)?;
    if own_count != row_count {
        return Err(Broken::At(counted.len()));
    }
    let (value_count, rest) = u64_at(rest)?;
    let (values, rest) = value_list(alloc, value_count, rest, row_count)?;
    if !rest.is_empty() {
        return Err(Broken::At(rest.len()));
    }
    Ok(values)
}

/// The numbers of a whole file of set numbers. Where it is broken, the place is told from the file's
/// start.
fn placed_values(
    alloc: Global,
    bytes: &[u8],
    id: u64,
    v: u64,
    row_count: u32,
) -> Result<Vec<(u32, Name, i64)>, FileFault>
    ensures { GivesFile (λ x. x.items) result
        (placed (Values id v) bytes.now (values_in id v row_count bytes.now)) }
{
    match all_values(alloc, bytes, id, v, row_count) {
        Ok(values) => Ok(values),
        Err(broken) => Err(FileFault::of_field(broken, FileName::Values(id, v), bytes.len())),
    }
}

/// The numbers that were set in rows, as the file of a segment's set numbers spells them: of each
/// the row, the name and the number, by row and then by name. The segment has this id and
/// `row_count` rows, and the file was written with the commit `v`.
///
/// It returns `Damaged` exactly where the bytes are not in the grammar of such a file, with the
/// first broken place. Memory is taken for what was read, and never for a count before its elements.
pub fn decode_val(
    alloc: Global,
    bytes: &[u8],
    id: u64,
    v: u64,
    row_count: u32,
) -> Result<Vec<(u32, Name, i64)>, FileFault>
    // What is read is spelled so, each byte of it.
    ensures found { IfOk result (λ values. ValuesFit row_count values.items
        × (bytes.now ≡ values_file id v row_count values.items)) }
    // What is spelled so is read, unless memory runs out.
    ensures only { (values : List SetValue) → ValuesFit row_count values → bytes.now
        ≡ values_file id v row_count values → GivesFile (λ x. x.items) result (Ok values) }
    // Which place is the first broken one.
    ensures exact { GivesFile (λ x. x.items) result
        (placed (Values id v) bytes.now (values_in id v row_count bytes.now)) }
{
    placed_values(alloc, bytes, id, v, row_count)
}
