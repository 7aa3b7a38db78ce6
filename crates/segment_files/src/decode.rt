//! The rows of a segment from bytes.
ghost use Rattle.std.specs.Prelude.{◌≡◌, ◌+◌, List, Ok, IfOk};
ghost use Rattle.std.specs.BTreeSet.{contains};
ghost use Rattle.std.specs.Ordering.{nat_cmp};
ghost use Rattle.ix_base.specs.declared.document.Row.{Row};
ghost use Rattle.ix_base.specs.declared.file_name.FileName.TheVariants.{Rows};
ghost use Rattle.ix_base.specs.Births.{first_birth};
ghost use Rattle.ix_base.specs.Codec.{Gives, items_at};
ghost use Rattle.ix_base.specs.FileReading.{GivesFile, placed};
ghost use Rattle.segment_files.specs.Fits.{IsSegment};
ghost use Rattle.segment_files.specs.Reading.{row_at, rows_in};
ghost use Rattle.segment_files.specs.Spelling.{SpellsRows};

use crate::marks::{RowFormat, row_format_of};
use crate::read_rows::row_of;
use ix_base::codec::{Broken, u32_at, u64_at};
use ix_base::{Birth, FileFault, FileName, List, Row};
use std::alloc::Global;
use std::collections::BTreeSet;

/// So many rows of a file of this form, and the bytes after them.
fn row_list<'a>(
    alloc: Global,
    count: u32,
    bytes: &'a [u8],
    format: RowFormat,
    number: u64,
    earlier: &BTreeSet<u64>,
) -> Result<(Vec<Row>, &'a [u8]), Broken>
    ensures { Gives (λ x. (x.0.items, x.1.now)) result
        (items_at (row_at format number (contains nat_cmp earlier.now)) (λ row. row.birth + 1)
        (first_birth 1) count bytes.now) }
{
    let mut rows = Vec::new(alloc);
    let mut last = Birth::new(0, 63);
    let mut rest = bytes;
    for _ in 0..count {
        let (row, after) = row_of(alloc, rest, format, number, earlier, last)?;
        last = row.birth;
        rows.push(row)?;
        rest = after;
    }
    Ok((rows, rest))
}

/// The rows of a whole file of rows.
#[tactic(auto, unfolding(crate::specs::Reading::rows_in))]
fn rows_of(
    alloc: Global,
    bytes: &[u8],
    id: u64,
    row_count: u32,
    number: u64,
    earlier: &BTreeSet<u64>,
) -> Result<Vec<Row>, Broken>
    ensures { Gives (λ rows. rows.items) result
        (rows_in id row_count number (contains nat_cmp earlier.now) bytes.now) }
{
    let (format, own) = row_format_of(bytes)?;
    let (own_id, counted) = u64_at(own)?;
    if own_id != id {
        return Err(Broken::At(own.len()));
    }
    let (count, rest) = u32_at(counted)?;
    if count != row_count || count == 0 {
        return Err(Broken::At(counted.len()));
    }
    let (rows, rest) = row_list(alloc, row_count, rest, format, number, earlier)?;
    if !rest.is_empty() {
        return Err(Broken::At(rest.len()));
    }
    Ok(rows)
}

/// The rows of a whole file of rows. Where it is broken, the place is told from the file's start.
fn placed_rows(
    alloc: Global,
    bytes: &[u8],
    id: u64,
    row_count: u32,
    number: u64,
    earlier: &BTreeSet<u64>,
) -> Result<List<Row>, FileFault>
    ensures { GivesFile (λ x. x) result (placed (Rows id) bytes.now
        (rows_in id row_count number (contains nat_cmp earlier.now) bytes.now)) }
{
    match rows_of(alloc, bytes, id, row_count, number, earlier) {
        Ok(rows) => Ok(List::from_vec(rows)),
        Err(broken) => Err(FileFault::of_field(broken, FileName::Rows(id), bytes.len())),
    }
}

/// The rows that the file of a segment spells, in either form: the segment has this id and `row_count` rows, the
/// commit has this number, and these are the numbers of the operations of which its earlier segments have rows.
///
/// It returns `Damaged` exactly where the bytes are not in the grammar of such a file, with the
/// first broken place. Memory is taken for what was read, and never for a count before its elements.
pub fn decode_row(
    alloc: Global,
    bytes: &[u8],
    id: u64,
    row_count: u32,
    number: u64,
    earlier: &BTreeSet<u64>,
) -> Result<List<Row>, FileFault>
    // What is read is spelled so, each byte of it.
    ensures found { IfOk result (λ rows. IsSegment number row_count
        (contains nat_cmp earlier.now) rows × SpellsRows id rows bytes.now) }
    // What is spelled so is read, unless memory runs out.
    ensures only { (rows : List Row)
        → IsSegment number row_count (contains nat_cmp earlier.now) rows
        → SpellsRows id rows bytes.now → GivesFile (λ x. x) result (Ok rows) }
    // Which place is the first broken one.
    ensures exact { GivesFile (λ x. x) result (placed (Rows id) bytes.now
        (rows_in id row_count number (contains nat_cmp earlier.now) bytes.now)) }
{
    placed_rows(alloc, bytes, id, row_count, number, earlier)
}
