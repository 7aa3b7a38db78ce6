//! The numbers that were set in the rows of a segment as bytes.
ghost use Rattle.std.specs.Prelude.{◌≡◌, ℕ, ◌<◌, ◌^◌, ◌++◌, length, OnOk, IfOk};
ghost use Rattle.std.specs.List.{flat_map, AllByRecursion};
ghost use Rattle.live_docs.specs.Marks.{numbered_rows, RowsNamesRise};
ghost use Rattle.live_files.specs.LiveFits.{ValueFits, ValuesFit};
ghost use Rattle.live_files.specs.LiveSpelling.{row_values, value_bytes, values_file, values_of};

use crate::marks::put_values_mark;
use ix_base::codec::{put_i64, put_name, put_u32, put_u64};
use ix_base::{Name, NoMemory};
use live_docs::LiveDocs;
use std::alloc::Global;

/// How many numbers were set in all rows, of which these are the ones with numbers, or the largest
/// `u64` where there are more: so many don't fit in memory, since each takes some bytes of the file.
fn count_values(numbered: &[u32], live: &LiveDocs) -> u64
    requires { numbered.now ≡ numbered_rows live.now.marks }
    ensures { length (values_of live.now.marks) < 2 ^ 64
        → result ≡ length (values_of live.now.marks) }
{
    let mut count = 0u64;
    for row in numbered {
        count = count.saturating_add(live.values(*row).len() as u64);
    }
    count
}

/// Appends a number that was set in a row.
fn put_value(out: &mut Vec<u8>, row: u32, pair: &(Name, i64)) -> Result<(), NoMemory>
    ensures bytes { OnOk result (out.new.items
        ≡ out.old.items ++ value_bytes (row, pair.now.0, pair.now.1)) }
    ensures fits { (n : ℕ) → row < n → OnOk result (ValueFits n (row, pair.now.0, pair.now.1)) }
{
    put_u32(out, row)?;
    put_name(out, &pair.0)?;
    put_i64(out, pair.1)?;
    Ok(())
}

/// Appends the numbers of a row.
fn put_row_values(out: &mut Vec<u8>, row: u32, pairs: &[(Name, i64)]) -> Result<(), NoMemory>
    ensures bytes { OnOk result (out.new.items
        ≡ out.old.items ++ flat_map value_bytes (row_values row pairs.now)) }
    ensures fits { (n : ℕ) → row < n
        → OnOk result (AllByRecursion (ValueFits n) (row_values row pairs.now)) }
{
    for pair in pairs {
        put_value(out, row, pair)?;
    }
    Ok(())
}

/// Appends the numbers of all rows, of which these are the ones with numbers. After an error a
/// prefix of them may stand there.
fn put_values(out: &mut Vec<u8>, numbered: &[u32], live: &LiveDocs) -> Result<(), NoMemory>
    requires { numbered.now ≡ numbered_rows live.now.marks }
    ensures bytes { OnOk result (out.new.items
        ≡ out.old.items ++ flat_map value_bytes (values_of live.now.marks)) }
    ensures fits { OnOk result (AllByRecursion (ValueFits (length live.now.marks))
        (values_of live.now.marks)) }
    ensures rise { OnOk result (RowsNamesRise live.now.marks) }
{
    for row in numbered {
        put_row_values(out, *row, live.values(*row))?;
    }
    Ok(())
}

/// The file of the numbers that were set in the rows of a segment with this id and `rows` rows,
/// written with the commit `v`. Rows that are no longer live have their numbers in it too.
pub fn encode_val(
    alloc: Global,
    id: u64,
    v: u64,
    rows: u32,
    live: &LiveDocs,
) -> Result<Vec<u8>, NoMemory>
    requires { rows ≡ length live.now.marks }
    ensures file { IfOk result (λ bytes. bytes.items
        ≡ values_file id v rows (values_of live.now.marks)) }
    ensures fits { OnOk result (ValuesFit rows (values_of live.now.marks)) }
{
    let numbered = live.numbered_rows(alloc)?;
    let mut out = Vec::new(alloc);
    put_values_mark(&mut out)?;
    put_u64(&mut out, id)?;
    put_u64(&mut out, v)?;
    put_u32(&mut out, rows)?;
    put_u64(&mut out, count_values(&numbered, live))?;
    put_values(&mut out, &numbered, live)?;
    Ok(out)
}
