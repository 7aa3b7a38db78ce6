//! The rows of a segment as bytes.
ghost use Rattle.std.specs.Prelude.{◌≡◌, ◌<◌, ◌^◌, ◌++◌, length, OnOk, IfOk};
ghost use Rattle.std.specs.List.{AllByRecursion};
ghost use Rattle.segment_files.specs.Spelling.{rows_file};
ghost use Rattle.segment_files.specs.Fits.{DocumentFits};

use crate::documents::put_row;
use crate::marks::put_rows_mark;
use ix_base::codec::{put_u32, put_u64};
use ix_base::{NoMemory, Row};
use std::alloc::Global;

/// Appends a file of rows. After an error a prefix of it may stand there.
fn put_rows(out: &mut Vec<u8>, id: u64, rows: &[Row]) -> Result<(), NoMemory>
    requires count { length rows.now < 2 ^ 32 }
    ensures bytes { OnOk result (out.new.items ≡ out.old.items ++ rows_file id rows.now) }
    ensures fits { OnOk result (AllByRecursion (λ row. DocumentFits row.doc) rows.now) }
{
    put_rows_mark(out)?;
    put_u64(out, id)?;
    put_u32(out, rows.len() as u32)?;
    for row in rows {
        put_row(out, row)?;
    }
    Ok(())
}

/// The file of a segment's rows, of which there are fewer than 2^32. The other rules of the grammar
/// are kept by the types.
pub fn encode_row(alloc: Global, id: u64, rows: &[Row]) -> Result<Vec<u8>, NoMemory>
    requires count { length rows.now < 2 ^ 32 }
    ensures file { IfOk result (λ bytes. bytes.items ≡ rows_file id rows.now) }
    ensures fits { OnOk result (AllByRecursion (λ row. DocumentFits row.doc) rows.now) }
{
    let mut out = Vec::new(alloc);
    put_rows(&mut out, id, rows)?;
    Ok(out)
}
