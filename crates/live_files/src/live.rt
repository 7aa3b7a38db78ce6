//! The live bits of a segment as bytes, eight a byte.
ghost use Rattle.std.specs.Prelude.{◌≡◌, ◌≤◌, ◌++◌, length, take, drop, OnOk, IfOk};
ghost use Rattle.live_docs.specs.Marks.{count_live};
ghost use Rattle.live_files.specs.LiveFits.{LiveFits};
ghost use Rattle.live_files.specs.LiveSpelling.{bit_value, byte_count, live_bits, live_bytes, live_file};

use crate::marks::put_live_mark;
use ix_base::NoMemory;
use ix_base::codec::{put_u32, put_u64};
use live_docs::LiveDocs;
use std::alloc::Global;

/// How many bytes hold so many bits.
pub(crate) fn byte_count(bits: u32) -> u32
    ensures { result ≡ byte_count bits }
{
    bits / 8 + u32::from(!bits.is_multiple_of(8))
}

/// The byte of eight rows, the first of which is its lowest bit. A row that isn't there is 0.
fn live_byte(live: &LiveDocs, rows: u32, first: u32) -> u8
    requires rows { rows ≡ length live.now.marks }
    requires first { first ≤ rows }
    ensures { result ≡ bit_value (take 8 (drop first (live_bits live.now.marks))) }
{
    let mut row = first + (rows - first).min(8);
    let mut byte = 0u8;
    while first < row {
        row -= 1;
        byte = byte * 2 + u8::from(live.is_live(row));
    }
    byte
}

/// Appends the live bits of all rows. After an error a prefix of them may stand there.
fn put_live_bits(out: &mut Vec<u8>, rows: u32, live: &LiveDocs) -> Result<(), NoMemory>
    requires { rows ≡ length live.now.marks }
    ensures { OnOk result (out.new.items ≡ out.old.items ++ live_bytes (live_bits live.now.marks)) }
{
    for index in 0..byte_count(rows) {
        out.push(live_byte(live, rows, index * 8))?;
    }
    Ok(())
}

/// The file of the live bits of a segment with this id and `rows` rows, written with the commit
/// `v`. At least one row is live.
pub fn encode_liv(
    alloc: Global,
    id: u64,
    v: u64,
    rows: u32,
    live: &LiveDocs,
) -> Result<Vec<u8>, NoMemory>
    requires rows { rows ≡ length live.now.marks }
    requires some { 1 ≤ count_live live.now.marks }
    ensures file { IfOk result (λ bytes. bytes.items ≡ live_file id v (live_bits live.now.marks)) }
    ensures fits { OnOk result (LiveFits rows (live_bits live.now.marks)) }
{
    let mut out = Vec::new(alloc);
    put_live_mark(&mut out)?;
    put_u64(&mut out, id)?;
    put_u64(&mut out, v)?;
    put_u32(&mut out, rows)?;
    put_live_bits(&mut out, rows, live)?;
    Ok(out)
}
