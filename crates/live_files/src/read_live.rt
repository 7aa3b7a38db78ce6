//! The live bits of a segment from bytes.
ghost use Rattle.std.specs.Prelude.{◌≡◌, ◌++◌, List, Bool, Ok, OnOk, IfOk};
ghost use Rattle.std.specs.List.{flat_map};
ghost use Rattle.ix_base.specs.Codec.{Gives};
ghost use Rattle.ix_base.specs.FileReading.{GivesFile, placed};
ghost use Rattle.ix_base.specs.declared.file_name.FileName.TheVariants.{Live};
ghost use Rattle.live_files.specs.LiveFits.{LiveFits, has_bit};
ghost use Rattle.live_files.specs.LiveReading.{byte_bits, bits_at, live_in};
ghost use Rattle.live_files.specs.LiveSpelling.{live_file};

use crate::live::byte_count;
use crate::marks::live_mark_at;
use ix_base::codec::{Broken, u32_at, u64_at};
use ix_base::{FileFault, FileName, NoMemory};
use std::alloc::Global;

/// Appends the eight bits of a byte, the lowest first.
fn push_bits(bits: &mut Vec<bool>, byte: u8) -> Result<(), NoMemory>
    ensures { OnOk result (bits.new.items ≡ bits.old.items ++ byte_bits byte) }
{
    let mut number = byte;
    for _ in 0..8u8 {
        bits.push(number % 2 == 1)?;
        number /= 2;
    }
    Ok(())
}

/// The bits of these bytes.
fn all_bits(alloc: Global, bytes: &[u8]) -> Result<Vec<bool>, NoMemory>
    ensures { IfOk result (λ bits. bits.items ≡ flat_map byte_bits bytes.now) }
{
    let mut bits = Vec::new(alloc);
    for byte in bytes {
        push_bits(&mut bits, *byte)?;
    }
    Ok(bits)
}

/// Whether at least one of the bits is 1.
fn has_bit(bits: &[bool]) -> bool
    ensures { result ≡ has_bit bits.now }
{
    for bit in bits {
        if *bit {
            return true;
        }
    }
    false
}

/// The live bits of so many rows, and the bytes after them.
#[tactic(auto, unfolding(crate::specs::LiveReading::bits_at, crate::specs::LiveReading::bytes_at))]
fn bits_of(alloc: Global, bytes: &[u8], row_count: u32) -> Result<(Vec<bool>, &[u8]), Broken>
    ensures { Gives (λ x. (x.0.items, x.1.now)) result (bits_at row_count bytes.now) }
{
    let count = byte_count(row_count) as usize;
    if bytes.len() < count {
        return Err(Broken::At(0));
    }
    let (packed, rest) = bytes.split_at(count);
    let mut bits = all_bits(alloc, packed)?;
    if !has_bit(&bits) {
        return Err(Broken::At(bytes.len()));
    }
    if has_bit(&bits[row_count as usize..]) {
        return Err(Broken::At(rest.len() + 1));
    }
    bits.truncate(row_count as usize);
    Ok((bits, rest))
}

/// The live bits of a whole file of live bits.
#[tactic(auto, unfolding(crate::specs::LiveReading::live_in))]
fn live_of(
    alloc: Global,
    bytes: &[u8],
    id: u64,
    v: u64,
    row_count: u32,
) -> Result<Vec<bool>, Broken>
    ensures { Gives (λ x. x.items) result (live_in id v row_count bytes.now) }
{
    let own = live_mark_at(bytes)?;
    let (own_id, commit) = u64_at(own)?;
    if own_id != id {
        return Err(Broken::At(own.len()));
    }
    let (own_commit, counted) = u64_at(commit)?;
    if own_commit != v {
        return Err(Broken::At(commit.len()));
    }
    let (own_count, rest) = u32_at(counted)?;
    if own_count != row_count {
        return Err(Broken::At(counted.len()));
    }
    let (bits, rest) = bits_of(alloc, rest, row_count)?;
    if !rest.is_empty() {
        return Err(Broken::At(rest.len()));
    }
    Ok(bits)
}

/// The live bits of a whole file of live bits. Where it is broken, the place is told from the file's
/// start.
fn placed_live(
    alloc: Global,
    bytes: &[u8],
    id: u64,
    v: u64,
    row_count: u32,
) -> Result<Vec<bool>, FileFault>
    ensures { GivesFile (λ x. x.items) result
        (placed (Live id v) bytes.now (live_in id v row_count bytes.now)) }
{
    match live_of(alloc, bytes, id, v, row_count) {
        Ok(bits) => Ok(bits),
        Err(broken) => Err(FileFault::of_field(broken, FileName::Live(id, v), bytes.len())),
    }
}

/// Which rows are live, as the file of a segment's live bits spells it: the segment has this id and
/// `row_count` rows, and the file was written with the commit `v`.
///
/// It returns `Damaged` exactly where the bytes are not in the grammar of such a file, with the
/// first broken place. Memory is taken for what was read, and never for a count before its elements.
pub fn decode_liv(
    alloc: Global,
    bytes: &[u8],
    id: u64,
    v: u64,
    row_count: u32,
) -> Result<Vec<bool>, FileFault>
    // What is read is spelled so, each byte of it.
    ensures found { IfOk result (λ bits. LiveFits row_count bits.items
        × (bytes.now ≡ live_file id v bits.items)) }
    // What is spelled so is read, unless memory runs out.
    ensures only { (bits : List Bool) → LiveFits row_count bits → bytes.now ≡ live_file id v bits
        → GivesFile (λ x. x.items) result (Ok bits) }
    // Which place is the first broken one.
    ensures exact { GivesFile (λ x. x.items) result
        (placed (Live id v) bytes.now (live_in id v row_count bytes.now)) }
{
    placed_live(alloc, bytes, id, v, row_count)
}
