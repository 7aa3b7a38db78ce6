//! Reading a commit file from its bytes.
ghost use Rattle.std.specs.Prelude.{◌≡◌, ◌+◌, Ok, IfOk};
ghost use Rattle.ix_base.specs.declared.file_name.FileName.TheVariants.{Commit};
ghost use Rattle.commit_point.specs.declared.heads.Head.{Head};
ghost use Rattle.ix_base.specs.Codec.{GivesExactly, Gives, items_at};
ghost use Rattle.ix_base.specs.FileReading.{GivesFile, placed};
ghost use Rattle.commit_point.specs.Fits.{HeadFits};
ghost use Rattle.commit_point.specs.Reading.{entry_at, head_in, tail_at};
ghost use Rattle.commit_point.specs.Spelling.{commit_file};

use crate::heads::{CommitFormat, Head, HeadSegment};
use crate::marks::format_of;
use ix_base::codec::{Broken, BrokenField, u32_at, u64_at};
use ix_base::{Fields, FileFault, FileName, List};
use segment_files::pairs_of;
use std::alloc::Global;

/// A segment of a commit file: its id is after the last one and below the next one.
#[tactic(auto, unfolding(crate::specs::Reading::entry_at))]
fn entry_of(
    bytes: &[u8],
    number: u64,
    next_id: u64,
    last: u64,
) -> Result<(HeadSegment, &[u8]), BrokenField>
    ensures { GivesExactly (λ x. (x.0, x.1.now)) result
        (entry_at number next_id (last + 1) bytes.now) }
{
    let (id, counted) = u64_at(bytes)?;
    if id <= last || next_id <= id {
        return Err(BrokenField { left: bytes.len() });
    }
    let (rows, last_written) = u32_at(counted)?;
    if rows == 0 {
        return Err(BrokenField {
            left: counted.len(),
        });
    }
    let (written, rest) = u64_at(last_written)?;
    if written == 0 || number < written {
        return Err(BrokenField {
            left: last_written.len(),
        });
    }
    Ok((HeadSegment { id, rows, written }, rest))
}

/// So many segments of a commit file, and the bytes after them.
fn entry_list(
    alloc: Global,
    count: u64,
    bytes: &[u8],
    number: u64,
    next_id: u64,
) -> Result<(Vec<HeadSegment>, &[u8]), Broken>
    ensures { Gives (λ x. (x.0.items, x.1.now)) result
        (items_at (entry_at number next_id) (λ segment. segment.id + 1) 1 count bytes.now) }
{
    let mut segments = Vec::new(alloc);
    let mut last = 0;
    let mut rest = bytes;
    for _ in 0..count {
        let (segment, after) = entry_of(rest, number, next_id, last)?;
        last = segment.id;
        segments.push(segment)?;
        rest = after;
    }
    Ok((segments, rest))
}

/// The pairs behind the segments, in the second form, and the bytes after them.
#[tactic(auto, unfolding(crate::specs::Reading::tail_at))]
fn tail_of(alloc: Global, format: CommitFormat, bytes: &[u8]) -> Result<(Fields, &[u8]), Broken>
    ensures { Gives (λ x. (x.0, x.1.now)) result (tail_at format bytes.now) }
{
    match format {
        CommitFormat::First => Ok((Fields::none(alloc), bytes)),
        CommitFormat::Second => pairs_of(alloc, bytes),
    }
}

/// The greatest next id of a commit.
const LAST_ID: u64 = 1 << 62;

/// What a whole commit file says.
#[tactic(auto, unfolding(crate::specs::Reading::head_in))]
fn head_of(alloc: Global, bytes: &[u8], number: u64) -> Result<Head, Broken>
    ensures { Gives (λ head. head) result (head_in number bytes.now) }
{
    let (format, own) = format_of(bytes)?;
    let (own_number, rest) = u64_at(own)?;
    if own_number != number || number == 0 {
        return Err(Broken::At(own.len()));
    }
    let (docs, next) = u64_at(rest)?;
    let (next_id, rest) = u64_at(next)?;
    if next_id == 0 || LAST_ID < next_id {
        return Err(Broken::At(next.len()));
    }
    let (count, rest) = u64_at(rest)?;
    let (segments, rest) = entry_list(alloc, count, rest, number, next_id)?;
    let (pairs, rest) = tail_of(alloc, format, rest)?;
    if !rest.is_empty() {
        return Err(Broken::At(rest.len()));
    }
    Ok(Head {
        number,
        docs,
        next_id,
        segments: List::from_vec(segments),
        format,
        pairs,
    })
}

/// What a whole commit file says. Where it is broken, the place is told from the file's start.
fn placed_head(alloc: Global, bytes: &[u8], number: u64) -> Result<Head, FileFault>
    ensures { GivesFile (λ x. x) result
        (placed (Commit number) bytes.now (head_in number bytes.now)) }
{
    match head_of(alloc, bytes, number) {
        Ok(head) => Ok(head),
        Err(broken) => Err(FileFault::of_field(broken, FileName::Commit(number), bytes.len())),
    }
}

/// What the commit file of this number says. It returns `Damaged` exactly where the bytes are not in
/// the grammar of such a file, with the first broken place.
pub fn decode_commit(alloc: Global, bytes: &[u8], number: u64) -> Result<Head, FileFault>
    // What is read is spelled so, each byte of it.
    ensures found { IfOk result (λ head. (head.number ≡ number) × HeadFits head
        × (bytes.now ≡ commit_file head)) }
    // What is spelled so is read, unless memory runs out.
    ensures only { (head : Head) → head.number ≡ number → HeadFits head
        → bytes.now ≡ commit_file head → GivesFile (λ x. x) result (Ok head) }
    // Which place is the first broken one.
    ensures exact { GivesFile (λ x. x) result
        (placed (Commit number) bytes.now (head_in number bytes.now)) }
{
    placed_head(alloc, bytes, number)
}
