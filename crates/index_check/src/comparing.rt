//! The postings of segments, compared with the inversions of their rows.
ghost use Rattle.std.specs.Prelude.{◌≡◌, ◌<◌, ◌^◌, length, IfOk, MatchOption};
ghost use Rattle.std.specs.List.{AllByRecursion};
ghost use Rattle.segment_core.specs.Segments.{IsInverted};
ghost use Rattle.segment_files.specs.Fits.{PostingsFit};
ghost use Rattle.commit_point.specs.Holds.{AreInverted};
ghost use Rattle.index_check.specs.Difference.{DifferAt, HaveOther, IsOtherAt, byte_at};
ghost use Rattle.index_check.specs.Earlier.{CanSpell};

use crate::fault::Difference;
use analysis::invert;
use ix_base::{FileName, NoMemory};
use segment_core::{LiveSegment, Segment};
use segment_files::encode_pst;
use std::alloc::Global;

/// What stands at the end of a file, in place of a byte.
const END: u64 = 256;

/// Where the postings of one of these segments first differ from the inversion of its rows.
pub fn other_postings(
    alloc: Global,
    segments: &[LiveSegment],
) -> Result<Option<Difference>, NoMemory>
    requires { AllByRecursion CanSpell segments.now }
    ensures { IfOk result (λ found. MatchOption found
        (AreInverted segments.now) (HaveOther (λ g. IsInverted g.segment) segments.now)) }
{
    for segment in segments {
        let other = other_in(alloc, segment.segment())?;
        if other.is_some() {
            return Ok(other);
        }
    }
    Ok(None)
}

/// Where the postings of a segment, as its file spells them, first differ from the inversion of its
/// rows.
pub fn other_in(alloc: Global, segment: &Segment) -> Result<Option<Difference>, NoMemory>
    requires few { length segment.now.rows < 2 ^ 32 }
    requires fits { PostingsFit (length segment.now.rows) segment.now.postings }
    ensures { IfOk result (λ found. MatchOption found
        (IsInverted segment.now) (IsOtherAt segment.now)) }
{
    let row_count = segment.rows.len() as u32;
    let inversion = invert(alloc, segment.rows.as_slice())?;
    let wanted = encode_pst(alloc, segment.id, row_count, &inversion)?;
    let found = encode_pst(alloc, segment.id, row_count, &segment.postings)?;
    Ok(first_difference(
        FileName::Posts(segment.id),
        found.as_slice(),
        wanted.as_slice(),
    ))
}

/// Where the bytes of a file first differ from those that it should have.
fn first_difference(file: FileName, found: &[u8], wanted: &[u8]) -> Option<Difference>
    ensures { MatchOption result (found.now ≡ wanted.now) (DifferAt file found.now wanted.now) }
{
    for at in 0..found.len().max(wanted.len()) {
        let byte = byte_at(found, at);
        let other = byte_at(wanted, at);
        if byte != other {
            return Some(Difference {
                file,
                at: at as u64,
                found: byte,
                wanted: other,
            });
        }
    }
    None
}

/// The byte at this place, or 256 at the end and behind it.
fn byte_at(bytes: &[u8], at: usize) -> u64
    ensures { result ≡ byte_at bytes.now at }
{
    match bytes.get(at) {
        Some(byte) => u64::from(*byte),
        None => END,
    }
}
