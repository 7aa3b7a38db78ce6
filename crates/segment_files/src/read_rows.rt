//! Rows from bytes: each reader returns the value and the bytes after it.
ghost use Rattle.std.specs.Prelude.{◌+◌, ◌<◌, IfOk};
ghost use Rattle.std.specs.BTreeSet.{contains};
ghost use Rattle.std.specs.Ordering.{nat_cmp};
ghost use Rattle.ix_base.specs.Codec.{Gives, GivesExactly};
ghost use Rattle.segment_files.specs.Reading.{birth_at, place_at, row_at};

use crate::marks::RowFormat;
use crate::read_documents::document_of;
use ix_base::codec::{Broken, BrokenField, u32_at, u64_at};
use ix_base::{Birth, Row};
use std::alloc::Global;
use std::collections::BTreeSet;

/// The place of a row among the documents of its operation, 0 to 63: in the first form it is 0, and takes no
/// bytes.
#[tactic(auto, unfolding(crate::specs::Reading::place_at))]
fn place_of(bytes: &[u8], format: RowFormat) -> Result<(u32, &[u8]), BrokenField>
    ensures read { GivesExactly (λ x. (x.0, x.1.now)) result (place_at format bytes.now) }
    ensures below { IfOk result (λ x. x.0 < 64) }
{
    match format {
        RowFormat::First => Ok((0, bytes)),
        RowFormat::Second => {
            let (place, rest) = u32_at(bytes)?;
            if 63 < place {
                return Err(BrokenField { left: bytes.len() });
            }
            Ok((place, rest))
        }
    }
}

/// The birth of a row in the commit of this number: it is after the last one, and the number of its operation is not
/// one of earlier segments.
#[tactic(auto, unfolding(crate::specs::Reading::birth_at))]
fn birth_of<'a>(
    bytes: &'a [u8],
    format: RowFormat,
    number: u64,
    earlier: &BTreeSet<u64>,
    last: Birth,
) -> Result<(Birth, &'a [u8]), BrokenField>
    ensures { GivesExactly (λ x. (x.0, x.1.now)) result
        (birth_at format number (contains nat_cmp earlier.now) (last + 1) bytes.now) }
{
    let (own, rest) = u64_at(bytes)?;
    if Birth::new(own, 63) <= last || number < own || earlier.contains(&own) {
        return Err(BrokenField { left: bytes.len() });
    }
    let (place, rest) = place_of(rest, format)?;
    let birth = Birth::new(own, place);
    if birth <= last {
        return Err(BrokenField { left: bytes.len() });
    }
    Ok((birth, rest))
}

/// A row of the commit of this number, whose birth is after the last one, and is of an operation of which no earlier
/// segment has a row.
#[tactic(auto, unfolding(crate::specs::Reading::row_at))]
pub(crate) fn row_of<'a>(
    alloc: Global,
    bytes: &'a [u8],
    format: RowFormat,
    number: u64,
    earlier: &BTreeSet<u64>,
    last: Birth,
) -> Result<(Row, &'a [u8]), Broken>
    ensures { Gives (λ x. (x.0, x.1.now)) result
        (row_at format number (contains nat_cmp earlier.now) (last + 1) bytes.now) }
{
    match birth_of(bytes, format, number, earlier, last) {
        Ok((birth, rest)) => {
            let (doc, rest) = document_of(alloc, rest)?;
            Ok((Row { birth, doc }, rest))
        }
        Err(broken) => Err(Broken::from(broken)),
    }
}
