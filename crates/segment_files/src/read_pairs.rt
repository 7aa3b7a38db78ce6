//! Pairs of a name and a text from bytes.
ghost use Rattle.std.specs.Prelude.{◌≡◌, Some, None};
ghost use Rattle.ix_base.specs.Codec.{Gives, items_at, left_by};
ghost use Rattle.segment_files.specs.Pairs.{pair_at, pairs_at};

use crate::read_documents::{comes_next, name_of, text_of};
use ix_base::codec::{Broken, u32_at};
use ix_base::{Fields, Name, Text};
use std::alloc::Global;

/// A pair whose name comes after the last of these.
#[tactic(auto, unfolding(crate::specs::Pairs::pair_at))]
fn pair_of<'a>(
    alloc: Global,
    bytes: &'a [u8],
    pairs: &[(Name, Text)],
) -> Result<((Name, Text), &'a [u8]), Broken>
    ensures { Gives (λ x. (x.0, x.1.now)) result
        (pair_at (left_by (λ pair. Some pair.0) None pairs.now) bytes.now) }
{
    let (name, rest) = name_of(alloc, bytes)?;
    if !comes_next(pairs, &name) {
        return Err(Broken::At(bytes.len()));
    }
    let (text, rest) = text_of(alloc, rest)?;
    Ok(((name, text), rest))
}

fn pair_list(alloc: Global, count: u32, bytes: &[u8]) -> Result<(Fields, &[u8]), Broken>
    ensures { Gives (λ x. (x.0, x.1.now)) result
        (items_at pair_at (λ pair. Some pair.0) None count bytes.now) }
{
    let mut pairs = Vec::new(alloc);
    let mut rest = bytes;
    for _ in 0..count {
        let (pair, after) = pair_of(alloc, rest, &pairs)?;
        pairs.push(pair)?;
        rest = after;
    }
    Ok((Fields::from_vec(pairs), rest))
}

/// The pairs at the start of the bytes, and the bytes after them: how many there are, and then each of
/// them, by rising names. Any name may stand among them.
#[tactic(auto, unfolding(crate::specs::Pairs::pairs_at))]
pub fn pairs_of(alloc: Global, bytes: &[u8]) -> Result<(Fields, &[u8]), Broken>
    ensures { Gives (λ x. (x.0, x.1.now)) result (pairs_at bytes.now) }
{
    let (count, rest) = u32_at(bytes)?;
    pair_list(alloc, count, rest)
}
