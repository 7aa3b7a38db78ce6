//! Documents from bytes: each reader returns the value and the bytes after it.
ghost use Rattle.std.specs.Prelude.{◌≡◌, map, length, true, Option, Some, None, IfOk};
ghost use Rattle.ix_base.specs.Codec.{text_at, name_at, Gives, items_at, left_by};
ghost use Rattle.segment_files.specs.Fields.{field_at, fields_at, numbered_at, numbers_at, document_at, comes_after, is_free_name, may_name};

use ix_base::codec::{Broken, i64_at, name_at, text_at, u32_at, u64_at};
use ix_base::{Document, Fields, Name, Numbers, Text};
use std::alloc::Global;

/// A copy of the text at the start of the bytes.
pub(crate) fn text_of(alloc: Global, bytes: &[u8]) -> Result<(Text, &[u8]), Broken>
    ensures { Gives (λ x. (x.0, x.1.now)) result (text_at bytes.now) }
{
    let (text, rest) = text_at(bytes)?;
    Ok((Text::copy_of(alloc, text)?, rest))
}

/// A copy of the name at the start of the bytes, and the bytes after it. Bytes that begin with no
/// name are broken at its place.
pub fn name_of(alloc: Global, bytes: &[u8]) -> Result<(Name, &[u8]), Broken>
    ensures { Gives (λ x. (x.0, x.1.now)) result (name_at bytes.now) }
{
    let (name, rest) = name_at(bytes)?;
    match Name::new(Text::copy_of(alloc, name)?) {
        Some(name) => Ok((name, rest)),
        None => Err(Broken::At(bytes.len())),
    }
}

/// Whether the name comes after the last of these.
pub(crate) fn comes_next<V>(pairs: &[(Name, V)], name: &Name) -> bool
    ensures { result ≡ comes_after (left_by (λ pair. Some pair.0) None pairs.now) name.now }
{
    match pairs.last() {
        Some(pair) => pair.0.as_str() < name.as_str(),
        None => true,
    }
}

/// Whether a field may have this name, where these names are taken.
fn is_free(taken: &Fields, name: &Name) -> bool
    ensures { result ≡ is_free_name (map (λ pair. pair.0) taken.now) name.now }
{
    name.as_str() != "key" && !taken.has_name(name.as_str())
}

/// Whether a field of this name may come after these, where these names are taken.
fn may_come(pairs: &[(Name, Text)], taken: &Fields, name: &Name) -> bool
    ensures { result ≡ may_name (map (λ pair. pair.0) taken.now)
        (left_by (λ pair. Some pair.0) None pairs.now) name.now }
{
    comes_next(pairs, name) && is_free(taken, name)
}

#[tactic(auto, unfolding(crate::specs::Fields::field_at))]
fn field_of<'a>(
    alloc: Global,
    bytes: &'a [u8],
    pairs: &[(Name, Text)],
    taken: &Fields,
) -> Result<((Name, Text), &'a [u8]), Broken>
    ensures { Gives (λ x. (x.0, x.1.now)) result (field_at (map (λ pair. pair.0) taken.now)
        (left_by (λ pair. Some pair.0) None pairs.now) bytes.now) }
{
    let (name, rest) = name_of(alloc, bytes)?;
    if !may_come(pairs, taken, &name) {
        return Err(Broken::At(bytes.len()));
    }
    let (text, rest) = text_of(alloc, rest)?;
    Ok(((name, text), rest))
}

fn field_list<'a>(
    alloc: Global,
    count: u32,
    bytes: &'a [u8],
    taken: &Fields,
) -> Result<(Fields, &'a [u8]), Broken>
    ensures { Gives (λ x. (x.0, x.1.now)) result (items_at
        (field_at (map (λ pair. pair.0) taken.now)) (λ pair. Some pair.0) None count bytes.now) }
{
    let mut pairs = Vec::new(alloc);
    let mut rest = bytes;
    for _ in 0..count {
        let (pair, after) = field_of(alloc, rest, &pairs, taken)?;
        pairs.push(pair)?;
        rest = after;
    }
    Ok((Fields::from_vec(pairs), rest))
}

#[tactic(auto, unfolding(crate::specs::Fields::numbered_at))]
fn numbered_of<'a>(
    alloc: Global,
    bytes: &'a [u8],
    pairs: &[(Name, i64)],
) -> Result<((Name, i64), &'a [u8]), Broken>
    ensures { Gives (λ x. (x.0, x.1.now)) result
        (numbered_at (left_by (λ pair. Some pair.0) None pairs.now) bytes.now) }
{
    let (name, rest) = name_of(alloc, bytes)?;
    if !comes_next(pairs, &name) {
        return Err(Broken::At(bytes.len()));
    }
    let (value, rest) = i64_at(rest)?;
    Ok(((name, value), rest))
}

fn number_list(alloc: Global, count: u64, bytes: &[u8]) -> Result<(Numbers, &[u8]), Broken>
    ensures { Gives (λ x. (x.0, x.1.now)) result
        (items_at numbered_at (λ pair. Some pair.0) None count bytes.now) }
{
    let mut pairs = Vec::new(alloc);
    let mut rest = bytes;
    for _ in 0..count {
        let (pair, after) = numbered_of(alloc, rest, &pairs)?;
        pairs.push(pair)?;
        rest = after;
    }
    Ok((Numbers::from_vec(pairs), rest))
}

#[tactic(auto, unfolding(crate::specs::Fields::fields_at))]
fn fields_of<'a>(
    alloc: Global,
    bytes: &'a [u8],
    taken: &Fields,
) -> Result<(Fields, &'a [u8]), Broken>
    ensures { Gives (λ x. (x.0, x.1.now)) result
        (fields_at (map (λ pair. pair.0) taken.now) bytes.now) }
{
    let (count, rest) = u32_at(bytes)?;
    field_list(alloc, count, rest, taken)
}

#[tactic(auto, unfolding(crate::specs::Fields::numbers_at))]
fn numbers_of(alloc: Global, bytes: &[u8]) -> Result<(Numbers, &[u8]), Broken>
    ensures { Gives (λ x. (x.0, x.1.now)) result (numbers_at bytes.now) }
{
    let (count, rest) = u64_at(bytes)?;
    number_list(alloc, count, rest)
}

/// The document at the start of the bytes.
#[tactic(auto, unfolding(crate::specs::Fields::document_at))]
pub(crate) fn document_of(alloc: Global, bytes: &[u8]) -> Result<(Document, &[u8]), Broken>
    ensures { Gives (λ x. (x.0, x.1.now)) result (document_at bytes.now) }
{
    let (key, rest) = text_of(alloc, bytes)?;
    let (text, rest) = fields_of(alloc, rest, &Fields::none(alloc))?;
    let (exact, rest) = fields_of(alloc, rest, &text)?;
    let (num, rest) = numbers_of(alloc, rest)?;
    let doc = Document {
        key,
        text,
        exact,
        num,
    };
    Ok((doc, rest))
}
