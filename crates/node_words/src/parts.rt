//! The parts of an entry where they stand in its bytes, and copies of them.
ghost use Rattle.std.specs.Prelude.{◌≡◌, ◌<◌, ◌^◌, true, length, IfOk};
ghost use Rattle.ix_base.specs.Limits.{is_name};
ghost use Rattle.node_words.specs.Reads.{pair_in, term_in};

use ix_base::{Name, NoMemory, PhraseText, Term, Text};
use std::alloc::Global;

/// A name and a text, where they stand in bytes.
#[derive(Clone, Copy)]
pub(crate) struct TextPair<'a> {
    pub(crate) name: &'a str,
    pub(crate) text: &'a str,
}

/// The name and the bounds of a range, where they stand in bytes.
#[derive(Clone, Copy)]
pub(crate) struct RangeParts<'a> {
    pub(crate) name: &'a str,
    pub(crate) low: i64,
    pub(crate) high: i64,
}

/// The fields of an entry that sets a number, where they stand in bytes.
#[derive(Clone, Copy)]
pub(crate) struct SetParts<'a> {
    pub(crate) term: TextPair<'a>,
    pub(crate) num: &'a str,
    pub(crate) value: i64,
}

/// A copy of a name.
pub(crate) fn name_from(alloc: Global, name: &str) -> Result<Name, NoMemory>
    requires { is_name name.now ≡ true }
    ensures { IfOk result (λ copy. copy ≡ name.now) }
{
    match Name::new(Text::copy_of(alloc, name)?) {
        Some(name) => Ok(name),
        None => unreachable!(),
    }
}

/// A copy of a name and a text as a term.
pub(crate) fn term_from(alloc: Global, pair: TextPair<'_>) -> Result<Term, NoMemory>
    requires name { is_name pair.name.now ≡ true }
    requires text { length pair.text.now < 2 ^ 32 }
    ensures { IfOk result (λ term. term ≡ term_in pair.entry) }
{
    let field = name_from(alloc, pair.name)?;
    let bytes = Text::copy_of(alloc, pair.text)?;
    Ok(Term { field, bytes })
}

/// A copy of a name and a text as a field and a phrase.
pub(crate) fn phrase_from(alloc: Global, pair: TextPair<'_>) -> Result<(Name, PhraseText), NoMemory>
    requires name { is_name pair.name.now ≡ true }
    requires text { length pair.text.now < 2 ^ 28 }
    ensures { IfOk result (λ phrase. phrase ≡ pair_in pair.entry) }
{
    let field = name_from(alloc, pair.name)?;
    match PhraseText::new(Text::copy_of(alloc, pair.text)?) {
        Some(text) => Ok((field, text)),
        None => unreachable!(),
    }
}
