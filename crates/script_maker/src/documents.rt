//! The documents and terms of a made script.
ghost use Rattle.std.specs.Prelude.{◌≡◌, IfOk};
ghost use Rattle.script_maker.specs.Operations.{document_of, key_term, tag_term};

use crate::texts::{body_text, key_text, name_of, tag_text};
use ix_base::{Document, Fields, NoMemory, Numbers, Term};
use std::alloc::Global;

/// The document of a caller and a number: the key and the tag that the number chooses, two words as
/// the text of `body`, and the number itself as `n`.
pub fn document_of(alloc: Global, caller: u8, number: u32) -> Result<Document, NoMemory>
    ensures { IfOk result (λ doc. doc ≡ document_of caller number) }
{
    let key = key_text(alloc, caller, number)?;
    let body = (name_of(alloc, "body")?, body_text(alloc, number)?);
    let tag = (name_of(alloc, "tag")?, tag_text(alloc, caller, number)?);
    let n = (name_of(alloc, "n")?, i64::from(number));
    Ok(Document {
        key,
        text: Fields::from_vec(vec![in alloc; body]?),
        exact: Fields::from_vec(vec![in alloc; tag]?),
        num: Numbers::from_vec(vec![in alloc; n]?),
    })
}

/// The key that a number chooses, as a term of `key`.
pub fn key_term(alloc: Global, caller: u8, number: u32) -> Result<Term, NoMemory>
    ensures { IfOk result (λ term. term ≡ key_term caller number) }
{
    Ok(Term {
        field: name_of(alloc, "key")?,
        bytes: key_text(alloc, caller, number)?,
    })
}

/// The tag that a number chooses, as a term of `tag`.
pub fn tag_term(alloc: Global, caller: u8, number: u32) -> Result<Term, NoMemory>
    ensures { IfOk result (λ term. term ≡ tag_term caller number) }
{
    Ok(Term {
        field: name_of(alloc, "tag")?,
        bytes: tag_text(alloc, caller, number)?,
    })
}
