//! Documents inverted.
ghost use Rattle.std.specs.Prelude.{◌≡◌, ◌<◌, ◌^◌, ◌∷◌, [], map, length, IfOk};
ghost use Rattle.ix_base.specs.Refusals.{document_refusal};
ghost use Rattle.ix_base.specs.Inversion.{IsInversion};
ghost use Rattle.analysis.specs.Kept.{AreKept, AreAllTerms};

use crate::field_lists::{FieldLists, add_document, all_terms};
use crate::sizes::long_term_of;
use ix_base::{Analysed, Document, List, NoMemory, Postings, Refusal, Refused, Row};
use std::alloc::Global;
use std::collections::BTreeMap;

/// The words of these rows: the row at place i has the number i.
fn fields_of(alloc: Global, rows: &[Row]) -> Result<FieldLists, NoMemory>
    requires { length rows.now < 2 ^ 32 }
    ensures { IfOk result (λ fields. AreKept (map (λ row. row.doc) rows.now) fields.entries) }
{
    let mut fields = BTreeMap::new(alloc);
    let mut scratch = String::new(alloc);
    let mut number = 0;
    for row in rows {
        add_document(alloc, &mut fields, &mut scratch, number, &row.doc)?;
        number += 1;
    }
    Ok(fields)
}

/// The postings of these words.
fn postings_of(alloc: Global, fields: FieldLists) -> Result<Postings, NoMemory>
    ensures { IfOk result (λ postings. AreAllTerms fields.entries postings.terms) }
{
    Ok(Postings {
        terms: List::from_vec(all_terms(alloc, fields)?),
    })
}

/// The inversion of the documents of these rows, of which there are fewer than 2^32: the row at
/// place i has the number i. A term is indexed whatever its size. It refuses for memory only.
pub fn invert(alloc: Global, rows: &[Row]) -> Result<Postings, NoMemory>
    requires { length rows.now < 2 ^ 32 }
    ensures { IfOk result (λ postings. IsInversion (map (λ row. row.doc) rows.now) postings) }
{
    postings_of(alloc, fields_of(alloc, rows)?)
}

fn invert_one(alloc: Global, doc: &Document) -> Result<Postings, NoMemory>
    ensures { IfOk result (λ postings. IsInversion (doc.now ∷ []) postings) }
{
    let mut fields = BTreeMap::new(alloc);
    let mut scratch = String::new(alloc);
    add_document(alloc, &mut fields, &mut scratch, 0, doc)?;
    postings_of(alloc, fields)
}

/// The document with the inversion of it alone. It is refused exactly where a term of it has more
/// than 32,766 bytes, unless memory runs out: for the first such term.
pub fn analyse(alloc: Global, doc: Document) -> Result<Analysed, Refused>
    ensures doc { IfOk result (λ analysed. analysed.doc ≡ doc) }
    ensures inversion { IfOk result (λ analysed. IsInversion (doc ∷ []) analysed.postings) }
    ensures fits { IfOk result (λ _. document_refusal doc ≡ None) }
    ensures refusal { (refusal : _) → result ≡ Err (Refused.For refusal)
        → document_refusal doc ≡ Some refusal }
{
    let postings = invert_one(alloc, &doc)?;
    if let Some(size) = long_term_of(alloc, &doc, &postings)? {
        return Err(Refused::For(Refusal::Term { size }));
    }
    Ok(Analysed { doc, postings })
}
