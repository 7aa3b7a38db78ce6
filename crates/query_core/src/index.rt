//! Terms looked for in postings.
ghost use Rattle.std.specs.Prelude.{IfOk};
ghost use Rattle.ix_base.specs.Matches.{holds_term};
ghost use Rattle.ix_base.specs.Inversion.{IsInversion};
ghost use Rattle.query_core.specs.Answers.{AreRowsWhere, ArePositions};

use crate::finding::{find_from, find_term};
use ix_base::{NoMemory, Postings, Term};
use std::alloc::Global;

/// The rows that hold a term by the postings, rising: where these are the inversion of documents,
/// the rows whose documents hold it. It refuses for memory only.
pub fn holding_in(alloc: Global, postings: &Postings, term: &Term) -> Result<Vec<u32>, NoMemory>
    ensures { IfOk result (λ rows. AreRowsWhere (λ docs. IsInversion docs postings.now)
        (holds_term term.now.field term.now.bytes) rows.items) }
{
    let mut place = 0;
    holding_from_in(alloc, postings, term, &mut place)
}

/// The same as `holding_in`, with the search for the term begun at a place of the postings, which is
/// moved to the term's. Any place is right: the nearer the term is behind it, the sooner it is found.
pub fn holding_from_in(
    alloc: Global,
    postings: &Postings,
    term: &Term,
    place: &mut usize,
) -> Result<Vec<u32>, NoMemory>
    ensures { IfOk result (λ rows. AreRowsWhere (λ docs. IsInversion docs postings.now)
        (holds_term term.now.field term.now.bytes) rows.items) }
{
    let entries = postings.terms.as_slice();
    match find_from(entries, term, place) {
        Some(i) => entries[i].rows.rows(alloc),
        None => Ok(Vec::new(alloc)),
    }
}

/// The positions of a term in a row by the postings, rising: where these are the inversion of
/// documents, the positions at which the row's document has it. It refuses for memory only.
pub fn places_in(
    alloc: Global,
    postings: &Postings,
    term: &Term,
    row: u32,
) -> Result<Vec<u32>, NoMemory>
    ensures { IfOk result (λ places. (docs : _) → IsInversion docs postings.now
        → ArePositions docs term.now row places.items) }
{
    let entries = postings.terms.as_slice();
    match find_term(entries, term) {
        Some(i) => entries[i].rows.positions(alloc, row),
        None => Ok(Vec::new(alloc)),
    }
}
