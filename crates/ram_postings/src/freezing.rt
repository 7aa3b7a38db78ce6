//! Freezing a buffer.
ghost use Rattle.std.specs.Prelude.{◌≡◌, ◌↔◌, ℕ, [], map, All, IsTrue, IfOk};
ghost use Rattle.std.specs.List.{IsDistinct};
ghost use Rattle.std.specs.Ordering.{eq_by_cmp};
ghost use Rattle.ix_base.specs.Grouped.{ArePostings};
ghost use Rattle.ix_base.specs.Inversion.{term_cmp, posted, IsTermPostings, IsPostings, IsInversion};
ghost use Rattle.ix_base.specs.declared.document.Term.{Term};
ghost use Rattle.ram_postings.specs.Buffer.{born_rows};
ghost use Rattle.ram_postings.specs.Kept.{staged_of, NumbersRise, IsRenumbered, StandsInNumbers, AreRenumbered, StandInNumbers, IsBuffer};

use crate::entry::Entry;
use crate::numbers::numbers_of;
use crate::renumbering::put_renumbered;
use analysis::{TermKey, compare_terms};
use indexmap::IndexMap;
use ix_base::{List, NoMemory, Postings, Row, Spots, TermPostings};
use std::alloc::Global;
use std::cmp::Ordering;

/// The rows of a buffer, in the order of their places, and the inversion of them.
#[derive(Drop)]
pub struct Frozen {
    pub rows: Vec<Row>,
    pub postings: Postings,
}

/// The places of a list in rows that have a number, at the rows of these numbers.
fn renumbered(alloc: Global, list: &Spots, numbers: &[Option<u32>]) -> Result<Spots, NoMemory>
    requires { NumbersRise numbers.now }
    ensures ordered { IfOk result (λ rows. ArePostings rows) }
    ensures others { IfOk result (λ rows. StandsInNumbers numbers.now rows) }
    ensures ok { IfOk result (λ rows. IsRenumbered numbers.now list.now rows) }
{
    let mut rows = Spots::new(alloc);
    put_renumbered(&mut rows, list.as_slice(), numbers)?;
    Ok(rows)
}

/// Whether a list has no place.
fn has_no_place(rows: &Spots) -> bool
    ensures { IsTrue result ↔ (rows.now ≡ []) }
{
    rows.as_slice().is_empty()
}

/// The terms that stand in rows that have a number, at the rows of these numbers, in the order in
/// which they came.
fn unsorted_terms(
    alloc: Global,
    lists: &IndexMap<TermKey, Spots>,
    numbers: &[Option<u32>],
) -> Result<Vec<TermPostings>, NoMemory>
    requires { NumbersRise numbers.now }
    ensures apart { IfOk result (λ terms. IsDistinct (eq_by_cmp term_cmp)
        (map (λ entry. entry.term) terms.items)) }
    ensures each { IfOk result (λ terms. All IsTermPostings terms.items) }
    ensures others { IfOk result (λ terms. StandInNumbers numbers.now terms.items) }
    ensures ok { IfOk result (λ terms. AreRenumbered numbers.now lists.now.entries terms.items) }
{
    let mut terms = Vec::with_capacity(alloc, lists.len())?;
    for (key, list) in lists {
        let rows = renumbered(alloc, list, numbers)?;
        if !has_no_place(&rows) {
            terms.push(TermPostings {
                term: key.term().clone_in(alloc)?,
                rows,
            })?;
        }
    }
    Ok(terms)
}

/// Puts different terms into their order.
fn sort_terms(terms: &mut Vec<TermPostings>)
    requires apart { IsDistinct (eq_by_cmp term_cmp) (map (λ entry. entry.term) terms.old.items) }
    requires each { All IsTermPostings terms.old.items }
    ensures ordered { IsPostings terms.new.items }
    ensures same { (t : Term) (r x : ℕ) → posted terms.new.items t.field t.bytes r x
        ≡ posted terms.old.items t.field t.bytes r x }
{
    terms.sort_unstable_by(
        |left: &TermPostings, right: &TermPostings| -> Ordering
            ensures { result ≡ term_cmp left.now.term right.now.term }
        { compare_terms(&left.term, &right.term) },
    );
}

/// The terms that stand in rows that have a number, at the rows of these numbers.
fn terms_of(
    alloc: Global,
    lists: &IndexMap<TermKey, Spots>,
    numbers: &[Option<u32>],
) -> Result<Vec<TermPostings>, NoMemory>
    requires { NumbersRise numbers.now }
    ensures ordered { IfOk result (λ terms. IsPostings terms.items) }
    ensures others { IfOk result (λ terms. StandInNumbers numbers.now terms.items) }
    ensures ok { IfOk result (λ terms. AreRenumbered numbers.now lists.now.entries terms.items) }
{
    let mut terms = unsorted_terms(alloc, lists, numbers)?;
    sort_terms(&mut terms);
    Ok(terms)
}

/// The inversion of the rows of those documents that were born.
pub fn postings_of(
    alloc: Global,
    staged: &[Entry],
    next_mark: u32,
    lists: &IndexMap<TermKey, Spots>,
) -> Result<Postings, NoMemory>
    requires { IsBuffer staged.now next_mark lists.now.entries }
    ensures { IfOk result (λ postings.
        IsInversion (map (λ row. row.doc) (born_rows (map staged_of staged.now))) postings) }
{
    let numbers = numbers_of(alloc, staged, next_mark)?;
    let terms = terms_of(alloc, lists, numbers.as_slice())?;
    Ok(Postings {
        terms: List::from_vec(terms),
    })
}
