//! Queries over an inverted index.
ghost use Rattle.std.specs.Prelude.{◌≡◌, List, true, filter, IfOk, IfSome, IfNone};
ghost use Rattle.ix_base.specs.Documents.{Document};
ghost use Rattle.ix_base.specs.Matches.{matches, all_match, any_matches, is_empty, is_within};
ghost use Rattle.ix_base.specs.Query.{tree_of};
ghost use Rattle.ix_base.specs.Tree.{range};
ghost use Rattle.ix_base.specs.Inversion.{has_number, at_row};
ghost use Rattle.query_core.specs.Answers.{AreRowsWhere, IsRising};

use crate::inverted::Inverted;
use crate::phrase::phrase_rows;
use crate::row_lists::{below, distinct_below, in_both, in_first};
use ix_base::{Name, NoMemory, Queries, Query};
use std::alloc::Global;

fn is_empty(queries: &Queries) -> bool
    ensures { result ≡ is_empty queries.now }
{
    queries.as_slice().is_empty()
}

fn all_rows<I: Inverted>(alloc: Global, index: &I) -> Result<Vec<u32>, NoMemory>
    ensures { IfOk result (λ rows. AreRowsWhere (I.inverts index.now) (λ _. true) rows.items) }
{
    below(alloc, index.rows())
}

/// Whether there is a number, from the lower bound to the upper one.
pub fn is_within(low: &i64, high: &i64, number: Option<i64>) -> bool
    ensures { result ≡ is_within low.now high.now number }
{
    match number {
        Some(value) => *low <= value && value <= *high,
        None => false,
    }
}

/// Whether the row has a number of this name, from the lower bound to the upper one.
fn is_row_within<I: Inverted>(index: &I, row: u32, name: &Name, low: &i64, high: &i64) -> bool
    ensures { (docs : List Document) → I.inverts index.now docs
        → result ≡ at_row (matches (range name.now low.now high.now)) docs row }
{
    is_within(low, high, index.number(row, name))
}

/// Those of the rows that have a number of this name, from the lower bound to the upper one.
fn kept_within<I: Inverted>(
    alloc: Global,
    index: &I,
    rows: &[u32],
    name: &Name,
    low: &i64,
    high: &i64,
) -> Result<Vec<u32>, NoMemory>
    ensures { IfOk result (λ kept. (docs : List Document) → I.inverts index.now docs
        → kept.items ≡ filter (at_row (matches (range name.now low.now high.now)) docs) rows.now) }
{
    let mut kept = Vec::new(alloc);
    for row in rows {
        if is_row_within(index, *row, name, low, high) {
            kept.push(*row)?;
        }
    }
    Ok(kept)
}

/// The rows that have a number of this name, from the lower bound to the upper one. It looks at the
/// index's candidates for it, where it has some, and else at each row.
fn range_rows<I: Inverted>(
    alloc: Global,
    index: &I,
    name: &Name,
    low: &i64,
    high: &i64,
) -> Result<Vec<u32>, NoMemory>
    ensures { let test = matches (range name.now low.now high.now) in
        IfOk result (λ rows. AreRowsWhere (I.inverts index.now) test rows.items) }
{
    match index.candidates(alloc, name, low, high)? {
        Some(rows) => kept_within(alloc, index, rows.as_slice(), name, low, high),
        None => {
            let rows = all_rows(alloc, index)?;
            kept_within(alloc, index, rows.as_slice(), name, low, high)
        }
    }
}

/// The rows that match a query, rising: those whose documents match, of whichever documents the
/// index is the inversion. It refuses for memory only.
#[cycle(answer)]
pub fn answer<I: Inverted>(alloc: Global, query: &Query, index: &I) -> Result<Vec<u32>, NoMemory>
    ensures { IfOk result (λ rows.
        AreRowsWhere (I.inverts index.now) (matches (tree_of query.now)) rows.items) }
{
    match query {
        Query::All => all_rows(alloc, index),
        Query::Term(term) => index.holding(alloc, term),
        Query::Phrase(field, text) => phrase_rows(alloc, index, field, text),
        Query::Range(name, low, high) => range_rows(alloc, index, name, low, high),
        Query::Bool {
            must,
            should,
            must_not,
        } => {
            let rows = if is_empty(must) {
                any_of(alloc, should, index)?
            } else {
                all_of(alloc, must, index)?
            };
            let without = any_of(alloc, must_not, index)?;
            in_first(alloc, rows.as_slice(), without.as_slice())
        }
    }
}

/// The rows that match all of the queries.
#[cycle(answer)]
fn all_of<I: Inverted>(alloc: Global, queries: &Queries, index: &I) -> Result<Vec<u32>, NoMemory>
    ensures { IfOk result (λ rows.
        AreRowsWhere (I.inverts index.now) (all_match queries.now) rows.items) }
{
    let mut rows = None;
    for query in queries.as_slice() {
        let found = answer(alloc, query, index)?;
        rows = Some(narrowed(alloc, rows, found)?);
    }
    match rows {
        Some(rows) => Ok(rows),
        None => all_rows(alloc, index),
    }
}

/// The rows that match one of the queries at least. What is held of the rows that were found, some of
/// them more than once, is no more than three times as many as there are rows; it stops where all
/// rows are found.
#[cycle(answer)]
fn any_of<I: Inverted>(alloc: Global, queries: &Queries, index: &I) -> Result<Vec<u32>, NoMemory>
    ensures { IfOk result (λ rows.
        AreRowsWhere (I.inverts index.now) (any_matches queries.now) rows.items) }
{
    let total = index.rows();
    let mut rows = Vec::new(alloc);
    for query in queries.as_slice() {
        let found = answer(alloc, query, index)?;
        rows.extend_from_slice(found.as_slice())?;
        if rows.len() / 2 > total as usize {
            rows = distinct_below(alloc, rows, total)?;
            if rows.len() == total as usize {
                return Ok(rows);
            }
        }
    }
    distinct_below(alloc, rows, total)
}

/// The rows so far, if there are any limits yet, that are among those found.
fn narrowed(alloc: Global, rows: Option<Vec<u32>>, found: Vec<u32>) -> Result<Vec<u32>, NoMemory>
    ensures none { IfNone rows (IfOk result (λ kept. kept.items ≡ found.items)) }
    ensures some { IfSome rows (λ before.
        IfOk result (λ kept. IsRising found.items
        → kept.items ≡ filter (has_number found.items) before.items)) }
{
    match rows {
        Some(rows) => in_both(alloc, rows.as_slice(), found.as_slice()),
        None => Ok(found),
    }
}
