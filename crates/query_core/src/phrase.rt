//! Phrases.
//!
//! What a phrase finds is made of the lists of its different words: each is taken from the index
//! once for its rows, and once in each row for its positions. A search for rows ends as soon as none
//! is left, and one within a row at the first position where the phrase stands.
ghost use Rattle.std.specs.Prelude.{◌≡◌, ◌<◌, List, [], All, map, length, slice_index, slice_index_or, IfOk};
ghost use Rattle.std.specs.List.{AllZip, list_any};
ghost use Rattle.ix_base.specs.Terms.{terms, folded_words};
ghost use Rattle.ix_base.specs.Matches.{phrase_stands};
ghost use Rattle.ix_base.specs.Inversion.{has_number, at_row};
ghost use Rattle.ix_base.specs.declared.document.Term.{Term};
ghost use Rattle.query_core.specs.Answers.{AreRowsWhere, ArePositions, IsRising, term_of, holds_all, terms_stand};
ghost use Rattle.query_core.specs.Phrases.{AreWords, lists_of, in_turn, follow_from};

use crate::inverted::Inverted;
use crate::number_search::has_from;
use crate::row_lists::in_both;
use analysis::{TermKey, phrase_terms};
use indexmap::IndexSet;
use ix_base::{Name, NoMemory, PhraseText, Term};
use std::alloc::Global;

/// The words of a phrase: its different terms, and of each word which of them it is.
#[derive(Drop)]
struct PhraseWords {
    terms: IndexSet<TermKey>,
    order: Vec<usize>,
}

/// The words of a phrase as terms of its field.
fn words_of(alloc: Global, field: &Name, text: &PhraseText) -> Result<PhraseWords, NoMemory>
    ensures { IfOk result (λ words. AreWords words.terms.keys words.order.items
        (map (term_of field.now) (folded_words text.now))) }
{
    let mut terms = IndexSet::new(alloc);
    let mut order = Vec::new(alloc);
    let texts = phrase_terms(alloc, text)?;
    for bytes in &texts {
        let field = field.clone_in(alloc)?;
        let bytes = bytes.clone_in(alloc)?;
        let (at, _) = terms.insert_full(TermKey::new(Term { field, bytes }))?;
        order.push(at)?;
    }
    Ok(PhraseWords { terms, order })
}

/// The rows that hold each of these terms.
fn holding_all<I: Inverted>(
    alloc: Global,
    index: &I,
    terms: &[TermKey],
) -> Result<Vec<u32>, NoMemory>
    requires { 0 < length terms.now }
    ensures { IfOk result (λ rows.
        AreRowsWhere (I.inverts index.now) (holds_all terms.now) rows.items) }
{
    let mut rows = index.holding(alloc, terms[0].term())?;
    for i in 1..terms.len() {
        if rows.is_empty() {
            return Ok(rows);
        }
        let holding = index.holding(alloc, terms[i].term())?;
        rows = in_both(alloc, rows.as_slice(), holding.as_slice())?;
    }
    Ok(rows)
}

/// The positions of each of these terms in a row.
fn positions_in<I: Inverted>(
    alloc: Global,
    index: &I,
    terms: &[TermKey],
    row: u32,
) -> Result<Vec<Vec<u32>>, NoMemory>
    ensures long { IfOk result (λ lists. length lists.items ≡ length terms.now) }
    ensures lists { IfOk result (λ lists. (docs : _) → I.inverts index.now docs
        → AllZip (λ term places. ArePositions docs term row places) terms.now
        (lists_of lists.items)) }
{
    let mut lists = Vec::new(alloc);
    for term in terms {
        lists.push(index.places(alloc, term.term(), row)?)?;
    }
    Ok(lists)
}

/// Whether lists of positions, in this order, have one after another from this position on. Each
/// list is searched from where its last search ended, whichever of its word's places that was for.
fn follow_from(lists: &[Vec<u32>], order: &[usize], at: u32, ends: &mut [usize]) -> bool
    requires within { All (λ i. i < length lists.now) order.now }
    requires ends { length ends.old ≡ length lists.now }
    ensures follow { All IsRising (lists_of lists.now)
        → result ≡ follow_from (in_turn [] (lists_of lists.now) order.now) at }
    ensures ends { length ends.new ≡ length lists.now }
{
    for i in 0..order.len() {
        let places = lists[order[i]].as_slice();
        if !has_from(places, u64::from(at) + i as u64, &mut ends[order[i]]) {
            return false;
        }
    }
    true
}

/// Whether lists of positions, in this order, have one after another. It ends at the first position
/// of the first list from which they have.
fn have_run(alloc: Global, lists: &[Vec<u32>], order: &[usize]) -> Result<bool, NoMemory>
    requires some { 0 < length order.now }
    requires within { All (λ i. i < length lists.now) order.now }
    ensures { IfOk result (λ found. All IsRising (lists_of lists.now) → found ≡ list_any
        (follow_from (in_turn [] (lists_of lists.now) order.now))
        (slice_index_or (lists_of lists.now) (slice_index order.now 0) [])) }
{
    let mut ends = Vec::new(alloc);
    ends.resize(lists.len(), 0)?;
    for at in &lists[order[0]] {
        if follow_from(lists, order, *at, ends.as_mut_slice()) {
            return Ok(true);
        }
    }
    Ok(false)
}

/// Whether the words stand in a row one after another.
fn stands<I: Inverted>(
    alloc: Global,
    index: &I,
    words: &PhraseWords,
    row: u32,
) -> Result<bool, NoMemory>
    requires some { 0 < length words.now.order.items }
    requires within { All (λ i. i < length words.now.terms.keys) words.now.order.items }
    ensures { IfOk result (λ found. (docs : _) → I.inverts index.now docs → (list : List Term)
        → AreWords words.now.terms.keys words.now.order.items list
        → found ≡ at_row (terms_stand list) docs row) }
{
    let lists = positions_in(alloc, index, words.terms.as_slice(), row)?;
    have_run(alloc, lists.as_slice(), words.order.as_slice())
}

/// The rows in which the words stand one after another.
fn standing<I: Inverted>(
    alloc: Global,
    index: &I,
    words: &PhraseWords,
) -> Result<Vec<u32>, NoMemory>
    requires some { 0 < length words.now.order.items }
    requires within { All (λ i. i < length words.now.terms.keys) words.now.order.items }
    ensures { IfOk result (λ rows. (list : List Term)
        → AreWords words.now.terms.keys words.now.order.items list
        → AreRowsWhere (I.inverts index.now) (terms_stand list) rows.items) }
{
    let rows = holding_all(alloc, index, words.terms.as_slice())?;
    let mut kept = Vec::new(alloc);
    for row in &rows {
        if stands(alloc, index, words, *row)? {
            kept.push(*row)?;
        }
    }
    Ok(kept)
}

/// The rows in whose field the phrase's folded words stand at consecutive positions: none where it
/// has no word.
pub fn phrase_rows<I: Inverted>(
    alloc: Global,
    index: &I,
    field: &Name,
    text: &PhraseText,
) -> Result<Vec<u32>, NoMemory>
    ensures { IfOk result (λ rows.
        AreRowsWhere (I.inverts index.now) (λ doc.
        phrase_stands (terms doc) field.now (folded_words text.now)) rows.items) }
{
    let words = words_of(alloc, field, text)?;
    if words.order.is_empty() {
        return Ok(Vec::new(alloc));
    }
    standing(alloc, index, &words)
}
