//! Terms found among postings, which stand in the order of their terms.
ghost use Rattle.std.specs.Prelude.{◌≡◌, ◌≢◌, ◌<◌, ◌≤◌, length, All, IfSome, IfNone, IsTrue};
ghost use Rattle.std.specs.Prelude.{slice_index_or};
ghost use Rattle.ix_base.specs.Inversion.{IsPostings};
ghost use Rattle.query_core.specs.Finding.{IsTermAt, StandsNotBefore, StandsWithin};

use analysis::compare_terms;
use ix_base::{Term, TermPostings};
use std::cmp::Ordering;

/// The place of a term's postings.
pub fn find_term(entries: &[TermPostings], term: &Term) -> Option<usize>
    ensures found { IfSome result (IsTermAt entries.now term.now) }
    ensures none { IfNone result (IsPostings entries.now
        → All (λ entry. entry.term ≢ term.now) entries.now) }
{
    entries
        .binary_search_by(|entry| compare_terms(&entry.term, term))
        .ok()
}

/// Whether it is certain that the term doesn't stand before this place: the entry there comes before it.
fn is_behind(entries: &[TermPostings], place: usize, term: &Term) -> bool
    ensures within { IsTrue result → place ≤ length entries.now }
    ensures behind { IsTrue result → IsPostings entries.now
        → StandsNotBefore entries.now term.now place }
{
    match place.checked_sub(1) {
        Some(last) if last < entries.len() => compare_terms(&entries[last].term, term).is_lt(),
        _ => false,
    }
}

/// Where a term may stand among the entries: not before the first place, and before the second. The
/// search begins at `place` and goes on in steps that double.
fn window(entries: &[TermPostings], term: &Term, place: usize) -> (usize, usize)
    ensures order { result.0 ≤ result.1 }
    ensures within { result.1 ≤ length entries.now }
    ensures stands { IsPostings entries.now → StandsWithin entries.now term.now result.0 result.1 }
{
    let start = if is_behind(entries, place, term) {
        place
    } else {
        0
    };
    let mut low = start;
    let mut at = start;
    while at < entries.len() {
        match compare_terms(&entries[at].term, term) {
            Ordering::Less => {
                low = at + 1;
                at = low.saturating_add(low - start);
            }
            Ordering::Equal => return (at, at + 1),
            Ordering::Greater => return (low, at),
        }
    }
    (low, entries.len())
}

/// The place of a term's postings, as `find_term` returns it. The search begins at `place`, which is
/// moved behind the term's postings, or to where the search for the term ended.
pub fn find_from(entries: &[TermPostings], term: &Term, place: &mut usize) -> Option<usize>
    ensures found { IfSome result (IsTermAt entries.now term.now) }
    ensures none { IfNone result (IsPostings entries.now
        → All (λ entry. entry.term ≢ term.now) entries.now) }
{
    let (from, to) = window(entries, term, *place);
    match find_term(&entries[from..to], term) {
        Some(i) => {
            *place = from + i + 1;
            Some(from + i)
        }
        None => {
            *place = from;
            None
        }
    }
}
