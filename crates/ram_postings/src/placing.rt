//! The places of a document's terms, put into the lists of these terms.
ghost use Rattle.std.specs.Prelude.{◌≡◌, ◌<◌, ℕ, OnOk, true, AllPairs};
ghost use Rattle.std.specs.declared.cmp.Ordering.TheVariants.{Less};
ghost use Rattle.ix_base.specs.Inversion.{posted_at, term_cmp};
ghost use Rattle.ix_base.specs.declared.document.Term.{Term};
ghost use Rattle.ram_postings.specs.Kept.{kept, IsKeptBelow, SameButFor, HasUnder};

use crate::renumbering::put_renumbered;
use analysis::TermKey;
use indexmap::IndexMap;
use ix_base::{NoMemory, Postings, Spots, TermPostings};
use std::alloc::Global;

/// Puts the places of one term in row 0 into the term's list, under the mark.
fn place_term(
    alloc: Global,
    lists: &mut IndexMap<TermKey, Spots>,
    mark: u32,
    entry: TermPostings,
) -> Result<(), NoMemory>
    requires { (r x : ℕ) → kept lists.old.entries entry.term r x ≡ true → r < mark }
    ensures others { SameButFor mark lists.old.entries lists.new.entries }
    ensures other_terms { (t : Term) (x : ℕ) → (t ≡ entry.term → ⊥)
        → kept lists.new.entries t mark x ≡ kept lists.old.entries t mark x }
    ensures ok { OnOk result ((x : ℕ) → kept lists.new.entries entry.term mark x
        ≡ posted_at entry.rows 0 x) }
{
    let TermPostings { term, rows } = entry;
    let key = TermKey::new(term);
    let numbers = [Some(mark)];
    if let Some(list) = lists.get_mut(&key) {
        return put_renumbered(list, rows.as_slice(), &numbers);
    }
    let mut list = Spots::new(alloc);
    put_renumbered(&mut list, rows.as_slice(), &numbers)?;
    lists.insert(key, list)?;
    Ok(())
}

/// Puts the places of terms in row 0 into the lists of the terms, under a mark that is above all
/// that are there. After an error some of them may be there, under this mark alone.
pub fn place_terms(
    alloc: Global,
    lists: &mut IndexMap<TermKey, Spots>,
    mark: u32,
    postings: Postings,
) -> Result<(), NoMemory>
    requires below { IsKeptBelow mark lists.old.entries }
    requires rise { AllPairs (λ a b. term_cmp a.term b.term ≡ Less) postings.terms }
    ensures others { SameButFor mark lists.old.entries lists.new.entries }
    ensures ok { OnOk result (HasUnder mark postings.terms lists.new.entries) }
{
    for entry in postings.terms.into_vec() {
        place_term(alloc, lists, mark, entry)?;
    }
    Ok(())
}
