//! Inverted indexes.
ghost use Rattle.std.specs.Prelude.{◌≡◌, List, length, IfOk, IfSome};
ghost use Rattle.ix_base.specs.Matches.{matches, holds_term};
ghost use Rattle.ix_base.specs.Tree.{range};
ghost use Rattle.ix_base.specs.Documents.{Document};
ghost use Rattle.query_core.specs.Answers.{AreRowsWhere, ArePositions, AreCandidates, number_at};

use ix_base::{Name, NoMemory, Term};
use std::alloc::Global;

/// An inverted index of some documents: row i is the i-th.
pub trait Inverted {
    ghost inverts: { Self → List Document → Type 0 };

    /// How many rows there are.
    fn rows(&self) -> u32
        ensures { (docs : List Document) → inverts self.now docs → result ≡ length docs };

    /// The rows that hold the term, rising. It refuses for memory only.
    fn holding(&self, alloc: Global, term: &Term) -> Result<Vec<u32>, NoMemory>
        ensures { IfOk result (λ rows. AreRowsWhere (inverts self.now)
            (holds_term term.now.field term.now.bytes) rows.items) };

    /// The same as `holding`, with the search for the term begun at a place of the index, which is
    /// moved to the term's: of terms that are asked for in their order, by field and then by bytes,
    /// each is found near the one before. Any place is right.
    fn holding_from(
        &self,
        alloc: Global,
        term: &Term,
        place: &mut usize,
    ) -> Result<Vec<u32>, NoMemory>
        ensures { IfOk result (λ rows. AreRowsWhere (inverts self.now)
            (holds_term term.now.field term.now.bytes) rows.items) };

    /// The positions of the term in the row, rising: none where there is no such row. It refuses
    /// for memory only.
    fn places(&self, alloc: Global, term: &Term, row: u32) -> Result<Vec<u32>, NoMemory>
        ensures { IfOk result (λ places. (docs : List Document) → inverts self.now docs
            → ArePositions docs term.now row places.items) };

    /// The number by this name that the row's document has: `None` where it has none, or there is no
    /// such row. It takes no memory.
    fn number(&self, row: u32, name: &Name) -> Option<i64>
        ensures { (docs : List Document) → inverts self.now docs
            → result ≡ number_at docs row name.now };

    /// Rows, rising, among which all are that have a number of this name, from the lower bound to the
    /// upper one: `None` where only a look at each row tells. It refuses for memory only.
    fn candidates(
        &self,
        alloc: Global,
        name: &Name,
        low: &i64,
        high: &i64,
    ) -> Result<Option<Vec<u32>>, NoMemory>
        ensures { IfOk result (λ rows. IfSome rows (λ found. AreCandidates (inverts self.now)
            (matches (range name.now low.now high.now)) found.items)) };
}
