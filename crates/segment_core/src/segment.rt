//! A segment.
ghost use Rattle.std.specs.Prelude.{◌≡◌};
ghost use Rattle.query_core.specs.Answers.{number_at};
ghost use Rattle.segment_core.specs.Segments.{documents};

use ix_base::{List, Name, NoMemory, Postings, Row, Term};
use live_docs::value_in;
use query_core::{Inverted, holding_from_in, holding_in, places_in};
use std::alloc::Global;

/// The number by this name that a row was stored with: `None` where it has none, or there is no such
/// row.
pub(crate) fn own_number(rows: &[Row], row: u32, name: &Name) -> Option<i64>
    ensures { result ≡ number_at (documents rows.now) row name.now }
{
    match rows.get(row as usize) {
        Some(row) => value_in(row.doc.num.as_slice(), name),
        None => None,
    }
}

/// Rows that don't change, with their postings. Where these are the inversion of the rows, it is an
/// inverted index of the rows' documents.
#[derive(Drop)]
pub struct Segment {
    pub id: u64,
    /// By rising birth: by the number of the operation, and then by the place among its documents.
    pub rows: List<Row>,
    pub postings: Postings,
}

impl Inverted for Segment {
    ghost use Rattle.std.specs.Prelude.{◌≡◌, ◌<◌, ◌^◌, length};
    ghost use Rattle.ix_base.specs.Inversion.{IsInversion};
    ghost use Rattle.segment_core.specs.Segments.{documents};

    ghost inverts = { λ segment docs. (docs ≡ documents segment.rows)
        × (length segment.rows < 2 ^ 32) × IsInversion docs segment.postings };

    fn rows(&self) -> u32 {
        self.rows.len().min(u32::MAX as usize) as u32
    }

    fn holding(&self, alloc: Global, term: &Term) -> Result<Vec<u32>, NoMemory> {
        holding_in(alloc, &self.postings, term)
    }

    fn holding_from(
        &self,
        alloc: Global,
        term: &Term,
        place: &mut usize,
    ) -> Result<Vec<u32>, NoMemory> {
        holding_from_in(alloc, &self.postings, term, place)
    }

    fn places(&self, alloc: Global, term: &Term, row: u32) -> Result<Vec<u32>, NoMemory> {
        places_in(alloc, &self.postings, term, row)
    }

    fn number(&self, row: u32, name: &Name) -> Option<i64> {
        own_number(self.rows.as_slice(), row, name)
    }

    /// A segment itself tells none.
    fn candidates(
        &self,
        _alloc: Global,
        _name: &Name,
        _low: &i64,
        _high: &i64,
    ) -> Result<Option<Vec<u32>>, NoMemory> {
        Ok(None)
    }
}
