//! Rows as they are now.
ghost use Rattle.std.specs.Prelude.{◌≡◌, ◌<◌, ◌^◌, ◌||◌, ℕ, List, length, IfOk, IfSome};
ghost use Rattle.ix_base.specs.Inversion.{has_number};
ghost use Rattle.live_docs.specs.Marks.{numbered_rows};
ghost use Rattle.query_core.specs.Answers.{IsRising};
ghost use Rattle.ix_base.specs.declared.document.Row.{Row};
ghost use Rattle.segment_core.specs.Columns.{numbers_of, within_from, IsColumnOf, AreColumnsOf};

use crate::column::Column;
use crate::columns::Columns;
use crate::segment::own_number;
use ix_base::{Name, NoMemory, Row, Term};
use live_docs::{LiveDocs, set_numbers_are_a_map};
use query_core::{Inverted, distinct};
use std::alloc::Global;

/// Of how many rows one at most may have set numbers, for the candidates of a range to be told.
const ROWS_FOR_EACH_SET: usize = 8;

/// An index of rows, with the numbers that were set in these: an index of the rows' documents as
/// they are now, dead rows too. Where there are columns of the rows' own numbers, a range is answered
/// from these and the rows in which numbers were set.
#[derive(Drop)]
pub struct Current<'a, I: Inverted> {
    pub index: &'a I,
    pub rows: &'a [Row],
    pub live: &'a LiveDocs,
    pub columns: Option<&'a Columns>,
}

/// The column of this name, if it is among those that there are.
fn column_of<'a>(columns: Option<&'a Columns>, name: &Name) -> Option<&'a Column>
    ensures name { IfSome result (λ column. column.now.name ≡ name.now) }
    ensures numbers { (rows : List Row) → IfSome columns.entry (λ c. AreColumnsOf rows c.now)
        → IfSome result (λ column. IsColumnOf rows column.now) }
{
    match columns {
        Some(columns) => columns.of_name(name),
        None => None,
    }
}

/// The rows of which the column tells that they may be in the bounds, and those in which some number
/// was set. `None` where these are too many.
fn candidates_of(
    alloc: Global,
    column: &Column,
    rows: u32,
    live: &LiveDocs,
    low: &i64,
    high: &i64,
) -> Result<Option<Vec<u32>>, NoMemory>
    ensures rise { IfOk result (λ found. IfSome found (λ found. IsRising found.items)) }
    ensures all { (stored : List Row) → IsColumnOf stored column.now → length stored < 2 ^ 32
        → IfOk result (λ found. IfSome found (λ found. (row : ℕ) → has_number found.items row
        ≡ (has_number (within_from 0 low.now high.now (numbers_of column.now.name stored)) row
        || has_number (numbered_rows live.now.marks) row))) }
{
    let set = live.numbered_rows(alloc)?;
    if set.len() > rows as usize / ROWS_FOR_EACH_SET {
        return Ok(None);
    }
    let mut found = column.rows_within(alloc, low, high)?;
    found.extend_from_slice(set.as_slice())?;
    Ok(Some(distinct(found)?))
}

impl<'a, I: Inverted> Inverted for Current<'a, I> {
    ghost use Rattle.std.specs.Prelude.{◌≡◌, length, IfSome};
    ghost use Rattle.segment_core.specs.Columns.{AreColumnsOf};
    ghost use Rattle.segment_core.specs.Segments.{documents};
    ghost use Rattle.segment_core.specs.Marking.{documents_now};

    ghost inverts = { λ current docs. I.inverts current.index.now (documents current.rows.now)
        × (length current.live.now.marks ≡ length current.rows.now)
        × (docs ≡ documents_now current.rows.now current.live.now.marks)
        × IfSome current.columns (λ c. AreColumnsOf current.rows.now c.now) };

    fn rows(&self) -> u32 {
        self.index.rows()
    }

    fn holding(&self, alloc: Global, term: &Term) -> Result<Vec<u32>, NoMemory> {
        self.index.holding(alloc, term)
    }

    fn holding_from(
        &self,
        alloc: Global,
        term: &Term,
        place: &mut usize,
    ) -> Result<Vec<u32>, NoMemory> {
        self.index.holding_from(alloc, term, place)
    }

    fn places(&self, alloc: Global, term: &Term, row: u32) -> Result<Vec<u32>, NoMemory> {
        self.index.places(alloc, term, row)
    }

    /// The number that was set in the row last, else the one that it was stored with.
    fn number(&self, row: u32, name: &Name) -> Option<i64> {
        set_numbers_are_a_map();
        let set = self.live.value(row, name);
        if set.is_some() {
            return set;
        }
        own_number(self.rows, row, name)
    }

    fn candidates(
        &self,
        alloc: Global,
        name: &Name,
        low: &i64,
        high: &i64,
    ) -> Result<Option<Vec<u32>>, NoMemory> {
        set_numbers_are_a_map();
        match column_of(self.columns, name) {
            Some(column) => candidates_of(alloc, column, self.rows(), self.live, low, high),
            None => Ok(None),
        }
    }
}
