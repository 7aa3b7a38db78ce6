//! Numbers that the rows of a segment were stored with, by name.
ghost use Rattle.std.specs.Prelude.{◌≡◌, ◌<◌, ◌^◌, ℕ, List as ListOf, Some, IfOk, length, filter, IsSortedByKey};
ghost use Rattle.std.specs.Ordering.{int_cmp};
ghost use Rattle.ix_base.specs.Matches.{is_within};
ghost use Rattle.ix_base.specs.Inversion.{has_number};
ghost use Rattle.ix_base.specs.declared.document.Row.{Row};
ghost use Rattle.segment_core.specs.Columns.{numbers_of, within_from, IsColumnOf};

use ix_base::{List, Name, NoMemory, Row};
use live_docs::value_in;
use std::alloc::Global;

/// The number that a row was stored with.
#[derive(Drop)]
pub(crate) struct Entry {
    number: i64,
    row: u32,
}

/// The rows of a segment that were stored with a number of one name, in the order of their numbers.
#[derive(Drop)]
pub(crate) struct Column {
    pub(crate) name: Name,
    entries: List<Entry>,
}

/// Those of the entries, which rise by their numbers, whose number is from the lower bound to the
/// upper one. Found by halving.
fn entries_within<'a>(entries: &'a [Entry], low: &i64, high: &i64) -> &'a [Entry]
    ensures { IsSortedByKey (λ (e : Entry). e.number) int_cmp entries.now
        → result.now ≡ filter (λ (e : Entry). is_within low.now high.now (Some e.number)) entries.now }
{
    let start = entries.partition_point(|entry| entry.number < *low);
    let rest = &entries[start..];
    let end = rest.partition_point(|entry| entry.number <= *high);
    &rest[..end]
}

impl Column {
    /// The numbers of this name that the rows were stored with.
    pub(crate) fn of(alloc: Global, rows: &[Row], name: &Name) -> Result<Column, NoMemory>
        ensures name { IfOk result (λ column. column.name ≡ name.now) }
        ensures numbers { IfOk result (IsColumnOf rows.now) }
    {
        let mut entries = Vec::new(alloc);
        for row in 0..rows.len().min(u32::MAX as usize) as u32 {
            let stored = &rows[row as usize];
            if let Some(number) = value_in(stored.doc.num.as_slice(), name) {
                entries.push(Entry { number, row })?;
            }
        }
        entries.sort_unstable_by_key(|entry| entry.number);
        Ok(Column {
            name: name.clone_in(alloc)?,
            entries: List::from_vec(entries),
        })
    }

    /// The rows that were stored with a number from the lower bound to the upper one, in the order of
    /// these numbers. It looks at no other entries than those, but for some that halving meets.
    pub(crate) fn rows_within(
        &self,
        alloc: Global,
        low: &i64,
        high: &i64,
    ) -> Result<Vec<u32>, NoMemory>
        ensures { (stored : ListOf Row) → IsColumnOf stored self.now → length stored < 2 ^ 32
            → IfOk result (λ rows. (row : ℕ) → has_number rows.items row
            ≡ has_number (within_from 0 low.now high.now (numbers_of self.now.name stored)) row) }
    {
        let mut rows = Vec::new(alloc);
        for entry in entries_within(self.entries.as_slice(), low, high) {
            rows.push(entry.row)?;
        }
        Ok(rows)
    }
}
