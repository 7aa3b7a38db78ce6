//! The columns of a segment's numbers that were asked for.
ghost use Rattle.std.specs.Prelude.{◌≡◌, List as ListOf, IfSome};
ghost use Rattle.ix_base.specs.declared.document.Row.{Row};
ghost use Rattle.segment_core.specs.Columns.{IsColumnOf, AreColumnsOf};

use crate::column::Column;
use ix_base::{List, Name, NoMemory, Queries, Query, Row};
use std::alloc::Global;

/// What the rows of one segment were stored with as numbers, by those names that were asked for. It
/// is made once for many ranges: a range then looks at no rows but those that it finds.
#[derive(Drop)]
pub struct Columns {
    list: List<Column>,
}

impl Columns {
    /// No columns. It takes no memory.
    pub fn new(alloc: Global) -> Columns
        ensures { (rows : ListOf Row) → AreColumnsOf rows result }
    {
        Columns {
            list: List::new(alloc),
        }
    }

    /// The column of this name, if it is there.
    pub(crate) fn of_name(&self, name: &Name) -> Option<&Column>
        ensures name { IfSome result (λ column. column.now.name ≡ name.now) }
        ensures numbers { (rows : ListOf Row) → AreColumnsOf rows self.now
            → IfSome result (λ column. IsColumnOf rows column.now) }
    {
        for column in self.list.as_slice() {
            if column.name.as_str() == name.as_str() {
                return Some(column);
            }
        }
        None
    }

    /// Adds the column of this name, unless it is there.
    fn add(&mut self, alloc: Global, rows: &[Row], name: &Name) -> Result<(), NoMemory>
        requires { AreColumnsOf rows.now self.old }
        ensures { AreColumnsOf rows.now self.new }
    {
        if self.of_name(name).is_some() {
            return Ok(());
        }
        self.list.push(Column::of(alloc, rows, name)?)
    }

    /// Adds a column for each name of which the query has a range. After an error those that are there
    /// are right.
    #[cycle(prepare)]
    pub fn prepare(&mut self, alloc: Global, rows: &[Row], query: &Query) -> Result<(), NoMemory>
        requires { AreColumnsOf rows.now self.old }
        ensures { AreColumnsOf rows.now self.new }
    {
        match query {
            Query::All | Query::Term(_) | Query::Phrase(_, _) => Ok(()),
            Query::Range(name, _, _) => self.add(alloc, rows, name),
            Query::Bool {
                must,
                should,
                must_not,
            } => {
                self.prepare_all(alloc, rows, must)?;
                self.prepare_all(alloc, rows, should)?;
                self.prepare_all(alloc, rows, must_not)
            }
        }
    }

    /// The same for each of the queries.
    #[cycle(prepare)]
    fn prepare_all(
        &mut self,
        alloc: Global,
        rows: &[Row],
        queries: &Queries,
    ) -> Result<(), NoMemory>
        requires { AreColumnsOf rows.now self.old }
        ensures { AreColumnsOf rows.now self.new }
    {
        for query in queries.as_slice() {
            self.prepare(alloc, rows, query)?;
        }
        Ok(())
    }
}
