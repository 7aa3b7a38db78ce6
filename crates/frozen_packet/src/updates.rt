//! Coalesced updates.
ghost use Rattle.std.specs.Prelude.{◌≡◌, ◌↔◌, [], IsTrue, OnOk, OnErr};
ghost use Rattle.node_words.specs.declared.entry.Entry.TheVariants.{DeleteQuery};
ghost use Rattle.row_fates.specs.Fate.{SameFates};
ghost use Rattle.frozen_packet.specs.Updates.{as_operations, KeepsBounds, NumberedUpTo, Takes};
ghost use Rattle.frozen_packet.specs.Gathered.{KeepsNumbers};

use crate::deleted_terms::DeletedTerms;
use crate::gathering::{replaced, without_marked};
use ix_base::{List, Name, NoMemory, Query, Term};
use node_words::Entry;
use row_fates::fates_are_told;
use std::alloc::Global;
use std::mem;

/// A delete of the documents that match a query, with its operation's number.
#[derive(Drop)]
pub struct QueryDelete {
    pub number: u64,
    pub query: Query,
}

/// A number set in the documents that hold a term: `num` gets this value. `number` is that of the
/// operation.
#[derive(Drop)]
pub struct Setting {
    pub number: u64,
    pub term: Term,
    pub num: Name,
    pub value: i64,
}

/// A setting, or a delete by a query in which a range stands: what it matches depends on the
/// settings before it.
#[derive(Drop)]
pub enum Change {
    Set(Setting),
    Delete(QueryDelete),
}

/// What entries do to the rows that stand when they come: of each term its last delete; the deletes
/// by a query without a range, each with its number; and in one list, in the order in which they
/// came, the settings and the deletes by a query with a range. An update counts as a delete by its
/// term. The documents that entries add are not in them. A delete or setting acts only on rows that
/// were born before it.
#[derive(Drop)]
pub struct Updates {
    deletes: DeletedTerms,
    queries: List<QueryDelete>,
    changes: List<Change>,
}

impl Updates {
    /// No updates. It takes no memory.
    pub fn new(alloc: Global) -> Updates
        ensures { as_operations result ≡ [] }
    {
        Updates {
            deletes: DeletedTerms::new(alloc),
            queries: List::new(alloc),
            changes: List::new(alloc),
        }
    }

    /// Whether there is no delete and no setting. It takes no memory.
    pub fn is_empty(&self) -> bool
        ensures { IsTrue result ↔ (as_operations self.now ≡ []) }
    {
        self.deletes.is_empty() && self.queries.len() == 0 && self.changes.len() == 0
    }

    /// The deletes by term, of each term the last one.
    pub fn deletes(&self) -> &DeletedTerms
        ensures { result.now ≡ self.now.deletes }
    {
        &self.deletes
    }

    /// The deletes by a query without a range, in the order in which they came.
    pub fn queries(&self) -> &[QueryDelete]
        ensures { result.now ≡ self.now.queries }
    {
        self.queries.as_slice()
    }

    /// The settings and the deletes by a query with a range, in the order in which they came.
    pub fn changes(&self) -> &[Change]
        ensures { result.now ≡ self.now.changes }
    {
        self.changes.as_slice()
    }

    /// Takes one more entry, whose number is not below those taken before. The updates then make of
    /// every row what they made of it before, and then what the entry makes of it. Adds, commits and
    /// turns change nothing. After an error all is as before.
    pub fn take(&mut self, number: u64, entry: Entry) -> Result<(), NoMemory>
        requires { NumberedUpTo number (as_operations self.old) }
        ensures takes { OnOk result (Takes self.old number entry self.new) }
        ensures bounds { OnOk result (KeepsBounds self.old number self.new) }
        ensures upto { OnOk result (NumberedUpTo number (as_operations self.new)) }
        ensures err { OnErr result (self.new ≡ self.old) }
    {
        match entry {
            Entry::Add | Entry::Commit | Entry::Turn => Ok(()),
            Entry::Update(term) | Entry::DeleteTerm(term) => self.deletes.put(term, number),
            Entry::DeleteQuery(query) => self.take_query(number, query),
            Entry::SetNumber { term, num, value } => self.changes.push(Change::Set(Setting {
                number,
                term,
                num,
                value,
            })),
        }
    }

    /// Takes a delete by query. One in which a range stands keeps its place among the settings.
    fn take_query(&mut self, number: u64, query: Query) -> Result<(), NoMemory>
        requires { NumberedUpTo number (as_operations self.old) }
        ensures takes { OnOk result (Takes self.old number (DeleteQuery query) self.new) }
        ensures bounds { OnOk result (KeepsBounds self.old number self.new) }
        ensures upto { OnOk result (NumberedUpTo number (as_operations self.new)) }
        ensures err { OnErr result (self.new ≡ self.old) }
    {
        let delete = QueryDelete { number, query };
        if delete.query.has_range() {
            return self.changes.push(Change::Delete(delete));
        }
        self.queries.push(delete)
    }

    /// Of the settings of one name in the documents of one term, between which no delete by a query
    /// with a range came, keeps the last alone, which sets anew whatever the others set. So the
    /// updates make of every row what they made of it before. What it costs grows with the settings
    /// and those deletes. After an error all is as before.
    pub fn gather(&mut self, alloc: Global) -> Result<(), NoMemory>
        ensures same { OnOk result (SameFates (as_operations self.new) (as_operations self.old)) }
        ensures numbers { OnOk result (KeepsNumbers self.old self.new) }
        ensures err { OnErr result (self.new ≡ self.old) }
    {
        fates_are_told();
        let marks = replaced(alloc, self.changes.as_slice())?;
        let room = Vec::with_capacity(alloc, self.changes.len())?;
        let all = mem::replace(&mut self.changes, List::new(alloc));
        self.changes = List::from_vec(without_marked(room, all.into_vec(), &marks));
        Ok(())
    }
}
