//! Live bits and set values of the rows of a segment.
ghost use Rattle.std.specs.Prelude.{◌≡◌, ◌+◌, ◌<◌, ◌^◌, ◌++◌, [], ◌∷◌, true, length, map, replicate, IfOk, OnOk, OnErr, slice_index_or};
ghost use Rattle.ix_base.specs.Limits.{names_rise};
ghost use Rattle.live_docs.specs.Marks.{fresh, mark_with, killed, valued, changed_at, count_live, value_of, numbered_rows, same_marks};

use crate::row_numbers::place_of;
use crate::shared_numbers::SharedNumbers;
use ix_base::{Name, NoMemory, Numbers};
use std::alloc::Global;
use std::marker::Model;
use std::mem;

/// Whether a row is live, and the numbers that were set in it, by name.
#[derive(Drop)]
pub struct Mark {
    pub live: bool,
    pub values: Numbers,
}

/// Of each row of a segment, whether it is live, and the numbers that were set in it. Rows are
/// named by their places in the segment, from 0. `applied` is the number up to which operations are
/// in it: a later operation isn't. A row in which no number was set takes a byte. Copies share the
/// numbers that were set until one of them is changed.
#[derive(Drop)]
pub struct LiveDocs {
    applied: u64,
    live: u32,
    flags: Vec<bool>,
    numbers: SharedNumbers,
}

impl Model for LiveDocs {
    ghost use Rattle.live_docs.specs.Marks.{Marks};
    ghost use Rattle.live_docs.specs.Flags.{values_at, marks_from, IsFlagged};

    ghost Value = { Marks };

    ghost view = { λ docs. record {
      applied = docs.applied;
      marks = marks_from (values_at docs.numbers) 0 docs.flags.items;
    } };

    ghost invariant = { λ docs. IsFlagged docs.live docs.flags.items docs.numbers };
}

impl LiveDocs {
    /// So many rows, which are all live and in which no number was set.
    pub fn new(alloc: Global, rows: u32, applied: u64) -> Result<LiveDocs, NoMemory>
        ensures { IfOk result (λ docs. docs
            ≡ record { applied = applied; marks = replicate rows fresh }) }
    {
        let numbers = SharedNumbers::none(alloc)?;
        let mut flags = Vec::new(alloc);
        flags.resize(rows as usize, true)?;
        Ok(LiveDocs {
            applied,
            live: rows,
            flags,
            numbers,
        })
    }

    /// Rows with these marks.
    pub fn from_marks(alloc: Global, applied: u64, marks: Vec<Mark>) -> Result<LiveDocs, NoMemory>
        requires { length marks.items < 2 ^ 32 }
        ensures { IfOk result (λ docs. docs ≡ record { applied = applied; marks = marks.items }) }
    {
        let mut docs = LiveDocs::new(alloc, 0, applied)?;
        for mark in marks {
            docs.push(alloc, mark.live, mark.values.as_slice())?;
        }
        Ok(docs)
    }

    /// Adds a row behind all others: whether it is live, and a copy of the numbers that were set in
    /// it. After an error all is as before.
    pub fn push(
        &mut self,
        alloc: Global,
        live: bool,
        values: &[(Name, i64)],
    ) -> Result<(), NoMemory>
        requires room { length self.old.marks + 1 < 2 ^ 32 }
        requires rise { names_rise (map (λ number. number.0) values.now) ≡ true }
        ensures ok { let marks = self.old.marks ++ mark_with live values.now ∷ [] in
            OnOk result (self.new ≡ record self.old { marks = marks }) }
        ensures err { OnErr result (self.new ≡ self.old) }
    {
        self.flags.reserve(1)?;
        let row = self.flags.len() as u32;
        self.numbers.put(alloc, row, values)?;
        self.flags.push(live)?;
        self.live += u32::from(live);
        Ok(())
    }

    /// A copy of these. It takes a byte for each row: the numbers that were set are shared with it,
    /// and are copied once a number is set in one of both.
    pub fn clone_in(&self, alloc: Global) -> Result<LiveDocs, NoMemory>
        ensures { IfOk result (λ docs. docs ≡ self.now) }
    {
        Ok(LiveDocs {
            applied: self.applied,
            live: self.live,
            flags: Vec::from_slice(alloc, &self.flags)?,
            numbers: self.numbers.share()?,
        })
    }

    /// The number up to which operations are in these.
    pub fn applied(&self) -> u64
        ensures { result ≡ self.now.applied }
    {
        self.applied
    }

    /// Says that operations are in these up to this number. Rows and values stay.
    pub fn set_applied(&mut self, applied: u64)
        ensures { self.new ≡ record self.old { applied = applied } }
    {
        self.applied = applied;
    }

    /// Whether the row is live.
    pub fn is_live(&self, row: u32) -> bool
        requires { row < length self.now.marks }
        ensures { result ≡ (slice_index_or self.now.marks row fresh).live }
    {
        self.flags[row as usize]
    }

    /// How many rows are live.
    pub fn live_count(&self) -> u32
        ensures { result ≡ count_live self.now.marks }
    {
        self.live
    }

    /// The numbers that were set in the row, by name: of each name the one set last. A row that is
    /// no longer live keeps its own. It takes no memory.
    pub fn values(&self, row: u32) -> &[(Name, i64)]
        requires { row < length self.now.marks }
        ensures values { result.now ≡ (slice_index_or self.now.marks row fresh).values }
        ensures rise { names_rise (map (λ number. number.0) result.now) ≡ true }
    {
        self.numbers.at(row)
    }

    /// The number by this name that was set in the row last: `None` exactly where none was, or where
    /// there is no such row.
    pub fn value(&self, row: u32, name: &Name) -> Option<i64>
        ensures { result ≡ value_of name.now (slice_index_or self.now.marks row fresh).values }
    {
        if (row as usize) < self.flags.len() {
            value_in(self.values(row), name)
        } else {
            None
        }
    }

    /// The rows in which numbers were set, in order. It takes time and memory as there are such
    /// rows.
    pub fn numbered_rows(&self, alloc: Global) -> Result<Vec<u32>, NoMemory>
        ensures { IfOk result (λ rows. rows.items ≡ numbered_rows self.now.marks) }
    {
        self.numbers.rows(alloc)
    }

    /// Whether the same rows are live, with the same numbers set. It doesn't compare up to which
    /// numbers operations are in them.
    pub fn same_marks(&self, other: &LiveDocs) -> bool
        ensures { result ≡ same_marks self.now.marks other.now.marks }
    {
        self.flags == other.flags && self.numbers.is_same(&other.numbers)
    }

    /// The row is no longer live. Its values, and all other rows, stay.
    pub fn kill(&mut self, row: u32)
        requires { row < length self.old.marks }
        ensures killed { self.new
            ≡ record self.old { marks = changed_at killed row self.old.marks } }
        ensures rows { length self.new.marks ≡ length self.old.marks }
    {
        let was_live = mem::replace(&mut self.flags[row as usize], false);
        self.live -= u32::from(was_live);
    }

    /// Sets a number of the row, in place of the one by this name where there is one. All else
    /// stays; after an error all is as before.
    pub fn set_value(
        &mut self,
        alloc: Global,
        row: u32,
        name: &Name,
        value: i64,
    ) -> Result<(), NoMemory>
        requires { row < length self.old.marks }
        ensures ok { let marks = changed_at (valued name.now value) row self.old.marks in
            OnOk result (self.new ≡ record self.old { marks = marks }) }
        ensures rows { OnOk result (length self.new.marks ≡ length self.old.marks) }
        ensures err { OnErr result (self.new ≡ self.old) }
    {
        self.numbers.set(alloc, row, name, value)
    }
}

/// The number by this name among numbers whose names rise, if there is one. It takes time as the
/// logarithm of how many there are.
pub fn value_in(values: &[(Name, i64)], name: &Name) -> Option<i64>
    requires { names_rise (map (λ number. number.0) values.now) ≡ true }
    ensures { result ≡ value_of name.now values.now }
{
    match place_of(values, name) {
        Ok(place) => Some(values[place].1),
        Err(_) => None,
    }
}
