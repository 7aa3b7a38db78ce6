//! The buffer: documents staged, and the places of their terms.
ghost use Rattle.std.specs.Prelude.{◌≡◌, ◌+◌, ◌<◌, ◌≤◌, ◌∷◌, ◌++◌, [], None, All, length, map, drop, IfOk, OnOk, OnErr};
ghost use Rattle.ix_base.specs.Births.{first_birth};
ghost use Rattle.ix_base.specs.Inversion.{IsInversion};
ghost use Rattle.ram_postings.specs.Buffer.{waiting, born_rows, with_births};

use crate::entry::{Entry, give_births};
use crate::freezing::{Frozen, postings_of};
use crate::numbers::moved_rows;
use crate::placing::place_terms;
use analysis::TermKey;
use indexmap::IndexMap;
use ix_base::{Analysed, NoMemory, Spots};
use std::alloc::Global;
use std::marker::Model;
use std::mem;

/// The place of a document in its buffer, from 0.
#[derive(Clone, Copy, Debug, PartialEq, Eq)]
pub struct RowId(pub u32);

/// Documents that were staged, with the places of their terms. Contracts see it as the list of
/// these documents, each with its birth where it has one.
///
/// Each attempt to stage takes a mark of its own. So where memory runs out nothing has to be undone:
/// what such an attempt left in the lists has a mark that no document has.
#[derive(Drop)]
pub struct RamPostings {
    alloc: Global,
    staged: Vec<Entry>,
    next_mark: u32,
    lists: IndexMap<TermKey, Spots>,
}

impl Model for RamPostings {
    ghost use Rattle.std.specs.Prelude.{List, map};
    ghost use Rattle.ram_postings.specs.Buffer.{Staged};
    ghost use Rattle.ram_postings.specs.Kept.{staged_of, IsBuffer};

    ghost Value = { List Staged };

    ghost view = { λ buffer. map staged_of buffer.staged.items };

    ghost invariant = { λ buffer. IsBuffer buffer.staged.items buffer.next_mark buffer.lists.entries };
}

impl RamPostings {
    /// A buffer with no document. It takes no memory.
    pub fn new(alloc: Global) -> RamPostings
        ensures { result ≡ [] }
    {
        RamPostings {
            alloc,
            staged: Vec::new(alloc),
            next_mark: 0,
            lists: IndexMap::new(alloc),
        }
    }

    /// Stages a document, which then waits for its birth, and returns its place. Where memory runs
    /// out the documents are as before; a buffer takes 2^32 - 1 attempts at most, and then says so
    /// too.
    pub fn stage(&mut self, analysed: Analysed) -> Result<RowId, NoMemory>
        requires inversion { IsInversion (analysed.doc ∷ []) analysed.postings }
        requires room { length self.old < 2147483647 }
        ensures place { IfOk result (λ id. id.0 ≡ length self.old) }
        ensures ok { OnOk result (self.new ≡ self.old ++ waiting analysed.doc ∷ []) }
        ensures err { OnErr result (self.new ≡ self.old) }
    {
        let mark = self.next_mark;
        if mark == u32::MAX {
            return Err(NoMemory);
        }
        let Analysed { doc, postings } = analysed;
        let alloc = self.alloc;
        self.next_mark = mark + 1;
        place_terms(alloc, &mut self.lists, mark, postings)?;
        let place = self.staged.len() as u32;
        self.staged.push(Entry {
            doc,
            birth: None,
            mark,
        })?;
        Ok(RowId(place))
    }

    /// Gives neighbouring documents their births: `count` of them, 1 to 64, from the place `first` on,
    /// which all wait, as all behind them do. In their order they become the documents of the operation
    /// of this number. It takes no memory.
    pub fn born_block(&mut self, first: RowId, count: u32, number: u64)
        requires place { first.0 + count ≤ length self.old }
        requires count { (1 ≤ count) × (count ≤ 64) }
        requires waiting { All (λ staged. staged.birth ≡ None) (drop first.0 self.old) }
        requires positive { 1 ≤ number }
        requires above { All (λ row. row.birth < first_birth number) (born_rows self.old) }
        ensures { self.new ≡ with_births self.old first.0 count (first_birth number) }
    {
        give_births(self.staged.as_mut_slice(), first.0, count, number);
    }

    /// How many documents were staged, void ones among them.
    pub fn rows(&self) -> u32
        ensures { result ≡ length self.now }
    {
        self.staged.len() as u32
    }

    /// Takes out the rows of the documents that were born, and the inversion of them. The
    /// documents are moved, and the buffer then has none. The only error is out of memory: the buffer
    /// is as before.
    pub fn take_frozen(&mut self) -> Result<Frozen, NoMemory>
        ensures rows { IfOk result (λ frozen. frozen.rows.items ≡ born_rows self.old) }
        ensures inversion { IfOk result (λ frozen.
            IsInversion (map (λ row. row.doc) (born_rows self.old)) frozen.postings) }
        ensures ok { OnOk result (self.new ≡ []) }
        ensures err { OnErr result (self.new ≡ self.old) }
    {
        let alloc = self.alloc;
        let postings = postings_of(alloc, self.staged.as_slice(), self.next_mark, &self.lists)?;
        let rows = Vec::with_capacity(alloc, self.staged.len())?;
        let taken = mem::replace(self, RamPostings::new(alloc));
        let rows = moved_rows(rows, taken.staged);
        Ok(Frozen { rows, postings })
    }
}
