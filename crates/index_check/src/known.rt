//! What a check keeps of the segments that it has read.
ghost use Rattle.std.specs.Prelude.{◌≡◌, ◌≢◌, ◌<◌, ◌^◌, ◌==◌, ℕ, length, None, Some, Contains, IfOk, IsTrue, OnOk, if◌then◌else◌};
ghost use Rattle.std.specs.BTreeMap.{get};
ghost use Rattle.std.specs.Ordering.{nat_cmp};
ghost use Rattle.commit_point.specs.declared.heads.HeadSegment.{HeadSegment};
ghost use Rattle.index_check.specs.Known.{Takes, count_of, owner_of};

use commit_point::HeadSegment;
use ix_base::{NoMemory, Row};
use std::alloc::Global;
use std::collections::BTreeMap;

/// What is known of the segments that were read, of those that the last commit lists.
#[derive(Drop)]
pub struct Known {
    /// How many rows each of them has, by its id.
    pub row_counts: BTreeMap<u64, u32>,
    /// The segment that has the rows of an operation, by the operation's number. What stands here
    /// of a segment without a count says nothing.
    pub owners: BTreeMap<u64, u64>,
}

impl Known {
    /// Nothing is known. It takes no memory.
    pub fn new(alloc: Global) -> Known
        ensures { (id : ℕ) → count_of result id ≡ None }
    {
        Known {
            row_counts: BTreeMap::new(alloc),
            owners: BTreeMap::new(alloc),
        }
    }

    /// Whether the segment was read, and has as many rows as the entry says.
    pub fn has(&self, entry: HeadSegment) -> bool
        ensures { IsTrue result → count_of self.now entry.id ≡ Some entry.rows }
    {
        match self.row_counts.get(&entry.id) {
            Some(rows) => *rows == entry.rows,
            None => false,
        }
    }

    /// Forgets the segments that none of these entries names. After an error all is as before.
    pub fn keep(&mut self, alloc: Global, entries: &[HeadSegment]) -> Result<(), NoMemory>
        ensures known { (id rows : ℕ) → count_of self.new id ≡ Some rows
            → count_of self.old id ≡ Some rows }
        ensures owners { self.new.owners ≡ self.old.owners }
        ensures entries { OnOk result ((entry : HeadSegment) → Contains entries.now entry
            → count_of self.new entry.id ≡ count_of self.old entry.id) }
    {
        self.row_counts = kept_counts(alloc, &self.row_counts, entries)?;
        Ok(())
    }

    /// Takes note of a segment of this id with these rows. It returns `false` where the operation of a
    /// row belongs to another segment that is known. What is known after that, or after an error, is
    /// not told.
    pub fn take(&mut self, id: u64, rows: &[Row]) -> Result<bool, NoMemory>
        requires { length rows.now < 2 ^ 32 }
        ensures { IfOk result (λ taken. IsTrue taken → Takes id rows.now self.old self.new) }
    {
        for row in rows {
            if !self.own(id, row.birth.number())? {
                return Ok(false);
            }
        }
        self.row_counts.insert(id, rows.len() as u32)?;
        Ok(true)
    }

    /// Gives the operation of this number to the segment of this id. It returns `false` where the
    /// operation belongs to another segment that is known.
    fn own(&mut self, id: u64, number: u64) -> Result<bool, NoMemory>
        ensures counts { self.new.row_counts ≡ self.old.row_counts }
        ensures owner { IfOk result (λ free. (other : ℕ) → owner_of self.new other
            ≡ (if number == other then Some id else owner_of self.old other)) }
        ensures free { IfOk result (λ free. IsTrue free → (other : ℕ)
            → owner_of self.old number ≡ Some other → id ≢ other
            → count_of self.old other ≡ None) }
    {
        match self.owners.insert(number, id)? {
            Some(other) => Ok(other == id || !self.row_counts.contains_key(&other)),
            None => Ok(true),
        }
    }
}

/// The counts of those segments that these entries name.
fn kept_counts(
    alloc: Global,
    counts: &BTreeMap<u64, u32>,
    entries: &[HeadSegment],
) -> Result<BTreeMap<u64, u32>, NoMemory>
    ensures known { IfOk result (λ kept. (id rows : ℕ) → get nat_cmp kept id ≡ Some rows
        → get nat_cmp counts.now id ≡ Some rows) }
    ensures entries { IfOk result (λ kept. (entry : HeadSegment) → Contains entries.now entry
        → get nat_cmp kept entry.id ≡ get nat_cmp counts.now entry.id) }
{
    let mut kept = BTreeMap::new(alloc);
    for entry in entries {
        if let Some(rows) = counts.get(&entry.id) {
            kept.insert(entry.id, *rows)?;
        }
    }
    Ok(kept)
}
