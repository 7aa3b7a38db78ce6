//! The places of one term, in one flat list.
ghost use Rattle.std.specs.Prelude.{◌≡◌, ◌<◌, ◌≤◌, ◌-◌, ◌↔◌, ◌++◌, ◌&&◌, ◌||◌, ◌==◌, ℕ, [], length, map, slice_get, All, Some, IsTrue, IfOk, OnOk, OnErr};
ghost use Rattle.ix_base.specs.Grouped.{with_spot, with_row, grouped, positions_at, positions_in, IsByRow, IsAfter, IsUpto, ArePostings, AreSpots};
ghost use Rattle.ix_base.specs.Posted.{posted_at};

use crate::memory::NoMemory;
use smallvec::SmallVec;
use std::alloc::Global;
use std::marker::Model;

/// A place of a term: a row, and a position in it.
#[derive(Clone, Copy, Default, Drop)]
pub struct Spot {
    pub row: u32,
    pub position: u32,
}

/// Places in a list. One or two take no memory of their own.
struct Places {
    list: SmallVec<Spot, 2>,
}

/// The places of one term, rising by row and then by position. Contracts see them as postings:
/// rows that rise, each with positions that rise. One or two places take no memory of their own.
#[derive(Drop)]
pub struct Spots {
    spots: Places,
}

impl Drop for Places {
    fn drop(self) {
        let Places { list: _list } = self;
    }
}

impl Model for Spots {
    ghost use Rattle.std.specs.Prelude.{List};
    ghost use Rattle.ix_base.specs.Grouped.{grouped, AreSpots};
    ghost use Rattle.ix_base.specs.declared.postings.Posting.{Posting};

    ghost Value = { List Posting };

    ghost view = { λ list. grouped list.spots.list.items };

    ghost invariant = { λ list. AreSpots list.spots.list.items };
}

/// Whether this row is the last one.
fn ends_in(rows: &[u32], row: u32) -> bool
    ensures { IsTrue result ↔ (slice_get rows.now (length rows.now - 1) ≡ Some row) }
{
    match rows.last() {
        Some(last) => *last == row,
        None => false,
    }
}

/// Whether this place is the last one.
fn ends_at(spots: &[Spot], row: u32, position: u32) -> bool
    ensures { IsTrue result ↔ (slice_get spots.now (length spots.now - 1)
        ≡ Some (record { row = row; position = position })) }
{
    match spots.last() {
        Some(last) => last.row == row && last.position == position,
        None => false,
    }
}

/// Adds a row that isn't below the last one, unless it is the last one.
fn add_row(rows: &mut Vec<u32>, row: u32) -> Result<(), NoMemory>
    ensures { OnOk result (rows.new.items ≡ with_row rows.old.items row) }
{
    if ends_in(rows.as_slice(), row) {
        return Ok(());
    }
    rows.push(row)?;
    Ok(())
}

/// The rows of these places, each once.
fn rows_of(alloc: Global, spots: &[Spot]) -> Result<Vec<u32>, NoMemory>
    ensures { IfOk result (λ rows. rows.items ≡ map (λ posting. posting.row) (grouped spots.now)) }
{
    let mut rows = Vec::new(alloc);
    for spot in spots {
        add_row(&mut rows, spot.row)?;
    }
    Ok(rows)
}

/// The places from this row on, found by halving.
fn from_row(spots: &[Spot], row: u32) -> &[Spot]
    requires { IsByRow spots.now }
    ensures same { positions_at row result.now ≡ positions_at row spots.now }
    ensures from { All (λ spot. row ≤ spot.row) result.now }
    ensures by_row { IsByRow result.now }
{
    let start = spots.partition_point(|spot| spot.row < row);
    &spots[start..]
}

/// Those of these places that are in this row, found by halving. None is of an earlier row.
fn in_row(spots: &[Spot], row: u32) -> &[Spot]
    requires by_row { IsByRow spots.now }
    requires from { All (λ spot. row ≤ spot.row) spots.now }
    ensures { map (λ spot. spot.position) result.now ≡ positions_at row spots.now }
{
    let end = spots.partition_point(|spot| spot.row <= row);
    &spots[..end]
}

/// The positions of these places.
fn positions_of(alloc: Global, spots: &[Spot]) -> Result<Vec<u32>, NoMemory>
    ensures { IfOk result (λ positions. positions.items ≡ map (λ spot. spot.position) spots.now) }
{
    let mut positions = Vec::new(alloc);
    for spot in spots {
        positions.push(spot.position)?;
    }
    Ok(positions)
}

impl Spots {
    /// No place. It takes no memory.
    pub fn new(alloc: Global) -> Spots
        ensures { result ≡ [] }
    {
        Spots {
            spots: Places {
                list: SmallVec::new(alloc),
            },
        }
    }

    /// Takes the memory for so many places more at once. They are as they were, after an error too.
    pub fn make_room(&mut self, places: usize) -> Result<(), NoMemory>
        ensures { self.new ≡ self.old }
    {
        self.spots.list.reserve(places)?;
        Ok(())
    }

    /// Puts a place behind those that are there. After an error the list is as before.
    pub fn push(&mut self, row: u32, position: u32) -> Result<(), NoMemory>
        requires { IsAfter row position self.old }
        ensures ok { OnOk result (self.new
            ≡ with_spot self.old (record { row = row; position = position })) }
        ensures ordered { OnOk result (ArePostings self.new) }
        ensures exact { OnOk result ((r x : ℕ) → posted_at self.new r x
            ≡ (posted_at self.old r x || ((row == r) && (position == x)))) }
        ensures err { OnErr result (self.new ≡ self.old) }
    {
        self.spots.list.push(Spot { row, position })?;
        Ok(())
    }

    /// Puts a place behind those that are there, unless it is the last of them. After an error the
    /// list is as before.
    pub fn add(&mut self, row: u32, position: u32) -> Result<(), NoMemory>
        requires { IsUpto row position self.old }
        ensures ordered { OnOk result (ArePostings self.new) }
        ensures exact { OnOk result ((r x : ℕ) → posted_at self.new r x
            ≡ (posted_at self.old r x || ((row == r) && (position == x)))) }
        ensures err { OnErr result (self.new ≡ self.old) }
    {
        if ends_at(self.spots.list.as_slice(), row, position) {
            return Ok(());
        }
        self.push(row, position)
    }

    /// The places, rising by row and then by position.
    pub fn as_slice(&self) -> &[Spot]
        ensures places { self.now ≡ grouped result.now }
        ensures rise { AreSpots result.now }
    {
        self.spots.list.as_slice()
    }

    /// The positions in a row, rising; none where the row isn't there. It is found by halving.
    pub fn positions(&self, alloc: Global, row: u32) -> Result<Vec<u32>, NoMemory>
        ensures { IfOk result (λ positions. positions.items ≡ positions_in row self.now) }
    {
        let from = from_row(self.spots.list.as_slice(), row);
        positions_of(alloc, in_row(from, row))
    }

    /// The rows, rising.
    pub fn rows(&self, alloc: Global) -> Result<Vec<u32>, NoMemory>
        ensures rows { IfOk result (λ rows. rows.items ≡ map (λ posting. posting.row) self.now) }
        ensures ordered { ArePostings self.now }
    {
        rows_of(alloc, self.spots.list.as_slice())
    }

    /// A copy of these places.
    pub fn clone_in(&self, alloc: Global) -> Result<Spots, NoMemory>
        ensures { IfOk result (λ spots. spots ≡ self.now) }
    {
        Ok(Spots {
            spots: Places {
                list: SmallVec::from_slice(alloc, self.as_slice())?,
            },
        })
    }
}
