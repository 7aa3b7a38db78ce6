//! The places of one term, gathered from several lists.
ghost use Rattle.std.specs.Prelude.{◌≡◌, ◌||◌, ℕ, false, IfOk, OnOk};
ghost use Rattle.merge_postings.specs.Parts.{any_part};
ghost use Rattle.ix_base.specs.Grouped.{grouped, AreSpots};
ghost use Rattle.ix_base.specs.Posted.{posted_at};
ghost use Rattle.merge_postings.specs.Gathering.{any_place, is_gathered, PlacesRise};
ghost use Rattle.merge_postings.specs.Renumbering.{NumbersRise, moved_at};

use crate::part::Part;
use crate::renumbered::{append_moved, are_below, first_number, number_at};
use ix_base::{NoMemory, Spot, Spots};
use std::alloc::Global;

/// A place of a term: a row, and a position in it. Places are ordered by rows, and then by positions.
#[derive(Clone, Copy, PartialEq, Eq, PartialOrd, Ord)]
struct Place {
    row: u32,
    position: u32,
}

/// Places of one term: those that came in order, and those that came late.
#[derive(Drop)]
struct Gathered {
    rows: Spots,
    late: Vec<Place>,
}

/// Adds the places whose rows get a number, at the rows of these numbers.
fn add_moved(late: &mut Vec<Place>, spots: &[Spot], numbers: &[Option<u32>]) -> Result<(), NoMemory>
    ensures { OnOk result ((r x : ℕ) → any_place late.new.items r x
        ≡ (any_place late.old.items r x || moved_at numbers.now (grouped spots.now) r x)) }
{
    for spot in spots {
        if let Some(row) = number_at(numbers, spot.row) {
            let position = spot.position;
            late.push(Place { row, position })?;
        }
    }
    Ok(())
}

/// Adds these places.
fn add_spots(late: &mut Vec<Place>, spots: &[Spot]) -> Result<(), NoMemory>
    ensures { OnOk result ((r x : ℕ) → any_place late.new.items r x
        ≡ (any_place late.old.items r x || posted_at (grouped spots.now) r x)) }
{
    for spot in spots {
        let Spot { row, position } = *spot;
        late.push(Place { row, position })?;
    }
    Ok(())
}

/// The list of places that rise.
fn spots_of(alloc: Global, places: &[Place]) -> Result<Spots, NoMemory>
    requires { PlacesRise places.now }
    ensures { IfOk result (λ rows. (r x : ℕ) → posted_at rows r x ≡ any_place places.now r x) }
{
    let mut rows = Spots::new(alloc);
    for place in places {
        rows.add(place.row, place.position)?;
    }
    Ok(rows)
}

impl Gathered {
    /// No place. It takes no memory.
    fn new(alloc: Global) -> Gathered
        ensures { (r x : ℕ) → is_gathered result r x ≡ false }
    {
        Gathered {
            rows: Spots::new(alloc),
            late: Vec::new(alloc),
        }
    }

    /// Takes the memory for so many places at once, which come in order. They are as they were, after an error too.
    fn make_room(&mut self, places: usize) -> Result<(), NoMemory>
        ensures { self.new ≡ self.old }
    {
        self.rows.make_room(places)
    }

    /// Adds the places of a list whose rows get a number, at the rows of these numbers.
    fn add(&mut self, list: &Spots, numbers: &[Option<u32>]) -> Result<(), NoMemory>
        requires { NumbersRise numbers.now }
        ensures { OnOk result ((r x : ℕ) → is_gathered self.new r x
            ≡ (is_gathered self.old r x || moved_at numbers.now list.now r x)) }
    {
        let spots = list.as_slice();
        let Some(first) = first_number(spots, numbers) else {
            return Ok(());
        };
        if are_below(self.rows.as_slice(), first) {
            append_moved(&mut self.rows, spots, numbers, first)?;
            return Ok(());
        }
        add_moved(&mut self.late, spots, numbers)?;
        Ok(())
    }

    /// The places, in order.
    fn into_rows(self, alloc: Global) -> Result<Spots, NoMemory>
        ensures { IfOk result (λ rows. (r x : ℕ) → posted_at rows r x ≡ is_gathered self r x) }
    {
        let Gathered { rows, late } = self;
        if late.is_empty() {
            return Ok(rows);
        }
        let mut places = late;
        add_spots(&mut places, rows.as_slice())?;
        places.sort()?;
        let sorted = spots_of(alloc, places.as_slice())?;
        Ok(sorted)
    }
}

/// How many places these have, whether or not their rows get a number.
fn places_in(parts: &[Part<'_>]) -> usize {
    let mut places: usize = 0;
    for part in parts {
        places = places.saturating_add(part.rows().as_slice().len());
    }
    places
}

/// The places that these have, at the rows of their numbers.
pub(crate) fn places_of(alloc: Global, parts: &[Part<'_>]) -> Result<Spots, NoMemory>
    ensures { IfOk result (λ rows. (r x : ℕ) → posted_at rows r x ≡ any_part parts.now r x) }
{
    let mut gathered = Gathered::new(alloc);
    gathered.make_room(places_in(parts))?;
    for part in parts {
        gathered.add(part.rows(), part.numbers())?;
    }
    let rows = gathered.into_rows(alloc)?;
    Ok(rows)
}
