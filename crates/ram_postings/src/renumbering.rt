//! Places copied from rows that have a number to the rows of these numbers.
ghost use Rattle.std.specs.Prelude.{◌≡◌, ℕ, OnOk};
ghost use Rattle.ix_base.specs.Grouped.{grouped, AreSpots};
ghost use Rattle.ix_base.specs.Posted.{posted_at};
ghost use Rattle.ram_postings.specs.Kept.{number_of, NumbersRise, IsBelowNumbers, HasNoNumber, IsRenumbered};

use ix_base::{NoMemory, Spot, Spots};

/// The number of a row; `None` where it has none.
pub fn number_at(numbers: &[Option<u32>], row: u32) -> Option<u32>
    ensures { result ≡ number_of numbers.now row }
{
    let row = row as usize;
    if row < numbers.len() {
        numbers[row]
    } else {
        None
    }
}

/// Puts the places of those rows that have a number behind a list's, at the rows of these numbers.
/// After an error some of them may be there.
pub fn put_renumbered(
    list: &mut Spots,
    spots: &[Spot],
    numbers: &[Option<u32>],
) -> Result<(), NoMemory>
    requires rise { NumbersRise numbers.now }
    requires spots { AreSpots spots.now }
    requires below { IsBelowNumbers list.old numbers.now }
    ensures others { (r x : ℕ) → HasNoNumber numbers.now r
        → posted_at list.new r x ≡ posted_at list.old r x }
    ensures ok { OnOk result (IsRenumbered numbers.now (grouped spots.now) list.new) }
{
    for spot in spots {
        if let Some(row) = number_at(numbers, spot.row) {
            list.push(row, spot.position)?;
        }
    }
    Ok(())
}
