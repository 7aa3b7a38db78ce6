//! The numbers that were set in one row.
ghost use Rattle.std.specs.Prelude.{◌≡◌, ℤ, [], true, length, map, IfOk, OnOk, OnErr};
ghost use Rattle.std.specs.List.{HoldsAt};
ghost use Rattle.std.specs.List.Sorted.{IsSearchInRange};
ghost use Rattle.ix_base.specs.Limits.{names_rise};
ghost use Rattle.ix_base.specs.Steps.{with_number};
ghost use Rattle.live_docs.specs.Marks.{same_numbers, value_of};
ghost use Rattle.live_docs.specs.MarkLaws.{numbers_equivalence};
ghost use Rattle.live_docs.specs.Places.{placed, IsReadAt};

use crate::comparing::same_numbers;
use ix_base::{Name, NoMemory};
use std::alloc::Global;
use std::marker::Model;

/// The numbers that were set in one row: pairs whose names rise by their bytes.
#[derive(Drop)]
pub(crate) struct RowNumbers {
    pairs: Vec<(Name, i64)>,
}

impl Model for RowNumbers {
    ghost use Rattle.std.specs.Prelude.{List, ◌≡◌, map, true};
    ghost use Rattle.ix_base.specs.Limits.{names_rise};
    ghost use Rattle.ix_base.specs.Steps.{Named};

    ghost Value = { List Named };

    ghost view = { λ row. row.pairs.items };

    ghost invariant = { λ row. names_rise (map (λ number. number.0) row.pairs.items) ≡ true };
}

impl PartialEq for RowNumbers {
    ghost eq = { same_numbers };

    ghost laws = { numbers_equivalence };

    fn eq(&self, other: &RowNumbers) -> bool {
        same_numbers(self.pairs.as_slice(), other.pairs.as_slice())
    }
}

impl RowNumbers {
    /// No numbers. It takes no memory.
    pub(crate) fn none(alloc: Global) -> RowNumbers
        ensures { result ≡ [] }
    {
        RowNumbers {
            pairs: Vec::new(alloc),
        }
    }

    /// A copy of these numbers.
    pub(crate) fn copy_of(alloc: Global, numbers: &[(Name, i64)]) -> Result<RowNumbers, NoMemory>
        requires { names_rise (map (λ number. number.0) numbers.now) ≡ true }
        ensures { IfOk result (λ copy. copy ≡ numbers.now) }
    {
        Ok(RowNumbers {
            pairs: copied_pairs(alloc, numbers)?,
        })
    }

    /// The numbers, by name.
    pub(crate) fn as_slice(&self) -> &[(Name, i64)]
        ensures values { result.now ≡ self.now }
        ensures rise { names_rise (map (λ number. number.0) self.now) ≡ true }
    {
        self.pairs.as_slice()
    }

    /// Sets a number, in place of the one by this name where there is one. After an error all is as
    /// before.
    pub(crate) fn set(&mut self, alloc: Global, name: &Name, value: i64) -> Result<(), NoMemory>
        ensures ok { OnOk result (self.new ≡ with_number name.now value self.old) }
        ensures err { OnErr result (self.new ≡ self.old) }
    {
        set_pair(alloc, &mut self.pairs, name, value)
    }
}

/// A copy of these pairs.
fn copied_pairs(alloc: Global, numbers: &[(Name, i64)]) -> Result<Vec<(Name, i64)>, NoMemory>
    ensures { IfOk result (λ copy. copy.items ≡ numbers.now) }
{
    let mut pairs = Vec::new(alloc);
    for pair in numbers {
        pairs.push((pair.0.clone_in(alloc)?, pair.1))?;
    }
    Ok(pairs)
}

/// The place of the number of this name, or the one where it would be put. It takes time as the
/// logarithm of how many numbers there are.
pub(crate) fn place_of(numbers: &[(Name, i64)], name: &Name) -> Result<usize, usize>
    requires { names_rise (map (λ number. number.0) numbers.now) ≡ true }
    ensures within { IsSearchInRange result (length numbers.now) }
    ensures named { IfOk result (HoldsAt (λ number. number.0 ≡ name.now) numbers.now) }
    ensures sets { (value : ℤ) → with_number name.now value numbers.now
        ≡ placed name.now value numbers.now result }
    ensures reads { IsReadAt name.now numbers.now result }
{
    numbers.binary_search_by(|pair| pair.0.as_str().cmp(name.as_str()))
}

/// Sets a number among these, in place of the one by this name where there is one. After an error
/// all is as before.
fn set_pair(
    alloc: Global,
    pairs: &mut Vec<(Name, i64)>,
    name: &Name,
    value: i64,
) -> Result<(), NoMemory>
    requires { names_rise (map (λ number. number.0) pairs.old.items) ≡ true }
    ensures ok { OnOk result (pairs.new.items ≡ with_number name.now value pairs.old.items) }
    ensures err { OnErr result (pairs.new.items ≡ pairs.old.items) }
{
    match place_of(pairs.as_slice(), name) {
        Ok(place) => pairs[place].1 = value,
        Err(place) => pairs.insert(place, (name.clone_in(alloc)?, value))?,
    }
    Ok(())
}
