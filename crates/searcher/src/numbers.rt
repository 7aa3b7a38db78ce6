//! The numbers of a row with those that were set in it.
ghost use Rattle.std.specs.Prelude.{◌≡◌, ◌∷◌, ◌++◌, [], map, true, IfOk, IfSome, IfNone, OnOk};
ghost use Rattle.ix_base.specs.Limits.{names_rise};
ghost use Rattle.segment_core.specs.LiveRows.{with_numbers};

use ix_base::{Name, NoMemory, Numbers};
use std::alloc::Global;
use std::cmp::Ordering;

/// Adds a copy of a pair.
fn add(alloc: Global, made: &mut Vec<(Name, i64)>, pair: &(Name, i64)) -> Result<(), NoMemory>
    ensures { OnOk result (made.new.items ≡ made.old.items ++ pair.now ∷ []) }
{
    made.push((pair.0.clone_in(alloc)?, pair.1))?;
    Ok(())
}

/// Adds copies of pairs.
fn add_all(
    alloc: Global,
    made: &mut Vec<(Name, i64)>,
    pairs: &[(Name, i64)],
) -> Result<(), NoMemory>
    ensures { OnOk result (made.new.items ≡ made.old.items ++ pairs.now) }
{
    for pair in pairs {
        add(alloc, made, pair)?;
    }
    Ok(())
}

/// The pairs of both lists by name, of the set ones alone where both have a name: each list rises by
/// name, so one walk through both is enough.
fn merged(
    alloc: Global,
    own: &[(Name, i64)],
    set: &[(Name, i64)],
) -> Result<Vec<(Name, i64)>, NoMemory>
    requires own { names_rise (map (λ pair. pair.0) own.now) ≡ true }
    requires set { names_rise (map (λ pair. pair.0) set.now) ≡ true }
    ensures { IfOk result (λ made. made.items ≡ with_numbers set.now own.now) }
{
    let mut made = Vec::new(alloc);
    let mut i = 0;
    let mut j = 0;
    while i < own.len() && j < set.len() {
        match own[i].0.as_str().cmp(set[j].0.as_str()) {
            Ordering::Less => {
                add(alloc, &mut made, &own[i])?;
                i += 1;
            }
            Ordering::Equal => {
                add(alloc, &mut made, &set[j])?;
                i += 1;
                j += 1;
            }
            Ordering::Greater => {
                add(alloc, &mut made, &set[j])?;
                j += 1;
            }
        }
    }
    add_all(alloc, &mut made, &own[i..])?;
    add_all(alloc, &mut made, &set[j..])?;
    Ok(made)
}

/// The numbers with these ones set in them.
pub fn numbers_with(
    alloc: Global,
    numbers: &Numbers,
    values: &[(Name, i64)],
) -> Result<Numbers, NoMemory>
    requires { names_rise (map (λ pair. pair.0) values.now) ≡ true }
    ensures { IfOk result (λ made. made ≡ with_numbers values.now numbers.now) }
{
    let made = merged(alloc, numbers.as_slice(), values)?;
    Ok(Numbers::from_vec(made))
}
