//! Numbers found in rising lists, from a place where the search is begun.
ghost use Rattle.std.specs.Prelude.{◌≡◌, ◌≤◌, length, IsTrue};
ghost use Rattle.ix_base.specs.Inversion.{has_number};
ghost use Rattle.query_core.specs.Answers.{IsRising};
ghost use Rattle.query_core.specs.Finding.{IsNotBefore, IsWithin};

use std::cmp::Ordering;

/// Whether it is certain that the number doesn't stand before this place: what is there comes before
/// it.
fn is_behind(numbers: &[u32], place: usize, number: u32) -> bool
    ensures within { IsTrue result → place ≤ length numbers.now }
    ensures behind { IsTrue result → IsRising numbers.now
        → IsNotBefore numbers.now number place }
{
    match place.checked_sub(1) {
        Some(last) if last < numbers.len() => numbers[last] < number,
        _ => false,
    }
}

/// Where a number may stand in a rising list: not before the first place, and before the second. The
/// search begins at `place` and goes on in steps that double.
fn number_window(numbers: &[u32], number: u32, place: usize) -> (usize, usize)
    ensures order { result.0 ≤ result.1 }
    ensures within { result.1 ≤ length numbers.now }
    ensures stands { IsRising numbers.now → IsWithin numbers.now number result.0 result.1 }
{
    let start = if is_behind(numbers, place, number) {
        place
    } else {
        0
    };
    let mut low = start;
    let mut at = start;
    while at < numbers.len() {
        match numbers[at].cmp(&number) {
            Ordering::Less => {
                low = at + 1;
                at = low.saturating_add(low - start);
            }
            Ordering::Equal => return (at, at + 1),
            Ordering::Greater => return (low, at),
        }
    }
    (low, numbers.len())
}

/// Whether a number stands in a rising list. The search begins at `place`, which is moved behind the
/// number, or to where it would stand. Any place is right: the nearer the number is behind it, the
/// sooner it is found, so rising numbers are found in one walk through the list.
pub fn has_from(numbers: &[u32], number: u64, place: &mut usize) -> bool
    ensures { IsRising numbers.now → result ≡ has_number numbers.now number }
{
    let Ok(number) = u32::try_from(number) else {
        return false;
    };
    let (from, to) = number_window(numbers, number, *place);
    match numbers[from..to].binary_search(&number) {
        Ok(i) => {
            *place = from + i + 1;
            true
        }
        Err(i) => {
            *place = from + i;
            false
        }
    }
}
