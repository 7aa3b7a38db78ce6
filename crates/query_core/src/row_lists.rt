//! Rising lists of numbers.
ghost use Rattle.std.specs.Prelude.{◌≡◌, ◌+◌, ◌<◌, ◌^◌, ◌∷◌, ℕ, false, not, filter, length, All, IfOk, slice_index_or};
ghost use Rattle.std.specs.List.{range_with_len};
ghost use Rattle.ix_base.specs.Inversion.{has_number};
ghost use Rattle.query_core.specs.Answers.{IsRising};

use crate::number_search::has_from;
use ix_base::NoMemory;
use std::alloc::Global;

/// The numbers that stand in the others too.
pub fn in_both(alloc: Global, numbers: &[u32], others: &[u32]) -> Result<Vec<u32>, NoMemory>
    ensures { IfOk result (λ kept. IsRising others.now
        → kept.items ≡ filter (has_number others.now) numbers.now) }
{
    let mut kept = Vec::new(alloc);
    let mut place = 0;
    for number in numbers {
        if has_from(others, u64::from(*number), &mut place) {
            kept.push(*number)?;
        }
    }
    Ok(kept)
}

/// The numbers that don't stand in the others.
pub fn in_first(alloc: Global, numbers: &[u32], others: &[u32]) -> Result<Vec<u32>, NoMemory>
    ensures { IfOk result (λ kept. IsRising others.now
        → kept.items ≡ filter (λ x. not (has_number others.now x)) numbers.now) }
{
    let mut kept = Vec::new(alloc);
    let mut place = 0;
    for number in numbers {
        if !has_from(others, u64::from(*number), &mut place) {
            kept.push(*number)?;
        }
    }
    Ok(kept)
}

/// Each of the numbers once, rising. It sorts them.
pub fn distinct(mut numbers: Vec<u32>) -> Result<Vec<u32>, NoMemory>
    ensures rise { IfOk result (λ kept. IsRising kept.items) }
    ensures same { IfOk result (λ kept. (x : ℕ)
        → has_number kept.items x ≡ has_number numbers.items x) }
{
    numbers.sort()?;
    numbers.dedup();
    Ok(numbers)
}

/// For each number below `end` whether it stands among the numbers.
fn marks_of(alloc: Global, numbers: &[u32], end: u32) -> Result<Vec<bool>, NoMemory>
    ensures long { IfOk result (λ marks. length marks.items ≡ end) }
    ensures marked { IfOk result (λ marks. (x : ℕ) → x < end
        → slice_index_or marks.items x false ≡ has_number numbers.now x) }
{
    let mut marks = vec![in alloc; false; end as usize]?;
    for number in numbers {
        let at = *number as usize;
        if at < marks.len() {
            marks[at] = true;
        }
    }
    Ok(marks)
}

/// The numbers that are marked, rising.
fn marked(alloc: Global, marks: &[bool], end: u32) -> Result<Vec<u32>, NoMemory>
    requires { length marks.now ≡ end }
    ensures rise { IfOk result (λ kept. IsRising kept.items) }
    ensures below { IfOk result (λ kept. All (λ number. number < end) kept.items) }
    ensures same { IfOk result (λ kept. (x : ℕ) → x < end
        → has_number kept.items x ≡ slice_index_or marks.now x false) }
{
    let mut kept = Vec::new(alloc);
    for at in 0..end {
        if marks[at as usize] {
            kept.push(at)?;
        }
    }
    Ok(kept)
}

/// Each of the numbers once, rising, where all of them are below `end`. Where there are few, they are
/// sorted; else a mark is made for each number below `end`. So the cost grows with how many there are.
pub fn distinct_below(alloc: Global, numbers: Vec<u32>, end: u32) -> Result<Vec<u32>, NoMemory>
    ensures rise { IfOk result (λ kept. IsRising kept.items) }
    ensures same { IfOk result (λ kept. All (λ number. number < end) numbers.items → (x : ℕ)
        → has_number kept.items x ≡ has_number numbers.items x) }
{
    if numbers.len() < end as usize / 16 {
        return distinct(numbers);
    }
    let marks = marks_of(alloc, numbers.as_slice(), end)?;
    marked(alloc, marks.as_slice(), end)
}

/// The numbers below this one, rising.
pub fn below(alloc: Global, end: u32) -> Result<Vec<u32>, NoMemory>
    ensures { IfOk result (λ numbers. numbers.items ≡ range_with_len 0 end) }
{
    let mut numbers = Vec::new(alloc);
    for number in 0..end {
        numbers.push(number)?;
    }
    Ok(numbers)
}
