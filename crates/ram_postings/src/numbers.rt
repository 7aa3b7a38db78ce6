//! The rows of a buffer's documents.
ghost use Rattle.std.specs.Prelude.{◌≡◌, ◌<◌, ◌≤◌, ◌^◌, ◌++◌, [], map, length, vec_capacity, All, AllPairs, IfOk};
ghost use Rattle.ram_postings.specs.Buffer.{born_rows, row_of};
ghost use Rattle.ram_postings.specs.Kept.{staged_of, born_marks, ArePlaces};

use crate::entry::Entry;
use ix_base::{NoMemory, Row};
use std::alloc::Global;

/// Puts a document that was born behind the rows, which have room for one. It takes no memory.
fn move_row(rows: &mut Vec<Row>, entry: Entry)
    requires { length rows.old.items < vec_capacity rows.old }
    ensures rows { rows.new.items ≡ rows.old.items ++ row_of entry.doc entry.birth }
    ensures capacity { vec_capacity rows.new ≡ vec_capacity rows.old }
{
    let Entry { doc, birth, .. } = entry;
    if let Some(birth) = birth {
        rows.push_reserved(Row { birth, doc });
    }
}

/// The rows of those documents that were born, which are moved into a list that has room for
/// all. It takes no memory.
pub fn moved_rows(mut rows: Vec<Row>, staged: Vec<Entry>) -> Vec<Row>
    requires { (rows.items ≡ []) × (length staged.items ≤ vec_capacity rows) }
    ensures { result.items ≡ born_rows (map staged_of staged.items) }
{
    for entry in staged {
        move_row(&mut rows, entry);
    }
    rows
}

/// The marks of those documents that were born.
fn marks_of(alloc: Global, staged: &[Entry]) -> Result<Vec<u32>, NoMemory>
    ensures { IfOk result (λ marks. marks.items ≡ born_marks staged.now) }
{
    let mut marks = Vec::new(alloc);
    for entry in staged {
        if let Some(_birth) = entry.birth {
            marks.push(entry.mark)?;
        }
    }
    Ok(marks)
}

/// The place of each mark below a bound among marks that rise.
fn places_of(alloc: Global, marks: &[u32], bound: u32) -> Result<Vec<Option<u32>>, NoMemory>
    requires rise { AllPairs (λ a b. a < b) marks.now }
    requires below { All (λ mark. mark < bound) marks.now }
    requires few { length marks.now < 2 ^ 32 }
    ensures { IfOk result (λ places. ArePlaces marks.now places.items) }
{
    let mut places = vec![in alloc; None; bound as usize]?;
    let mut place = 0;
    for mark in marks {
        places[*mark as usize] = Some(place);
        place += 1;
    }
    Ok(places)
}

/// The row of each mark, where the document of the mark was born.
pub fn numbers_of(alloc: Global, staged: &[Entry], bound: u32) -> Result<Vec<Option<u32>>, NoMemory>
    requires rise { AllPairs (λ a b. a < b) (born_marks staged.now) }
    requires below { All (λ mark. mark < bound) (born_marks staged.now) }
    requires few { length (born_marks staged.now) < 2 ^ 32 }
    ensures { IfOk result (λ numbers. ArePlaces (born_marks staged.now) numbers.items) }
{
    let marks = marks_of(alloc, staged)?;
    places_of(alloc, marks.as_slice(), bound)
}
