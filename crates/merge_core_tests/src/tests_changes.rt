//! What reaches the rows of a source while a merge reads it, worked out by hand.
ghost use Rattle.std.specs.Prelude.{◌≡◌, ◌<◌, ℕ, [], ◌∷◌, length, IfOk, OnOk};
ghost use Rattle.ix_base.specs.Births.{first_birth, last_birth};
ghost use Rattle.segment_files.specs.Fits.{BirthsRise};
ghost use Rattle.merge_core.specs.Merging.{row_count};
ghost use Rattle.merge_core_tests.specs.Reading.{AreSources, Reads};

use crate::reading::{finished, read, read_all, start};
use analysis::invert;
use frozen_packet::Updates;
use ix_base::{Birth, Row};
use merge_core::{Merge, reading_stays};
use node_words::Entry;
use ram_postings::Frozen;
use segment_core::{LiveSegment, apply_updates, build};
use std::alloc::Global;
use std::fmt::Write;
use std::slice;
use std::test::*;
use test_segments::show_live_row;
use test_values::{document_of, key_term, name_of};

/// The row of this key that the operation of this number adds.
fn born(alloc: Global, number: u64, key: &str) -> Result<Row, Fail>
    ensures { IfOk result (λ row. row.birth ≡ first_birth number) }
{
    let doc = document_of(alloc, key)?;
    let birth = Birth::first(number);
    Ok(Row { birth, doc })
}

/// Rows with the keys `a` to `d`, born by the operations 1 to 4.
fn four_rows(alloc: Global) -> Result<Vec<Row>, Fail>
    ensures births { IfOk result (λ rows. BirthsRise (first_birth 1) (last_birth 4) rows.items) }
    ensures count { IfOk result (λ rows. length rows.items ≡ 4) }
{
    let first = born(alloc, 1, "a")?;
    let second = born(alloc, 2, "b")?;
    let third = born(alloc, 3, "c")?;
    let fourth = born(alloc, 4, "d")?;
    Ok(vec![in alloc; first, second, third, fourth]?)
}

/// The segment of the four rows.
fn source(alloc: Global) -> Result<LiveSegment, Fail>
    ensures { IfOk result (λ segment. AreSources (segment ∷ [])) }
{
    let rows = four_rows(alloc)?;
    let postings = invert(alloc, rows.as_slice())?;
    let frozen = Frozen { rows, postings };
    match build(alloc, 1, frozen, &Updates::new(alloc), 9)? {
        Some(segment) => Ok(segment),
        None => Err("no row is live")?,
    }
}

/// The rows of a key are deleted; or, where a name and a value stand behind the key, that number is set in
/// them.
fn entry_of(alloc: Global, words: &str) -> Result<Entry, Fail> {
    let Some((key, setting)) = words.split_once(' ') else {
        return Ok(Entry::DeleteTerm(key_term(alloc, words)?));
    };
    let (name, value) = setting.split_once(' ').ok_or("no value")?;
    let value = value.parse::<i64>()?;
    let term = key_term(alloc, key)?;
    let num = name_of(alloc, name)?;
    Ok(Entry::SetNumber { term, num, value })
}

/// The updates of these entries.
fn updates_of(alloc: Global, text: &str) -> Result<Updates, Fail> {
    let mut updates = Updates::new(alloc);
    for words in text.split(", ") {
        updates.take(10, entry_of(alloc, words)?)?;
    }
    Ok(updates)
}

/// The rows `a` and `d` are deleted, and 41 numbers are set in `b`.
fn many_entries(alloc: Global) -> Result<String, Fail> {
    let mut text = String::from_str(alloc, "a, d, b n 5")?;
    for at in 0..40 {
        write!(text, ", b n{at} 4")?;
    }
    Ok(text)
}

/// The updates reach the segment, of which the merge has read some rows.
fn change(
    alloc: Global,
    merge: &Merge,
    updates: &Updates,
    segment: &mut LiveSegment,
) -> Result<(), Fail>
    requires { (count : ℕ) × Reads merge.now (segment.old ∷ []) count }
    ensures { OnOk result ((count : ℕ) × Reads merge.now (segment.new ∷ []) count) }
{
    reading_stays();
    let mut live = segment.live().clone_in(alloc)?;
    apply_updates(alloc, segment.segment(), updates, 0, &mut live)?;
    segment.set_live(live);
    Ok(())
}

/// How many rows there are, how many numbers were set in the second, and the live rows.
fn shown(alloc: Global, segment: &LiveSegment) -> Result<String, Fail> {
    let mut out = String::new(alloc);
    let rows = segment.segment().rows.len();
    if rows != 4 {
        return Ok(out);
    }
    let numbers = segment.live().values(1).len();
    write!(out, "{rows} {numbers}")?;
    for at in 0..4 {
        show_live_row(alloc, &mut out, segment, at)?;
    }
    Ok(out)
}

/// Two rows are read before the updates reach the segment, and the others one by one after.
fn read_around(
    alloc: Global,
    merge: &mut Merge,
    updates: &Updates,
    segment: &mut LiveSegment,
) -> Result<(), Fail>
    requires { Reads merge.old (segment.old ∷ []) 0 }
    ensures { OnOk result
        (Reads merge.new (segment.new ∷ []) (row_count (segment.new ∷ []))) }
{
    read(merge, slice::from_ref(segment), 2)?;
    change(alloc, merge, updates, segment)?;
    read_all(merge, slice::from_ref(segment), 1)
}

/// The segment that is made of this one, if one is.
fn made_of(
    alloc: Global,
    updates: &Updates,
    segment: &mut LiveSegment,
) -> Result<Option<LiveSegment>, Fail>
    requires { AreSources (segment.old ∷ []) }
{
    let mut merge = start(alloc, slice::from_ref(segment))?;
    read_around(alloc, &mut merge, updates, segment)?;
    finished(merge, slice::from_ref(segment))
}

/// The segment that is made of the four rows, if one is.
fn merged(alloc: Global, entries: &str) -> Result<Option<LiveSegment>, Fail> {
    let updates = updates_of(alloc, entries)?;
    let mut segment = source(alloc)?;
    made_of(alloc, &updates, &mut segment)
}

/// The rows `a`, which was read, and `d`, which wasn't, die while they are merged; numbers are set in `b`
/// after it was read.
#[test]
fn rows_die_between_steps(rt: HostRuntime) -> Result<(), Fail> {
    let entries = many_entries(rt.alloc())?;
    let made = merged(rt.alloc(), entries.as_str())?.ok_or("nothing merged")?;
    assert!(rt; shown(rt.alloc(), &made)?.as_str() == "4 41 b2=5 c3");
    Ok(())
}

/// All rows die between two steps: there is no segment.
#[test]
fn all_rows_die(rt: HostRuntime) -> Result<(), Fail> {
    assert!(rt; merged(rt.alloc(), "a, b, c, d")?.is_none());
    Ok(())
}
