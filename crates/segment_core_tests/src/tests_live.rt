//! Segments built of three rows, with updates that were worked out by hand.
ghost use Rattle.std.specs.Prelude.{IfOk, OnOk};
ghost use Rattle.frozen_packet.specs.Updates.{as_operations, NumberedUpTo};
ghost use Rattle.segment_core.specs.LiveRows.{CanBuild};

use crate::tests::row_of;
use analysis::invert;
use frozen_packet::Updates;
use ix_base::{Birth, Query};
use node_words::Entry;
use ram_postings::Frozen;
use segment_core::{LiveSegment, build};
use std::alloc::Global;
use std::fmt::Write;
use std::test::*;
use test_segments::show_mark;
use test_values::{name_of, term_of};

/// Rows born by the operations 3, 5 and 7, that of 5 as the last document of 64.
fn three_rows(alloc: Global) -> Result<Frozen, Fail>
    ensures { IfOk result (λ frozen. CanBuild frozen.rows.items frozen.postings) }
{
    let mut rows = Vec::new(alloc);
    rows.push(row_of(alloc, Birth::first(3), "k1", "the fox")?)?;
    rows.push(row_of(alloc, Birth::new(5, 63), "k2", "a fox")?)?;
    rows.push(row_of(alloc, Birth::first(7), "k3", "no dog")?)?;
    let postings = invert(alloc, rows.as_slice())?;
    Ok(Frozen { rows, postings })
}

/// Takes one more entry, under the same number as those before it.
fn take_more(updates: &mut Updates, number: u64, entry: Entry) -> Result<(), Fail>
    requires { NumberedUpTo number (as_operations updates.old) }
    ensures { OnOk result (NumberedUpTo number (as_operations updates.new)) }
{
    updates.take(number, entry)?;
    Ok(())
}

fn delete_of(alloc: Global, key: &str) -> Result<Entry, Fail> {
    Ok(Entry::DeleteTerm(term_of(alloc, "key", key)?))
}

fn update_of(alloc: Global, key: &str) -> Result<Entry, Fail> {
    Ok(Entry::Update(term_of(alloc, "key", key)?))
}

/// A number that is set in the rows of a key.
fn setting(alloc: Global, key: &str) -> Result<Entry, Fail> {
    let term = term_of(alloc, "key", key)?;
    let num = name_of(alloc, "n")?;
    let value = 5;
    Ok(Entry::SetNumber { term, num, value })
}

/// Operations of one number: a delete of the first row, a number set in the second, and an update of
/// the third.
fn three_updates(alloc: Global, number: u64) -> Result<Updates, Fail> {
    let mut updates = Updates::new(alloc);
    take_more(&mut updates, number, delete_of(alloc, "k1")?)?;
    take_more(&mut updates, number, setting(alloc, "k2")?)?;
    take_more(&mut updates, number, update_of(alloc, "k3")?)?;
    Ok(updates)
}

/// The segment of the three rows with these updates.
fn built(alloc: Global, updates: &Updates) -> Result<Option<LiveSegment>, Fail> {
    let frozen = three_rows(alloc)?;
    Ok(build(alloc, 9, frozen, updates, 8)?)
}

/// The segment's number, its applied number, and its rows.
fn shown(alloc: Global, segment: &LiveSegment) -> Result<String, Fail> {
    let mut out = String::new(alloc);
    let id = segment.segment().id;
    let applied = segment.live().applied();
    write!(out, "{id} {applied}")?;
    for row in 0..4 {
        show_mark(alloc, &mut out, segment, row)?;
    }
    Ok(out)
}

/// The segment with the updates of this number.
fn shown_at(alloc: Global, number: u64) -> Result<String, Fail> {
    let updates = three_updates(alloc, number)?;
    match built(alloc, &updates)? {
        Some(segment) => shown(alloc, &segment),
        None => Ok(String::new(alloc)),
    }
}

/// Updates act only on rows that were born before them.
#[test]
fn updates_at_each_birth(rt: HostRuntime) -> Result<(), Fail> {
    let cases = [
        (3, "9 8+0+0+0"),
        (5, "9 8-0+0+0"),
        (7, "9 8-0+5+0"),
        (8, "9 8-0+5-0"),
    ];
    for (number, wanted) in cases {
        assert!(rt; shown_at(rt.alloc(), number)?.as_str() == wanted);
    }
    Ok(())
}

fn is_built_at(alloc: Global, number: u64) -> Result<bool, Fail> {
    let mut updates = Updates::new(alloc);
    take_more(&mut updates, number, Entry::DeleteQuery(Query::All))?;
    Ok(built(alloc, &updates)?.is_some())
}

/// Where all rows are deleted there is no segment.
#[test]
fn all_rows_deleted(rt: HostRuntime) -> Result<(), Fail> {
    let alloc = rt.alloc();
    assert!(rt; is_built_at(alloc, 7)?);
    assert!(rt; !is_built_at(alloc, 8)?);
    Ok(())
}

/// A change of the number `n` of the row `k2`.
#[derive(Clone, Copy)]
enum Step {
    /// It is set to this value.
    Set(i64),
    /// The rows are deleted where it is this value.
    Delete(i64),
}

fn entry_of(alloc: Global, step: Step) -> Result<Entry, Fail> {
    let num = name_of(alloc, "n")?;
    match step {
        Step::Set(value) => {
            let term = term_of(alloc, "key", "k2")?;
            Ok(Entry::SetNumber { term, num, value })
        }
        Step::Delete(value) => Ok(Entry::DeleteQuery(Query::Range(num, value, value))),
    }
}

/// These steps, under one number.
fn updates_of(alloc: Global, number: u64, steps: &[Step]) -> Result<Updates, Fail> {
    let mut updates = Updates::new(alloc);
    for step in steps {
        take_more(&mut updates, number, entry_of(alloc, *step)?)?;
    }
    Ok(updates)
}

/// The segment after these steps.
fn shown_after(alloc: Global, number: u64, steps: &[Step]) -> Result<String, Fail> {
    let updates = updates_of(alloc, number, steps)?;
    match built(alloc, &updates)? {
        Some(segment) => shown(alloc, &segment),
        None => Ok(String::new(alloc)),
    }
}

/// A delete by a range reads the number that stands when it comes, of rows that were born before it.
#[test]
fn ranges_between_settings(rt: HostRuntime) -> Result<(), Fail> {
    let cases: [(u64, &[Step], &str); 6] = [
        (8, &[Step::Set(5), Step::Delete(5)], "9 8+0-5+0"),
        (8, &[Step::Delete(5), Step::Set(5)], "9 8+0+5+0"),
        (
            8,
            &[Step::Set(5), Step::Set(9), Step::Delete(5)],
            "9 8+0+9+0",
        ),
        (
            8,
            &[Step::Set(9), Step::Delete(9), Step::Set(5)],
            "9 8+0-9+0",
        ),
        (8, &[Step::Set(-1), Step::Delete(0)], "9 8+0+-1+0"),
        (5, &[Step::Set(5), Step::Delete(5)], "9 8+0+0+0"),
    ];
    for (number, steps, wanted) in cases {
        assert!(rt; shown_after(rt.alloc(), number, steps)?.as_str() == wanted);
    }
    Ok(())
}
