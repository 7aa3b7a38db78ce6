//! Updates applied to the rows of a segment. What it costs grows with the updates and with the rows
//! that they hit, not with updates times rows. Only the first delete by a range of a name looks at
//! each row.
ghost use Rattle.std.specs.Prelude.{◌≡◌, ◌<◌, map, length, IfOk, IfSome, OnOk, IsTrue};
ghost use Rattle.frozen_packet.specs.Updates.{as_operations, term_delete, query_delete, setting, change};
ghost use Rattle.ix_base.specs.Inversion.{rows_where};
ghost use Rattle.ix_base.specs.Matches.{matches};
ghost use Rattle.ix_base.specs.Query.{tree_of};
ghost use Rattle.live_docs.specs.Marks.{killed, valued, changed_at};
ghost use Rattle.segment_core.specs.Columns.{AreColumnsOf};
ghost use Rattle.segment_core.specs.Segments.{documents, IsInverted};
ghost use Rattle.segment_core.specs.LiveRows.{IsWhole, above, Fated, MarksLater};
ghost use Rattle.segment_core.specs.Marking.{marks_after, marks_touched, documents_now, valued_live, born_before, hit, hits};

use crate::columns::Columns;
use crate::current::Current;
use crate::segment::Segment;
use frozen_packet::{Change, DeletedTerms, QueryDelete, Setting, Updates};
use ix_base::{NoMemory, Query, Row};
use live_docs::LiveDocs;
use query_core::{Inverted, answer};
use std::alloc::Global;

/// Whether there is a row of this index that was born before the operation of this number.
fn is_born_before(number: u64, rows: &[Row], row: u32) -> bool
    ensures born { result ≡ born_before number rows.now row }
    ensures within { IsTrue result → row < length rows.now }
{
    match rows.get(row as usize) {
        Some(row) => row.birth.is_before(number),
        None => false,
    }
}

/// Kills the row if it was born before the operation of this number.
fn kill_older(number: u64, rows: &[Row], row: u32, live: &mut LiveDocs)
    requires { length live.old.marks ≡ length rows.now }
    ensures { let marks = hit number killed rows.now row live.old.marks in
        live.new ≡ record live.old { marks = marks } }
{
    if is_born_before(number, rows, row) {
        live.kill(row);
    }
}

/// Sets a number of the row.
fn set_number(
    alloc: Global,
    setting: &Setting,
    row: u32,
    live: &mut LiveDocs,
) -> Result<(), NoMemory>
    requires { row < length live.old.marks }
    ensures { let change = valued setting.now.num setting.now.value in
        let marks = changed_at change row live.old.marks in
        OnOk result (live.new ≡ record live.old { marks = marks }) }
{
    live.set_value(alloc, row, &setting.num, setting.value)
}

/// Sets a number of the row if it is live.
fn set_in_live(
    alloc: Global,
    setting: &Setting,
    row: u32,
    live: &mut LiveDocs,
) -> Result<(), NoMemory>
    requires { row < length live.old.marks }
    ensures { let change = valued_live setting.now.num setting.now.value in
        let marks = changed_at change row live.old.marks in
        OnOk result (live.new ≡ record live.old { marks = marks }) }
{
    if !live.is_live(row) {
        return Ok(());
    }
    set_number(alloc, setting, row, live)
}

/// Sets a number of the row if it is live and was born before the setting.
fn set_older(
    alloc: Global,
    setting: &Setting,
    rows: &[Row],
    row: u32,
    live: &mut LiveDocs,
) -> Result<(), NoMemory>
    requires { length live.old.marks ≡ length rows.now }
    ensures { let change = valued_live setting.now.num setting.now.value in
        let marks = hit setting.now.number change rows.now row live.old.marks in
        OnOk result (live.new ≡ record live.old { marks = marks }) }
{
    if is_born_before(setting.number, rows, row) {
        set_in_live(alloc, setting, row, live)
    } else {
        Ok(())
    }
}

/// Kills those of the found rows that were born before the operation of this number.
fn kill_found(rows: &[Row], live: &mut LiveDocs, found: &[u32], number: u64)
    requires { length live.old.marks ≡ length rows.now }
    ensures { let marks = hits number killed rows.now found.now live.old.marks in
        live.new ≡ record live.old { marks = marks } }
{
    for row in found {
        kill_older(number, rows, *row, live);
    }
}

/// Sets a number in those of the found rows that are live and were born before the setting's own
/// number.
fn set_found(
    alloc: Global,
    rows: &[Row],
    live: &mut LiveDocs,
    found: &[u32],
    setting: &Setting,
) -> Result<(), NoMemory>
    requires { length live.old.marks ≡ length rows.now }
    ensures { let change = valued_live setting.now.num setting.now.value in
        let marks = hits setting.now.number change rows.now found.now live.old.marks in
        OnOk result (live.new ≡ record live.old { marks = marks }) }
{
    for row in found {
        set_older(alloc, setting, rows, *row, live)?;
    }
    Ok(())
}

/// Applies the deletes by term that are numbered above `low`.
fn apply_deletes<I: Inverted>(
    alloc: Global,
    index: &I,
    rows: &[Row],
    deletes: &DeletedTerms,
    low: u64,
    live: &mut LiveDocs,
) -> Result<(), NoMemory>
    requires { length live.old.marks ≡ length rows.now }
    ensures applied { OnOk result (live.new.applied ≡ live.old.applied) }
    ensures long { OnOk result (length live.new.marks ≡ length rows.now) }
    ensures later { OnOk result (MarksLater live.old.marks live.new.marks) }
    ensures marks { let ops = above low (map term_delete deletes.now) in
        let marks = marks_after ops rows.now live.old.marks in
        OnOk result (I.inverts index.now (documents rows.now) → live.new.marks ≡ marks) }
{
    let mut place = 0;
    for (key, number) in deletes.as_map() {
        if *number <= low {
            continue;
        }
        let found = index.holding_from(alloc, key.term(), &mut place)?;
        kill_found(rows, live, found.as_slice(), *number);
    }
    Ok(())
}

/// The rows that match a query by the numbers that they have now.
fn matching<I: Inverted>(
    alloc: Global,
    index: &I,
    rows: &[Row],
    query: &Query,
    live: &LiveDocs,
    columns: Option<&Columns>,
) -> Result<Vec<u32>, NoMemory>
    requires { IfSome columns (λ c. AreColumnsOf rows.now c.now) }
    ensures { let test = matches (tree_of query.now) in
        IfOk result (λ found. I.inverts index.now (documents rows.now)
        → length live.now.marks ≡ length rows.now
        → found.items ≡ rows_where test (documents_now rows.now live.now.marks)) }
{
    let current = Current {
        index,
        rows,
        live,
        columns,
    };
    answer(alloc, query, &current)
}

/// Kills those of the rows that match a query now that were born before its number.
fn delete_matching<I: Inverted>(
    alloc: Global,
    index: &I,
    rows: &[Row],
    delete: &QueryDelete,
    live: &mut LiveDocs,
    columns: Option<&Columns>,
) -> Result<(), NoMemory>
    requires marks { length live.old.marks ≡ length rows.now }
    requires columns { IfSome columns (λ c. AreColumnsOf rows.now c.now) }
    ensures applied { OnOk result (live.new.applied ≡ live.old.applied) }
    ensures long { OnOk result (length live.new.marks ≡ length rows.now) }
    ensures later { OnOk result (MarksLater live.old.marks live.new.marks) }
    ensures marks { let marks = marks_touched (query_delete delete.now) rows.now live.old.marks in
        OnOk result (I.inverts index.now (documents rows.now) → live.new.marks ≡ marks) }
{
    let found = matching(alloc, index, rows, &delete.query, live, columns)?;
    kill_found(rows, live, found.as_slice(), delete.number);
    Ok(())
}

/// Sets a number in the live rows that hold the setting's term and were born before it.
fn set_holding<I: Inverted>(
    alloc: Global,
    index: &I,
    rows: &[Row],
    update: &Setting,
    place: &mut usize,
    live: &mut LiveDocs,
) -> Result<(), NoMemory>
    requires { length live.old.marks ≡ length rows.now }
    ensures applied { OnOk result (live.new.applied ≡ live.old.applied) }
    ensures long { OnOk result (length live.new.marks ≡ length rows.now) }
    ensures later { OnOk result (MarksLater live.old.marks live.new.marks) }
    ensures marks { let marks = marks_touched (setting update.now) rows.now live.old.marks in
        OnOk result (I.inverts index.now (documents rows.now) → live.new.marks ≡ marks) }
{
    let found = index.holding_from(alloc, &update.term, place)?;
    set_found(alloc, rows, live, found.as_slice(), update)
}

/// Kills those of the rows that match a query with ranges now that were born before its number. The
/// columns of its ranges' names are made, where they aren't there.
fn delete_in_ranges<I: Inverted>(
    alloc: Global,
    index: &I,
    rows: &[Row],
    delete: &QueryDelete,
    live: &mut LiveDocs,
    columns: &mut Columns,
) -> Result<(), NoMemory>
    requires marks { length live.old.marks ≡ length rows.now }
    requires columns { AreColumnsOf rows.now columns.old }
    ensures applied { OnOk result (live.new.applied ≡ live.old.applied) }
    ensures long { OnOk result (length live.new.marks ≡ length rows.now) }
    ensures later { OnOk result (MarksLater live.old.marks live.new.marks) }
    ensures columns { AreColumnsOf rows.now columns.new }
    ensures marks { let marks = marks_touched (query_delete delete.now) rows.now live.old.marks in
        OnOk result (I.inverts index.now (documents rows.now) → live.new.marks ≡ marks) }
{
    columns.prepare(alloc, rows, &delete.query)?;
    delete_matching(alloc, index, rows, delete, live, Some(columns))
}

/// Applies a setting, or a delete by a query with a range.
fn apply_change<I: Inverted>(
    alloc: Global,
    index: &I,
    rows: &[Row],
    update: &Change,
    place: &mut usize,
    live: &mut LiveDocs,
    columns: &mut Columns,
) -> Result<(), NoMemory>
    requires marks { length live.old.marks ≡ length rows.now }
    requires columns { AreColumnsOf rows.now columns.old }
    ensures applied { OnOk result (live.new.applied ≡ live.old.applied) }
    ensures long { OnOk result (length live.new.marks ≡ length rows.now) }
    ensures later { OnOk result (MarksLater live.old.marks live.new.marks) }
    ensures columns { AreColumnsOf rows.now columns.new }
    ensures marks { let marks = marks_touched (change update.now) rows.now live.old.marks in
        OnOk result (I.inverts index.now (documents rows.now) → live.new.marks ≡ marks) }
{
    match update {
        Change::Set(setting) => set_holding(alloc, index, rows, setting, place, live),
        Change::Delete(delete) => delete_in_ranges(alloc, index, rows, delete, live, columns),
    }
}

/// The number of an update's operation.
fn number_of(update: &Change) -> u64
    ensures { result ≡ (change update.now).0 }
{
    match update {
        Change::Set(setting) => setting.number,
        Change::Delete(delete) => delete.number,
    }
}

/// Applies the deletes by a query without a range that are numbered above `low`.
fn apply_queries<I: Inverted>(
    alloc: Global,
    index: &I,
    rows: &[Row],
    queries: &[QueryDelete],
    low: u64,
    live: &mut LiveDocs,
) -> Result<(), NoMemory>
    requires { length live.old.marks ≡ length rows.now }
    ensures applied { OnOk result (live.new.applied ≡ live.old.applied) }
    ensures long { OnOk result (length live.new.marks ≡ length rows.now) }
    ensures later { OnOk result (MarksLater live.old.marks live.new.marks) }
    ensures marks { let ops = above low (map query_delete queries.now) in
        let marks = marks_after ops rows.now live.old.marks in
        OnOk result (I.inverts index.now (documents rows.now) → live.new.marks ≡ marks) }
{
    for delete in queries {
        if delete.number <= low {
            continue;
        }
        delete_matching(alloc, index, rows, delete, live, None)?;
    }
    Ok(())
}

/// Applies in order the settings, and the deletes by a query with a range, that are numbered above
/// `low`.
fn apply_changes<I: Inverted>(
    alloc: Global,
    index: &I,
    rows: &[Row],
    updates: &[Change],
    low: u64,
    live: &mut LiveDocs,
) -> Result<(), NoMemory>
    requires { length live.old.marks ≡ length rows.now }
    ensures applied { OnOk result (live.new.applied ≡ live.old.applied) }
    ensures long { OnOk result (length live.new.marks ≡ length rows.now) }
    ensures later { OnOk result (MarksLater live.old.marks live.new.marks) }
    ensures marks { let ops = above low (map change updates.now) in
        let marks = marks_after ops rows.now live.old.marks in
        OnOk result (I.inverts index.now (documents rows.now) → live.new.marks ≡ marks) }
{
    let mut place = 0;
    let mut columns = Columns::new(alloc);
    for update in updates {
        if number_of(update) <= low {
            continue;
        }
        apply_change(alloc, index, rows, update, &mut place, live, &mut columns)?;
    }
    Ok(())
}

/// Applies the updates that are numbered above `low`.
fn mark_updates<I: Inverted>(
    alloc: Global,
    index: &I,
    rows: &[Row],
    updates: &Updates,
    low: u64,
    live: &mut LiveDocs,
) -> Result<(), NoMemory>
    requires { length live.old.marks ≡ length rows.now }
    ensures applied { OnOk result (live.new.applied ≡ live.old.applied) }
    ensures long { OnOk result (length live.new.marks ≡ length rows.now) }
    ensures later { OnOk result (MarksLater live.old.marks live.new.marks) }
    ensures marks { let ops = above low (as_operations updates.now) in
        let marks = marks_after ops rows.now live.old.marks in
        OnOk result (I.inverts index.now (documents rows.now) → live.new.marks ≡ marks) }
{
    apply_deletes(alloc, index, rows, updates.deletes(), low, live)?;
    apply_queries(alloc, index, rows, updates.queries(), low, live)?;
    apply_changes(alloc, index, rows, updates.changes(), low, live)
}

/// Applies to the segment's live docs the updates that are numbered above `low`: rows die, and
/// numbers are set in live rows. Updates act only on rows that were born before them. The live docs keep their
/// applied number. After an error some of the updates may be in them.
pub fn apply_updates(
    alloc: Global,
    segment: &Segment,
    updates: &Updates,
    low: u64,
    live: &mut LiveDocs,
) -> Result<(), NoMemory>
    requires { IsWhole segment.now live.old }
    ensures applied { OnOk result (live.new.applied ≡ live.old.applied) }
    ensures whole { OnOk result (IsWhole segment.now live.new) }
    ensures later { OnOk result (MarksLater live.old.marks live.new.marks) }
    ensures fates { let fates = Fated low updates.now segment.now.rows in
        OnOk result (IsInverted segment.now → fates live.old.marks live.new.marks) }
{
    let rows = segment.rows.as_slice();
    mark_updates(alloc, segment, rows, updates, low, live)
}
