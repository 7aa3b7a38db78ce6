//! Rows killed and numbers set, in steps that were worked out by hand.
ghost use Rattle.std.specs.Prelude.{◌≡◌, ◌<◌, length, IfOk, OnOk};

use ix_base::{Name, NoMemory, Numbers};
use live_docs::{LiveDocs, Mark};
use std::alloc::Global;
use std::fmt::Write;
use std::test::Fail;
use test_values::{name_of, number_of};

/// Three rows. The second is killed, twice; in the third the second name is set, then the first, then the
/// second again.
fn three_rows(alloc: Global, first: &Name, second: &Name) -> Result<LiveDocs, NoMemory>
    ensures { IfOk result (λ docs. length docs.marks ≡ 3) }
{
    let mut docs = LiveDocs::new(alloc, 3, 7)?;
    docs.kill(1);
    docs.kill(1);
    docs.set_value(alloc, 2, second, 1)?;
    docs.set_value(alloc, 2, first, -2)?;
    docs.set_value(alloc, 2, second, 3)?;
    docs.clone_in(alloc)
}

/// The first of these names under which this row has another number than the one beside it.
fn other_number<'a>(
    alloc: Global,
    docs: &LiveDocs,
    row: u32,
    wanted: &'a [(&'a str, Option<i64>)],
) -> Result<Option<&'a str>, Fail>
    requires { row < length docs.now.marks }
{
    for (bytes, value) in wanted {
        if docs.value(row, &name_of(alloc, bytes)?) != *value {
            return Ok(Some(*bytes));
        }
    }
    Ok(None)
}

fn rows_of_a_and_b(alloc: Global) -> Result<LiveDocs, Fail>
    ensures { IfOk result (λ docs. length docs.marks ≡ 3) }
{
    let first = name_of(alloc, "a")?;
    let second = name_of(alloc, "b")?;
    Ok(three_rows(alloc, &first, &second)?)
}

#[test]
fn rows_and_counts(rt: HostRuntime) -> Result<(), Fail> {
    let docs = rows_of_a_and_b(rt.alloc())?;
    assert!(rt; (docs.applied(), docs.live_count(), docs.values(2).len()) == (7, 2, 2));
    assert!(rt; docs.is_live(0) && !docs.is_live(1) && docs.is_live(2));
    Ok(())
}

#[test]
fn numbers_that_were_set(rt: HostRuntime) -> Result<(), Fail> {
    let docs = rows_of_a_and_b(rt.alloc())?;
    let set = [("a", Some(-2)), ("b", Some(3)), ("c", None)];
    assert!(rt; other_number(rt.alloc(), &docs, 2, &set)? == None);
    Ok(())
}

#[test]
fn numbers_of_another_row(rt: HostRuntime) -> Result<(), Fail> {
    let docs = rows_of_a_and_b(rt.alloc())?;
    let none = [("a", None), ("b", None), ("c", None)];
    assert!(rt; other_number(rt.alloc(), &docs, 1, &none)? == None);
    Ok(())
}

/// Nine rows with numbers in four of them, which are set in falling order, in one of them twice.
/// Two of the four are killed, one before and one after its number is set, and a further one.
fn falling_rows(alloc: Global, name: &Name) -> Result<LiveDocs, NoMemory> {
    let mut docs = LiveDocs::new(alloc, 9, 7)?;
    docs.kill(3);
    docs.set_value(alloc, 8, name, 1)?;
    docs.set_value(alloc, 5, name, 2)?;
    docs.set_value(alloc, 5, name, 0)?;
    docs.set_value(alloc, 3, name, 3)?;
    docs.set_value(alloc, 0, name, 4)?;
    docs.kill(8);
    docs.kill(4);
    Ok(docs)
}

/// Whether these are the rows with numbers.
fn are_numbered(alloc: Global, docs: &LiveDocs, rows: &[u32]) -> Result<bool, NoMemory> {
    Ok(docs.numbered_rows(alloc)?.as_slice() == rows)
}

#[test]
fn rows_without_numbers(rt: HostRuntime) -> Result<(), Fail> {
    let none = LiveDocs::new(rt.alloc(), 9, 7)?;
    assert!(rt; are_numbered(rt.alloc(), &none, &[])?);
    Ok(())
}

#[test]
fn rows_with_numbers(rt: HostRuntime) -> Result<(), Fail> {
    let name = name_of(rt.alloc(), "a")?;
    let docs = falling_rows(rt.alloc(), &name)?;
    assert!(rt; are_numbered(rt.alloc(), &docs, &[0, 3, 5, 8])?);
    Ok(())
}

/// The marks of two rows: those of a live one with these numbers, and those of one with none.
fn two_marks(alloc: Global, values: Numbers, second_lives: bool) -> Result<Vec<Mark>, NoMemory>
    ensures { IfOk result (λ marks. length marks.items ≡ 2) }
{
    let mut marks = Vec::new(alloc);
    marks.push(Mark { live: true, values })?;
    marks.push(Mark {
        live: second_lives,
        values: Numbers::none(alloc),
    })?;
    Ok(marks)
}

/// Two rows: a live one with this number set in it, and one with none.
fn two_rows(alloc: Global, bytes: &str, value: i64, second_lives: bool) -> Result<LiveDocs, Fail> {
    let values = number_of(alloc, bytes, value)?;
    Ok(LiveDocs::from_marks(alloc, 9, two_marks(alloc, values, second_lives)?)?)
}

/// Whether live docs have the marks of two rows that are made so.
fn same_as(
    alloc: Global,
    docs: &LiveDocs,
    bytes: &str,
    value: i64,
    second_lives: bool,
) -> Result<bool, Fail> {
    Ok(docs.same_marks(&two_rows(alloc, bytes, value, second_lives)?))
}

#[test]
fn compared(rt: HostRuntime) -> Result<(), Fail> {
    let docs = two_rows(rt.alloc(), "a", 1, false)?;
    assert!(rt; (docs.applied(), docs.live_count()) == (9, 1));
    let cases = [
        ("a", 1, false, true),
        ("a", 2, false, false),
        ("b", 1, false, false),
        ("a", 1, true, false),
    ];
    for (bytes, value, second_lives, same) in cases {
        assert!(rt; same_as(rt.alloc(), &docs, bytes, value, second_lives)? == same);
    }
    Ok(())
}

/// What is to stand in a row of many: whether it is live, and its number by the name `a`.
fn plain(row: u32) -> (bool, Option<i64>) {
    let value = if row % 97 == 5 {
        Some(i64::from(row) - 1000)
    } else {
        None
    };
    (row % 3 != 0, value)
}

fn make_plain(alloc: Global, docs: &mut LiveDocs, row: u32, name: &Name) -> Result<(), NoMemory>
    requires { row < length docs.old.marks }
    ensures { OnOk result (length docs.new.marks ≡ length docs.old.marks) }
{
    let (live, value) = plain(row);
    if !live {
        docs.kill(row);
    }
    let Some(value) = value else {
        return Ok(());
    };
    docs.set_value(alloc, row, name, 7)?;
    docs.set_value(alloc, row, name, value)
}

/// Many rows, which are changed in an order that isn't theirs.
fn many_rows(alloc: Global, name: &Name) -> Result<LiveDocs, NoMemory>
    ensures { IfOk result (λ docs. length docs.marks ≡ 3000) }
{
    let mut docs = LiveDocs::new(alloc, 3000, 1)?;
    for step in 0..3000 {
        make_plain(alloc, &mut docs, step * 7 % 3000, name)?;
    }
    docs.clone_in(alloc)
}

/// Whether a row is live, and has the number, as it is to be.
fn is_plain(docs: &LiveDocs, row: u32, name: &Name) -> bool
    requires { row < length docs.now.marks }
{
    let (live, value) = plain(row);
    docs.is_live(row) == live
        && docs.value(row, name) == value
        && docs.values(row).len() == usize::from(value.is_some())
}

/// The first of many rows that isn't as it is to be.
fn first_other(docs: &LiveDocs, name: &Name) -> Option<u32>
    requires { length docs.now.marks ≡ 3000 }
{
    for row in 0..3000 {
        if !is_plain(docs, row, name) {
            return Some(row);
        }
    }
    None
}

/// The first of the rows that isn't the one where the next number is to be.
fn first_misplaced(rows: &[u32]) -> Option<u32> {
    for (i, row) in rows.iter().enumerate() {
        if (*row as usize / 97, *row % 97) != (i, 5) {
            return Some(*row);
        }
    }
    None
}

/// Many rows under the name `a`.
fn many_rows_of_a(alloc: Global) -> Result<LiveDocs, Fail> {
    let name = name_of(alloc, "a")?;
    Ok(many_rows(alloc, &name)?)
}

#[test]
fn many_rows_beside_a_plain_list(rt: HostRuntime) -> Result<(), Fail> {
    let name = name_of(rt.alloc(), "a")?;
    let docs = many_rows(rt.alloc(), &name)?;
    assert!(rt; first_other(&docs, &name) == None);
    Ok(())
}

#[test]
fn many_rows_with_numbers(rt: HostRuntime) -> Result<(), Fail> {
    let docs = many_rows_of_a(rt.alloc())?;
    assert!(rt; docs.live_count() == 2000);
    let numbered = docs.numbered_rows(rt.alloc())?;
    assert!(rt; (numbered.len(), first_misplaced(numbered.as_slice())) == (31, None));
    Ok(())
}

/// Whether many rows are the same where the number was set in one of them once more.
fn same_with(alloc: Global, name: &Name, row: u32, value: i64) -> Result<bool, NoMemory> {
    let docs = many_rows(alloc, name)?;
    let mut other = many_rows(alloc, name)?;
    if row < 3000 {
        other.set_value(alloc, row, name, value)?;
    }
    Ok(docs.same_marks(&other))
}

#[test]
fn many_rows_compared(rt: HostRuntime) -> Result<(), Fail> {
    let name = name_of(rt.alloc(), "a")?;
    let cases = [
        (3000, 0, true),
        (5, -995, true),
        (2915, 1915, true),
        (5, -994, false),
        (6, -995, false),
    ];
    for (row, value, same) in cases {
        assert!(rt; same_with(rt.alloc(), &name, row, value)? == same);
    }
    Ok(())
}

/// Many rows, the last of which is killed.
fn with_last_killed(alloc: Global) -> Result<LiveDocs, Fail> {
    let name = name_of(alloc, "a")?;
    let mut docs = many_rows(alloc, &name)?;
    docs.kill(2999);
    Ok(docs)
}

#[test]
fn one_row_of_many_dies(rt: HostRuntime) -> Result<(), Fail> {
    let docs = many_rows_of_a(rt.alloc())?;
    let other = with_last_killed(rt.alloc())?;
    assert!(rt; !docs.same_marks(&other));
    Ok(())
}

/// The name of one of many numbers.
fn name_at(alloc: Global, at: u32) -> Result<Name, Fail> {
    let mut text = String::new(alloc);
    write!(text, "n{at}")?;
    name_of(alloc, text.as_str())
}

/// Two rows. In the second forty numbers are set twice each, in an order that isn't that of their
/// names: at the step s the number of s * 7 % 40 gets the value s.
fn forty_numbers(alloc: Global) -> Result<LiveDocs, Fail>
    ensures { IfOk result (λ docs. length docs.marks ≡ 2) }
{
    let mut docs = LiveDocs::new(alloc, 2, 1)?;
    for step in 0..80 {
        let name = name_at(alloc, step * 7 % 40)?;
        docs.set_value(alloc, 1, &name, i64::from(step))?;
    }
    Ok(docs)
}

/// The first of the forty numbers that hasn't the value that was set last. As 7 * 23 is 1 more than
/// a multiple of 40, the number `at` was set last at the step 40 + at * 23 % 40.
fn first_other_number(alloc: Global, docs: &LiveDocs) -> Result<Option<u32>, Fail>
    requires { length docs.now.marks ≡ 2 }
{
    for at in 0..40 {
        let wanted = Some(i64::from(40 + at * 23 % 40));
        if docs.value(1, &name_at(alloc, at)?) != wanted {
            return Ok(Some(at));
        }
    }
    Ok(None)
}

#[test]
fn forty_numbers_of_a_row(rt: HostRuntime) -> Result<(), Fail> {
    let docs = forty_numbers(rt.alloc())?;
    assert!(rt; (docs.values(0).len(), docs.values(1).len()) == (0, 40));
    assert!(rt; first_other_number(rt.alloc(), &docs)? == None);
    Ok(())
}

/// The number of the third of three rows, and that of a copy in which it was set anew.
fn set_in_copy(alloc: Global) -> Result<(Option<i64>, Option<i64>), Fail> {
    let name = name_of(alloc, "a")?;
    let docs = rows_of_a_and_b(alloc)?;
    let mut copy = docs.clone_in(alloc)?;
    copy.set_value(alloc, 2, &name, 9)?;
    Ok((docs.value(2, &name), copy.value(2, &name)))
}

/// The same, where the number is set anew in what the copy is a copy of.
fn set_in_first(alloc: Global) -> Result<(Option<i64>, Option<i64>), Fail> {
    let name = name_of(alloc, "a")?;
    let mut docs = rows_of_a_and_b(alloc)?;
    let copy = docs.clone_in(alloc)?;
    docs.set_value(alloc, 2, &name, 9)?;
    Ok((docs.value(2, &name), copy.value(2, &name)))
}

/// A copy shares its numbers until one of both is changed.
#[test]
fn copies_change_apart(rt: HostRuntime) -> Result<(), Fail> {
    assert!(rt; set_in_copy(rt.alloc())? == (Some(-2), Some(9)));
    assert!(rt; set_in_first(rt.alloc())? == (Some(9), Some(-2)));
    Ok(())
}
