//! The files of one commit, cut at every length and changed byte by byte.
use crate::tests_files::{
    BLOCK, COMMIT, FULL, PAIRS, SECOND, SMALL, TWO_SEGMENTS, bytes_of, store_of, told,
};
use commit_point::{open_commit, read_commit};
use ix_base::FileName;
use ix_outside::Store;
use std::alloc::Global;
use std::test::Fail;

/// What comes of opening the commit of these files, of which the one of this name has other bytes.
fn told_with(alloc: Global, files: [&str; 2], name: &str, bytes: &[u8]) -> Result<String, Fail> {
    let mut store = store_of(alloc, files)?;
    let Some(name) = FileName::parse(name) else {
        return Err("no name")?;
    };
    store.write(name, bytes)?;
    told(alloc, open_commit(alloc, &mut store, 2))
}

/// Where the field begins in which a file of these fields ends, cut at this length.
fn field_at(fields: &str, length: usize) -> usize {
    let (mut at, mut next) = (0usize, 0usize);
    for field in fields.split(' ') {
        if next <= length {
            at = next;
        }
        next = next.saturating_add(field.len() / 2);
    }
    at
}

/// The first length at which a file of a commit, cut there, isn't told to be broken in the field that it
/// ends in.
fn wrong_cut(alloc: Global, files: [&str; 2], file: &str) -> Result<Option<usize>, Fail> {
    let (name, fields) = file.split_once(' ').ok_or("no file")?;
    let whole = bytes_of(alloc, fields)?;
    for length in 0..whole.len() {
        if !is_told_cut(alloc, files, (name, fields), &whole[..length])? {
            return Ok(Some(length));
        }
    }
    Ok(None)
}

/// Whether a file of a commit, of which only this part is there, is told to be broken in the field that the
/// part ends in.
fn is_told_cut(
    alloc: Global,
    files: [&str; 2],
    (name, fields): (&str, &str),
    part: &[u8],
) -> Result<bool, Fail> {
    let want = format!(in alloc; "{name} {}", field_at(fields, part.len()))?;
    Ok(told_with(alloc, files, name, part)?.as_str() == want.as_str())
}

/// The first of some files of a commit of which some cut is told otherwise.
fn wrongly_cut<'a>(
    alloc: Global,
    files: [&str; 2],
    cut: &'a str,
) -> Result<Option<(&'a str, usize)>, Fail> {
    for file in cut.lines() {
        if let Some(length) = wrong_cut(alloc, files, file)? {
            return Ok(Some((file, length)));
        }
    }
    Ok(None)
}

/// Files of a commit, and which of them are cut.
#[test]
fn cut_files(rt: HostRuntime) -> Result<(), Fail> {
    for (files, cut) in [
        ([COMMIT, FULL], COMMIT),
        ([SECOND, FULL], SECOND),
        ([PAIRS, ""], PAIRS),
        ([COMMIT, FULL], FULL),
        ([COMMIT, SMALL], SMALL),
    ] {
        assert!(rt; wrongly_cut(rt.alloc(), files, cut)? == None);
    }
    Ok(())
}

/// Changes of files: the name, the place of a byte and what it becomes (behind the last one it is one byte
/// more), the broken place that is told then, and what the change is. These are of the commit with all
/// kinds of fields, whose commit file is in the first form.
const CHANGES: &str = "\
segments_2 7 33 0 the mark of no form
segments_2 7 32 60 the mark of the second form, whose count of pairs is not there
segments_2 15 03 8 another number
segments_2 23 02 16 another number of live rows
segments_2 24 40 24 a next id that is too great
segments_2 31 00 24 no next id
segments_2 31 01 40 the next id that the segment has
segments_2 39 02 60 one segment more
segments_2 39 00 40 no segment
segments_2 47 00 40 no id
segments_2 47 02 40 an id that isn't below the next one
segments_2 51 00 48 no row
segments_2 59 00 52 no commit
segments_2 59 03 52 a later commit
segments_2 60 00 60 one byte more
seg_1.row 0 00 0 another mark
seg_1.row 7 33 0 the mark of no form
seg_1.row 7 31 36 the mark of the first form, in which no place stands
seg_1.row 15 02 8 another id
seg_1.row 19 02 16 a row more
seg_1.row 19 00 16 no row
seg_1.row 27 00 20 no operation
seg_1.row 27 03 20 an operation after the commit
seg_1.row 31 40 28 a place that there isn't
seg_1.row 36 ff 32 no UTF-8 in the key
seg_1.row 45 00 42 a name without bytes
seg_1.row 44 01 42 a name that is longer than names are
seg_1.row 45 ff 42 a name that is longer than the file
seg_1.row 74 03 86 an exact text that is longer
seg_1.row 84 02 101 one number more
seg_1.row 101 00 101 one byte more
seg_1.pst 5 00 0 another mark
seg_1.pst 15 02 8 another id
seg_1.pst 19 02 16 a row more
seg_1.pst 27 05 147 one term more
seg_1.pst 27 03 118 one term fewer
seg_1.pst 31 00 28 a name without bytes
seg_1.pst 30 01 28 a name that is longer than names are
seg_1.pst 45 00 42 a term of no row
seg_1.pst 45 02 58 a term of one row more
seg_1.pst 49 01 46 a row that there isn't
seg_1.pst 53 00 50 no position
seg_1.pst 53 02 62 one position more
seg_1.pst 62 61 58 a field that comes too early
seg_1.pst 70 61 58 bytes that come too early
seg_1.pst 93 61 89 the third term's field comes too early
seg_1.pst 147 00 147 one byte more
seg_1_2.liv 7 32 0 another mark
seg_1_2.liv 15 02 8 another id
seg_1_2.liv 23 03 16 a later commit
seg_1_2.liv 23 01 16 an earlier commit
seg_1_2.liv 27 02 24 a row more
seg_1_2.liv 27 00 24 no row
seg_1_2.liv 28 00 28 no live row
seg_1_2.liv 28 03 28 a bit past the last row
seg_1_2.liv 29 00 29 one byte more
seg_1_2.val 7 32 0 another mark
seg_1_2.val 15 02 8 another id
seg_1_2.val 23 03 16 a later commit
seg_1_2.val 27 02 24 a row more
seg_1_2.val 35 00 36 a count of no number
seg_1_2.val 35 02 56 a count of one number more
seg_1_2.val 39 01 36 a row that there isn't
seg_1_2.val 43 00 40 a name without bytes
seg_1_2.val 42 01 40 a name that is longer than names are
seg_1_2.val 43 03 55 a name that is shorter
seg_1_2.val 44 ff 40 no UTF-8 in the name
seg_1_2.val 56 00 56 one byte more";

/// Changes of a commit file in the second form without pairs.
const SECOND_CHANGES: &str = "\
segments_2 7 33 0 the mark of no form
segments_2 7 31 60 the mark of the first form, in which nothing stands behind the segments
segments_2 39 02 60 one segment more
segments_2 39 00 44 no segment, so that the entry's first bytes are the count of pairs
segments_2 59 03 52 a later commit
segments_2 63 01 64 one pair, which is not there
segments_2 64 00 64 one byte more";

/// Changes of a commit file with pairs.
const PAIR_CHANGES: &str = "\
segments_2 7 33 0 the mark of no form
segments_2 43 01 56 one pair fewer
segments_2 43 03 65 one pair more
segments_2 47 00 44 a name without bytes
segments_2 48 ff 44 no UTF-8 in a name
segments_2 54 ff 51 a text that is longer than the file
segments_2 60 61 56 a name that falls
segments_2 65 00 65 a byte behind the last pair";

/// Changes of a commit of rows that were added together.
const BLOCK_CHANGES: &str = "\
seg_1.row 61 01 54 the number and the place that the row before has
seg_1.row 61 03 54 a number after the commit
seg_1.row 65 01 88 the place that the row behind has
seg_1.row 65 3f 88 a place with none behind it
seg_1.row 95 01 88 an earlier number
seg_1.row 99 00 88 the place that the row before has
seg_1.row 99 40 96 a place that there isn't";

/// Changes of the second of two segments: the operation 1 has a row in the first one.
const SECOND_SEGMENT_CHANGES: &str = "\
seg_2.row 27 01 20 the number of the operation that has a row in the earlier segment, at another place
seg_2.row 27 00 20 no operation
seg_2.row 31 40 28 a place that there isn't";

/// A change of the smallest commit.
const SMALL_CHANGE: &str = "seg_1_2.val 35 01 36 one number is counted, and none is there";

/// Changes a byte, or adds one at the end.
fn change_byte(bytes: &mut Vec<u8>, at: usize, to: u8) -> Result<(), Fail> {
    if at < bytes.len() {
        bytes[at] = to;
    } else {
        bytes.push(to)?;
    }
    Ok(())
}

/// What comes of opening the commit of these files, of which the one of this name has this byte at this
/// place.
fn told_changed(
    alloc: Global,
    files: [&str; 2],
    name: &str,
    at: usize,
    to: u8,
) -> Result<String, Fail> {
    let mut bytes = bytes_in(alloc, files, name)?;
    change_byte(&mut bytes, at, to)?;
    told_with(alloc, files, name, &bytes)
}

/// The bytes of the file of this name.
fn bytes_in(alloc: Global, files: [&str; 2], name: &str) -> Result<Vec<u8>, Fail> {
    let mut store = store_of(alloc, files)?;
    let file = FileName::parse(name).ok_or("no name")?;
    Ok(store.read(alloc, file)?.ok_or("no such file")?)
}

/// Whether the change of a file of a commit is told as the line says.
fn is_told(alloc: Global, files: [&str; 2], line: &str) -> Result<bool, Fail> {
    let mut words = line.split(' ');
    let name = words.next().ok_or("no name")?;
    let at = usize::from_str_radix(words.next().ok_or("no place")?, 10)?;
    let to = u8::from_str_radix(words.next().ok_or("no byte")?, 16)?;
    let told = told_changed(alloc, files, name, at, to)?;
    Ok(told.as_str().split_once(' ') == Some((name, words.next().unwrap_or(""))))
}

/// The first of these changes of a commit that is told otherwise.
fn told_otherwise<'a>(
    alloc: Global,
    files: [&str; 2],
    changes: &'a str,
) -> Result<Option<&'a str>, Fail> {
    for change in changes.lines() {
        if !is_told(alloc, files, change)? {
            return Ok(Some(change));
        }
    }
    Ok(None)
}

#[test]
fn changed_files(rt: HostRuntime) -> Result<(), Fail> {
    for (files, changes) in [
        ([COMMIT, FULL], CHANGES),
        ([SECOND, FULL], SECOND_CHANGES),
        ([PAIRS, ""], PAIR_CHANGES),
        ([BLOCK, ""], BLOCK_CHANGES),
        ([TWO_SEGMENTS, ""], SECOND_SEGMENT_CHANGES),
        ([COMMIT, SMALL], SMALL_CHANGE),
    ] {
        assert!(rt; told_otherwise(rt.alloc(), files, changes)? == None);
    }
    Ok(())
}

/// What comes of opening the commit without this file, or of reading it without a look at the list.
fn told_without(alloc: Global, name: &str, listed: bool) -> Result<String, Fail> {
    let mut store = store_of(alloc, [COMMIT, FULL])?;
    store.delete(FileName::parse(name).ok_or("no name")?)?;
    if listed {
        told(alloc, open_commit(alloc, &mut store, 2))
    } else {
        told(alloc, read_commit(alloc, &mut store, 2))
    }
}

/// A commit of which a file is gone. Where it is the commit file, a list doesn't show the commit, and a read
/// finds the file absent.
#[test]
fn absent_files(rt: HostRuntime) -> Result<(), Fail> {
    for (name, listed, want) in [
        ("seg_1.row", true, "seg_1.row 0"),
        ("seg_1.pst", true, "seg_1.pst 0"),
        ("seg_1_2.liv", true, "seg_1_2.liv 0"),
        ("seg_1_2.val", true, "seg_1_2.val 0"),
        ("segments_2", true, "NoSuch { number: 2 }"),
        ("segments_2", false, "segments_2 0"),
    ] {
        assert!(rt; told_without(rt.alloc(), name, listed)?.as_str() == want);
    }
    Ok(())
}
