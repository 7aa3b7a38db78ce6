//! How many bytes rows and postings take in a file, counted without making them: what is left of a
//! room behind each part. It stops at the first part that the room has no place for.
ghost use Rattle.std.specs.Prelude.{◌≡◌, ◌*◌, length};
ghost use Rattle.std.specs.List.{flat_map};
ghost use Rattle.ix_base.specs.Grouped.{grouped};
ghost use Rattle.ix_base.specs.Spelling.{text_bytes};
ghost use Rattle.segment_files.specs.Sizes.{Leaves, postings_size, rows_size};
ghost use Rattle.segment_files.specs.Spelling.{document, field, fields, number_bytes, numbers_bytes, posting, row, term_postings};

use crate::put_places::first_row;
use ix_base::{Document, Fields, Name, Numbers, Postings, Row, Spot, TermPostings, Text};

/// What is left of a room behind so many bytes.
fn behind(room: u64, bytes: usize) -> Option<u64>
    ensures { Leaves room bytes result }
{
    room.checked_sub(bytes as u64)
}

/// What is left behind a text, or a name, with its length.
fn behind_text(room: u64, text: &str) -> Option<u64>
    ensures { Leaves room (length (text_bytes text.now)) result }
{
    behind(behind(room, 4)?, text.len())
}

fn behind_field(room: u64, pair: &(Name, Text)) -> Option<u64>
    ensures { Leaves room (length (field pair.now)) result }
{
    behind_text(behind_text(room, pair.0.as_str())?, pair.1.as_str())
}

fn behind_fields(room: u64, pairs: &Fields) -> Option<u64>
    ensures { Leaves room (length (fields pairs.now)) result }
{
    let items = pairs.as_slice();
    let mut left = behind(room, 4)?;
    for pair in items {
        left = behind_field(left, pair)?;
    }
    Some(left)
}

fn behind_number(room: u64, pair: &(Name, i64)) -> Option<u64>
    ensures { Leaves room (length (number_bytes pair.now)) result }
{
    behind(behind_text(room, pair.0.as_str())?, 8)
}

fn behind_numbers(room: u64, pairs: &Numbers) -> Option<u64>
    ensures { Leaves room (length (numbers_bytes pairs.now)) result }
{
    let items = pairs.as_slice();
    let mut left = behind(room, 8)?;
    for pair in items {
        left = behind_number(left, pair)?;
    }
    Some(left)
}

fn behind_document(room: u64, doc: &Document) -> Option<u64>
    ensures { Leaves room (length (document doc.now)) result }
{
    let left = behind_text(room, doc.key.as_str())?;
    let left = behind_fields(left, &doc.text)?;
    let left = behind_fields(left, &doc.exact)?;
    behind_numbers(left, &doc.num)
}

fn behind_row(room: u64, item: &Row) -> Option<u64>
    ensures { Leaves room (length (row item.now)) result }
{
    behind_document(behind(room, 12)?, &item.doc)
}

/// What is left of a room, in bytes, behind these rows of a file: `None` exactly where they take more.
/// It takes no memory.
pub fn behind_rows(room: u64, rows: &[Row]) -> Option<u64>
    ensures { Leaves room (rows_size rows.now) result }
{
    let mut left = room;
    for item in rows {
        left = behind_row(left, item)?;
    }
    Some(left)
}

/// What is left behind so many numbers of four bytes each.
fn behind_fours(room: u64, count: usize) -> Option<u64>
    ensures { Leaves room (4 * count) result }
{
    let left = behind(behind(room, count)?, count)?;
    behind(behind(left, count)?, count)
}

/// What is left behind the rows of these places, each with its positions.
fn behind_places(room: u64, spots: &[Spot]) -> Option<u64>
    ensures { Leaves room (length (flat_map posting (grouped spots.now))) result }
{
    let mut left = room;
    let mut rest = spots;
    while let Some((_, run, other)) = first_row(rest) {
        left = behind_fours(behind(left, 8)?, run.len())?;
        rest = other;
    }
    Some(left)
}

fn behind_entry(room: u64, entry: &TermPostings) -> Option<u64>
    ensures { Leaves room (length (term_postings entry.now)) result }
{
    let left = behind_text(room, entry.term.field.as_str())?;
    let left = behind_text(left, entry.term.bytes.as_str())?;
    behind_places(behind(left, 4)?, entry.rows.as_slice())
}

/// What is left of a room, in bytes, behind these postings of a file: `None` exactly where they take
/// more. It takes no memory.
pub fn behind_postings(room: u64, postings: &Postings) -> Option<u64>
    ensures { Leaves room (postings_size postings.now) result }
{
    let entries = postings.terms.as_slice();
    let mut left = room;
    for entry in entries {
        left = behind_entry(left, entry)?;
    }
    Some(left)
}
