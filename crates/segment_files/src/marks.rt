//! Marks: the eight bytes that each kind of a segment's files begins with, written and read.
ghost use Rattle.std.specs.Prelude.{◌≡◌, ◌++◌, OnOk};
ghost use Rattle.ix_base.specs.Codec.{GivesExactly};
ghost use Rattle.ix_base.specs.FileReading.{mark_at};
ghost use Rattle.segment_files.specs.Reading.{format_at};
ghost use Rattle.segment_files.specs.Spelling.{rows_mark, posts_mark};

use ix_base::NoMemory;
use ix_base::codec::{BrokenField, after_mark};

/// The form of a file of rows.
#[derive(Clone, Copy, Debug, PartialEq, Eq)]
pub(crate) enum RowFormat {
    /// The first one, in which no places stand: each place is 0. It is read, and no longer written.
    First,
    /// The second one: behind each row's number stands its place.
    Second,
}

/// Appends the mark of a file of rows, in the second form. After an error a prefix of it may stand there.
#[tactic(auto, unfolding(crate::specs::Spelling::rows_mark))]
pub(crate) fn put_rows_mark(out: &mut Vec<u8>) -> Result<(), NoMemory>
    ensures { OnOk result (out.new.items ≡ out.old.items ++ rows_mark) }
{
    out.extend_from_slice(b"IXROW002")?;
    Ok(())
}

/// Appends the mark of a file of postings. After an error a prefix of it may stand there.
#[tactic(auto, unfolding(crate::specs::Spelling::posts_mark))]
pub(crate) fn put_posts_mark(out: &mut Vec<u8>) -> Result<(), NoMemory>
    ensures { OnOk result (out.new.items ≡ out.old.items ++ posts_mark) }
{
    out.extend_from_slice(b"IXPST001")?;
    Ok(())
}

/// The form of a file of rows that the mark tells, and the bytes after it.
#[tactic(auto, unfolding(crate::specs::Reading::format_at, crate::specs::Spelling::old_rows_mark, crate::specs::Spelling::rows_mark))]
pub(crate) fn row_format_of(bytes: &[u8]) -> Result<(RowFormat, &[u8]), BrokenField>
    ensures { GivesExactly (λ x. (x.0, x.1.now)) result (format_at bytes.now) }
{
    match after_mark(b"IXROW002", bytes) {
        Ok(rest) => Ok((RowFormat::Second, rest)),
        Err(_) => match after_mark(b"IXROW001", bytes) {
            Ok(rest) => Ok((RowFormat::First, rest)),
            Err(broken) => Err(broken),
        },
    }
}

/// The bytes after the mark of a file of postings.
#[tactic(auto, unfolding(crate::specs::Spelling::posts_mark))]
pub(crate) fn posts_mark_at(bytes: &[u8]) -> Result<&[u8], BrokenField>
    ensures { GivesExactly (λ rest. rest.now) result (mark_at posts_mark bytes.now) }
{
    after_mark(b"IXPST001", bytes)
}
