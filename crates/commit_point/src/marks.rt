//! The mark: the eight bytes that a commit file begins with, written and read.
ghost use Rattle.std.specs.Prelude.{◌≡◌, ◌++◌, OnOk};
ghost use Rattle.ix_base.specs.Codec.{GivesExactly};
ghost use Rattle.commit_point.specs.Reading.{format_at};
ghost use Rattle.commit_point.specs.Spelling.{mark_of};

use crate::heads::CommitFormat;
use ix_base::NoMemory;
use ix_base::codec::{BrokenField, after_mark};

/// Appends the mark of a form. After an error a prefix of it may stand there.
#[tactic(auto, unfolding(crate::specs::Spelling::first_mark, crate::specs::Spelling::second_mark))]
pub(crate) fn put_mark(out: &mut Vec<u8>, format: CommitFormat) -> Result<(), NoMemory>
    ensures { OnOk result (out.new.items ≡ out.old.items ++ mark_of format) }
{
    let mark = match format {
        CommitFormat::First => b"IXCOM001",
        CommitFormat::Second => b"IXCOM002",
    };
    out.extend_from_slice(mark)?;
    Ok(())
}

/// The form that the mark tells, and the bytes after it.
#[tactic(auto, unfolding(crate::specs::Reading::format_at, crate::specs::Spelling::first_mark, crate::specs::Spelling::second_mark))]
pub(crate) fn format_of(bytes: &[u8]) -> Result<(CommitFormat, &[u8]), BrokenField>
    ensures { GivesExactly (λ x. (x.0, x.1.now)) result (format_at bytes.now) }
{
    match after_mark(b"IXCOM002", bytes) {
        Ok(rest) => Ok((CommitFormat::Second, rest)),
        Err(_) => match after_mark(b"IXCOM001", bytes) {
            Ok(rest) => Ok((CommitFormat::First, rest)),
            Err(broken) => Err(broken),
        },
    }
}
