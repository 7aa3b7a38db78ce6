//! Marks: the eight bytes that each kind of a segment's files begins with, written and read.
ghost use Rattle.std.specs.Prelude.{◌≡◌, ◌++◌, OnOk};
ghost use Rattle.ix_base.specs.Codec.{GivesExactly};
ghost use Rattle.ix_base.specs.FileReading.{mark_at};
ghost use Rattle.live_files.specs.LiveSpelling.{live_mark, values_mark};

use ix_base::NoMemory;
use ix_base::codec::{BrokenField, after_mark};

/// Appends the mark of a file of live bits. After an error a prefix of it may stand there.
#[tactic(auto, unfolding(crate::specs::LiveSpelling::live_mark))]
pub(crate) fn put_live_mark(out: &mut Vec<u8>) -> Result<(), NoMemory>
    ensures { OnOk result (out.new.items ≡ out.old.items ++ live_mark) }
{
    out.extend_from_slice(b"IXLIV001")?;
    Ok(())
}

/// Appends the mark of a file of set numbers. After an error a prefix of it may stand there.
#[tactic(auto, unfolding(crate::specs::LiveSpelling::values_mark))]
pub(crate) fn put_values_mark(out: &mut Vec<u8>) -> Result<(), NoMemory>
    ensures { OnOk result (out.new.items ≡ out.old.items ++ values_mark) }
{
    out.extend_from_slice(b"IXVAL001")?;
    Ok(())
}

/// The bytes after the mark of a file of live bits.
#[tactic(auto, unfolding(crate::specs::LiveSpelling::live_mark))]
pub(crate) fn live_mark_at(bytes: &[u8]) -> Result<&[u8], BrokenField>
    ensures { GivesExactly (λ rest. rest.now) result (mark_at live_mark bytes.now) }
{
    after_mark(b"IXLIV001", bytes)
}

/// The bytes after the mark of a file of set numbers.
#[tactic(auto, unfolding(crate::specs::LiveSpelling::values_mark))]
pub(crate) fn values_mark_at(bytes: &[u8]) -> Result<&[u8], BrokenField>
    ensures { GivesExactly (λ rest. rest.now) result (mark_at values_mark bytes.now) }
{
    after_mark(b"IXVAL001", bytes)
}
