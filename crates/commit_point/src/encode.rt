//! A commit file as bytes.
ghost use Rattle.std.specs.Prelude.{◌≡◌, ◌++◌, OnOk, IfOk};
ghost use Rattle.std.specs.List.{flat_map};
ghost use Rattle.segment_files.specs.Fits.{PairsFit};
ghost use Rattle.commit_point.specs.Spelling.{entry, commit_file, tail_of};

use crate::heads::{CommitFormat, Head, HeadSegment};
use crate::marks::put_mark;
use ix_base::codec::{put_u32, put_u64};
use ix_base::{Fields, NoMemory};
use segment_files::put_fields;
use std::alloc::Global;

/// Appends a segment of a commit file. After an error a prefix of it may stand there.
fn put_segment(out: &mut Vec<u8>, segment: &HeadSegment) -> Result<(), NoMemory>
    ensures { OnOk result (out.new.items ≡ out.old.items ++ entry segment.now) }
{
    put_u64(out, segment.id)?;
    put_u32(out, segment.rows)?;
    put_u64(out, segment.written)?;
    Ok(())
}

/// Appends segments of a commit file. After an error a prefix of them may stand there.
fn put_segments(out: &mut Vec<u8>, segments: &[HeadSegment]) -> Result<(), NoMemory>
    ensures { OnOk result (out.new.items ≡ out.old.items ++ flat_map entry segments.now) }
{
    for segment in segments {
        put_segment(out, segment)?;
    }
    Ok(())
}

/// Appends the pairs, in the second form. After an error a prefix of them may stand there.
fn put_tail(out: &mut Vec<u8>, format: CommitFormat, pairs: &Fields) -> Result<(), NoMemory>
    ensures bytes { OnOk result (out.new.items ≡ out.old.items ++ tail_of format pairs.now) }
    ensures fits { OnOk result (format ≡ CommitFormat.Second → PairsFit pairs.now) }
{
    match format {
        CommitFormat::First => Ok(()),
        CommitFormat::Second => put_fields(out, pairs),
    }
}

/// Appends a commit file. After an error a prefix of it may stand there.
fn put_head(out: &mut Vec<u8>, head: &Head) -> Result<(), NoMemory>
    ensures bytes { OnOk result (out.new.items ≡ out.old.items ++ commit_file head.now) }
    ensures fits { OnOk result (head.now.format ≡ CommitFormat.Second → PairsFit head.now.pairs) }
{
    let segments = head.segments.as_slice();
    put_mark(out, head.format)?;
    put_u64(out, head.number)?;
    put_u64(out, head.docs)?;
    put_u64(out, head.next_id)?;
    put_u64(out, segments.len() as u64)?;
    put_segments(out, segments)?;
    put_tail(out, head.format, &head.pairs)?;
    Ok(())
}

/// The commit file that says this, in its form.
pub fn encode_commit(alloc: Global, head: &Head) -> Result<Vec<u8>, NoMemory>
    ensures bytes { IfOk result (λ bytes. bytes.items ≡ commit_file head.now) }
    ensures fits { OnOk result (head.now.format ≡ CommitFormat.Second → PairsFit head.now.pairs) }
{
    let mut out = Vec::new(alloc);
    put_head(&mut out, head)?;
    Ok(out)
}
