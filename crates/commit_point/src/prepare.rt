//! The files of a commit as bytes, before one of them is written.
ghost use Rattle.std.specs.Prelude.{◌≡◌, ◌<◌, ◌^◌, ◌++◌, true, None, length, OnOk, IfOk};
ghost use Rattle.std.specs.List.{AllByRecursion};
ghost use Rattle.ix_base.specs.Counts.{doc_count};
ghost use Rattle.ix_base.specs.Inversion.{IsPostings};
ghost use Rattle.segment_core.specs.LiveRows.{IsWhole, all_live};
ghost use Rattle.segment_files.specs.Fits.{DocumentFits, PairsFit, PostingsFit, RowsBelow};
ghost use Rattle.live_files.specs.LiveFits.{LiveFits, ValuesFit};
ghost use Rattle.live_files.specs.LiveSpelling.{live_bits, values_of};
ghost use Rattle.commit_point.specs.Encoding.{own_entries, own_files, AreWhole, IsEncoded, IsEncodedAlive, AreEncoded, HaveSpelling};
ghost use Rattle.commit_point.specs.Spelling.{commit_file};
ghost use Rattle.commit_point.specs.Writing.{is_same, is_alive, version, row_files, live_files, files_of, entry_of, entries_of, commit_files, listed, new_head, CanWrite};

use crate::encode::encode_commit;
use crate::heads::{CommitFormat, Head, HeadSegment};
use crate::written::Written;
use ix_base::{Fields, FileName, List, NoMemory};
use live_files::{encode_liv, encode_val};
use segment_core::LiveSegment;
use segment_files::{encode_pst, encode_row};
use std::alloc::Global;

/// A commit before it is written: what its commit file says and the bytes of that, and the files
/// that are written before it.
#[derive(Drop)]
pub(crate) struct Prepared {
    pub head: Head,
    pub bytes: List<u8>,
    pub files: List<(FileName, List<u8>)>,
}

/// Whether a row of the segment is live. A commit lists such segments alone.
pub fn is_alive(segment: &LiveSegment) -> bool
    ensures { result ≡ is_alive segment.now }
{
    segment.live().live_count() > 0
}

/// How many rows of these segments are live, or `u64::MAX` where there are more. Segments that a commit
/// leaves out have none.
pub(crate) fn live_rows(segments: &[LiveSegment]) -> u64
    ensures rows { result ≡ doc_count (all_live segments.now) }
    ensures listed { result ≡ doc_count (all_live (listed segments.now)) }
    ensures whole { AreWhole segments.now }
{
    let mut count = 0u64;
    for segment in segments {
        count = count.saturating_add(u64::from(segment.live().live_count()));
    }
    count
}

/// Whether the live docs of the segment are those that were written last.
fn is_same(written: &Option<Written>, segment: &LiveSegment) -> bool
    ensures { result ≡ is_same written.now segment.now }
{
    match written {
        Some(was) => was.live.same_marks(segment.live()),
        None => false,
    }
}

/// The commit with which the live docs of the segment are written: this one, unless they are as
/// they were written before.
pub fn version(number: u64, written: &Option<Written>, segment: &LiveSegment) -> u64
    ensures { result ≡ version number written.now segment.now }
{
    match written {
        Some(was) => {
            if was.live.same_marks(segment.live()) {
                was.v
            } else {
                number
            }
        }
        None => number,
    }
}

/// The segment as the commit file of this number names it.
fn entry_of(number: u64, written: &Option<Written>, segment: &LiveSegment) -> HeadSegment
    requires { length segment.now.segment.rows < 2 ^ 32 }
    ensures { result ≡ entry_of number written.now segment.now }
{
    HeadSegment {
        id: segment.segment().id,
        rows: segment.segment().rows.len() as u32,
        written: version(number, written, segment),
    }
}

/// Appends the segment as the commit file of this number names it, where it has a live row.
fn put_entry(
    entries: &mut Vec<HeadSegment>,
    number: u64,
    written: &Option<Written>,
    segment: &LiveSegment,
) -> Result<(), NoMemory>
    requires { length segment.now.segment.rows < 2 ^ 32 }
    ensures { OnOk result (entries.new.items
        ≡ entries.old.items ++ own_entries number written.now segment.now) }
{
    if is_alive(segment) {
        entries.push(entry_of(number, written, segment))?;
    }
    Ok(())
}

/// The segments with a live row, as the commit file of this number names them.
fn entries(
    alloc: Global,
    number: u64,
    segments: &[LiveSegment],
    written: &[Option<Written>],
) -> Result<Vec<HeadSegment>, NoMemory>
    requires count { length written.now ≡ length segments.now }
    requires whole { AreWhole segments.now }
    ensures { IfOk result (λ entries. entries.items ≡ entries_of number segments.now written.now) }
{
    let mut entries = Vec::new(alloc);
    for i in 0..segments.len() {
        put_entry(&mut entries, number, &written[i], &segments[i])?;
    }
    Ok(entries)
}

/// Appends the rows and the postings of the segment. After an error the rows may stand there.
fn put_rows(
    alloc: Global,
    files: &mut Vec<(FileName, List<u8>)>,
    segment: &LiveSegment,
) -> Result<(), NoMemory>
    requires few { length segment.now.segment.rows < 2 ^ 32 }
    requires ordered { IsPostings segment.now.segment.postings.terms }
    requires below { RowsBelow (length segment.now.segment.rows) segment.now.segment.postings }
    ensures files { OnOk result (files.new.items ≡ files.old.items ++ row_files None segment.now) }
    ensures documents { OnOk result (AllByRecursion
        (λ row. DocumentFits row.doc) segment.now.segment.rows) }
    ensures postings { OnOk result (PostingsFit
        (length segment.now.segment.rows) segment.now.segment.postings) }
{
    let segment = segment.segment();
    let id = segment.id;
    let rows = segment.rows.as_slice();
    let row_bytes = encode_row(alloc, id, rows)?;
    files.push((FileName::Rows(id), List::from_vec(row_bytes)))?;
    let post_bytes = encode_pst(alloc, id, rows.len() as u32, &segment.postings)?;
    files.push((FileName::Posts(id), List::from_vec(post_bytes)))?;
    Ok(())
}

/// Appends the live bits and the set numbers of the segment, which are written with the commit of
/// this number. After an error the live bits may stand there.
fn put_live(
    alloc: Global,
    files: &mut Vec<(FileName, List<u8>)>,
    number: u64,
    segment: &LiveSegment,
) -> Result<(), NoMemory>
    requires whole { IsWhole segment.now.segment segment.now.live }
    requires alive { is_alive segment.now ≡ true }
    ensures files { OnOk result (files.new.items
        ≡ files.old.items ++ live_files number None segment.now) }
    ensures live { OnOk result (LiveFits (length segment.now.segment.rows)
        (live_bits segment.now.live.marks)) }
    ensures values { OnOk result (ValuesFit (length segment.now.segment.rows)
        (values_of segment.now.live.marks)) }
{
    let id = segment.segment().id;
    let rows = segment.segment().rows.len() as u32;
    let live = segment.live();
    let live_bytes = encode_liv(alloc, id, number, rows, live)?;
    files.push((FileName::Live(id, number), List::from_vec(live_bytes)))?;
    let value_bytes = encode_val(alloc, id, number, rows, live)?;
    files.push((FileName::Values(id, number), List::from_vec(value_bytes)))?;
    Ok(())
}

/// Appends the files of the segment that the commit of this number writes: rows and postings where
/// the segment is new, live bits and set numbers where they differ from those written last. After
/// an error some of them may stand there.
fn put_files(
    alloc: Global,
    files: &mut Vec<(FileName, List<u8>)>,
    number: u64,
    written: &Option<Written>,
    segment: &LiveSegment,
) -> Result<(), NoMemory>
    requires whole { IsWhole segment.now.segment segment.now.live }
    requires alive { is_alive segment.now ≡ true }
    requires can { CanWrite number segment.now }
    ensures files { OnOk result (files.new.items
        ≡ files.old.items ++ files_of number written.now segment.now) }
    ensures encoded { OnOk result (IsEncoded written.now segment.now) }
{
    if written.is_none() {
        put_rows(alloc, files, segment)?;
    }
    if !is_same(written, segment) {
        put_live(alloc, files, number, segment)?;
    }
    Ok(())
}

/// The same of a segment that may have no live row: it has no file then.
fn put_segment(
    alloc: Global,
    files: &mut Vec<(FileName, List<u8>)>,
    number: u64,
    written: &Option<Written>,
    segment: &LiveSegment,
) -> Result<(), NoMemory>
    requires whole { IsWhole segment.now.segment segment.now.live }
    requires can { CanWrite number segment.now }
    ensures files { OnOk result (files.new.items
        ≡ files.old.items ++ own_files number written.now segment.now) }
    ensures encoded { OnOk result (IsEncodedAlive written.now segment.now) }
{
    if is_alive(segment) {
        put_files(alloc, files, number, written, segment)?;
    }
    Ok(())
}

/// The files of these segments that the commit of this number writes, one segment after another.
fn files(
    alloc: Global,
    number: u64,
    segments: &[LiveSegment],
    written: &[Option<Written>],
) -> Result<Vec<(FileName, List<u8>)>, NoMemory>
    requires count { length written.now ≡ length segments.now }
    requires whole { AreWhole segments.now }
    requires can { AllByRecursion (CanWrite number) segments.now }
    ensures files { IfOk result (λ files.
        files.items ≡ commit_files number segments.now written.now) }
    ensures encoded { OnOk result (AreEncoded segments.now written.now) }
{
    let mut files = Vec::new(alloc);
    for i in 0..segments.len() {
        put_segment(alloc, &mut files, number, &written[i], &segments[i])?;
    }
    Ok(files)
}

/// The commit of this number of these segments, whose next id this is, with these pairs, as bytes.
pub(crate) fn prepare(
    alloc: Global,
    number: u64,
    next_id: u64,
    pairs: &Fields,
    segments: &[LiveSegment],
    written: &[Option<Written>],
) -> Result<Prepared, NoMemory>
    requires count { length written.now ≡ length segments.now }
    requires can { AllByRecursion (CanWrite number) segments.now }
    ensures head { IfOk result (λ commit.
        commit.head ≡ new_head number next_id pairs.now segments.now written.now) }
    ensures bytes { let head = new_head number next_id pairs.now segments.now written.now in
        IfOk result (λ commit. commit.bytes ≡ commit_file head) }
    ensures files { IfOk result (λ commit.
        commit.files ≡ commit_files number segments.now written.now) }
    ensures spelling { OnOk result (HaveSpelling segments.now written.now) }
    ensures pairs { OnOk result (PairsFit pairs.now) }
{
    let docs = live_rows(segments);
    let files = files(alloc, number, segments, written)?;
    let entries = entries(alloc, number, segments, written)?;
    let head = Head {
        number,
        docs,
        next_id,
        segments: List::from_vec(entries),
        format: CommitFormat::Second,
        pairs: pairs.clone_in(alloc)?,
    };
    let bytes = encode_commit(alloc, &head)?;
    Ok(Prepared {
        head,
        bytes: List::from_vec(bytes),
        files: List::from_vec(files),
    })
}
