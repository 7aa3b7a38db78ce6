//! How many calls of a store a commit takes, which files it writes, and their bytes.
ghost use Rattle.std.specs.Prelude.{◌≡◌, ◌<◌, ◌≤◌, length, IfOk};
ghost use Rattle.ix_base.specs.Births.{first_birth, last_birth};
ghost use Rattle.ix_base.specs.Inversion.{IsPostings};
ghost use Rattle.segment_files.specs.Fits.{BirthsRise, RowsBelow};
ghost use Rattle.commit_point.specs.Writing.{CanWrite, WrittenUpTo};

use crate::tests::put_head;
use crate::tests_files::{
    COMMIT, OLD_ROWS, PAIRS, SECOND, SMALL, bytes_of, put_file, store_of, told,
};
use commit_point::{CommitRefused, Head, Written, decode_commit, head, open_commit, write_commit};
use ix_base::{
    Birth, Document, Fields, FileName, List, Name, Postings, Row, Spots, Term, TermPostings, Text,
};
use ix_memory::{FuseStore, SteadyStore};
use ix_outside::Store;
use live_docs::LiveDocs;
use segment_core::{LiveSegment, Segment};
use std::alloc::Global;
use std::fmt::Write;
use std::slice;
use std::test::Fail;

/// The term of the key `a1`.
fn key_term(alloc: Global) -> Result<Term, Fail> {
    let field = Name::new(Text::copy_of(alloc, "key")?).ok_or("no name")?;
    let bytes = Text::copy_of(alloc, "a1")?;
    Ok(Term { field, bytes })
}

/// The postings of one row, whose key is `a1`.
fn key_postings(alloc: Global) -> Result<Postings, Fail>
    ensures ordered { IfOk result (λ postings. IsPostings postings.terms) }
    ensures below { IfOk result (λ postings. RowsBelow 1 postings) }
{
    let term = key_term(alloc)?;
    let mut rows = Spots::new(alloc);
    rows.push(0, 0)?;
    Ok(Postings {
        terms: List::from_vec(vec![in alloc; TermPostings { term, rows }]?),
    })
}

/// A row whose key is `a1`, of the document that the operation of this number added alone.
fn row_born(alloc: Global, number: u64) -> Result<Row, Fail>
    ensures { IfOk result (λ row. row.birth ≡ first_birth number) }
{
    let key = Text::copy_of(alloc, "a1")?;
    Ok(Row {
        birth: Birth::first(number),
        doc: Document::of_key(alloc, key),
    })
}

/// Live docs of so many rows, of which the first one is dead if told so. The operations up to
/// `applied` are in them.
fn live_of(alloc: Global, rows: u32, applied: u64, dead: bool) -> Result<LiveDocs, Fail>
    requires { 1 ≤ rows }
    ensures applied { IfOk result (λ live. live.applied ≡ applied) }
    ensures rows { IfOk result (λ live. length live.marks ≡ rows) }
{
    let mut live = LiveDocs::new(alloc, rows, applied)?;
    if dead {
        live.kill(0);
    }
    Ok(live)
}

/// A segment of one row, of the operation of this number.
fn one_row(alloc: Global, id: u64, number: u64, live: LiveDocs) -> Result<LiveSegment, Fail>
    requires birth { (1 ≤ number) × (number ≤ live.applied) }
    requires rows { length live.marks ≡ 1 }
    ensures id { IfOk result (λ segment. segment.segment.id ≡ id) }
    ensures birth { IfOk result (λ segment.
        BirthsRise (first_birth number) (last_birth number) segment.segment.rows) }
    ensures can { IfOk result (CanWrite live.applied) }
{
    let row = row_born(alloc, number)?;
    let segment = Segment {
        id,
        rows: List::from_vec(vec![in alloc; row]?),
        postings: key_postings(alloc)?,
    };
    Ok(LiveSegment::new(segment, live))
}

/// The segment 1 of two rows, born with the operations 1 and 2, without postings.
fn two_rows(alloc: Global, live: LiveDocs) -> Result<LiveSegment, Fail>
    requires birth { 2 ≤ live.applied }
    requires rows { length live.marks ≡ 2 }
    ensures id { IfOk result (λ segment. segment.segment.id ≡ 1) }
    ensures can { IfOk result (CanWrite live.applied) }
{
    let first = row_born(alloc, 1)?;
    let second = row_born(alloc, 2)?;
    let segment = Segment {
        id: 1,
        rows: List::from_vec(vec![in alloc; first, second]?),
        postings: Postings {
            terms: List::new(alloc),
        },
    };
    Ok(LiveSegment::new(segment, live))
}

/// What stands on the store of a segment whose live docs the commit `v` wrote, when all its rows
/// were live.
fn written_with(alloc: Global, v: u64, rows: u32) -> Result<Option<Written>, Fail>
    requires { (1 ≤ v) × (v ≤ 4) }
    ensures { IfOk result (WrittenUpTo 4) }
{
    let live = LiveDocs::new(alloc, rows, v)?;
    Ok(Some(Written { v, live }))
}

/// Writes a commit of one segment, with these pairs.
fn write_one<S: Store>(
    alloc: Global,
    store: &mut S,
    number: u64,
    pairs: &Fields,
    segment: LiveSegment,
    written: Option<Written>,
) -> Result<Head, CommitRefused>
    requires number { 1 ≤ number }
    requires id { segment.segment.id ≡ 1 }
    requires can { CanWrite number segment }
    requires written { WrittenUpTo number written }
{
    let segments = slice::from_ref(&segment);
    let written = slice::from_ref(&written);
    write_commit(alloc, store, number, 2, pairs, segments, written)
}

/// Writes a commit of two segments, of which the second is new.
fn write_two<S: Store>(
    alloc: Global,
    store: &mut S,
    number: u64,
    kept: LiveSegment,
    was: Option<Written>,
    fresh: LiveSegment,
) -> Result<Head, CommitRefused>
    requires number { 1 ≤ number }
    requires ids { (kept.segment.id ≡ 1) × (fresh.segment.id ≡ 2) }
    requires births { BirthsRise (first_birth 1) (last_birth 1) kept.segment.rows
        × BirthsRise (first_birth 3) (last_birth 3) fresh.segment.rows }
    requires can { CanWrite number kept × CanWrite number fresh }
    requires was { WrittenUpTo number was }
{
    let segments = [kept, fresh];
    let written = [was, None];
    let none = Fields::none(alloc);
    write_commit(alloc, store, number, 3, &none, &segments, &written)
}

/// The commit 4 of the segment of the first commit, whose row is dead now if told so, and of a new
/// one.
fn second<S: Store>(alloc: Global, store: &mut S, dead: bool) -> Result<Option<Head>, Fail> {
    let kept = one_row(alloc, 1, 1, live_of(alloc, 1, 4, dead)?)?;
    let was = written_with(alloc, 2, 1)?;
    let fresh = one_row(alloc, 2, 3, live_of(alloc, 1, 4, false)?)?;
    Ok(write_two(alloc, store, 4, kept, was, fresh).ok())
}

/// Writes a commit:
/// - `first`, the commit 2 of one new segment of one row, with these pairs;
/// - `second`, the commit 4 of that segment and of a new one, and `dead`, where the first one's row is dead;
/// - `killed`, the commit 4 of a segment of two rows that the commit 2 wrote, of which the first is dead now.
fn write_named<S: Store>(
    alloc: Global,
    store: &mut S,
    commit: &str,
    pairs: &Fields,
) -> Result<Option<Head>, Fail> {
    match commit {
        "first" => {
            let segment = one_row(alloc, 1, 1, live_of(alloc, 1, 2, false)?)?;
            Ok(write_one(alloc, store, 2, pairs, segment, None).ok())
        }
        "killed" => {
            let segment = two_rows(alloc, live_of(alloc, 2, 4, true)?)?;
            let was = written_with(alloc, 2, 2)?;
            Ok(write_one(alloc, store, 4, pairs, segment, was).ok())
        }
        _ => second(alloc, store, commit == "dead"),
    }
}

/// How many calls of an empty store a commit takes. With fewer it isn't written.
fn calls_of(alloc: Global, commit: &str) -> Result<u64, Fail> {
    for passes in 0..20u64 {
        let mut store = FuseStore::new(SteadyStore::new(alloc), passes);
        if write_named(alloc, &mut store, commit, &Fields::none(alloc))?.is_some() {
            return Ok(passes);
        }
    }
    Ok(20)
}

/// Writes a commit, and appends what it says and how many calls it takes.
fn put_write<S: Store>(
    alloc: Global,
    out: &mut String,
    store: &mut S,
    commit: &str,
) -> Result<(), Fail> {
    let head = write_named(alloc, store, commit, &Fields::none(alloc))?.ok_or("memory")?;
    put_head(out, &head)?;
    write!(out, " {} calls", calls_of(alloc, commit)?)?;
    Ok(())
}

/// Appends the names of the files that are there.
fn put_names<S: Store>(alloc: Global, out: &mut String, store: &mut S) -> Result<(), Fail> {
    let mut names = store.list(alloc)?;
    names.sort_unstable();
    for name in &names {
        write!(out, " {}", name.text().as_str())?;
    }
    Ok(())
}

/// What comes of writing these commits, one after another: what the last one says, the calls that it
/// takes, and the files that are there then.
fn told_writes(alloc: Global, commits: &str) -> Result<String, Fail> {
    let mut store = SteadyStore::new(alloc);
    let mut told = String::new(alloc);
    for commit in commits.split(' ') {
        told.clear();
        put_write(alloc, &mut told, &mut store, commit)?;
    }
    put_names(alloc, &mut told, &mut store)?;
    Ok(told)
}

/// Commits, one after another, and what comes of them. The first one writes and syncs four files and the
/// pending one, renames that, and syncs the directory. Of the second nothing is written of the segment
/// that is as it was. Where a row was killed, live bits and set numbers alone are written. A segment
/// without a live row isn't listed.
const WRITES: &str = "\
first: 2 1 2 Second: 1 1 2; 12 calls segments_2 seg_1.row seg_1.pst seg_1_2.liv seg_1_2.val
first second: 4 2 3 Second: 1 1 2; 2 1 4; 12 calls segments_2 segments_4 \
    seg_1.row seg_2.row seg_1.pst seg_2.pst seg_1_2.liv seg_2_4.liv seg_1_2.val seg_2_4.val
killed: 4 1 2 Second: 1 2 4; 8 calls segments_4 seg_1_4.liv seg_1_4.val
dead: 4 1 3 Second: 2 1 4; 12 calls segments_4 seg_2.row seg_2.pst seg_2_4.liv seg_2_4.val";

#[test]
fn commits_their_calls_and_their_files(rt: HostRuntime) -> Result<(), Fail> {
    for line in WRITES.lines() {
        let (commits, want) = line.split_once(": ").ok_or("no commit")?;
        assert!(rt;
            told_writes(rt.alloc(), commits)?.as_str() == want,
            "{commits}"
        );
    }
    Ok(())
}

/// Whether the store has this file, byte for byte.
fn has<S: Store>(alloc: Global, store: &mut S, file: &str) -> Result<bool, Fail> {
    let (name, fields) = file.split_once(' ').ok_or("no file")?;
    let found = store.read(alloc, FileName::parse(name).ok_or("no name")?)?;
    let bytes = bytes_of(alloc, fields)?;
    Ok(found.ok_or("no such file")?.as_slice() == bytes.as_slice())
}

#[test]
fn a_first_commit_byte_for_byte(rt: HostRuntime) -> Result<(), Fail> {
    let alloc = rt.alloc();
    let mut store = SteadyStore::new(alloc);
    write_named(alloc, &mut store, "first", &Fields::none(alloc))?.ok_or("memory")?;
    assert!(rt; has(alloc, &mut store, SECOND)?);
    for file in SMALL.lines() {
        assert!(rt; has(alloc, &mut store, file)?, "{file}");
    }
    Ok(())
}

/// The pairs of the commit file that has some.
fn some_pairs(alloc: Global) -> Result<Fields, Fail> {
    let (_, fields) = PAIRS.split_once(' ').ok_or("no file")?;
    Ok(decode_commit(alloc, &bytes_of(alloc, fields)?, 2)?.pairs)
}

/// What the commit file of the store says.
fn said_of_head<S: Store>(alloc: Global, store: &mut S) -> Result<String, Fail> {
    let mut said = String::new(alloc);
    put_head(&mut said, &head(alloc, store, 2)?)?;
    Ok(said)
}

/// The pairs of a commit are read back from its file, and the commit is whole with them.
#[test]
fn pairs_are_read_back(rt: HostRuntime) -> Result<(), Fail> {
    let alloc = rt.alloc();
    let mut store = SteadyStore::new(alloc);
    write_named(alloc, &mut store, "first", &some_pairs(alloc)?)?.ok_or("memory")?;
    let said = said_of_head(alloc, &mut store)?;
    assert!(rt; said.as_str() == "2 1 2 Second: 1 1 2; key=x s=");
    assert!(rt; open_commit(alloc, &mut store, 2).is_ok());
    Ok(())
}

/// Whether the store has a file of this name that begins with these bytes.
fn begins_so<S: Store>(
    alloc: Global,
    store: &mut S,
    name: FileName,
    bytes: &[u8],
) -> Result<bool, Fail> {
    let found = store.read(alloc, name)?.ok_or("no such file")?;
    Ok(found.starts_with(bytes))
}

/// A commit on a store that was written before there were places: a segment that stays keeps its file of rows
/// in the first form, and the new one has the second form. Both are read back.
#[test]
fn a_store_of_the_first_forms_is_written_on(rt: HostRuntime) -> Result<(), Fail> {
    let alloc = rt.alloc();
    let mut store = store_of(alloc, [SMALL, COMMIT])?;
    put_file(alloc, &mut store, OLD_ROWS)?;
    write_named(alloc, &mut store, "second", &Fields::none(alloc))?.ok_or("memory")?;
    assert!(rt; has(alloc, &mut store, OLD_ROWS)?);
    assert!(rt; begins_so(alloc, &mut store, FileName::Rows(2), b"IXROW002")?);
    let read = told(alloc, open_commit(alloc, &mut store, 4))?;
    assert!(rt;
        read.as_str()
            == "next 3, 1 of 2, 2 of 4; 1 with 1 terms at 4: a11; 2 with 1 terms at 4: a13"
    );
    Ok(())
}
