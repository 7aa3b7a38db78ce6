//! Commit files alone, and whole commits.
use crate::tests_files::{
    BLOCK, COMMIT, EARLIER, FULL, OLD_ROWS, PAIRS, SECOND, SMALL, TWO_LIVE, TWO_SEGMENTS, bytes_of,
    put_file, store_of, told,
};
use commit_point::{
    CommitFormat, Head, HeadSegment, decode_commit, encode_commit, head, open_commit, read_commit,
};
use ix_base::{Fields, List};
use std::alloc::Global;
use std::fmt::Write;
use std::test::Fail;

/// Appends what a commit file says: the number, the live rows, the next id and the form, of each segment
/// the id, the rows and which commit wrote its live docs, and the pairs.
pub(crate) fn put_head(out: &mut String, head: &Head) -> Result<(), Fail> {
    let (number, docs, next, format) = (head.number, head.docs, head.next_id, head.format);
    write!(out, "{number} {docs} {next} {format:?}:")?;
    for segment in head.segments.as_slice() {
        write!(out, " {} {} {};", segment.id, segment.rows, segment.written)?;
    }
    for (name, text) in head.pairs.as_slice() {
        write!(out, " {}={}", name.as_str(), text.as_str())?;
    }
    Ok(())
}

/// What a commit file says.
fn said_of(alloc: Global, file: &str) -> Result<String, Fail> {
    let (_, fields) = file.split_once(' ').ok_or("no file")?;
    let head = decode_commit(alloc, &bytes_of(alloc, fields)?, 2)?;
    let mut said = String::new(alloc);
    put_head(&mut said, &head)?;
    Ok(said)
}

/// Whether what is read of a commit file is spelled as it was.
fn is_spelled_so(alloc: Global, file: &str) -> Result<bool, Fail> {
    let (_, fields) = file.split_once(' ').ok_or("no file")?;
    let bytes = bytes_of(alloc, fields)?;
    let head = decode_commit(alloc, &bytes, 2)?;
    Ok(encode_commit(alloc, &head)?.as_slice() == bytes.as_slice())
}

#[test]
fn commit_files_are_read_and_spelled(rt: HostRuntime) -> Result<(), Fail> {
    for (file, said) in [
        (COMMIT, "2 1 2 First: 1 1 2;"),
        (SECOND, "2 1 2 Second: 1 1 2;"),
        (PAIRS, "2 0 1 Second: key=x s="),
    ] {
        assert!(rt; said_of(rt.alloc(), file)?.as_str() == said);
        assert!(rt; is_spelled_so(rt.alloc(), file)?);
    }
    Ok(())
}

/// A commit file of 300 segments.
fn many_segments(alloc: Global) -> Result<Head, Fail> {
    let mut segments = Vec::new(alloc);
    for id in 1..301u64 {
        segments.push(HeadSegment {
            id,
            rows: 7,
            written: 2,
        })?;
    }
    Ok(Head {
        number: 2,
        docs: 2100,
        next_id: 301,
        segments: List::from_vec(segments),
        format: CommitFormat::Second,
        pairs: Fields::none(alloc),
    })
}

/// Whether a commit file that is read of these bytes has the same segments.
fn has_segments(alloc: Global, bytes: &[u8], head: &Head) -> Result<bool, Fail> {
    let read = decode_commit(alloc, bytes, 2)?;
    Ok(read.segments.as_slice() == head.segments.as_slice())
}

/// A commit file of 300 segments, read back.
#[test]
fn reads_many_segments(rt: HostRuntime) -> Result<(), Fail> {
    let head = many_segments(rt.alloc())?;
    let bytes = encode_commit(rt.alloc(), &head)?;
    assert!(rt; bytes.len() == 44 + 300 * 20);
    assert!(rt; has_segments(rt.alloc(), &bytes, &head)?);
    Ok(())
}

/// What comes of opening the commit of this number of these files.
fn opened(alloc: Global, files: [&str; 2], number: u64) -> Result<String, Fail> {
    let mut store = store_of(alloc, files)?;
    told(alloc, open_commit(alloc, &mut store, number))
}

/// The commit with all kinds of fields is whole. One whose segment an earlier commit wrote has all operations
/// up to its number in its live docs, and a row that isn't live doesn't count. Files of rows are read in both
/// forms.
#[test]
fn commits_are_opened(rt: HostRuntime) -> Result<(), Fail> {
    for (files, number, want) in [
        (
            [COMMIT, FULL],
            2,
            "next 2, 1 of 2; 1 with 4 terms at 2: m11 size=7",
        ),
        (
            [EARLIER, ""],
            3,
            "next 2, 1 of 2; 1 with 0 terms at 3: a11 dead a22",
        ),
        ([EARLIER, TWO_LIVE], 3, "segments_3 16"),
        (
            [BLOCK, ""],
            2,
            "next 2, 1 of 2; 1 with 0 terms at 2: a11 a22 a32.1",
        ),
        (
            [TWO_SEGMENTS, ""],
            2,
            "next 3, 1 of 2, 2 of 2; 1 with 0 terms at 2: a11; 2 with 0 terms at 2: a22.1",
        ),
    ] {
        assert!(rt; opened(rt.alloc(), files, number)?.as_str() == want);
    }
    Ok(())
}

#[test]
fn the_smallest_commit_is_whole(rt: HostRuntime) -> Result<(), Fail> {
    let alloc = rt.alloc();
    for rows in ["", OLD_ROWS] {
        let mut store = store_of(alloc, [SMALL, rows])?;
        put_file(alloc, &mut store, COMMIT)?;
        assert!(rt; head(alloc, &mut store, 2)?.docs == 1);
        let read = told(alloc, read_commit(alloc, &mut store, 2))?;
        assert!(rt; read.as_str() == "next 2, 1 of 2; 1 with 1 terms at 2: a11");
    }
    Ok(())
}
