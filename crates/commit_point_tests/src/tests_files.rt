//! The files of some commits, as texts, and what is read of them. A file is a line: its name, and its fields
//! as hexadecimal, with a blank before each field.
use commit_point::{OpenFault, Opened};
use ix_base::FileName;
use ix_memory::MemoryStore;
use ix_outside::Store;
use segment_core::LiveSegment;
use std::alloc::Global;
use std::fmt::Write;
use std::str;
use std::test::Fail;

/// The commit file of the commit 2 with one segment of one row, in the first form.
pub(crate) const COMMIT: &str = "segments_2 4958434f4d303031 0000000000000002 0000000000000001 \
    0000000000000002 0000000000000001 0000000000000001 00000001 0000000000000002";

/// The same in the second form, as it is written where the commit has no pairs: their count is the last
/// field.
pub(crate) const SECOND: &str = "segments_2 4958434f4d303032 0000000000000002 0000000000000001 \
    0000000000000002 0000000000000001 0000000000000001 00000001 0000000000000002 00000000";

/// The smallest commit file with pairs: two names, of which the second has an empty text.
pub(crate) const PAIRS: &str = "segments_2 4958434f4d303032 0000000000000002 0000000000000000 \
    0000000000000001 0000000000000000 00000002 000000036b6579 0000000178 0000000173 00000000";

/// The files of that segment: the row has the key `m1`, a text, an exact text and a number; there are four
/// terms, of which two are of one field; the row is live, and the number `size` was set to 7 in it. These
/// are the files that the formats show.
pub(crate) const FULL: &str = "\
seg_1.row 4958524f57303032 0000000000000001 00000001 0000000000000001 00000000 000000026d31 00000001 00000004626f6479 \
    00000006486920796f75 00000001 00000003626f78 00000002696e 0000000000000001 0000000473697a65 fffffffffffffffe
seg_1.pst 4958505354303031 0000000000000001 00000001 0000000000000004 \
    00000004626f6479 000000026869 00000001 00000000 00000001 00000000 \
    00000004626f6479 00000003796f75 00000001 00000000 00000001 00000001 \
    00000003626f78 00000002696e 00000001 00000000 00000001 00000000 \
    000000036b6579 000000026d31 00000001 00000000 00000001 00000000
seg_1_2.liv 49584c4956303031 0000000000000001 0000000000000002 00000001 01
seg_1_2.val 495856414c303031 0000000000000001 0000000000000002 00000001 \
    0000000000000001 00000000 0000000473697a65 0000000000000007
";

/// The rows of the smallest segment in the first form.
pub(crate) const OLD_ROWS: &str = "seg_1.row 4958524f57303031 0000000000000001 00000001 \
    0000000000000001 000000026131 00000000 00000000 0000000000000000";

/// The files of the smallest segment: the key `a1` and nothing else, the term of the key, one live row, and
/// no number that was set.
pub(crate) const SMALL: &str = "\
seg_1.row 4958524f57303032 0000000000000001 00000001 0000000000000001 00000000 000000026131 00000000 00000000 \
    0000000000000000
seg_1.pst 4958505354303031 0000000000000001 00000001 0000000000000001 \
    000000036b6579 000000026131 00000001 00000000 00000001 00000000
seg_1_2.liv 49584c4956303031 0000000000000001 0000000000000002 00000001 01
seg_1_2.val 495856414c303031 0000000000000001 0000000000000002 00000001 0000000000000000
";

/// The files of the commit 3: one live row, in a segment of the two rows `a1` and `a2` without terms, whose
/// live bits (the first row is dead) and numbers (none was set) the commit 2 wrote. All files are in the first
/// forms.
pub(crate) const EARLIER: &str = "\
segments_3 4958434f4d303031 0000000000000003 0000000000000001 0000000000000002 0000000000000001 \
    0000000000000001 00000002 0000000000000002
seg_1.row 4958524f57303031 0000000000000001 00000002 \
    0000000000000001 000000026131 00000000 00000000 0000000000000000 \
    0000000000000002 000000026132 00000000 00000000 0000000000000000
seg_1.pst 4958505354303031 0000000000000001 00000002 0000000000000000
seg_1_2.liv 49584c4956303031 0000000000000001 0000000000000002 00000002 02
seg_1_2.val 495856414c303031 0000000000000001 0000000000000002 00000002 0000000000000000
";

/// Its commit file, but that two rows are live.
pub(crate) const TWO_LIVE: &str = "segments_3 4958434f4d303031 0000000000000003 0000000000000002 \
    0000000000000002 0000000000000001 0000000000000001 00000002 0000000000000002";

/// A file of the rows of three documents, of which the operation 2 added two together.
pub(crate) const BLOCK: &str = "\
segments_2 4958434f4d303032 0000000000000002 0000000000000003 0000000000000002 0000000000000001 \
    0000000000000001 00000003 0000000000000002 00000000
seg_1.row 4958524f57303032 0000000000000001 00000003 \
    0000000000000001 00000000 000000026131 00000000 00000000 0000000000000000 \
    0000000000000002 00000000 000000026132 00000000 00000000 0000000000000000 \
    0000000000000002 00000001 000000026133 00000000 00000000 0000000000000000
seg_1.pst 4958505354303031 0000000000000001 00000003 0000000000000000
seg_1_2.liv 49584c4956303031 0000000000000001 0000000000000002 00000003 07
seg_1_2.val 495856414c303031 0000000000000001 0000000000000002 00000003 0000000000000000
";

/// Two segments of one row each, without terms: the operation 1 added the first row, and the second one is what is
/// left of those that the operation 2 added together.
pub(crate) const TWO_SEGMENTS: &str = "\
segments_2 4958434f4d303032 0000000000000002 0000000000000002 0000000000000003 0000000000000002 \
    0000000000000001 00000001 0000000000000002 0000000000000002 00000001 0000000000000002 00000000
seg_1.row 4958524f57303032 0000000000000001 00000001 \
    0000000000000001 00000000 000000026131 00000000 00000000 0000000000000000
seg_1.pst 4958505354303031 0000000000000001 00000001 0000000000000000
seg_1_2.liv 49584c4956303031 0000000000000001 0000000000000002 00000001 01
seg_1_2.val 495856414c303031 0000000000000001 0000000000000002 00000001 0000000000000000
seg_2.row 4958524f57303032 0000000000000002 00000001 \
    0000000000000002 00000001 000000026132 00000000 00000000 0000000000000000
seg_2.pst 4958505354303031 0000000000000002 00000001 0000000000000000
seg_2_2.liv 49584c4956303031 0000000000000002 0000000000000002 00000001 01
seg_2_2.val 495856414c303031 0000000000000002 0000000000000002 00000001 0000000000000000
";

/// The bytes of these fields.
pub(crate) fn bytes_of(alloc: Global, fields: &str) -> Result<Vec<u8>, Fail> {
    let mut bytes = Vec::new(alloc);
    for field in fields.split(' ') {
        for pair in field.as_bytes().chunks(2) {
            bytes.push(u8::from_str_radix(str::from_utf8(pair)?, 16)?)?;
        }
    }
    Ok(bytes)
}

/// Writes a file.
pub(crate) fn put_file(alloc: Global, store: &mut MemoryStore, line: &str) -> Result<(), Fail> {
    let (name, fields) = line.split_once(' ').ok_or("no file")?;
    let Some(name) = FileName::parse(name) else {
        return Err("no name")?;
    };
    store.write(name, &bytes_of(alloc, fields)?)?;
    Ok(())
}

/// A store with these files, of which a later one takes the place of an earlier one.
pub(crate) fn store_of(alloc: Global, files: [&str; 2]) -> Result<MemoryStore, Fail> {
    let mut store = MemoryStore::new(alloc);
    for part in files {
        for line in part.lines() {
            put_file(alloc, &mut store, line)?;
        }
    }
    Ok(store)
}

/// What comes of reading a commit: what it is, the file that is damaged with the first broken place, or
/// another fault.
pub(crate) fn told(alloc: Global, answer: Result<Opened, OpenFault>) -> Result<String, Fail> {
    match answer {
        Ok(opened) => shown(alloc, &opened),
        Err(OpenFault::Damaged(damaged)) => {
            Ok(format!(in alloc; "{} {}", damaged.file.text().as_str(), damaged.at)?)
        }
        Err(fault) => Ok(format!(in alloc; "{fault:?}")?),
    }
}

/// A commit that was read back: the next id, and its segments.
fn shown(alloc: Global, opened: &Opened) -> Result<String, Fail> {
    let mut out = String::new(alloc);
    write!(out, "next {}", opened.next_id)?;
    for entry in opened.entries.as_slice() {
        write!(out, ", {} of {}", entry.id, entry.written)?;
    }
    for segment in opened.segments.as_slice() {
        show_segment(&mut out, segment)?;
    }
    Ok(out)
}

/// A segment: its id, how many terms it has, the number up to which operations are in its live docs,
/// and its rows.
fn show_segment(out: &mut String, segment: &LiveSegment) -> Result<(), Fail> {
    let (id, terms) = (segment.segment().id, segment.segment().postings.terms.len());
    write!(
        out,
        "; {id} with {terms} terms at {}:",
        segment.live().applied()
    )?;
    for at in 0..8 {
        show_row(out, segment, at)?;
    }
    Ok(())
}

/// A row, if there is one at this place: its key, its birth (of which the place is told where it isn't 0),
/// whether it is dead, and the numbers that were set.
fn show_row(out: &mut String, segment: &LiveSegment, at: u32) -> Result<(), Fail> {
    let rows = segment.segment().rows.as_slice();
    if at as usize >= rows.len() {
        return Ok(());
    }
    let row = &rows[at as usize];
    write!(out, " {}{}", row.doc.key.as_str(), row.birth.number())?;
    if row.birth.place() > 0 {
        write!(out, ".{}", row.birth.place())?;
    }
    if !segment.live().is_live(at) {
        write!(out, " dead")?;
    }
    for (name, value) in segment.live().values(at) {
        write!(out, " {}={value}", name.as_str())?;
    }
    Ok(())
}
