//! A round with operations of each kind, against what was worked out by hand.
ghost use Rattle.std.specs.Prelude.{◌≤◌};

use crate::script_lines::Act::{Add, Commit, Delete, DeleteOthers, Set, Update};
use crate::script_lines::{Line, Script};
use crate::stories::{Step, history, shown};
use index_writer::IndexWriter;
use ix_memory::MemoryStore;
use std::alloc::Global;
use std::test::*;
use std::thread::Threads;

/// The rows of the commit that a round of these lines ends with, after a round that adds a document
/// with the key x as number 1 and commits as number 2. The buffers hold so many documents.
fn rows_after<R: Threads + Sync>(
    rt: &R,
    alloc: Global,
    buffer: u32,
    script: Script,
) -> Result<String, Fail>
    requires { (1 ≤ buffer) × (buffer ≤ 65536) }
{
    let mut writer = IndexWriter::none(alloc, MemoryStore::new(alloc), buffer, 8);
    let steps = [
        Step::Round(&[(0, Add, "x"), (1, Commit, "")]),
        Step::Commit,
        Step::Round(script),
        Step::Commit,
    ];
    history(rt, alloc, &mut writer, &steps)?;
    let number = writer.upto();
    let mut store = writer.into_store();
    shown(alloc, &mut store, number)
}

/// Numbers 3 to 19, by two writers. What comes before a row's birth leaves the row: the delete 3 the
/// row a4, the set 6 the row a7, the delete 10 the row c11, the update 17 its own row, and so on. Of
/// what comes after, 8 kills b5, 10 kills c9, the query 12 kills x1, b8 and c11, 17 kills c14; 6 and
/// 15 set numbers of a4, 15 of a7, and 18 of b13.
///
/// Large buffers are given off only at the end. With buffers of two documents, the first pieces end
/// at 9 (a4, b8), 8 (b5, a7) and 13 (c9, c11, no longer live), and the last ones have b13 and c17,
/// and c14, which dies: it takes an id, and is in no commit.
const OPERATIONS: [Line; 17] = [
    (1, Delete, "a"),
    (0, Add, "a"),
    (1, Add, "b"),
    (0, Set(5), "a"),
    (1, Add, "a"),
    (0, Update, "b"),
    (1, Add, "c"),
    (0, Delete, "c"),
    (1, Add, "c"),
    (0, DeleteOthers, "a"),
    (0, Add, "b"),
    (1, Add, "c"),
    (0, Set(6), "a"),
    (1, Set(7), "c"),
    (0, Update, "c"),
    (1, Set(8), "b"),
    (1, Commit, ""),
];

#[test]
fn operations_of_each_kind(rt: HostRuntime) -> Result<(), Fail> {
    let rows = rows_after(&rt, rt.alloc(), 8, &OPERATIONS)?;
    assert!(rt; rows.as_str() == "4: 2 a4=6 b13=8 c17 3 a7=6");
    Ok(())
}

#[test]
fn operations_with_small_buffers(rt: HostRuntime) -> Result<(), Fail> {
    let rows = rows_after(&rt, rt.alloc(), 2, &OPERATIONS)?;
    assert!(rt; rows.as_str() == "6: 2 a4=6 3 b13=8 c17 4 a7=6");
    Ok(())
}
