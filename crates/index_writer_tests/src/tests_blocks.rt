//! Blocks of documents in rounds, merges and commits, against what was worked out by hand.
ghost use Rattle.std.specs.Prelude.{◌≤◌};

use crate::script_lines::Act::{Add, AddBlock, Commit, Delete, UpdateBlock};
use crate::stories::{Step, Story, is_right};
use crate::tests::{first_round, shown_work};
use std::alloc::Global;
use std::test::*;

/// A block of three documents is one segment of three rows, though the buffers hold one document each, and
/// it takes one id. The update 3 deletes the row q1, and puts its own block into a second segment.
const ONE_SEGMENT_EACH: Story = Story {
    buffer: 1,
    merge: 8,
    steps: &[
        Step::Round(&[(0, AddBlock, "p q r"), (1, Commit, "")]),
        Step::Commit,
        Step::Round(&[(0, UpdateBlock, "q s t"), (1, Add, "u"), (1, Commit, "")]),
        Step::Commit,
    ],
    commits: &[2, 5],
    told: "committed 2, 2 pending; 3 rows in 2; committed 5, 5 pending; 6 rows in 5; 5, last commit 5, next id 4 / 2: 1 p1 q1 r1 / 4: 1 p1 r1 2 q3 s3 t3 3 u4",
};

/// A buffer of two documents that has one takes a whole block, and is given off then. A delete takes one
/// document of the block. A merge puts the rows into one segment, in the order of their places.
const BEHIND_ANOTHER: Story = Story {
    buffer: 2,
    merge: 2,
    steps: &[
        Step::Round(&[
            (0, Add, "a"),
            (0, AddBlock, "d c b"),
            (0, Add, "e"),
            (1, Delete, "c"),
            (0, UpdateBlock, "e g f"),
            (1, Commit, ""),
        ]),
        Step::Commit,
        Step::Merge(9),
        Step::Round(&[(0, Commit, "")]),
        Step::Commit,
    ],
    commits: &[6, 7],
    told: "committed 6, 6 pending; 6 rows in 6; merged; committed 7, 7 pending; 6 rows in 7; 7, last commit 7, next id 4 / 3: 1 a1 d2 b2 2 e5 g5 f5 / 4: 3 a1 d2 b2 e5 g5 f5",
};

#[test]
fn blocks_in_segments(rt: HostRuntime) -> Result<(), Fail> {
    for story in [&ONE_SEGMENT_EACH, &BEHIND_ANOTHER] {
        assert!(rt; is_right(&rt, rt.alloc(), story)?, "{}", story.told);
    }
    Ok(())
}

/// Blocks and a block with a key that is too long, which is refused whole, with buffers of this many
/// documents.
fn lines_of_blocks(alloc: Global, buffer: u32) -> Result<String, Fail>
    requires { (1 ≤ buffer) × (buffer ≤ 65536) }
{
    let long = "k".repeat(alloc, 32_767)?;
    let keys = format!(in alloc; "x {}", long.as_str())?;
    let script = [
        (0, AddBlock, "a b"),
        (0, AddBlock, keys.as_str()),
        (1, Add, "c"),
        (0, UpdateBlock, "a d e"),
        (0, Commit, ""),
        (1, AddBlock, "f g"),
    ];
    let mut parts = first_round(alloc, 2, buffer)?;
    shown_work(alloc, &mut parts, &script)
}

/// One number for each block, and births by place in it. A block isn't split where a buffer is given off.
#[test]
fn lines_of_blocks_in_a_round(rt: HostRuntime) -> Result<(), Fail> {
    let told = lines_of_blocks(rt.alloc(), 2)?;
    assert!(rt;
        told.as_str() == " 1 term 32767 2 3 4 closed; [0: a1 b1.1] [0: a3 d3.1 e3.2];",
        "{}",
        told.as_str()
    );
    Ok(())
}
