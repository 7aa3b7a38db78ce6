//! Rounds whose writers have no rows, or none that lives, against what was worked out by hand.

use crate::script_lines::Act::{Add, Commit, Delete};
use crate::stories::{Step, Story, is_right};
use std::test::*;

/// A round in which one writer adds and the other one only deletes; then two rounds whose writers only
/// delete, the first without a commit. These take no id.
const DELETES_ALONE: Story = Story {
    buffer: 8,
    merge: 8,
    steps: &[
        Step::Round(&[
            (0, Add, "a"),
            (0, Add, "b"),
            (1, Delete, "a"),
            (0, Add, "a"),
            (0, Add, "c"),
            (1, Commit, ""),
        ]),
        Step::Commit,
        Step::Round(&[(1, Delete, "b")]),
        Step::Round(&[(0, Delete, "c"), (1, Delete, "d"), (1, Commit, "")]),
        Step::Commit,
    ],
    commits: &[6, 10],
    told: "committed 6, 6 pending; 3 rows in 6; ran; committed 10, 10 pending; 1 rows in 10; 10, last commit 10, next id 2 / 2: 1 b2 a4 c5 / 2: 1 a4",
};

/// The one row of a writer is deleted in the round that adds it: it is a segment without a live row,
/// which takes an id, and which the next commit leaves out.
const DEAD_IN_THEIR_ROUND: Story = Story {
    buffer: 8,
    merge: 8,
    steps: &[
        Step::Round(&[(0, Add, "a"), (1, Add, "b"), (1, Delete, "a")]),
        Step::Round(&[(0, Commit, "")]),
        Step::Commit,
    ],
    commits: &[4],
    told: "ran; committed 4, 4 pending; 1 rows in 4; 4, last commit 4, next id 3 / 3: 2 b2",
};

#[test]
fn rounds_without_live_rows(rt: HostRuntime) -> Result<(), Fail> {
    for story in [&DELETES_ALONE, &DEAD_IN_THEIR_ROUND] {
        assert!(rt; is_right(&rt, rt.alloc(), story)?, "{}", story.told);
    }
    Ok(())
}
