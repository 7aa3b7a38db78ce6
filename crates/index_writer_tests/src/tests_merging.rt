//! Merges between the rounds of a writer and its commits, against what was worked out by hand.

use crate::script_lines::Act::{Add, Commit, Delete};
use crate::stories::{Step, Story, is_right};
use std::test::*;

/// Two documents, each a segment, are merged while their commit is still to be written. Then one of
/// them is deleted.
const DELETED_AFTER_A_MERGE: Story = Story {
    buffer: 1,
    merge: 2,
    steps: &[
        Step::Round(&[(0, Add, "a"), (0, Add, "b"), (0, Commit, "")]),
        Step::Merge(8),
        Step::Commit,
        Step::Round(&[(0, Delete, "a"), (0, Commit, "")]),
        Step::Merge(8),
        Step::Commit,
    ],
    commits: &[3, 5],
    told: "committed 3, 3 pending; merged; 2 rows in 3; committed 5, 5 pending; idle; 1 rows in 5; 5, last commit 5, next id 4 / 4: 3 a1 b2 / 4: 3 b2",
};

/// Three segments with a live row each, of which one has a dead row too: the two of the smaller ids
/// are merged, and then the third one with what they became.
const TIES_BY_SMALLER_ID: Story = Story {
    buffer: 2,
    merge: 2,
    steps: &[
        Step::Round(&[
            (0, Add, "a"),
            (0, Add, "b"),
            (0, Add, "c"),
            (1, Add, "d"),
            (1, Delete, "b"),
            (0, Commit, ""),
        ]),
        Step::Merge(8),
        Step::Commit,
        Step::Round(&[(0, Commit, "")]),
        Step::Merge(8),
        Step::Commit,
    ],
    commits: &[6, 7],
    told: "committed 6, 6 pending; merged; 3 rows in 6; committed 7, 7 pending; merged; 3 rows in 7; 7, last commit 7, next id 6 / 5: 3 d4 4 a1 c3 / 6: 5 a1 c3 d4",
};

/// Of two segments no row is live: they are let go, and no id is taken.
const NO_ROW_IS_LIVE: Story = Story {
    buffer: 1,
    merge: 2,
    steps: &[
        Step::Round(&[
            (0, Add, "a"),
            (0, Add, "b"),
            (0, Add, "c"),
            (0, Delete, "a"),
            (0, Delete, "b"),
            (0, Commit, ""),
        ]),
        Step::Merge(8),
        Step::Commit,
        Step::Merge(8),
    ],
    commits: &[6],
    told: "committed 6, 6 pending; merged; 1 rows in 6; idle; 6, last commit 6, next id 4 / 4: 3 c3",
};

/// A segment whose row died in the round that added it is merged with the one that has a live row.
const DEAD_IN_ITS_ROUND: Story = Story {
    buffer: 8,
    merge: 2,
    steps: &[
        Step::Round(&[
            (0, Add, "a"),
            (1, Add, "b"),
            (1, Delete, "a"),
            (0, Commit, ""),
        ]),
        Step::Merge(8),
        Step::Commit,
    ],
    commits: &[4],
    told: "committed 4, 4 pending; merged; 1 rows in 4; 4, last commit 4, next id 4 / 4: 3 b2",
};

#[test]
fn merges_between_rounds_and_commits(rt: HostRuntime) -> Result<(), Fail> {
    for story in [
        &DELETED_AFTER_A_MERGE,
        &TIES_BY_SMALLER_ID,
        &NO_ROW_IS_LIVE,
        &DEAD_IN_ITS_ROUND,
    ] {
        assert!(rt; is_right(&rt, rt.alloc(), story)?, "{}", story.told);
    }
    Ok(())
}
