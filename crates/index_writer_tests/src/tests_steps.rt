//! Merges that go on over the rounds of a writer and its commits, against what was worked out by hand.

use crate::script_lines::Act::{Add, Commit, Delete, Set};
use crate::stories::{Step, Story, is_right};
use std::test::*;

/// A merge of two segments stands half done at two commits, which list both. Between its steps the row a,
/// which it has read, and the row c, which it hasn't, are deleted, and numbers are set in the read row b and
/// in d. The third segment isn't merged.
const HALF_DONE_AT_COMMITS: Story = Story {
    buffer: 2,
    merge: 2,
    steps: &[
        Step::Round(&[
            (0, Add, "a"),
            (0, Add, "b"),
            (0, Add, "c"),
            (0, Add, "d"),
            (0, Commit, ""),
        ]),
        Step::Merge(1),
        Step::Commit,
        Step::Merge(1),
        Step::Round(&[
            (1, Delete, "a"),
            (0, Set(7), "b"),
            (1, Set(8), "d"),
            (1, Delete, "c"),
            (0, Add, "e"),
            (1, Commit, ""),
        ]),
        Step::Commit,
        Step::Merge(1),
        Step::Round(&[(0, Commit, "")]),
        Step::Merge(5),
        Step::Commit,
    ],
    commits: &[5, 11, 12],
    told: "committed 5, 5 pending; stepped; 4 rows in 5; stepped; committed 11, 11 pending; 3 rows in 11; stepped; committed 12, 12 pending; merged; 3 rows in 12; 12, last commit 12, next id 5 / 3: 1 a1 b2 2 c3 d4 / 4: 1 b2=7 2 d4=8 3 e10 / 5: 3 e10 4 b2=7 d4=8",
};

/// A segment that was listed dies. It isn't listed then, but stays: with it there are three, which are
/// merged.
const DEAD_OVER_COMMITS: Story = Story {
    buffer: 1,
    merge: 3,
    steps: &[
        Step::Round(&[(0, Add, "a"), (0, Add, "b"), (0, Commit, "")]),
        Step::Merge(9),
        Step::Commit,
        Step::Round(&[(1, Delete, "a"), (0, Commit, "")]),
        Step::Commit,
        Step::Round(&[(0, Add, "c"), (0, Commit, "")]),
        Step::Commit,
        Step::Merge(9),
        Step::Round(&[(0, Commit, "")]),
        Step::Commit,
    ],
    commits: &[3, 5, 7, 8],
    told: "committed 3, 3 pending; idle; 2 rows in 3; committed 5, 5 pending; 1 rows in 5; committed 7, 7 pending; 2 rows in 7; merged; committed 8, 8 pending; 2 rows in 8; 8, last commit 8, next id 5 / 3: 1 a1 2 b2 / 3: 2 b2 / 4: 2 b2 3 c6 / 5: 4 b2 c6",
};

/// A segment that died in the round which added it is never listed. It stays over commits until it is
/// merged with another one.
const NEVER_LISTED: Story = Story {
    buffer: 8,
    merge: 2,
    steps: &[
        Step::Round(&[
            (0, Add, "a"),
            (1, Add, "b"),
            (1, Delete, "a"),
            (0, Commit, ""),
        ]),
        Step::Commit,
        Step::Round(&[(1, Set(3), "b"), (0, Commit, "")]),
        Step::Commit,
        Step::Merge(9),
        Step::Round(&[(0, Commit, "")]),
        Step::Commit,
    ],
    commits: &[4, 6, 7],
    told: "committed 4, 4 pending; 1 rows in 4; committed 6, 6 pending; 1 rows in 6; merged; committed 7, 7 pending; 1 rows in 7; 7, last commit 7, next id 4 / 3: 2 b2 / 3: 2 b2=3 / 4: 3 b2=3",
};

/// All rows of a merge's sources die between its steps: they are let go, and no id is taken.
const DEAD_BETWEEN_STEPS: Story = Story {
    buffer: 1,
    merge: 2,
    steps: &[
        Step::Round(&[(0, Add, "a"), (0, Add, "b"), (0, Commit, "")]),
        Step::Merge(1),
        Step::Commit,
        Step::Round(&[
            (1, Delete, "a"),
            (1, Add, "c"),
            (1, Delete, "b"),
            (0, Commit, ""),
        ]),
        Step::Commit,
        Step::Merge(1),
        Step::Merge(1),
    ],
    commits: &[3, 7],
    told: "committed 3, 3 pending; stepped; 2 rows in 3; committed 7, 7 pending; 1 rows in 7; merged; idle; 7, last commit 7, next id 4 / 3: 1 a1 2 b2 / 4: 3 c5",
};

#[test]
fn merges_go_on(rt: HostRuntime) -> Result<(), Fail> {
    for story in [
        &HALF_DONE_AT_COMMITS,
        &DEAD_OVER_COMMITS,
        &NEVER_LISTED,
        &DEAD_BETWEEN_STEPS,
    ] {
        assert!(rt; is_right(&rt, rt.alloc(), story)?, "{}", story.told);
    }
    Ok(())
}
