//! How far a merge goes on after a round.
ghost use Rattle.std.specs.Prelude.{◌≡◌, ◌≤◌, ◌*◌, ℕ, min};
ghost use Rattle.index_writer.specs.Pace.{AreLevels};
ghost use Rattle.index_writer.specs.Ready.{IsReady};

use crate::writer::IndexWriter;

/// A row is merged as often, at most, as makes so many segments one.
const SEGMENTS: u64 = 4096;

impl<S> IndexWriter<S> {
    /// How many rows of its sources a merge is to read after a round that brought so much, counted in
    /// operations but its commit, or in documents: for each of them as many as merges read of one row
    /// until 4,096 segments are one, and at most as many as a buffer is given off after. So what merges
    /// cost follows what rounds bring, and none is gone on with after a round that brought nothing.
    pub fn rows_of_step(&self, brought: u64) -> u32
        requires ready { IsReady self.now.state }
        ensures rows { (levels : ℕ) → AreLevels self.now.state.merge levels
            → result ≡ min self.now.state.buffer (brought * levels) }
        ensures none { brought ≡ 0 → result ≡ 0 }
        ensures some { 1 ≤ brought → 1 ≤ result }
    {
        let buffer = u64::from(self.state.buffer);
        let rows = brought.min(buffer) * levels(self.state.merge);
        rows.min(buffer) as u32
    }
}

/// How often a row is merged until 4,096 segments are one, where so many are merged into one.
fn levels(merge: u32) -> u64
    requires { (2 ≤ merge) × (merge ≤ 64) }
    ensures levels { AreLevels merge result }
    ensures some { 1 ≤ result }
    ensures few { result ≤ 262144 }
{
    let mut reached = 1;
    let mut levels = 0;
    while reached < SEGMENTS {
        reached *= u64::from(merge);
        levels += 1;
    }
    levels
}
