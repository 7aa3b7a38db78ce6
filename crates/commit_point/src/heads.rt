//! What a commit file says.

use ix_base::{Fields, List};

/// A segment, as a commit file names it.
#[derive(Clone, Copy, Debug, PartialEq, Eq)]
pub struct HeadSegment {
    pub id: u64,
    /// How many rows it has, dead ones too.
    pub rows: u32,
    /// The number of the commit that wrote its live bits and values.
    pub written: u64,
}

/// The form of a commit file.
#[derive(Clone, Copy, Debug, PartialEq, Eq)]
pub enum CommitFormat {
    /// The first one, in which no pairs stand. It is read, and no longer written.
    First,
    /// The second one: pairs stand behind the segments.
    Second,
}

/// What a commit file says.
#[derive(Drop)]
pub struct Head {
    pub number: u64,
    /// How many live rows the commit has, or `u64::MAX` where there are more.
    pub docs: u64,
    /// The id that the next segment takes.
    pub next_id: u64,
    /// By rising id.
    pub segments: List<HeadSegment>,
    /// The form of the file.
    pub format: CommitFormat,
    /// What the caller wrote beside the commit: texts by name. None stand in a file of the first form.
    pub pairs: Fields,
}
