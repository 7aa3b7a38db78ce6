//! What a writer knows of its index.
ghost use Rattle.std.specs.Prelude.{◌≡◌};

use commit_point::Written;
use flush_control::Published;
use ix_base::List;
use segment_core::LiveSegment;

/// What a writer knows of its index.
pub struct State {
    /// The segments, those without a live row too, the id that the next one takes, the number of the
    /// last operation that is in them, and the merge that runs, if one does. A segment stays until a
    /// merge has replaced it. A merge goes on over rounds and commits; it ends with the writer.
    pub published: Published,
    /// What is on the store of each segment, at the same places; `None` of one that is new since the
    /// last commit. Of a segment without a live row it isn't used: no commit lists that any more.
    pub written: List<Option<Written>>,
    /// The number of the last commit; 0 without one.
    pub last: u64,
    /// The id that the next segment took at that commit: a segment that is new since then has an id
    /// from this one on.
    pub since: u64,
    /// After how many documents a thread writer gives its buffer off, 1 to 65,536. Those of a block stay
    /// together, so the buffer may come to hold 63 more.
    pub buffer: u32,
    /// How many segments are merged into one, 2 to 64.
    pub merge: u32,
    /// Whether a round was begun and hasn't ended.
    pub out: bool,
    /// The number of a commit that is still to be written: the last operation that is in the segments.
    pub pending: Option<u64>,
    /// Whether the writer is closed: after a fault of its store, or where memory ran out at the end of
    /// a round.
    pub closed: bool,
}

impl Drop for State {
    fn drop(self) {
        let _segments = self.into_segments();
    }
}

impl State {
    /// The segments. A merge that runs is dropped.
    pub(crate) fn into_segments(self) -> List<LiveSegment>
        ensures { result ≡ self.published.segments }
    {
        let State {
            published,
            written: _written,
            last: _,
            since: _,
            buffer: _,
            merge: _,
            out: _,
            pending: _,
            closed: _,
        } = self;
        published.into_segments()
    }
}
