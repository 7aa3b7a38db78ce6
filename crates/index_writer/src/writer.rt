//! The writer.
ghost use Rattle.std.specs.Prelude.{◌≡◌, ◌≤◌, ◌<◌, [], None, Some, false, length, IfOk, IfErr};
ghost use Rattle.index_writer.specs.Ready.{CanFollow, IsReady, opened_on, written_of};

use crate::fault::OpenRefused;
use crate::state::State;
use commit_point::{HeadSegment, Opened, Written};
use delete_queue::Reserve;
use flush_control::{Published, Released};
use ix_base::{List, NoMemory};
use segment_core::LiveSegment;
use std::alloc::Global;

/// The writer of an index over rounds. It owns its store, on which the last commit is.
#[derive(Drop)]
pub struct IndexWriter<S> {
    pub(crate) store: S,
    pub(crate) state: State,
    /// The memory that the queues of its rounds use, one after another.
    pub(crate) reserve: Reserve,
    pub(crate) alloc: Global,
}

impl<S> IndexWriter<S> {
    /// The writer of an index without a commit: no segment, the number 0, and 1 as the next id. Its
    /// thread writers give their buffers off after 1 to 65,536 documents, and 2 to 64 segments are
    /// merged into one. It takes no memory.
    pub fn none(alloc: Global, store: S, buffer: u32, merge: u32) -> IndexWriter<S>
        requires buffer { (1 ≤ buffer) × (buffer ≤ 65536) }
        requires merge { (2 ≤ merge) × (merge ≤ 64) }
        ensures store { result.store ≡ store }
        ensures ready { IsReady result.state }
        ensures state { result.state ≡ opened_on (record {
          number = 0;
          next_id = 1;
          entries = [];
          segments = [];
        }) buffer merge }
    {
        IndexWriter {
            store,
            state: State {
                published: Published {
                    segments: List::new(alloc),
                    next_id: 1,
                    upto: 0,
                    merge: None,
                    gone: Released::none(alloc),
                },
                written: List::new(alloc),
                last: 0,
                since: 1,
                buffer,
                merge,
                out: false,
                pending: None,
                closed: false,
            },
            reserve: Reserve::new(alloc),
            alloc,
        }
    }

    /// The writer on a commit that was read back. No merge runs: one that another writer had begun is
    /// lost. Its thread writers give their buffers off after 1 to 65,536 documents, and 2 to 64 segments
    /// are merged into one. The only error is out of memory, and the store is given back then.
    pub fn open(
        alloc: Global,
        store: S,
        last: Opened,
        buffer: u32,
        merge: u32,
    ) -> Result<IndexWriter<S>, OpenRefused<S>>
        requires last { CanFollow last }
        requires buffer { (1 ≤ buffer) × (buffer ≤ 65536) }
        requires merge { (2 ≤ merge) × (merge ≤ 64) }
        ensures store { IfOk result (λ writer. writer.store ≡ store) }
        ensures ready { IfOk result (λ writer. IsReady writer.state) }
        ensures state { IfOk result (λ writer. writer.state ≡ opened_on last buffer merge) }
        ensures err { IfErr result (λ refused. refused.store ≡ store) }
    {
        let entries = last.entries.as_slice();
        let Ok(written) = all_written(alloc, entries, last.segments.as_slice()) else {
            return Err(OpenRefused { store });
        };
        Ok(IndexWriter {
            store,
            state: State {
                published: Published {
                    segments: last.segments,
                    next_id: last.next_id,
                    upto: last.number,
                    merge: None,
                    gone: Released::none(alloc),
                },
                written,
                last: last.number,
                since: last.next_id,
                buffer,
                merge,
                out: false,
                pending: None,
                closed: false,
            },
            reserve: Reserve::new(alloc),
            alloc,
        })
    }

    /// The number of the last operation that is in the segments.
    pub fn upto(&self) -> u64
        ensures { result ≡ self.now.state.published.upto }
    {
        self.state.published.upto
    }

    /// The id that the next segment takes.
    pub fn next_id(&self) -> u64
        ensures { result ≡ self.now.state.published.next_id }
    {
        self.state.published.next_id
    }

    /// The number of the last commit; 0 without one.
    pub fn last(&self) -> u64
        ensures { result ≡ self.now.state.last }
    {
        self.state.last
    }

    /// After how many documents a thread writer gives its buffer off, 1 to 65,536. Those of a block stay
    /// together, so the buffer may come to hold 63 more.
    pub fn buffer(&self) -> u32
        ensures { result ≡ self.now.state.buffer }
    {
        self.state.buffer
    }

    /// Whether the writer is closed.
    pub fn is_closed(&self) -> bool
        ensures { result ≡ self.now.state.closed }
    {
        self.state.closed
    }

    /// Whether a round was begun and hasn't ended.
    pub fn in_round(&self) -> bool
        ensures { result ≡ self.now.state.out }
    {
        self.state.out
    }

    /// The number of a commit that is still to be written.
    pub fn pending_commit(&self) -> Option<u64>
        ensures { result ≡ self.now.state.pending }
    {
        self.state.pending
    }

    /// Ends the writer and gives its store back.
    pub fn into_store(self) -> S
        ensures { result ≡ self.store }
    {
        let IndexWriter { store, .. } = self;
        store
    }

    /// Ends the writer and gives back its store and its segments, with all operations up to `upto`.
    /// These are the last commit's where nothing came since. A merge that runs is dropped.
    pub fn into_parts(self) -> (S, List<LiveSegment>)
        ensures store { result.0 ≡ self.store }
        ensures segments { result.1 ≡ self.state.published.segments }
    {
        let IndexWriter { store, state, .. } = self;
        (store, state.into_segments())
    }
}

/// What is on the store of the segments of a commit: their live docs, as they were written last.
fn all_written(
    alloc: Global,
    entries: &[HeadSegment],
    segments: &[LiveSegment],
) -> Result<List<Option<Written>>, NoMemory>
    requires { length entries.now ≡ length segments.now }
    ensures { IfOk result (λ made. made ≡ written_of entries.now segments.now) }
{
    let mut made = List::new(alloc);
    for (at, entry) in entries.iter().enumerate() {
        let live = segments[at].live().clone_in(alloc)?;
        made.push(Some(Written {
            v: entry.written,
            live,
        }))?;
    }
    Ok(made)
}
