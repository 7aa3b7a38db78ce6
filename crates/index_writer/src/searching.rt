//! Queries answered from memory, between rounds.
ghost use Rattle.std.specs.Prelude.{◌≡◌, List as ListOf, IfOk};
ghost use Rattle.ix_base.specs.Hits.{hits};
ghost use Rattle.ix_base.specs.declared.document.Row.{Row};
ghost use Rattle.searcher.specs.Searching.{Searches};
ghost use Rattle.index_writer.specs.Ready.{HasRows};

use crate::writer::IndexWriter;
use ix_base::{Hit, List, NoMemory, Query};
use searcher::Searcher;
use segment_core::LiveSegment;
use std::alloc::Global;
use std::mem;

impl<S> IndexWriter<S> {
    /// What matches a query in the rows of all operations up to `upto`, in order of birth: of each such row
    /// its key and its numbers. The only error is out of memory; the writer is as before, whatever is
    /// returned.
    pub fn hits(&mut self, query: &Query) -> Result<Vec<Hit>, NoMemory>
        ensures hits { (rows : ListOf Row) → HasRows self.old.state rows
            → IfOk result (λ found. found.items ≡ hits query.now rows) }
        ensures state { self.new.state ≡ self.old.state }
        ensures store { self.new.store ≡ self.old.store }
    {
        hits_in(self.alloc, &mut self.state.published.segments, query)
    }
}

/// What a query finds in segments, which are as before, whatever is returned.
fn hits_in(
    alloc: Global,
    segments: &mut List<LiveSegment>,
    query: &Query,
) -> Result<Vec<Hit>, NoMemory>
    ensures hits { (rows : ListOf Row) → Searches segments.old rows
        → IfOk result (λ found. found.items ≡ hits query.now rows) }
    ensures same { segments.new ≡ segments.old }
{
    let mut searcher = Searcher {
        segments: mem::replace(segments, List::new(alloc)),
    };
    let found = prepared_hits(alloc, &mut searcher, query);
    let Searcher { segments: back } = searcher;
    *segments = back;
    found
}

/// Makes the searcher ready for the query's ranges, and answers it.
fn prepared_hits(
    alloc: Global,
    searcher: &mut Searcher,
    query: &Query,
) -> Result<Vec<Hit>, NoMemory>
    ensures hits { (rows : ListOf Row) → Searches searcher.old.segments rows
        → IfOk result (λ found. found.items ≡ hits query.now rows) }
    ensures same { searcher.new ≡ searcher.old }
{
    searcher.prepare(alloc, query)?;
    searcher.hits(alloc, query)
}
