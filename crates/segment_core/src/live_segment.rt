//! Segments with live docs.
ghost use Rattle.std.specs.Prelude.{◌≡◌, length, IfSome};
ghost use Rattle.segment_core.specs.Columns.{AreColumnsOf};
ghost use Rattle.segment_core.specs.LiveRows.{Lived, IsWhole};

use crate::columns::Columns;
use crate::current::Current;
use crate::segment::Segment;
use ix_base::{NoMemory, Query};
use live_docs::LiveDocs;
use std::alloc::Global;
use std::marker::Model;

/// A segment, and which of its rows are live. It has fewer than 2^32 rows, and its live docs were
/// made for as many rows as it has.
#[derive(Drop)]
pub struct LiveSegment {
    segment: Segment,
    live: LiveDocs,
    /// Columns of its rows' numbers, once a range was prepared.
    columns: Option<Columns>,
}

impl Model for LiveSegment {
    ghost use Rattle.segment_core.specs.Columns.{HasColumnsOf};
    ghost use Rattle.segment_core.specs.LiveRows.{Lived, IsWhole};

    ghost Value = { Lived };

    ghost view = { λ s. record { segment = s.segment; live = s.live } };

    ghost invariant = { λ s. IsWhole s.segment s.live × HasColumnsOf s.segment.rows s.columns };
}

impl LiveSegment {
    /// The segment with these live docs, which were made for as many rows. It takes no memory.
    pub fn new(segment: Segment, live: LiveDocs) -> LiveSegment
        requires { IsWhole segment live }
        ensures { result ≡ record { segment = segment; live = live } }
    {
        LiveSegment {
            segment,
            live,
            columns: None,
        }
    }

    /// The rows and their postings, of live rows and of others.
    pub fn segment(&self) -> &Segment
        ensures { result.now ≡ self.now.segment }
    {
        &self.segment
    }

    /// The rows and their postings, without the live docs. It takes no memory.
    pub fn into_segment(self) -> Segment
        ensures { result ≡ self.segment }
    {
        let LiveSegment { segment, .. } = self;
        segment
    }

    /// Which rows are live, and the numbers that were set in them.
    pub fn live(&self) -> &LiveDocs
        ensures live { result.now ≡ self.now.live }
        ensures whole { IsWhole self.now.segment self.now.live }
    {
        &self.live
    }

    /// Makes ready for a query with ranges: for each name of which it has one, the rows' own numbers are
    /// gathered, once for all queries to come. The segment is as before, whatever is returned.
    pub fn prepare(&mut self, alloc: Global, query: &Query) -> Result<(), NoMemory>
        ensures { self.new ≡ self.old }
    {
        if !query.has_range() {
            return Ok(());
        }
        let columns = self.columns.get_or_insert(Columns::new(alloc));
        columns.prepare(alloc, self.segment.rows.as_slice(), query)
    }

    /// The index of the rows as they are now, of live rows and of others.
    pub fn current(&self) -> Current<'_, Segment>
        ensures index { result.index.now ≡ self.now.segment }
        ensures rows { result.rows.now ≡ self.now.segment.rows }
        ensures live { result.live.now ≡ self.now.live }
        ensures whole { IsWhole self.now.segment self.now.live }
        ensures columns { IfSome result.columns (λ c. AreColumnsOf self.now.segment.rows c.now) }
    {
        Current {
            index: &self.segment,
            rows: self.segment.rows.as_slice(),
            live: &self.live,
            columns: self.columns.as_ref(),
        }
    }

    /// Puts these live docs in place of the old ones; they were made for as many rows. It takes no
    /// memory.
    pub fn set_live(&mut self, live: LiveDocs)
        requires { length live.marks ≡ length self.old.segment.rows }
        ensures { self.new ≡ record self.old { live = live } }
    {
        self.live = live;
    }
}
