//! Segments that merges replaced, whose memory is given back a part at a time.

use ix_base::{Row, TermPostings};
use segment_core::{LiveSegment, Segment};
use std::alloc::Global;
use std::marker::Model;

/// The rows and the terms of a segment that was replaced, as far as they are still there.
#[derive(Drop)]
struct Remains {
    rows: Vec<Row>,
    terms: Vec<TermPostings>,
}

impl Remains {
    /// What there is of a segment, without its live docs. It takes no memory.
    fn of(segment: LiveSegment) -> Remains {
        let Segment { rows, postings, .. } = segment.into_segment();
        Remains {
            rows: rows.into_vec(),
            terms: postings.terms.into_vec(),
        }
    }

    /// Lets so many rows go, the last ones, and as large a part of the terms. It takes no memory.
    fn shorten(&mut self, rows: usize) {
        let count = self.rows.len();
        if count == 0 {
            return;
        }
        let terms = (self.terms.len() / count)
            .saturating_add(1)
            .saturating_mul(rows);
        self.terms.truncate(self.terms.len().saturating_sub(terms));
        self.rows.truncate(count.saturating_sub(rows));
    }
}

/// Segments that merges replaced, and that are no part of the index any more. Their rows and terms are
/// let go a part at a time, since each is a piece of memory of its own, or several: to let all go at once
/// would take several times as long as a step of a merge. Contracts see nothing of it.
#[derive(Drop)]
pub struct Released {
    remains: Vec<Remains>,
}

impl Model for Released {
    ghost Value = { Unit {0} };

    ghost view = { λ _. tt };
}

impl Released {
    /// Nothing. It takes no memory.
    pub fn none(alloc: Global) -> Released {
        Released {
            remains: Vec::new(alloc),
        }
    }

    /// How many rows there still are.
    pub fn rows(&self) -> usize {
        let mut rows: usize = 0;
        for remains in self.remains.as_slice() {
            rows = rows.saturating_add(remains.rows.len());
        }
        rows
    }

    /// Takes a segment that is no part of the index any more. Where there is no memory for its place in
    /// the list, it is let go at once.
    pub(crate) fn take(&mut self, segment: LiveSegment) {
        match self.remains.push(Remains::of(segment)) {
            Ok(()) => {}
            Err(_) => {}
        }
    }

    /// Lets so many rows go, with as large a part of their segments' terms, or all that are left. It takes
    /// no memory.
    pub(crate) fn let_go(&mut self, rows: usize) {
        let mut left = rows;
        'remains: loop {
            let Some(last) = self.remains.last_mut() else {
                return;
            };
            let count = last.rows.len();
            if left < count {
                last.shorten(left);
                return;
            }
            left -= count;
            self.remains.pop();
        }
    }
}
