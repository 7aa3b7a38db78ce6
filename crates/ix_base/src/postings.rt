//! Postings: for each term the rows that hold it, and where.
ghost use Rattle.std.specs.Prelude.{◌≡◌, IfOk};

use crate::document::{Document, Term};
use crate::list::List;
use crate::memory::NoMemory;
use crate::spots::Spots;
use std::alloc::Global;

/// A row that holds a term, and the positions at which it does, rising. Contracts see the places of
/// a term as a list of these.
#[derive(Drop)]
pub struct Posting {
    pub row: u32,
    pub positions: List<u32>,
}

/// A term with the rows that hold it, rising.
#[derive(Drop)]
pub struct TermPostings {
    pub term: Term,
    pub rows: Spots,
}

/// The terms of some rows, rising by field and then by bytes.
#[derive(Drop)]
pub struct Postings {
    pub terms: List<TermPostings>,
}

/// A document with the postings of it alone.
#[derive(Drop)]
pub struct Analysed {
    pub doc: Document,
    pub postings: Postings,
}

impl TermPostings {
    /// A copy of these postings of one term.
    pub fn clone_in(&self, alloc: Global) -> Result<TermPostings, NoMemory>
        ensures { IfOk result (λ postings. postings ≡ self.now) }
    {
        Ok(TermPostings {
            term: self.term.clone_in(alloc)?,
            rows: self.rows.clone_in(alloc)?,
        })
    }
}

impl Postings {
    /// A copy of these postings.
    pub fn clone_in(&self, alloc: Global) -> Result<Postings, NoMemory>
        ensures { IfOk result (λ postings. postings ≡ self.now) }
    {
        let mut terms = Vec::new(alloc);
        for term in self.terms.as_slice() {
            terms.push(term.clone_in(alloc)?)?;
        }
        Ok(Postings {
            terms: List::from_vec(terms),
        })
    }
}

impl Analysed {
    /// A copy of this document and its postings.
    pub fn clone_in(&self, alloc: Global) -> Result<Analysed, NoMemory>
        ensures { IfOk result (λ analysed. analysed ≡ self.now) }
    {
        Ok(Analysed {
            doc: self.doc.clone_in(alloc)?,
            postings: self.postings.clone_in(alloc)?,
        })
    }
}
