//! Postings that are merged in steps.
ghost use Rattle.std.specs.Prelude.{◌≡◌, List as ListOf, length, IfOk, OnErr, OnOk};
ghost use Rattle.std.specs.List.{AllByRecursion};
ghost use Rattle.ix_base.specs.Inversion.{IsPostings};
ghost use Rattle.merge_postings.specs.Renumbering.{CanMove, HasMoved, Moving};
ghost use Rattle.merge_postings.specs.Steps.{IsMergedUpto};

use crate::merged::{walk_all, walk_on};
use crate::queue::Queue;
use crate::source::Source;
use ix_base::{List, NoMemory, Postings, Term, TermPostings};
use std::alloc::Global;
use std::mem;

/// Postings of several sources, merged up to one of their terms. The sources are passed to each call:
/// they have the same terms and the same numbers each time.
#[derive(Drop)]
pub struct PartlyMerged {
    terms: List<TermPostings>,
    /// The last term that the sources have passed, if they have passed one.
    upto: Option<Term>,
    /// How many entries of each source were passed then, as a guess.
    passed: Vec<usize>,
}

/// How many entries each source has.
fn lengths(alloc: Global, sources: &[Source<'_>]) -> Result<Vec<usize>, NoMemory> {
    let mut lengths = Vec::with_capacity(alloc, sources.len())?;
    for source in sources {
        lengths.push(source.len())?;
    }
    Ok(lengths)
}

impl PartlyMerged {
    /// No term is merged yet. It takes no memory.
    pub fn new(alloc: Global) -> PartlyMerged
        ensures { (sources : ListOf Moving) → IsMergedUpto sources result }
    {
        PartlyMerged {
            terms: List::new(alloc),
            upto: None,
            passed: Vec::new(alloc),
        }
    }

    /// How many terms are merged.
    pub fn len(&self) -> usize
        ensures { result ≡ length self.now.terms }
    {
        self.terms.len()
    }

    /// Merges the terms that come next, until the sources have passed so many of their entries more, or
    /// all. After an error all is as before.
    pub fn merge_more(
        &mut self,
        alloc: Global,
        sources: Vec<Source<'_>>,
        entries: usize,
    ) -> Result<(), NoMemory>
        requires can { AllByRecursion CanMove sources.items }
        requires upto { IsMergedUpto sources.items self.old }
        ensures ok { OnOk result (IsMergedUpto sources.entry.items self.new) }
        ensures err { OnErr result (self.new ≡ self.old) }
    {
        let mut queue = Queue::beyond(
            alloc,
            sources.as_slice(),
            &self.upto,
            self.passed.as_slice(),
        )?;
        let Some(first) = queue.first() else {
            return Ok(());
        };
        let head = first.same();
        let mut passed = lengths(alloc, sources.as_slice())?;
        let mut terms = mem::replace(&mut self.terms, List::new(alloc)).into_vec();
        let before = terms.len();
        match walk_on(alloc, &mut terms, &mut queue, head, entries) {
            Ok(upto) => {
                self.terms = List::from_vec(terms);
                self.upto = Some(upto);
                queue.passed(&mut passed);
                self.passed = passed;
                Ok(())
            }
            Err(error) => {
                terms.truncate(before);
                self.terms = List::from_vec(terms);
                Err(error)
            }
        }
    }

    /// Merges the terms that are left, and gives the postings of the sources, each row under the number
    /// that it gets: a term stands in a row at a position exactly where it stands there in a source, in a
    /// row that gets this number. A place that several sources have stands there once; a term whose rows
    /// all get no number isn't there. With no source there is no term. After an error all is as before.
    pub fn finish(&mut self, alloc: Global, sources: Vec<Source<'_>>) -> Result<Postings, NoMemory>
        requires can { AllByRecursion CanMove sources.items }
        requires upto { IsMergedUpto sources.items self.old }
        ensures ordered { IfOk result (λ made. IsPostings made.terms) }
        ensures exact { IfOk result (HasMoved sources.entry.items) }
        ensures err { OnErr result (self.new ≡ self.old) }
    {
        let mut queue = Queue::beyond(
            alloc,
            sources.as_slice(),
            &self.upto,
            self.passed.as_slice(),
        )?;
        let mut terms = mem::replace(&mut self.terms, List::new(alloc)).into_vec();
        let before = terms.len();
        match walk_all(alloc, &mut terms, &mut queue) {
            Ok(()) => Ok(Postings {
                terms: List::from_vec(terms),
            }),
            Err(error) => {
                terms.truncate(before);
                self.terms = List::from_vec(terms);
                Err(error)
            }
        }
    }
}
