//! Sources for merges: rows with the inversion of them, and the numbers that they get.
ghost use Rattle.std.specs.Prelude.{◌≡◌, IfOk};
ghost use Rattle.std.specs.List.{AllByRecursion};
ghost use Rattle.ix_base.specs.Inversion.{IsPostings};
ghost use Rattle.merge_postings.specs.Renumbering.{CanMove, NumbersRise};

use crate::rising::Rising;
use analysis::invert;
use ix_base::{Postings, Row, TermPostings};
use merge_postings::{PartlyMerged, Source};
use std::alloc::Global;
use std::marker::Model;
use std::test::Fail;

/// The inversion of some rows, and the numbers that they get.
#[derive(Drop)]
pub(crate) struct Part {
    postings: Postings,
    numbers: Rising,
}

impl Model for Part {
    ghost use Rattle.ix_base.specs.declared.postings.Postings.{Postings};
    ghost use Rattle.ix_base.specs.Inversion.{IsPostings};

    ghost Value = { Postings };

    ghost view = { λ part. part.postings };

    ghost invariant = { λ part. IsPostings part.postings.terms };
}

/// The inversion of the rows.
pub(crate) fn inverted(alloc: Global, rows: &[Row]) -> Result<Postings, Fail>
    ensures { IfOk result (λ made. IsPostings made.terms) }
{
    if rows.len() > 1_000_000 {
        Err("many rows")?;
    }
    Ok(invert(alloc, rows)?)
}

impl Part {
    /// The rows, with these numbers.
    pub(crate) fn new(alloc: Global, rows: &[Row], numbers: Rising) -> Result<Part, Fail> {
        let postings = inverted(alloc, rows)?;
        Ok(Part { postings, numbers })
    }

    fn terms(&self) -> &[TermPostings]
        ensures { IsPostings result.now }
    {
        self.postings.terms.as_slice()
    }

    fn numbers(&self) -> &[Option<u32>]
        ensures { NumbersRise result.now }
    {
        self.numbers.as_slice()
    }
}

/// The parts as sources of a merge.
fn sources_of<'a>(alloc: Global, parts: &'a [Part]) -> Result<Vec<Source<'a>>, Fail>
    ensures { IfOk result (λ sources. AllByRecursion CanMove sources.items) }
{
    let mut sources = Vec::new(alloc);
    for part in parts {
        sources.push(Source::new(part.terms(), part.numbers()))?;
    }
    Ok(sources)
}

/// What the parts are merged into.
pub(crate) fn merged(alloc: Global, parts: &[Part]) -> Result<Postings, Fail> {
    let sources = sources_of(alloc, parts)?;
    let mut merged = PartlyMerged::new(alloc);
    Ok(merged.finish(alloc, sources)?)
}
