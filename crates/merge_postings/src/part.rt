//! The places that a term has in one source.
ghost use Rattle.std.specs.Prelude.{◌≡◌};
ghost use Rattle.merge_postings.specs.Renumbering.{NumbersRise};

use ix_base::Spots;
use std::marker::Model;

/// The places of a term in one source, and the numbers that the source's rows get.
#[derive(Drop)]
pub(crate) struct Part<'a> {
    rows: &'a Spots,
    numbers: &'a [Option<u32>],
}

impl<'a> Model for Part<'a> {
    ghost use Rattle.merge_postings.specs.Parts.{Listed};
    ghost use Rattle.merge_postings.specs.Renumbering.{NumbersRise};

    ghost Value = { Listed };

    ghost view = { λ p. record { rows = p.rows.now; numbers = p.numbers.now } };

    ghost invariant = { λ p. NumbersRise p.numbers.now };
}

impl<'a> Part<'a> {
    /// These places, and these numbers.
    #[inline]
    pub(crate) fn new(rows: &'a Spots, numbers: &'a [Option<u32>]) -> Part<'a>
        requires { NumbersRise numbers.now }
        ensures { result ≡ record { rows = rows.now; numbers = numbers.now } }
    {
        Part { rows, numbers }
    }

    /// The places.
    #[inline]
    pub(crate) fn rows(&self) -> &'a Spots
        ensures { result.now ≡ self.now.rows }
    {
        self.rows
    }

    /// The numbers of the source's rows.
    #[inline]
    pub(crate) fn numbers(&self) -> &'a [Option<u32>]
        ensures numbers { result.now ≡ self.now.numbers }
        ensures rise { NumbersRise result.now }
    {
        self.numbers
    }
}
