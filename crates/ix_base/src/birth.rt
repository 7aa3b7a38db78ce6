//! Births of rows.
ghost use Rattle.std.specs.Prelude.{◌≡◌, ◌<◌, ◌*◌, ◌+◌, ◌↔◌, IsTrue};
ghost use Rattle.std.specs.Ordering.{as_partial_cmp, nat_cmp};
ghost use Rattle.std.specs.Cmp.{partial_order_from_own_ties};
ghost use Rattle.std.specs.Cmp.Rules.{comparing};
ghost use Rattle.std.proofs.Common.{◌==◌, rules};
ghost use Rattle.ix_base.specs.Births.{birth_of, first_birth, number_of, place_of};

use std::cmp::Ordering;
use std::marker::Model;

/// When a row was born: the number of the operation that added its document, and the document's place among
/// those of that operation, from 0. Rows are ordered by the number, and then by the place.
///
/// Contracts see it as one number, in the same order: 64 times the operation's number, and the place.
#[derive(Clone, Copy, Debug)]
pub struct Birth {
    number: u64,
    place: u32,
}

impl Model for Birth {
    ghost use Rattle.std.specs.Prelude.{ℕ, ◌<◌};

    ghost Value = { ℕ };

    ghost use Rattle.ix_base.specs.Births.{birth_of, number_of, place_of};

    ghost view = { λ birth. birth_of birth.number birth.place };

    ghost invariant = { λ birth. birth.place < 64 };

    ghost inverse = { λ value. record { number = number_of value; place = place_of value } };
}

impl Birth {
    /// The birth of the document at this place, 0 to 63, of the operation of this number.
    pub fn new(number: u64, place: u32) -> Birth
        requires { place < 64 }
        ensures { result ≡ birth_of number place }
    {
        Birth { number, place }
    }

    /// The birth of the first document, or the only one, of the operation of this number.
    pub fn first(number: u64) -> Birth
        ensures { result ≡ first_birth number }
    {
        Birth { number, place: 0 }
    }

    /// The number of the operation.
    pub fn number(self) -> u64
        ensures { result ≡ number_of self }
    {
        self.number
    }

    /// The document's place among those of the operation, 0 to 63.
    pub fn place(self) -> u32
        ensures place { result ≡ place_of self }
        ensures below { result < 64 }
    {
        self.place
    }

    /// Whether it comes before the operation of this number.
    pub fn is_before(self, number: u64) -> bool
        ensures { IsTrue result ↔ (self < first_birth number) }
    {
        self.number < number
    }
}

impl PartialEq for Birth {
    ghost eq = { ◌==◌ };

    ghost laws = { Prim.search (comparing, rules) };

    fn eq(&self, other: &Birth) -> bool {
        self.number == other.number && self.place == other.place
    }
}

impl Eq for Birth {
    ghost laws = { Prim.search (comparing, rules) };
}

impl Ord for Birth {
    ghost cmp = { nat_cmp };

    ghost total = { Prim.search (comparing, rules) };

    ghost matches_partial_cmp = { Prim.search (comparing, rules) };

    ghost matches_eq = { Prim.search (comparing, rules) };

    fn cmp(&self, other: &Birth) -> Ordering {
        match self.number.cmp(&other.number) {
            Ordering::Equal => self.place.cmp(&other.place),
            by_number => by_number,
        }
    }
}

impl PartialOrd for Birth {
    ghost partial_cmp = { as_partial_cmp nat_cmp };

    ghost laws = { partial_order_from_own_ties (Prim.search (comparing, rules))
        (Prim.search (comparing, rules)) };

    fn partial_cmp(&self, other: &Birth) -> Option<Ordering> {
        Some(self.cmp(other))
    }
}
