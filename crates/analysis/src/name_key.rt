//! A field's name as the key of a map.
ghost use Rattle.std.specs.Prelude.{◌≡◌};
ghost use Rattle.std.specs.Cmp.{partial_equiv_from_equiv, eq_by_cmp_equiv};
ghost use Rattle.std.specs.Cmp.Lexicographic.{slice_cmp};
ghost use Rattle.std.specs.Ordering.{eq_by_cmp, nat_cmp};
ghost use Rattle.std.proofs.lemmas.Cmp.{nat_list_cmp_total};

use ix_base::Name;
use std::cmp::Ordering;
use std::marker::Model;

/// A name as a key: names are ordered by their bytes.
#[derive(Drop)]
pub struct NameKey {
    name: Name,
}

impl Model for NameKey {
    ghost use Rattle.std.specs.Prelude.{List, ℕ};

    ghost Value = { List ℕ };

    ghost view = { λ key. key.name };
}

impl NameKey {
    /// The key that a name is.
    pub fn new(name: Name) -> NameKey
        ensures { result ≡ name }
    {
        NameKey { name }
    }

    /// The name.
    pub fn name(&self) -> &Name
        ensures { result.now ≡ self.now }
    {
        &self.name
    }
}

impl PartialEq for NameKey {
    ghost eq = { eq_by_cmp (slice_cmp nat_cmp) };

    ghost laws = { partial_equiv_from_equiv (eq_by_cmp_equiv nat_list_cmp_total) };

    fn eq(&self, other: &NameKey) -> bool {
        self.cmp(other).is_eq()
    }
}

impl Eq for NameKey {
    ghost laws = { eq_by_cmp_equiv nat_list_cmp_total };
}

impl PartialOrd for NameKey {
    ghost use Rattle.std.specs.Prelude.{Some, refl};
    ghost use Rattle.std.specs.Cmp.{partial_order_from_agreeing_total as agreeing_order};
    ghost use Rattle.std.specs.Cmp.Lexicographic.{slice_cmp};
    ghost use Rattle.std.specs.Ordering.{nat_cmp};
    ghost use Rattle.std.proofs.lemmas.Cmp.{nat_list_cmp_total};

    ghost partial_cmp = { λ a b. Some (slice_cmp nat_cmp a b) };

    ghost laws = { agreeing_order (slice_cmp nat_cmp) nat_list_cmp_total (λ a b. refl) (λ a b. refl) };

    fn partial_cmp(&self, other: &NameKey) -> Option<Ordering> {
        Some(self.cmp(other))
    }
}

impl Ord for NameKey {
    ghost use Rattle.std.specs.Prelude.{refl};

    ghost cmp = { slice_cmp nat_cmp };

    ghost total = { nat_list_cmp_total };

    ghost matches_partial_cmp = { λ a b. refl };

    ghost matches_eq = { λ a b. refl };

    fn cmp(&self, other: &NameKey) -> Ordering {
        self.name.as_str().cmp(other.name.as_str())
    }
}
