//! What a check keeps of the commits that it has found sound.
ghost use Rattle.std.specs.Prelude.{◌≡◌, ◌≤◌, ◌^◌, ℕ, None};
ghost use Rattle.commit_point.specs.Fits.{IdsRise};
ghost use Rattle.index_check.specs.Earlier.{IsLeastAbove};
ghost use Rattle.index_check.specs.Known.{count_of};

use crate::known::Known;
use commit_point::HeadSegment;
use std::alloc::Global;

/// What is known of the commits that were found sound.
#[derive(Drop)]
pub struct Earlier {
    /// The least id that is above each that they list; 0 where they list none.
    pub least_id: u64,
    /// What is known of the segments that the last of them lists.
    pub known: Known,
}

impl Earlier {
    /// What is known before the first commit. It takes no memory.
    pub fn new(alloc: Global) -> Earlier
        ensures least { result.least_id ≡ 0 }
        ensures known { (id : ℕ) → count_of result.known id ≡ None }
    {
        Earlier {
            least_id: 0,
            known: Known::new(alloc),
        }
    }

    /// Takes note of the ids that a commit lists which was found sound. What is known of segments
    /// stays.
    pub fn add_ids(&mut self, entries: &[HeadSegment])
        requires { (limit : ℕ) × (limit ≤ 2 ^ 62) × IdsRise 1 limit entries.now }
        ensures least { IsLeastAbove self.old.least_id entries.now self.new.least_id }
        ensures known { self.new.known ≡ self.old.known }
    {
        self.least_id = least_above(self.least_id, entries);
    }

    /// Forgets what is known of segments. It takes no memory.
    pub fn forget(&mut self, alloc: Global)
        ensures least { self.new.least_id ≡ self.old.least_id }
        ensures known { (id : ℕ) → count_of self.new.known id ≡ None }
    {
        self.known = Known::new(alloc);
    }
}

/// The least id that is above the id of each entry, and not below `low`.
fn least_above(low: u64, entries: &[HeadSegment]) -> u64
    requires { (limit : ℕ) × (limit ≤ 2 ^ 62) × IdsRise 1 limit entries.now }
    ensures { IsLeastAbove low entries.now result }
{
    match entries.last() {
        Some(last) => low.max(last.id + 1),
        None => low,
    }
}
