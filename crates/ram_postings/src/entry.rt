//! A document in a buffer.
ghost use Rattle.std.specs.Prelude.{◌≡◌, ◌+◌, ◌<◌, ◌≤◌, length, map};
ghost use Rattle.ix_base.specs.Births.{first_birth};
ghost use Rattle.ram_postings.specs.Buffer.{with_births};
ghost use Rattle.ram_postings.specs.Kept.{staged_of, placed_of};

use ix_base::{Birth, Document};

/// A document, its birth once it has one, and the mark under which the places of its terms are kept.
#[derive(Drop)]
pub struct Entry {
    pub doc: Document,
    pub birth: Option<Birth>,
    pub mark: u32,
}

/// Gives neighbouring documents, from a place on, their births by the operation of this number.
pub fn give_births(entries: &mut [Entry], first: u32, count: u32, number: u64)
    requires places { first + count ≤ length entries.old }
    requires few { (count ≤ 64) × (length entries.old < 2147483648) }
    ensures births { map staged_of entries.new
        ≡ with_births (map staged_of entries.old) first count (first_birth number) }
    ensures placed { map placed_of entries.new ≡ map placed_of entries.old }
{
    for place in 0..count {
        entries[(first + place) as usize].birth = Some(Birth::new(number, place));
    }
}
