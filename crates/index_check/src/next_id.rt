//! The test of a commit's next id.
ghost use Rattle.std.specs.Prelude.{◌≡◌, ◌≤◌, ◌⊎◌, ◌^◌, IfSome, None};
ghost use Rattle.index_check.specs.Difference.{LacksRoom, next_id_is};
ghost use Rattle.index_check.specs.Earlier.{IsBelow};

use crate::fault::Difference;
use ix_base::FileName;

/// The greatest next id that leaves room: 2^61.
const MOST_NEXT_ID: u64 = 2_305_843_009_213_693_952;

/// Where the next id stands in a commit file.
const NEXT_ID_AT: u64 = 24;

/// What is wrong with the next id of the commit of this number: it is above 2^61, or it is below
/// `least`, the least one that is above each id that an earlier commit lists.
pub fn next_id_difference(number: u64, next: u64, least: u64) -> Option<Difference>
    ensures lawful { result ≡ None → (next ≤ 2 ^ 61) × (least ≤ next) }
    ensures other { IfSome result (λ d. LacksRoom number next d ⊎ IsBelow number next least d) }
{
    if next > MOST_NEXT_ID {
        return Some(other_next_id(number, next, MOST_NEXT_ID));
    }
    if next < least {
        return Some(other_next_id(number, next, least));
    }
    None
}

/// The commit of this number has one next id, where another was wanted.
fn other_next_id(number: u64, found: u64, wanted: u64) -> Difference
    ensures { result ≡ next_id_is number found wanted }
{
    Difference {
        file: FileName::Commit(number),
        at: NEXT_ID_AT,
        found,
        wanted,
    }
}
