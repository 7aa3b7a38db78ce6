//! Why a store is not sound, and why a check of it stopped.
ghost use Rattle.std.specs.Prelude.{◌≡◌};
ghost use Rattle.index_check.specs.declared.fault.CheckFault.TheVariants.{NoMemory as OutOfMemory};

use ix_base::{Damaged, FileName, NoMemory};
use std::alloc::AllocFailed;

/// The first place where a commit whose files are in the grammar isn't as it has to be.
#[derive(Clone, Copy, Debug, PartialEq, Eq)]
pub struct Difference {
    /// The file of a segment's postings, or the commit file where its next id is wrong.
    pub file: FileName,
    /// The offset of the first byte that differs, or 24, that of the next id.
    pub at: u64,
    /// The byte that stands there, 256 at the end of the file, or the next id.
    pub found: u64,
    /// The byte that the postings of the segment's documents have there, 256 at their end. For the next
    /// id its least value where an earlier commit lists a greater id, or its greatest value, 2^61.
    pub wanted: u64,
}

/// Why a check stopped.
#[derive(Clone, Copy, Debug, PartialEq, Eq)]
pub enum CheckFault {
    /// The store failed, and its count of faults rose.
    Store,
    /// A file of a commit is not in the grammar, or absent.
    Damaged(Damaged),
    /// The files of a commit are in the grammar, but not as they have to be.
    Differs(Difference),
    /// Memory ran out.
    NoMemory,
}

impl From<NoMemory> for CheckFault {
    ghost from_gives = { λ _ fault. fault ≡ OutOfMemory };

    fn from(_error: NoMemory) -> CheckFault {
        CheckFault::NoMemory
    }
}

impl<T: Drop> From<AllocFailed<T>> for CheckFault {
    ghost from_gives = { λ _ fault. fault ≡ OutOfMemory };

    fn from(_error: AllocFailed<T>) -> CheckFault {
        CheckFault::NoMemory
    }
}
