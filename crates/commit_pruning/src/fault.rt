//! Why commits were not given up.

use ix_base::{Damaged, NoMemory};
use std::alloc::AllocError;

/// Why old commits were not given up, or not all of them.
#[derive(Clone, Copy, Debug, PartialEq, Eq)]
pub enum PruningFault {
    /// The store failed, and its count of faults rose.
    Store,
    /// The commit file of a commit that stays is not in the grammar, or absent.
    Damaged(Damaged),
    /// Memory ran out.
    NoMemory,
}

impl From<AllocError> for PruningFault {
    ghost use Rattle.std.specs.Prelude.{◌≡◌};
    ghost use Rattle.commit_pruning.specs.declared.fault.PruningFault.TheVariants.{NoMemory as OutOfMemory};

    ghost from_gives = { λ _ fault. fault ≡ OutOfMemory };

    fn from(_error: AllocError) -> PruningFault {
        PruningFault::NoMemory
    }
}

impl From<NoMemory> for PruningFault {
    ghost use Rattle.std.specs.Prelude.{◌≡◌};
    ghost use Rattle.commit_pruning.specs.declared.fault.PruningFault.TheVariants.{NoMemory as OutOfMemory};

    ghost from_gives = { λ _ fault. fault ≡ OutOfMemory };

    fn from(_error: NoMemory) -> PruningFault {
        PruningFault::NoMemory
    }
}
