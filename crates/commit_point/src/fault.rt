//! Why a commit can't be read or written.
ghost use Rattle.std.specs.Prelude.{◌≡◌};
ghost use Rattle.commit_point.specs.declared.fault.OpenFault.TheVariants.{NoMemory};

use ix_base::Damaged;
use ix_outside::StoreFault;

/// Why a commit was not opened.
#[derive(Clone, Copy, Debug, PartialEq, Eq)]
pub enum OpenFault {
    /// The store failed, and its count of faults rose.
    Store,
    /// A file of the commit is not in the grammar, or absent.
    Damaged(Damaged),
    /// The store's list has no commit of this number.
    NoSuch { number: u64 },
    /// Memory ran out.
    NoMemory,
}

impl From<ix_base::NoMemory> for OpenFault {
    ghost from_gives = { λ _ fault. fault ≡ NoMemory };

    fn from(_error: ix_base::NoMemory) -> OpenFault {
        OpenFault::NoMemory
    }
}

/// Why a commit was not written, and whether its rename was done in the call.
#[derive(Clone, Copy, Debug, PartialEq, Eq)]
pub struct CommitRefused {
    pub fault: StoreFault,
    pub renamed: bool,
}
